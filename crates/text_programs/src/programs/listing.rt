//! The output for the pieces of some bytes: a line for each entry of a list.
ghost use Rattle.std.specs.Prelude.{◌≡◌, ◌↔◌, IfOk, count_by, is_err};
ghost use Rattle.std.specs.Str.{IsUtf8};
ghost use Rattle.encode_unicode.specs.Pieces.{pieces};
ghost use Rattle.text_runs.specs.Failures.{Known, AppendsFront};
ghost use Rattle.text_programs.specs.Layouts.{WritesListing, WritesListingFront};
ghost use Rattle.text_programs.specs.Lines.{is_fault_step};
ghost use Rattle.text_runs.specs.ForwardRuns.{faulty_item_count};
ghost use Rattle.text_programs.specs.Written.{merged_lines, walk_lines, WritesMerged, WritesWalk};
ghost use Rattle.text_programs.specs.Writes.{CountsWrites};

use crate::programs::entries::{push_counted, write_entries};
use crate::programs::lines::Lines;
use crate::programs::offset::Offset;
use encode_unicode::Utf8Char;
use encode_unicode::error::Utf8Error;
use encode_unicode::iterator::Utf8CharDecoder;
use std::io;
use std::io::Write;
use text_runs::counted::Counted;
use text_runs::runs::items::Item;

// These are not inlined, so that the loop of each has all registers.

/// Writes one line for each piece of the bytes, and returns the number of errors.
///
/// A line is the offset and the length in decimal, and the code point in six hexadecimal digits or the name
/// of the error. Lines are buffered, and written 64 KiB at a time: a write has whole lines. If the writer
/// fails, only the first lines were written, the last of them perhaps in part.
///
/// Cost: O(n).
#[inline(never)]
pub fn write_listing<W: Write>(src: &[u8], out: &mut Counted<W>) -> io::Result<usize>
    ensures listing { IfOk result (Known W.contents (WritesListing src.now) out.old out.new) }
    ensures count { IfOk result (λ faults. faults ≡ faulty_item_count (pieces src.now)) }
    ensures text { IfOk result (λ faults. (faults ≡ 0) ↔ IsUtf8 src.now) }
    ensures front { Known W.contents (WritesListingFront src.now) out.old out.new }
    ensures writes { CountsWrites result out.old out.new }
{
    let mut lines = Lines::new();
    let mut offset = Offset::new();
    let mut faults = 0;
    for item in Utf8CharDecoder::from(src) {
        if !lines.has_room() {
            lines.write_to(out)?;
        }
        faults += push_counted(item, &mut offset, &mut lines);
    }
    lines.write_to(out)?;
    Ok(faults)
}

/// Writes one line for each result of a merger, and returns the number of errors.
///
/// A line is the code point in six hexadecimal digits or the name of the error. Errors of the writer are as
/// for `write_listing`.
///
/// Cost: O(n).
#[inline(never)]
pub fn write_merged<W: Write>(
    results: &[Result<Utf8Char, Utf8Error>],
    out: &mut Counted<W>,
) -> io::Result<usize>
    ensures count { IfOk result (λ faults. faults ≡ count_by is_err results.now) }
    ensures lines { IfOk result (Known W.contents (WritesMerged results.now) out.old out.new) }
    ensures front { Known W.contents AppendsFront out.old out.new (merged_lines results.now) }
    ensures writes { CountsWrites result out.old out.new }
{
    write_entries(results, out)
}

/// Writes one line for each result of a walk, and returns the number of errors.
///
/// A line is that of the piece as `write_listing` writes it, or `none`, which is no error. Errors of the
/// writer are as for `write_listing`.
///
/// Cost: O(n).
pub fn write_walk<W: Write>(steps: &[Option<Item>], out: &mut Counted<W>) -> io::Result<usize>
    ensures count { IfOk result (λ faults. faults ≡ count_by is_fault_step steps.now) }
    ensures lines { IfOk result (Known W.contents (WritesWalk steps.now) out.old out.new) }
    ensures front { Known W.contents AppendsFront out.old out.new (walk_lines steps.now) }
    ensures writes { CountsWrites result out.old out.new }
{
    write_entries(steps, out)
}
