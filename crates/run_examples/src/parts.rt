//! Text that arrives in parts, as from a socket.
ghost use Rattle.std.specs.Prelude.{◌≡◌, ◌+◌, ◌-◌, ◌^◌, min, ◌<◌, ◌≤◌, ◌++◌, [], length, IfOk, IsTrue, IsFalse, OnOk, flat_map, drop, take};
ghost use Rattle.cuts.specs.Recoded.{IsRecoded};
ghost use Rattle.cuts.specs.Undecided.{IsUndecided};
ghost use Rattle.cuts.specs.Faults.{fault_count};
ghost use Rattle.cuts.specs.RecodedBytes.{recoded};
ghost use Rattle.run_examples.specs.Parts.{GrowsByTheMost};

use cuts::{Form, Recoder, laws, shard_end};
use std::alloc::{AllocError, Allocator};

/// Transcodes text in parts of `size` bytes, which may end inside a character or a unit. The output does not
/// depend on where they end.
pub fn recode_in_parts<A: Allocator>(
    alloc: A,
    from: Form,
    to: Form,
    bytes: &[u8],
    size: usize,
) -> Result<Vec<u8, A>, AllocError>
    requires { 0 < size }
    ensures { IfOk result (λ out. IsRecoded from to bytes.now out.items) }
{
    laws::parts_are_one_part();
    let mut out = Vec::new(alloc);
    let mut recoder = Recoder::new(from, to);
    let mut place = 0;
    while place < bytes.len() {
        let len = size.min(bytes.len() - place);
        recoder.feed(&bytes[place..place + len], &mut out)?;
        place += len;
    }
    recoder.finish(&mut out)?;
    Ok(out)
}

/// Transcodes parts that are already in memory, as a server collects them while a request arrives.
pub fn recode_parts<A: Allocator>(
    alloc: A,
    from: Form,
    to: Form,
    parts: &[Vec<u8>],
) -> Result<Vec<u8, A>, AllocError>
    ensures { IfOk result (λ out. out.items ≡ recoded from to (flat_map (λ part. part.items) parts.now)) }
{
    let mut joined = Vec::new(alloc);
    let mut recoder = Recoder::new(from, to);
    for part in parts {
        recoder.feed(part, &mut joined)?;
    }
    recoder.finish(&mut joined)?;
    Ok(joined)
}

/// Transcodes two parts.
pub fn recode_two<A: Allocator>(
    alloc: A,
    from: Form,
    to: Form,
    first: &[u8],
    second: &[u8],
) -> Result<Vec<u8, A>, AllocError>
    ensures { IfOk result (λ out. out.items ≡ recoded from to (first.now ++ second.now)) }
{
    let mut made = Vec::new(alloc);
    let mut recoder = Recoder::new(from, to);
    recoder.feed(first, &mut made)?;
    recoder.feed(second, &mut made)?;
    recoder.finish(&mut made)?;
    Ok(made)
}

/// The number of invalid bytes in two parts that became U+FFFD: as many as in the joined parts, wherever they
/// were cut.
pub fn count_two<A: Allocator>(
    alloc: A,
    from: Form,
    first: &[u8],
    second: &[u8],
) -> Result<u64, AllocError>
    ensures { IfOk result (λ n. n ≡ min (2 ^ 64 - 1) (fault_count from (first.now ++ second.now))) }
{
    let mut out = Vec::new(alloc);
    let mut recoder = Recoder::new(from, Form::Utf8);
    recoder.feed(first, &mut out)?;
    recoder.feed(second, &mut out)?;
    Ok(recoder.replaced_at_end())
}

/// Transcodes a ring buffer, which begins at an offset and continues at the front.
pub fn recode_ring<A: Allocator>(
    alloc: A,
    from: Form,
    to: Form,
    ring: &[u8],
    start: usize,
) -> Result<Vec<u8, A>, AllocError>
    requires { start ≤ length ring.now }
    ensures { IfOk result (λ out. out.items ≡ recoded from to (drop start ring.now ++ take start ring.now)) }
{
    recode_two(alloc, from, to, &ring[start..], &ring[..start])
}

/// Appends the bytes in another encoding of text, in one part.
pub fn append_recoded<A: Allocator>(
    out: &mut Vec<u8, A>,
    from: Form,
    to: Form,
    bytes: &[u8],
) -> Result<(), AllocError>
    ensures { OnOk result (out.new.items ≡ out.old.items ++ recoded from to bytes.now) }
{
    let mut recoder = Recoder::new(from, to);
    recoder.feed(bytes, out)?;
    recoder.finish(out)?;
    Ok(())
}

/// Appends the bytes in another encoding of text, in two shards, the first of which ends at this offset or
/// just before it.
pub fn append_shards<A: Allocator>(
    out: &mut Vec<u8, A>,
    from: Form,
    to: Form,
    bytes: &[u8],
    at: usize,
) -> Result<(), AllocError>
    ensures { OnOk result (out.new.items ≡ out.old.items ++ recoded from to bytes.now) }
{
    let end = shard_end(from, bytes, at);
    append_recoded(out, from, to, &bytes[..end])?;
    append_recoded(out, from, to, &bytes[end..])
}

/// Feeds a line of UTF-8, and returns whether the recoder then waits for more. It does so only if the line ends
/// inside a character, which the following bytes decide. No recoder that is right whatever follows has written more
/// by then.
pub fn feed_line<A: Allocator>(
    recoder: &mut Recoder,
    line: &[u8],
    out: &mut Vec<u8, A>,
) -> Result<bool, AllocError>
    requires form { recoder.old.from ≡ Form.Utf8 }
    requires some { 0 < length line.now }
    ensures waits { IfOk result (λ waits. IsTrue waits → IsUndecided Form.Utf8 recoder.new.held) }
    ensures done { IfOk result (λ waits. IsFalse waits → recoder.new.held ≡ []) }
    ensures form { recoder.new.from ≡ Form.Utf8 }
    ensures early { OnOk result (GrowsByTheMost Form.Utf8 recoder.old.to
        (recoder.old.held ++ line.now) out.old.items out.new.items) }
{
    laws::held_is_undecided();
    laws::nothing_comes_earlier();
    recoder.feed(line, out)?;
    Ok(!recoder.held().is_empty())
}
