//! Whole runs over bytes and units, transcoding, and the programs, built on the calls of `encode_unicode`.
//!
//! - Runs: `walk_utf8` and `walk_utf16` take pieces from both ends, `forward_utf16` from the front; `merge_utf8` and
//!   `merge_utf16` collect what a merger returns; `valid_up_to` and `units_valid_up_to` find the first fault, and
//!   `unit_bytes_valid_up_to` the first of units in bytes; `faults_into` and `unit_faults_into` give the faults, with their offsets;
//!   `forms` has the calls that take bytes in any encoding.
//! - Boundaries: `boundaries` finds the character boundaries next to any byte, `boundary_before` and `boundary_after` those of
//!   bytes in any encoding, and `changed_range` the range in which an edit may change pieces.
//! - Parts: `split_ascii` gives the parts between ASCII separators, `lines` the lines, each with its offset; `fault_count` and
//!   `char_count` count.
//! - Input in parts: `Decoder` gives the pieces of all of it, each with its offset; `undecided_len` says how many bytes at the end of
//!   a block later ones decide, `Position` the line and the columns, and `form_of_bom` the encoding that a byte order mark indicates.
//! - Unknown input: `survey_of` and `Surveyor` count what bytes have, `guess_of` says by these counts what they most likely are, and
//!   `guesses_of` what else they may be.
//! - Tables: `PieceTable` keeps the pieces of bytes that are edited, and `TextBuffer` a long text, which a `TextCursor` iterates over.
//! - Transcoding: `Recoder` takes text in parts, `recode` from a reader to a writer, and `recode_strict` to the first fault;
//!   `room_for` returns an upper bound of the output size, `shard_end` an offset where a large input may be cut; `front_of_text`
//!   gives one character.
//! - Programs: `write_listing`, `write_merged` and `write_walk` write lines, and `run_pieces` and `run_recode` are one
//!   run each. Their `main`s are in `programs::mains`.
//! - `Counted` counts the failures of a reader or writer, and `laws` has what holds of all runs.
#![tactic(auto)]

pub mod counted;
pub mod laws;
pub mod programs;
pub mod runs;
pub mod streams;

pub use counted::Counted;
pub use programs::listing::{write_listing, write_merged, write_walk};
pub use programs::pieces_program::run_pieces;
pub use programs::recode_program::run_recode;
pub use programs::recode_stream::{RecodeFault, recode};
pub use programs::strict::{FaultAt, StrictError, recode_strict};
pub use recoding::boundaries::{
    boundary_after, boundary_before, unit_boundary_after, unit_boundary_before,
};
pub use recoding::faults::{Fault, FaultKind, Outcome, StrictProgress};
pub use recoding::form::Form;
pub use recoding::recoder::{Recoder, Unfinished};
pub use recoding::repair::Repair;
pub use recoding::rooms::{Progress, room_for};
pub use recoding::shards::shard_end;
pub use runs::collected::{forward_utf16, merge_utf8, merge_utf16};
pub use runs::counts::{char_count, fault_count, unit_char_count};
pub use runs::fault_lists::{faults_into, unit_faults_into};
pub use runs::forms;
pub use runs::items::{End, Item, UnitItem};
pub use runs::numbers::{number_of, offset_of, unit_number_of, unit_offset_of};
pub use runs::unit_bytes::unit_bytes_valid_up_to;
pub use runs::walks::{walk_utf8, walk_utf16};
pub use runs::well_formed::{units_valid_up_to, valid_up_to};
pub use surveys::{
    Guess, Guesses, Survey, Surveyor, SurveyorState, UnitCounts, UnitState, Utf8Counts, guess_of,
    guesses_of, survey_of,
};
pub use text_buffers::buffers::changes::Change;
pub use text_buffers::buffers::counts::Counts;
pub use text_buffers::buffers::cursor::TextCursor;
pub use text_buffers::buffers::text_buffer::TextBuffer;
pub use text_buffers::piece_table::PieceTable;
pub use text_buffers::{buffers, piece_table};
pub use text_positions::position::Position;
pub use text_positions::{line_feeds, position};
pub use text_runs::byte_lines::{SplitLines, lines};
pub use text_runs::byte_order_mark::form_of_bom;
pub use text_runs::splits::{Span, SplitAscii, split_ascii};
pub use text_runs::{boundaries, byte_lines, byte_order_mark, splits};
pub use text_stream::changes::{ChangedRange, changed_range};
pub use text_stream::decoder::{Decoder, Fed};
pub use text_stream::located::{FromPiece, LocatedPiece};
pub use text_stream::undecided::undecided_len;
pub use text_stream::{changes, decoder, located, undecided};
pub use utf_lanes::byte_order::{BigEndian, ByteOrder, LittleEndian};
pub use utf_lanes::text_front::front_of_text;
