//! The laws of whole runs over bytes, and the laws of transcoding.
//!
//! Each function does nothing: its contract is the law.
ghost use Rattle.std.specs.Prelude.{◌≡◌, ◌↔◌, is_ok, length};
ghost use Rattle.std.specs.Bool.{IsTrue};
ghost use Rattle.std.specs.List.{list_all};
ghost use Rattle.std.specs.Str.{IsUtf8};
ghost use Rattle.encode_unicode.specs.BackPieces.{AreTurned, pieces_back};
ghost use Rattle.encode_unicode.specs.Mergers.{merged};
ghost use Rattle.encode_unicode.specs.Pieces.{pieces};
ghost use Rattle.text_runs.specs.ForwardRuns.{PiecesAreTheRun, TextHasNoFault, faulty_item_count};
ghost use Rattle.text_runs.specs.EqualRuns.{OneRun, OneMergedRun};
ghost use Rattle.text_runs.specs.ShardRuns.{ShardCountsAdd, ShardItemsJoin, ShardPiecesJoin, faults, line_feed_count};
ghost use Rattle.text_stream.specs.LocatedLaws.{LocatedAreMerged, NoPieceComesEarlier, PartsAreLocated};
ghost use Rattle.text_runs.specs.Splits.{OneSplit};
ghost use Rattle.utf_base.specs.Code.{utf8, utf16};
ghost use Rattle.utf_base.specs.Kinds.{fault_kind, merger_kind};
ghost use Rattle.utf_base.specs.Units.{unit_fault_kind};

pub use recoding::laws::{
    faults_are_counted, held_is_undecided, lossy_joins_faults, lossy_once,
    lossy_parts_are_one_part, nothing_comes_earlier, parts_are_one_part, parts_do_not_matter,
    recoded_is_bounded, recoded_once, repaired_once, room_is_enough, shards_join, text_is_recoded,
};

/// Equal bytes or units have equal runs, of decoders and of mergers.
pub fn runs_are_unique()
    ensures bytes { OneRun utf8 fault_kind }
    ensures units { OneRun utf16 unit_fault_kind }
    ensures merged_bytes { OneMergedRun utf8 merger_kind }
    ensures merged_units { OneMergedRun utf16 unit_fault_kind }
{}

/// The items of a decoder of some bytes are the forward run over them, of which there is one.
pub fn pieces_are_the_run()
    ensures { PiecesAreTheRun }
{}

/// Bytes have no fault if and only if they are UTF-8.
pub fn text_has_no_fault()
    ensures { TextHasNoFault }
{}

/// Bytes are UTF-8 if and only if each of their pieces is a character. States it for the bytes that are
/// given, which stay as they are.
pub fn text_is_all_characters(bytes: &[u8])
    ensures { IsTrue (list_all (λ x. is_ok x.1) (pieces bytes.now)) ↔ IsUtf8 bytes.now }
{}

/// Bytes are UTF-8 if and only if each result of a merger for them is a character.
pub fn merged_is_all_characters(bytes: &[u8])
    ensures { IsTrue (list_all (λ r. is_ok r) (merged bytes.now)) ↔ IsUtf8 bytes.now }
{}

/// From the end a decoder gives the same pieces as from the front, in reverse order: characters and invalid bytes,
/// with their offsets and lengths. The kind of an error may differ.
#[tactic(auto, using(crate::proofs::TurnedPieces::turned, crate::proofs::TurnedPieces::faults_turned))]
pub fn pieces_back_are_the_pieces(bytes: &[u8])
    ensures turned { AreTurned (pieces_back bytes.now) (pieces bytes.now) }
    ensures faults { faulty_item_count (pieces_back bytes.now) ≡ faulty_item_count (pieces bytes.now) }
{}

/// Parts without the separator that are the bytes, joined by it, are those that `split_ascii` gives.
#[tactic(auto, using(text_runs::proofs::SplitLemmas::one_split))]
pub fn split_is_unique()
    ensures { OneSplit }
{}

/// Bytes may be cut into shards at an offset inside no character, as `boundary_before` and `shard_end` find one. The
/// pieces of the shards, one after another and with offsets in the whole, are the pieces of the whole. If each shard
/// is given with the three bytes after it, and pieces that begin in those are left out, errors have the same kinds
/// too. So the invalid bytes of the shards, with their offsets and kinds, are those of the whole.
#[tactic(auto, using(crate::proofs::ShardPieces::bytes_join, crate::proofs::ShardPieces::faults_join, crate::proofs::ShardPieces::pieces_join))]
pub fn shard_pieces_join()
    ensures alone { ShardPiecesJoin utf8 pieces }
    ensures items { ShardItemsJoin utf8 pieces 3 }
    ensures faults { ShardItemsJoin utf8 faults 3 }
{}

/// The numbers of pieces, of invalid bytes and of line feeds in such shards add up to those of the whole.
#[tactic(auto, using(crate::proofs::ShardCounts::pieces_add, crate::proofs::ShardCounts::faults_add, crate::proofs::ShardCounts::line_feeds_add))]
pub fn shard_counts_add()
    ensures pieces { ShardCountsAdd utf8 (λ w. length (pieces w)) }
    ensures faults { ShardCountsAdd utf8 (λ w. faulty_item_count (pieces w)) }
    ensures lines { ShardCountsAdd utf8 line_feed_count }
{}

/// The pieces that a `Decoder` gives. Of UTF-8 they are what a merger returns for the whole input. However the input
/// is cut into parts, they are the pieces of the joined parts. The bytes that a decoder carries over are undecided:
/// no decoder that is right whatever follows gives one piece more.
pub fn pieces_of_parts()
    ensures merged { LocatedAreMerged }
    ensures parts { PartsAreLocated }
    ensures earliest { NoPieceComesEarlier }
{}
