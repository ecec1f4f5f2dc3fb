//! The laws of transcoding.
//!
//! Each function does nothing: its contract is the law.
ghost use Rattle.recoding.specs.Shards.{LossyShardsJoin, RepairedShardsJoin, ShardEndsAreBoundaries, ShardsJoin, StrictShardsJoin};
ghost use Rattle.recoding.specs.Recoded.{RecodedOnce, PartsAreRecoded, PartsDoNotMatter};
ghost use Rattle.recoding.specs.Faults.{FaultCountIsOne};
ghost use Rattle.recoding.specs.LossyBytes.{LossyIsOne, LossyJoinsFaults, LossyPartsAreOne, LossyUnitsAreRecoded, TextIsLossy};
ghost use Rattle.recoding.specs.RecodedBytes.{RecodedIsOne};
ghost use Rattle.recoding.specs.Repaired.{RepairedHasNoFault, RepairedIsOne, RepairedOnceIsEnough, RepairedPartsAreOne, ReplacementIsATable, TextIsKept};
ghost use Rattle.recoding.specs.Strict.{TextIsRecoded};
ghost use Rattle.recoding.specs.Bounds.{RecodedIsBounded, RecodedIsShort, LossyIsBounded, FeedsInRoom, RoomIsLeft, FinishesInRoom};
ghost use Rattle.recoding.specs.Undecided.{FrontsAreUndecided, LackingTextIsUndecided, LackingUnitsAreUndecided};
ghost use Rattle.recoding.specs.Undecided.{LackingUnitIsUndecided, NothingComesEarlier};
ghost use Rattle.recoding.specs.Fed.{NothingIsFed, PartIsFed, FedIsFront, FedIsRecoded, TwoPartsAreOne, TwoPartsAreRecoded};

/// Bytes are transcoded in exactly one way: to the list `recoded`.
pub fn recoded_once()
    ensures once { RecodedOnce }
    ensures list { RecodedIsOne }
{}

/// Bytes have one number of faults, `fault_count`: the faults of the one cut, plus one for an odd last byte
/// of UTF-16.
pub fn faults_are_counted()
    ensures { FaultCountIsOne }
{}

/// With a table that has what each invalid byte becomes, bytes become one list, `repaired`, however they are cut into
/// parts. Text stays as it is. The list has no fault, so repairing it again changes nothing. With U+FFFD for each byte it
/// is `recoded`.
pub fn repaired_once()
    ensures list { RepairedIsOne }
    ensures parts { RepairedPartsAreOne }
    ensures text { TextIsKept }
    ensures valid { RepairedHasNoFault }
    ensures twice { RepairedOnceIsEnough }
    ensures replacement { ReplacementIsATable }
{}

/// The output of a recoder for the parts of an input is the transcoded input, however it is cut into parts.
pub fn parts_do_not_matter()
    ensures recoded { PartsAreRecoded }
    ensures same { PartsDoNotMatter }
{}

/// Parts that are fed one after another are one part. Their output begins the transcoding of the whole,
/// whatever follows, and after the end it is the whole. A caller of two parts needs only the last clause.
pub fn parts_are_one_part()
    ensures nothing { NothingIsFed }
    ensures part { PartIsFed }
    ensures front { FedIsFront }
    ensures whole { FedIsRecoded }
    ensures two { TwoPartsAreOne }
    ensures two_recoded { TwoPartsAreRecoded }
{}

/// A recoder carries over no byte that is decided. What `feed` and `feed_into` carry over becomes U+FFFD if
/// nothing follows, and another character if the rest of its code does.
///
/// In UTF-16BE, half a unit is carried over too if no code begins with it, and a leading surrogate before it.
pub fn held_is_undecided()
    ensures fronts { FrontsAreUndecided }
    ensures text { LackingTextIsUndecided }
    ensures units { LackingUnitsAreUndecided }
    ensures unit { LackingUnitIsUndecided }
{}

/// If a recoder carries over the front of a code, or nothing, no recoder that is right whatever follows has written
/// more.
pub fn nothing_comes_earlier()
    ensures { NothingComesEarlier }
{}

/// Transcoded bytes are at most as long as `room_for` returns: a lossy text is at most three times as long as
/// its bytes.
pub fn recoded_is_bounded()
    ensures recoded { RecodedIsBounded }
    ensures plain { RecodedIsShort }
    ensures lossy { LossyIsBounded }
{}

/// If the whole output for some bytes fits into the buffer, `feed_into` and then `finish_into` are not full.
pub fn room_is_enough()
    ensures feeds { FeedsInRoom }
    ensures left { RoomIsLeft }
    ensures finishes { FinishesInRoom }
{}

/// Shards that end at offsets of `shard_end` may be transcoded separately: their joined outputs are the output of the
/// whole, in each of the four ways. With one U+FFFD for each fault, with what a table has for it, and strictly, it is
/// enough that no code covers their ends: each shard end is such a boundary. Strictly, the first shard with a fault is
/// the last that counts. The kind of a fault in the last three bytes of a shard may differ from its kind in the whole.
pub fn shards_join()
    ensures boundaries { ShardEndsAreBoundaries }
    ensures strict { StrictShardsJoin }
    ensures faults { ShardsJoin }
    ensures table { RepairedShardsJoin }
    ensures subparts { LossyShardsJoin }
{}

/// Text is transcoded to the same text, whatever follows it: if a call that stops at an invalid byte writes
/// something, one that replaces it writes the same.
pub fn text_is_recoded()
    ensures { TextIsRecoded }
{}

/// With one U+FFFD for each maximal subpart, bytes become exactly one list: `lossy`.
pub fn lossy_once()
    ensures { LossyIsOne }
{}

/// The output for the parts of an input that are fed by `feed_lossy_into`, and for its end, is that for the whole
/// input, however it is cut.
pub fn lossy_parts_are_one_part()
    ensures { LossyPartsAreOne }
{}

/// One U+FFFD for each maximal subpart, or one for each of its bytes: the same characters and maximal subparts give
/// both outputs. In UTF-16 both are the same, except for an odd byte after a leading surrogate at the end. For text
/// they are the same, whatever follows it.
pub fn lossy_joins_faults()
    ensures joins { LossyJoinsFaults }
    ensures units { LossyUnitsAreRecoded }
    ensures text { TextIsLossy }
{}
