//! The laws of UTF-8 and UTF-16 that everything above rests on.
//!
//! Each function does nothing: its contract is the law, for every list. A proof above cites a law by
//! calling the function, or takes the lemma that proves it from `proofs/`.
ghost use Rattle.utf_base.specs.Bounds.{NoMorePieces, NoLongerPieces};
ghost use Rattle.utf_base.specs.Code.{utf8, utf16};
ghost use Rattle.utf_base.specs.CutLaws.{CodesNeverOverlap, PiecesNeverOverlap, OnePieceBegins, OnePieceEnds};
ghost use Rattle.utf_base.specs.CutLaws.{CutsFollow, CutExists, CutIsUnique, NoFaultInJoinedCodes};
ghost use Rattle.utf_base.specs.CutLaws.{AsciiStandsAlone, OneCodeEnds};
ghost use Rattle.utf_base.specs.GrammarLaws.{CodesAreTheGrammar, CodesAreTheTable, TextsAreTheGrammar};
ghost use Rattle.utf_base.specs.GrammarLaws.{UnitsAreDecoded, UnitsAreEncoded};
ghost use Rattle.utf_base.specs.KindLaws.{CodeOrOneFault, UnitsCodeOrOneFault, UnitsCodeOrOneKind};
ghost use Rattle.utf_base.specs.KindLaws.{FourBytesDecide, TwoUnitsDecide, MergerCodeOrOneFault};
ghost use Rattle.utf_base.specs.KindLaws.{FourBytesDecideMerger, KindsDiffer, CodeOrLastByte};
ghost use Rattle.utf_base.specs.KindLaws.{UnitsCodeOrLastUnit};
ghost use Rattle.utf_base.specs.Kinds.{fault_kind};
ghost use Rattle.utf_base.specs.LocalLaws.{DamageIsLocal, FrontStays, RestStays};
ghost use Rattle.utf_base.specs.Scalar.{IsUnits};
ghost use Rattle.utf_base.specs.ShownLaws.{ShowsSome, ShowsOne, CodeShowsFirst, FaultShowsFirst};
ghost use Rattle.utf_base.specs.ShownLaws.{FirstPieceStays, KindStays, UnitsFaultStays};
ghost use Rattle.utf_base.specs.Subparts.{PartsBecomeTheCut, SubpartsAreFaults};
ghost use Rattle.utf_base.specs.Units.{unit_fault_kind};
ghost use Rattle.utf_base.specs.Walk.{utf8_bytes, utf16_units};
ghost use Rattle.utf_base.specs.WalkLaws.{WalkExists, WalkExistsOver, WalkIsUnique};
ghost use Rattle.utf_base.specs.WalkLaws.{WalkStaysOutside, WalkGivesEachOnce};

/// Two codes that are in one list are at the same offset or share no element.
#[tactic(auto, using(crate::proofs::Standing::codes_never_overlap, crate::proofs::Utf8Code::utf8_is_code, crate::proofs::Utf16Code::utf16_is_code))]
pub fn codes_never_overlap()
    ensures utf8 { CodesNeverOverlap utf8 }
    ensures utf16 { CodesNeverOverlap utf16 }
{}

/// Two pieces of one list are the same or share no element.
pub fn pieces_never_overlap()
    ensures utf8 { PiecesNeverOverlap utf8 }
    ensures utf16 { PiecesNeverOverlap utf16 }
{}

/// At most one piece begins at an offset.
pub fn one_piece_begins()
    ensures utf8 { OnePieceBegins utf8 }
    ensures utf16 { OnePieceBegins utf16 }
{}

/// At most one piece ends at an offset.
pub fn one_piece_ends()
    ensures utf8 { OnePieceEnds utf8 }
    ensures utf16 { OnePieceEnds utf16 }
{}

/// At most one code ends a list.
#[tactic(auto, using(crate::proofs::Ending::one_code_ends, crate::proofs::Utf8Code::utf8_is_code, crate::proofs::Utf16Code::utf16_is_code))]
pub fn one_code_ends()
    ensures utf8 { OneCodeEnds utf8 }
    ensures utf16 { OneCodeEnds utf16 }
{}

/// The pieces of a cut follow each other without gap or overlap, from the front of the list to its
/// end.
pub fn cuts_follow()
    ensures utf8 { CutsFollow utf8 }
    ensures utf16 { CutsFollow utf16 }
{}

/// Every list has a cut.
pub fn cut_exists()
    ensures utf8 { CutExists utf8 }
    ensures utf16 { CutExists utf16 }
{}

/// No list has two cuts.
pub fn cut_is_unique()
    ensures utf8 { CutIsUnique utf8 }
    ensures utf16 { CutIsUnique utf16 }
{}

/// A list has at most as many pieces as elements. Bytes have at most four for each piece, and units at most two.
pub fn pieces_are_bounded()
    ensures utf8 { NoMorePieces utf8 }
    ensures utf16 { NoMorePieces utf16 }
    ensures utf8_longest { NoLongerPieces utf8 4 }
    ensures utf16_longest { NoLongerPieces utf16 2 }
{}

/// A cut has no fault if and only if its list is the codes of some scalars, joined, and its pieces are then
/// these scalars in order.
pub fn no_fault_in_joined_codes()
    ensures utf8 { NoFaultInJoinedCodes utf8 }
    ensures utf16 { NoFaultInJoinedCodes utf16 }
{}

/// A byte below 0x80 is a piece of its own: no error hides an ASCII character.
#[tactic(auto, using(crate::proofs::KindLemmas::ascii_stands_alone))]
pub fn ascii_stands_alone()
    ensures { AsciiStandsAlone }
{}

/// Bytes have the code of a scalar at their front, or exactly one kind of fault, and never both.
#[tactic(auto, using(crate::proofs::FrontLemmas::code_or_one_fault))]
pub fn code_or_one_fault()
    ensures { CodeOrOneFault }
{}

/// Bytes have the code of a scalar at their front, or exactly one kind that a merger gives, and never both.
#[tactic(auto, using(crate::proofs::MergerLemmas::merger_code_or_one_fault))]
pub fn merger_code_or_one_fault()
    ensures { MergerCodeOrOneFault }
{}

/// Bytes that no code ends have a last byte from 0x80 on, whose backward kind is the fault of that byte
/// without the bytes before it.
#[tactic(auto, using(crate::proofs::EndLemmas::code_or_last_byte))]
pub fn code_or_last_byte()
    ensures { CodeOrLastByte }
{}

/// Units have the code of a scalar at their front, or exactly one fault of a slice, and never both.
#[tactic(auto, using(crate::proofs::UnitLemmas::units_code_or_one_fault))]
pub fn units_code_or_one_fault()
    ensures { UnitsCodeOrOneFault }
{}

/// Units have the code of a scalar at their front, or exactly one forward kind, and never both.
#[tactic(auto, using(crate::proofs::UnitLemmas::units_code_or_one_kind))]
pub fn units_code_or_one_kind()
    ensures { UnitsCodeOrOneKind }
{}

/// The last of some units is a character of its own if it is no surrogate; if no code ends the units it is a
/// surrogate, whose backward kind is the fault of that unit without the units before it.
#[tactic(auto, using(crate::proofs::UnitEnds::units_code_or_last_unit))]
pub fn units_code_or_last_unit()
    ensures { UnitsCodeOrLastUnit }
{}

/// The forward kind depends only on the first four bytes, or on fewer if there are fewer, and so does the
/// kind that a merger gives.
#[tactic(auto, using(crate::proofs::KindLemmas::four_bytes_decide, crate::proofs::MergerLemmas::four_bytes_decide_merger))]
pub fn four_bytes_decide()
    ensures decoder { FourBytesDecide }
    ensures merger { FourBytesDecideMerger }
{}

/// A merger gives the forward kind, unless fewer bytes are left than the first asks for and one of them is no
/// continuation byte: then the forward kind is `TooFewBytes`, the merger's is `InterruptedSequence`, and at
/// most three bytes are left.
#[tactic(auto, using(crate::proofs::MergerLemmas::kinds_differ))]
pub fn kinds_differ()
    ensures { KindsDiffer }
{}

/// The forward kind of units depends only on the first two, or on one if there is one.
#[tactic(auto, using(crate::proofs::UnitLemmas::two_units_decide))]
pub fn two_units_decide()
    ensures { TwoUnitsDecide }
{}

/// A change in a list leaves every piece that begins far enough before it, and every one that begins far
/// enough after it except for its offset: of bytes those that begin at least four before it, or after the
/// first three that it left; of units two, or one. The kinds of these faults stay the same too.
pub fn damage_is_local()
    ensures utf8 { DamageIsLocal utf8 fault_kind 4 }
    ensures utf16 { DamageIsLocal utf16 unit_fault_kind 2 }
{}

/// A change of bytes may affect a piece that begins three before it, and one that begins after the first two
/// that it left.
#[tactic(auto, using(crate::proofs::LocalDamage::front_is_reached, crate::proofs::LocalDamage::rest_is_reached))]
pub fn damage_reaches_its_bounds()
    ensures front { ¬ FrontStays utf8 fault_kind 3 }
    ensures rest { ¬ RestStays utf8 fault_kind 3 }
{}

/// Every word has a walk over every list of bytes, and of units.
#[tactic(auto, using(crate::proofs::ByteWalks::byte_walk_exists, crate::proofs::UnitWalks::unit_walk_exists))]
pub fn walk_exists()
    ensures utf8 { WalkExists utf8_bytes }
    ensures utf16 { WalkExistsOver IsUnits utf16_units }
{}

/// No word has two walks: list and word determine every result.
pub fn walk_is_unique()
    ensures utf8 { WalkIsUnique utf8_bytes }
    ensures utf16 { WalkIsUnique utf16_units }
{}

/// After each letter of a walk, neither end of the window lies inside the encoding of a scalar.
pub fn walk_stays_outside()
    ensures utf8 { WalkStaysOutside utf8_bytes }
    ensures utf16 { WalkStaysOutside utf16_units }
{}

/// The pieces that a walk returns are different pieces of the cut, and once none is left they are, in the
/// order of their offsets, all of it.
pub fn walk_gives_each_once()
    ensures utf8 { WalkGivesEachOnce utf8_bytes }
    ensures utf16 { WalkGivesEachOnce utf16_units }
{}

/// Each list shows some scalars, one for each piece of its cut, and nothing else.
pub fn shows_one()
    ensures utf8 { ShowsOne utf8 }
    ensures utf16 { ShowsOne utf16 }
    ensures utf8_some { ShowsSome utf8 }
    ensures utf16_some { ShowsSome utf16 }
{}

/// A code that begins a list is shown first, whatever follows; if no code begins it U+FFFD is, for the fault
/// of one element.
pub fn first_is_shown()
    ensures utf8_code { CodeShowsFirst utf8 }
    ensures utf16_code { CodeShowsFirst utf16 }
    ensures utf8_fault { FaultShowsFirst utf8 }
    ensures utf16_fault { FaultShowsFirst utf16 }
{}

/// If the front of a list is decided, because a code is there or none ever can be, the first piece is the
/// same whatever follows.
pub fn first_piece_stays()
    ensures utf8 { FirstPieceStays utf8 }
    ensures utf16 { FirstPieceStays utf16 }
{}

/// The fault of the front of bytes or units stays the same, whatever follows, unless some are missing.
#[tactic(auto, using(crate::proofs::LaterLemmas::kind_stays, crate::proofs::LaterLemmas::units_fault_stays))]
pub fn faults_stay()
    ensures utf8 { KindStays }
    ensures utf16 { UnitsFaultStays }
{}

/// Bytes are the code of some scalar if and only if they are one `UTF8-char` of the grammar of RFC 3629,
/// section 4.
pub fn codes_are_the_grammar()
    ensures { CodesAreTheGrammar }
{}

/// Bytes are the codes of some scalars, one after another, if and only if they are the `UTF8-octets` of that grammar,
/// and so if and only if std says that they are the bytes of a text.
#[tactic(auto, using(crate::proofs::GrammarTexts::texts_are_the_grammar))]
pub fn texts_are_the_grammar()
    ensures { TextsAreTheGrammar }
{}

/// The codes of scalars are the rows of the Unicode standard's table of well-formed UTF-8 (table 3-7), and each scalar
/// has a row.
#[tactic(auto, using(crate::proofs::GrammarLemmas::codes_are_the_table))]
pub fn codes_are_the_table()
    ensures { CodesAreTheTable }
{}

/// The units of a scalar are those that the steps of RFC 2781, section 2.1, make of it.
#[tactic(auto, using(crate::proofs::SurrogateLemmas::units_are_encoded))]
pub fn units_are_encoded()
    ensures { UnitsAreEncoded }
{}

/// The steps of RFC 2781, section 2.2, give the scalar whose code begins some units, and an error if and only
/// if none does.
#[tactic(auto, using(crate::proofs::SurrogateLemmas::units_are_decoded))]
pub fn units_are_decoded()
    ensures { UnitsAreDecoded }
{}

/// A maximal subpart, of which Unicode and the WHATWG make one U+FFFD, is a run of faults of one element each. So a list
/// that is cut into characters and maximal subparts has the same cut, with each subpart as its single faults.
pub fn subparts_are_faults()
    ensures utf8 { SubpartsAreFaults utf8 }
    ensures utf16 { SubpartsAreFaults utf16 }
    ensures utf8_whole { PartsBecomeTheCut utf8 }
    ensures utf16_whole { PartsBecomeTheCut utf16 }
{}
