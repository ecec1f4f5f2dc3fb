//! The names that `encode_unicode` has for its callers: one that is gone fails the check.

pub use encode_unicode::error::{
    CodepointError, EmptyStrError, FromStrError, NonAsciiError, NonBmpError, Utf8Error,
    Utf8ErrorKind, Utf16ArrayError, Utf16FirstUnitError, Utf16PairError, Utf16SliceError,
    Utf16TupleError,
};
pub use encode_unicode::iterator::{
    RemainingBytes, RemainingUnits, Utf8CharDecoder, Utf8CharIndices, Utf8CharMerger,
    Utf8CharSplitter, Utf8Chars, Utf8Iterator, Utf16CharDecoder, Utf16CharIndices, Utf16CharMerger,
    Utf16CharSplitter, Utf16Chars, Utf16Iterator,
};
pub use encode_unicode::laws::{
    ascii_stands_alone, code_or_last_byte, code_or_one_fault, codes_never_overlap, cut_exists,
    cut_is_unique, cuts_follow, damage_is_local, damage_reaches_its_bounds, faults_stay,
    first_is_shown, first_piece_stays, forms_keep_the_scalar, four_bytes_decide, kinds_differ,
    merger_code_or_one_fault, no_fault_in_joined_codes, one_code_ends, one_piece_begins,
    one_piece_ends, pieces_never_overlap, shows_one, two_units_decide, units_code_or_last_unit,
    units_code_or_one_fault, units_code_or_one_kind, walk_exists, walk_gives_each_once,
    walk_is_unique, walk_stays_outside,
};
pub use encode_unicode::{
    CharExt, Steps, StrExt, U8IterExt, U8SliceExt, U8UtfExt, U16IterExt, U16SliceExt, U16UtfExt,
    Utf8Char, Utf8CharIterExt, Utf16Char, Utf16CharIterExt,
};
