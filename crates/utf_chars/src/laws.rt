//! The law of the three types of a scalar: `char`, `Utf8Char` and `Utf16Char`.
ghost use Rattle.utf_chars.specs.FormLaws.{FormsKeepTheScalar};

/// The bytes and the units that characters keep determine the scalar. So `Utf16Char::from` of a `Utf8Char`
/// keeps the scalar, and so does the conversion back.
pub fn forms_keep_the_scalar()
    ensures { FormsKeepTheScalar }
{}
