//! The byte order mark, which some texts begin with and which indicates their encoding.
ghost use Rattle.std.specs.Prelude.{◌≡◌, ◌<◌};
ghost use Rattle.cuts.specs.ByteOrderMarks.{BeginsWithMark, HasNoMark};
ghost use Rattle.c_api.specs.Api.{IsForm, form_of};

use crate::recodings::number_of_form;

/// The length in bytes of the byte order mark that begins the bytes; `form` is set to the encoding that it indicates.
/// If there is none, returns 0 and leaves `form` unchanged.
#[unsafe(no_mangle)]
pub extern "C" fn nody_encoding_of_bom(bytes: &[u8], form: &mut u8) -> usize
    ensures is_form { 0 < result → IsForm form.new }
    ensures mark { 0 < result → BeginsWithMark (form_of form.new) bytes.now result }
    ensures none { result ≡ 0 → HasNoMark bytes.now }
    ensures stays { result ≡ 0 → form.new ≡ form.old }
{
    let Some((told, len)) = cuts::form_of_bom(bytes) else {
        return 0;
    };
    *form = number_of_form(told);
    len
}
