//! The byte order mark, which some texts begin with and which indicates their encoding.
ghost use Rattle.std.specs.Prelude.{◌≤◌, IfNone, IfSome};
ghost use Rattle.text_runs.specs.ByteOrderMarks.{BeginsWithMark, HasNoMark};

use recoding::form::Form;

/// The encoding that a byte order mark at the front indicates, and the length of the mark in bytes:
/// `form_of_bom(b"\xef\xbb\xbfa")` is `Some((Form::Utf8, 3))`. `None` if no mark begins the bytes.
///
/// UTF-32LE begins with the mark of UTF-16LE, and is reported as that.
pub fn form_of_bom(bytes: &[u8]) -> Option<(Form, usize)>
    ensures some { IfSome result (λ x. BeginsWithMark x.0 bytes.now x.1) }
    ensures len { IfSome result (λ x. 2 ≤ x.1) }
    ensures none { IfNone result (HasNoMark bytes.now) }
{
    if bytes.starts_with(&[0xef, 0xbb, 0xbf]) {
        return Some((Form::Utf8, 3));
    }
    if bytes.starts_with(&[0xff, 0xfe]) {
        return Some((Form::Utf16Le, 2));
    }
    if bytes.starts_with(&[0xfe, 0xff]) {
        return Some((Form::Utf16Be, 2));
    }
    None
}
