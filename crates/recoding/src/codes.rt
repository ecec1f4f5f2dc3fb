//! Encoded characters, written to an output.
ghost use Rattle.std.specs.Prelude.{◌<◌, ◌≤◌, [], ◌∷◌, take};

use crate::output::Output;

// Appends the first bytes of a code. Each length has writes of its own, so that nothing is tested between them.
#[inline(always)]
pub(crate) fn put_short<O: Output>(code: [u8; 4], len: usize, out: &mut O)
    requires some { 0 < len }
    requires few { len ≤ 4 }
    requires room { len ≤ O.room out.old }
    ensures { O.appends out.old (take len code) out.new }
{
    let [a, b, c, d] = code;
    if len == 1 {
        out.put_byte(a);
        return;
    }
    if len == 2 {
        put_pair(a, b, out);
        return;
    }
    if len == 3 {
        put_pair(a, b, out);
        out.put_byte(c);
        return;
    }
    put_pair(a, b, out);
    put_pair(c, d, out);
}

// Appends two bytes.
#[inline(always)]
pub(crate) fn put_pair<O: Output>(first: u8, second: u8, out: &mut O)
    requires { 2 ≤ O.room out.old }
    ensures { O.appends out.old (first ∷ second ∷ []) out.new }
{
    out.put_byte(first);
    out.put_byte(second);
}
