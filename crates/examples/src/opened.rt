//! A definition that is unfolded: the bytes of a character, one by one.
ghost use Rattle.std.specs.Prelude.{◌≡◌, IfSome};
ghost use Rattle.encode_unicode.specs.Code.{utf8};

/// The code of a character from U+0080 to U+07FF, and none for another.
#[tactic(auto, unfolding(encode_unicode::specs::Words::utf8))]
pub fn code_of_two(c: char) -> Option<[u8; 2]>
    ensures { IfSome result (λ code. code ≡ utf8 c) }
{
    let s = c as u32;
    if 0x80 <= s && s < 0x800 {
        Some([0xc0 + (s / 64) as u8, 0x80 + (s % 64) as u8])
    } else {
        None
    }
}
