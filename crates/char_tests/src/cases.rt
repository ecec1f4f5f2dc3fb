//! Characters that are equal but for the case of ASCII letters. The rows of `conformance` have the cases.
use crate::orders::characters;
use encode_unicode::CharExt;

// Returns true if the two are equal but for the case, by both encodings.
fn same_but_for_case(one: char, other: char) -> [bool; 2] {
    [
        one.to_utf8().eq_ignore_ascii_case(&other.to_utf8()),
        one.to_utf16().eq_ignore_ascii_case(&other.to_utf16()),
    ]
}

// Expected values as std compares a `char`.
#[test]
fn letters_are_equal_but_for_the_case(rt: HostRuntime) {
    let others = [
        '@',
        '[',
        '`',
        '{',
        'n',
        '\u{c9}',
        '\u{e9}',
        '\u{f9}',
        '\u{10041}',
        '\u{10061}',
    ];
    for c in characters().into_iter().chain(others) {
        for other in characters().into_iter().chain(others) {
            let same = [c.eq_ignore_ascii_case(&other); 2];
            assert_eq!(rt; same_but_for_case(c, other), same, "at {c:?} and {other:?}");
        }
    }
    assert_eq!(rt; same_but_for_case('\u{f9}', '\u{d9}'), [false; 2]);
}
