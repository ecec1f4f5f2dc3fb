//! Lines and columns of input in parts, counted by hand.
use cuts::{Form, Position};

fn advanced(form: Form, parts: &[&[u8]]) -> Position {
    let mut at = Position::new();
    for part in parts {
        at.advance(form, part);
    }
    at
}

fn is_at(form: Form, parts: &[&[u8]], line: u64, column: u64, byte_column: u64) -> bool {
    let at = advanced(form, parts);
    at.line() == line && at.column() == column && at.byte_column() == byte_column
}

#[test]
fn positions_do_not_depend_on_the_parts(rt: HostRuntime) {
    assert!(rt; is_at(Form::Utf8, &[], 1, 1, 1));
    assert!(rt; is_at(Form::Utf8, &[b"a\nb\xc3\xa9c"], 2, 4, 5));
    assert!(rt; is_at(Form::Utf8, &[b"a\nb\xc3", b"\xa9c"], 2, 4, 5));
    assert!(rt;
        is_at(
            Form::Utf8,
            &[b"\xf0", b"\x9f", b"", b"\x98", b"\x80"],
            1,
            2,
            5
        )
    );
    assert!(rt; is_at(Form::Utf8, &[b"\xe2\x82", b"A\n\n"], 3, 1, 1));
    assert!(rt;
        is_at(
            Form::Utf16Le,
            &[b"\x3d\xd8\x00", b"\xde\x0a\x00a\x00"],
            2,
            2,
            3
        )
    );
    assert!(rt; is_at(Form::Utf16Be, &[b"\x0a\x00\x00", b"\x0a\xd8\x3d"], 2, 2, 3));
}

#[test]
fn bytes_of_an_open_character_count_one_each(rt: HostRuntime) {
    let at = advanced(Form::Utf8, &[b"a\nb\xf0\x9f\x98"]);
    assert!(rt;
        at.column() == 5 && at.byte_column() == 5 && at.held() == b"\xf0\x9f\x98".as_slice()
    );
    let mut same = Position::carrying(2, 5, 5, at.held());
    same.advance(Form::Utf8, b"\x80\r");
    assert!(rt; same.line() == 2 && same.column() == 4 && same.byte_column() == 7);
    assert!(rt; is_at(Form::Utf16Be, &[b"\xd8\x3d\xde"], 1, 3, 4));
}

// More line feeds than a counter of eight bits can count, and a line as long.
#[test]
fn many_lines_and_a_long_one(rt: HostRuntime) {
    let feeds = [b'\n'; 1000];
    let text = [b'a'; 1000];
    assert!(rt; is_at(Form::Utf8, &[&feeds, &text, &feeds[..999]], 2000, 1, 1));
    assert!(rt; is_at(Form::Utf8, &[&feeds, &text], 1001, 1001, 1001));
    assert!(rt; is_at(Form::Utf16Le, &[&text, &feeds], 1, 1001, 2001));
}
