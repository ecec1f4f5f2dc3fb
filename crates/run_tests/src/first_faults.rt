//! The first fault of bytes, compared with std's `from_utf8`: texts of 1 to 130 bytes, and each fault at each
//! offset.
use cuts::valid_up_to;
use std::process::Abort;

const MOST: usize = 130;

// The encoded characters that fill the bytes: one of each length.
fn fills() -> [&'static [u8]; 4] {
    [b"a", b"\xc3\xa9", b"\xe2\x82\xac", b"\xf0\x9f\x98\x80"]
}

// Byte sequences that no text has: unexpected bytes, truncated and overlong sequences, a surrogate, and
// numbers that are too high.
fn faults() -> [&'static [u8]; 14] {
    [
        b"\x80",
        b"\xbf\xbf",
        b"\xc3a",
        b"\xe2\x82a",
        b"\xf0\x9f\x98a",
        b"\xf0\x9fa",
        b"\xc0\xaf",
        b"\xe0\x9f\xbf",
        b"\xf0\x8f\xbf\xbf",
        b"\xed\xa0\x80",
        b"\xf4\x90\x80\x80",
        b"\xf5\x80\x80\x80",
        b"\xff",
        b"\xc3\xa9\xa9",
    ]
}

// Some ASCII, followed by repetitions of the encoded character.
fn filled(code: &[u8], ascii: usize) -> [u8; MOST] {
    let mut bytes = [b'a'; MOST];
    for (to, from) in bytes.iter_mut().skip(ascii).zip(code.iter().cycle()) {
        *to = *from;
    }
    bytes
}

// The bytes with others written over them at the offset.
fn damaged(bytes: [u8; MOST], place: usize, fault: &[u8]) -> [u8; MOST] {
    let mut bytes = bytes;
    for (to, from) in bytes.iter_mut().skip(place).zip(fault.iter()) {
        *to = *from;
    }
    bytes
}

// The length of the text at the front, by std.
fn std_valid_up_to(bytes: &[u8]) -> usize {
    match str::from_utf8(bytes) {
        Ok(_) => bytes.len(),
        Err(error) => error.valid_up_to(),
    }
}

fn is_found_at_each_place(rt: &impl Abort, code: &[u8], fault: &[u8], len: usize) {
    let text = filled(code, len % 7);
    for place in 0..len {
        let bytes = damaged(text, place, fault);
        let front = &bytes[..len.min(MOST)];
        assert!(rt; valid_up_to(front) == std_valid_up_to(front));
    }
}

// Characters of each length follow one another in turn.
fn is_found_in_each_length(rt: &impl Abort, fault: &[u8]) {
    let codes = fills();
    for (len, code) in (1..=MOST).zip(codes.iter().cycle()) {
        is_found_at_each_place(rt, code, fault, len);
    }
}

#[test]
fn each_fault_is_found(rt: HostRuntime) {
    for fault in faults() {
        is_found_in_each_length(&rt, fault);
    }
}

// Checks texts that end anywhere, also inside a character, after some ASCII, so that characters span each end
// of a block.
fn ends_anywhere(rt: &impl Abort, code: &[u8], ascii: usize) {
    let text = filled(code, ascii);
    for len in 0..=MOST {
        let front = &text[..len];
        assert!(rt; valid_up_to(front) == std_valid_up_to(front));
    }
}

#[test]
fn text_may_end_anywhere(rt: HostRuntime) {
    for code in fills() {
        for ascii in 0..20 {
            ends_anywhere(&rt, code, ascii);
        }
    }
}
