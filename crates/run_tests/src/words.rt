//! Every word of eight letters over short bytes, then calls from the front until there is no result.
use cuts::{End, Item, walk_utf8};
use std::alloc::{AllocError, Global};
use std::process::Abort;
use std::test::Fail;

const LETTERS: u32 = 8;

// The greatest number of bytes.
const MOST: usize = 8;

// Short inputs with every kind of damage.
fn damaged_bytes() -> [&'static [u8]; 17] {
    [
        b"",
        b"\x80",
        b"\xc0\x80",
        b"a\xc3",
        b"\xc3\xa9",
        b"\xc3\xa9\x80",
        b"\xe0\x80\x80",
        b"\xed\xa0\x80",
        b"A\xe0\x80",
        b"f\xcfb",
        b"a\xf0\x90\x80",
        b"\xf0\x9f\x92\xa3\x80",
        b"\xf0\x90\x80\x80\x80",
        b"\x80\x80\x80\x80\x80",
        b"\xc3\xa9\x80\xe2\x82\xac",
        b"a\xf0\x9f\x92\xa3b",
        b"\xf0\xa1\x92X\xcc\xbb",
    ]
}

// The word whose letters are the digits of the number, and then a letter for each byte and one more.
fn word_of(alloc: Global, number: u32, bytes: &[u8]) -> Result<Vec<End>, AllocError> {
    let mut word = Vec::new(alloc);
    for letter in 0..LETTERS {
        word.push(if (number >> letter) & 1 == 1 {
            End::Back
        } else {
            End::Front
        })?;
    }
    for _ in 0..=bytes.len() {
        word.push(End::Front)?;
    }
    Ok(word)
}

// The lengths of the pieces that were returned, by the offsets where they begin.
fn lengths_by_place(rt: &impl Abort, answers: &[Option<Item>]) -> [usize; MOST] {
    let mut lengths = [0; MOST];
    for (place, _, len) in answers.iter().copied().flatten() {
        let slot = lengths.get_mut(place).expect(rt, "a place of the bytes");
        assert!(rt; *slot == 0, "no piece comes twice");
        *slot = len;
    }
    lengths
}

// Returns true if each piece, from the front to the end, begins where the one before it ends.
fn lie_end_to_end(lengths: &[usize], end: usize) -> bool {
    let mut place = 0usize;
    for (begin, len) in lengths.iter().copied().enumerate() {
        if len > 0 && begin != place {
            return false;
        }
        place = place.saturating_add(len);
    }
    place == end
}

#[test]
fn every_word_gives_each_piece_once(rt: HostRuntime) -> Result<(), Fail> {
    for bytes in damaged_bytes() {
        for number in 0..1 << LETTERS {
            let word = word_of(rt.alloc(), number, bytes)?;
            let answers = walk_utf8(rt.alloc(), bytes, &word)?;
            assert!(rt; answers.last().is_some_and(|answer| answer.is_none()));
            assert!(rt; lie_end_to_end(&lengths_by_place(&rt, &answers), bytes.len()));
        }
    }
    Ok(())
}
