//! Pieces of input that comes in parts: the results of a merger of the Rust crate for the whole, with their
//! offsets added up by hand. The rows of `conformance` have more.
use cuts::{Decoder, FaultKind, Fed, Form, LocatedPiece};
use encode_unicode::error::Utf8ErrorKind;

fn empty() -> [LocatedPiece; 3] {
    [is_char(0, 1, 'x'); 3]
}

fn is_char(offset: u64, len: usize, c: char) -> LocatedPiece {
    LocatedPiece {
        offset,
        len,
        answer: Ok(c),
    }
}

fn is_fault(offset: u64, len: usize, kind: FaultKind) -> LocatedPiece {
    LocatedPiece {
        offset,
        len,
        answer: Err(kind),
    }
}

fn came(read: usize, written: usize, is_full: bool) -> Fed {
    Fed {
        read,
        written,
        is_full,
    }
}

// e2 82 | ac 41 f0 | 41: the euro sign spans two parts, and the 41 of the third part shows that f0 is a
// fault.
#[test]
fn characters_lie_over_parts(rt: HostRuntime) {
    let mut decoder = Decoder::new(Form::Utf8);
    let mut room = empty();
    assert!(rt; decoder.feed(b"\xe2\x82", &mut room) == came(2, 0, false));
    assert!(rt; decoder.held() == b"\xe2\x82".as_slice());
    assert!(rt; decoder.feed(b"\xacA\xf0", &mut room) == came(3, 2, false));
    assert!(rt; room[0] == is_char(0, 3, '€') && room[1] == is_char(3, 1, 'A'));
    assert!(rt; decoder.feed(b"A", &mut room) == came(1, 2, false));
    let kind = FaultKind::Utf8(Utf8ErrorKind::InterruptedSequence);
    assert!(rt; room[0] == is_fault(4, 1, kind) && room[1] == is_char(5, 1, 'A'));
    assert!(rt; decoder.finish(&mut room) == came(0, 0, false) && decoder.offset() == 6);
}
