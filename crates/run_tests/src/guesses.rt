//! Surveys of inputs, and what these most likely are. The expected values are those of a survey in Python, which shares no code
//! with this one.
use cuts::{Guess, Survey, Surveyor, UnitCounts, Utf8Counts, guess_of, guesses_of, survey_of};

// Text in three encodings, one of them twice, with a surrogate, controls, and the front of a character at the end.
const MIXED: &[u8] =
    b"na\xefve ca\x9ffe \xc3\xa9\xc3\x83\xc2\xa9 \x81\xc8\xe9 \xed\xa0\xbd\x01\x00\xe2\x82";

fn surveyed_in_parts(bytes: &[u8], len: usize) -> Survey {
    let mut surveyor = Surveyor::new();
    for part in bytes.chunks(len.max(1)) {
        surveyor.feed(part);
    }
    surveyor.survey()
}

fn guessed(bytes: &[u8]) -> Guess {
    guess_of(&survey_of(bytes))
}

#[test]
fn a_survey_counts_what_bytes_have(rt: HostRuntime) {
    let survey = survey_of(MIXED);
    assert_eq!(rt; survey.len, 30);
    assert_eq!(rt; survey.front, *b"na\xefv");
    assert_eq!(rt; survey.nul, 1);
    assert_eq!(rt; survey.control, 1);
    assert_eq!(rt; survey.head, 0);
    assert_eq!(rt; survey.tail, 2);
    let utf8 = Utf8Counts {
        chars: 3,
        faults: 10,
        third: 2,
        signs: 1,
        undefined: 1,
        surrogates: 1,
        twice: 1,
        twice_chars: 2,
    };
    assert_eq!(rt; survey.utf8, utf8);
}

#[test]
fn units_are_counted_in_both_orders(rt: HostRuntime) {
    let some = UnitCounts {
        plain: 2,
        stray: 1,
        unpaired: 2,
    };
    let none = UnitCounts {
        plain: 0,
        stray: 0,
        unpaired: 0,
    };
    let survey = survey_of(b"A\x00\x020=\xd8\x00\xde=\xd8\x05\x00\x00\xdc");
    assert_eq!(rt; survey.utf16le, some);
    assert_eq!(rt; survey.utf16be, none);
    let survey = survey_of(b"\x00A0\x02\xd8=\xde\x00\xd8=\x00\x05\xdc\x00");
    assert_eq!(rt; survey.utf16le, none);
    assert_eq!(rt; survey.utf16be, some);
}

#[test]
fn parts_are_surveyed_as_one(rt: HostRuntime) {
    let survey = survey_of(MIXED);
    for len in 1..MIXED.len() + 1 {
        assert_eq!(rt; surveyed_in_parts(MIXED, len), survey);
    }
    let ends = survey_of(b"\x80\x80 text \xc3\xa9 \xe2\x82");
    assert_eq!(rt; ends.head, 2);
    assert_eq!(rt; ends.tail, 2);
    assert_eq!(rt; ends.utf8.faults, 4);
}

#[test]
fn each_rule_has_its_input(rt: HostRuntime) {
    let inputs: [(&[u8], Guess); 24] = [
        (b"GIF89a", Guess::Binary),
        (b"\xef\xbb\xbfa", Guess::Utf8Marked),
        (b"\xff\xfe\x00\x00", Guess::Utf32),
        (b"\xff\xfe\x00", Guess::Utf16LeMarked),
        (b"\xff\xfeh\x00", Guess::Utf16LeMarked),
        (b"\xfe\xff\x00h", Guess::Utf16BeMarked),
        (b"abcd\x00efgh", Guess::Binary),
        (b"h\x00i\x00", Guess::Utf16Le),
        (b"\x00h\x00i", Guess::Utf16Be),
        (b"a\x01b", Guess::Binary),
        (b"", Guess::Ascii),
        (b"plain", Guess::Ascii),
        (b"caf\xc3\x83\xc2\xa9", Guess::Utf8Twice),
        (b"caf\xc3\xa9", Guess::Utf8),
        (b"caf\xc3\xa9 caf\xc3", Guess::Utf8Cut),
        (b"\x80\x80 text \xc3\xa9 \xe2\x82", Guess::Utf8Cut),
        (b"caf\xed\xa0\xbd\xed\xb8\x80", Guess::Utf8Surrogates),
        (b"caf\xc3\xa9 caf\xe9 !", Guess::Utf8Mixed),
        (b"\xcf\xf0\xe8\xe2\xe5\xf2", Guess::Other8Bit),
        (b"ca\x9ffe ca\x9ffe", Guess::Other8Bit),
        (b"a \x81", Guess::Other8Bit),
        (b"caf\xe9", Guess::Windows1252),
        (b"caf\xe9 na\xefve", Guess::Windows1252),
        (b"caf\xc3\xa9 \xe9 \xe9 \xe9 !", Guess::Utf8Mixed),
    ];
    for (bytes, guess) in inputs {
        assert_eq!(rt; guessed(bytes), guess);
    }
}

#[test]
fn the_others_follow_the_best(rt: HostRuntime) {
    let inputs: [(&[u8], &[Guess]); 8] = [
        (b"caf\xc3\xa9", &[Guess::Utf8]),
        (b"GIF89a", &[Guess::Binary]),
        (b"a \x81", &[Guess::Other8Bit]),
        (b"caf\xe9", &[Guess::Windows1252, Guess::Other8Bit]),
        (b"caf\xc3\x83\xc2\xa9", &[Guess::Utf8Twice, Guess::Utf8]),
        (
            b"\xcf\xf0\xe8\xe2\xe5\xf2",
            &[Guess::Other8Bit, Guess::Windows1252],
        ),
        (b"abcd\x00efgh", &[Guess::Binary, Guess::Ascii]),
        (
            b"caf\xc3\xa9 caf\xc3",
            &[Guess::Utf8Cut, Guess::Utf8Mixed, Guess::Windows1252],
        ),
    ];
    for (bytes, guesses) in inputs {
        assert_eq!(rt; guesses_of(&survey_of(bytes)).as_slice(), guesses);
    }
}

#[test]
fn another_surveyor_goes_on(rt: HostRuntime) {
    for len in 0..MIXED.len() + 1 {
        let mut first = Surveyor::new();
        first.feed(&MIXED[..len]);
        let state = first.state();
        assert!(rt; state.is_surveyor());
        let mut other = Surveyor::resumed(&state);
        other.feed(&MIXED[len..]);
        assert_eq!(rt; other.survey(), survey_of(MIXED));
    }
}

#[test]
fn a_state_has_the_odd_byte(rt: HostRuntime) {
    let mut surveyor = Surveyor::new();
    surveyor.feed(b"h\x00i");
    let state = surveyor.state();
    assert_eq!(rt; state.utf16le.before, 0x68);
    assert_eq!(rt; state.utf16le.odd, 0x69);
    assert_eq!(rt; state.utf16le.odd_count, 1);
    let mut damaged = state;
    damaged.held_count = 17;
    assert!(rt; !damaged.is_surveyor());
}

#[test]
fn a_guess_has_a_text(rt: HostRuntime) {
    assert_eq!(rt;
        guessed(b"caf\xe9").text(),
        "Windows-1252, or another encoding of Latin letters"
    );
}
