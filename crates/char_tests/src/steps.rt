//! The table of states. The rows of `conformance` have the classes of bytes.
ghost use Rattle.std.specs.Prelude.{◌≡◌, true};
ghost use Rattle.utf_base.specs.Table.{is_running};

use utf_base::table::{State, class_of, step};

// Returns true if bytes from 0x80, from 0x90 and from 0xa0 on lead to these states, and a byte of each other
// class interrupts.
fn leads(state: State, to: [State; 3]) -> bool
    requires { is_running state ≡ true }
{
    for byte in [0x00, 0xc0, 0xc2, 0xe0, 0xe1, 0xed, 0xf0, 0xf1, 0xf4] {
        if step(state, class_of(byte)) != State::Interrupted {
            return false;
        }
    }
    let [low, middle, high] = to;
    step(state, class_of(0x80)) == low
        && step(state, class_of(0x90)) == middle
        && step(state, class_of(0xa0)) == high
}

// Expected values: the syntax of byte sequences (RFC 3629, section 4).
#[test]
fn first_bytes_lead_to_what_they_ask_for(rt: HostRuntime) {
    for (byte, to) in [
        (0x00, State::Done),
        (0x80, State::Unexpected),
        (0x90, State::Unexpected),
        (0xa0, State::Unexpected),
        (0xc0, State::Never),
        (0xc2, State::OneMore),
        (0xe0, State::AfterE0),
        (0xe1, State::TwoMore),
        (0xed, State::AfterEd),
        (0xf0, State::AfterF0),
        (0xf1, State::ThreeMore),
        (0xf4, State::AfterF4),
    ] {
        assert_eq!(rt; step(State::Start, class_of(byte)), to, "at {byte:02x}");
    }
}

#[test]
fn second_bytes_are_narrower_after_four_first_ones(rt: HostRuntime) {
    use State::*;
    assert!(rt; leads(AfterE0, [OneMoreOverlong, OneMoreOverlong, OneMore]));
    assert!(rt; leads(AfterEd, [OneMore, OneMore, OneMoreReserved]));
    assert!(rt; leads(AfterF0, [TwoMoreOverlong, TwoMore, TwoMore]));
    assert!(rt; leads(AfterF4, [TwoMore, TwoMoreTooHigh, TwoMoreTooHigh]));
}

#[test]
fn what_is_missing_decides_after_the_second_byte(rt: HostRuntime) {
    use State::*;
    assert!(rt; leads(ThreeMore, [TwoMore, TwoMore, TwoMore]));
    assert!(rt; leads(TwoMore, [OneMore, OneMore, OneMore]));
    assert!(rt; leads(OneMore, [Done, Done, Done]));
    assert!(rt;
        leads(
            TwoMoreOverlong,
            [OneMoreOverlong, OneMoreOverlong, OneMoreOverlong]
        )
    );
    assert!(rt; leads(OneMoreOverlong, [Overlong, Overlong, Overlong]));
    assert!(rt; leads(OneMoreReserved, [Reserved, Reserved, Reserved]));
    assert!(rt;
        leads(
            TwoMoreTooHigh,
            [OneMoreTooHigh, OneMoreTooHigh, OneMoreTooHigh]
        )
    );
    assert!(rt; leads(OneMoreTooHigh, [TooHigh, TooHigh, TooHigh]));
}
