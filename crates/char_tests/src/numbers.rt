//! Numbers as characters.
use encode_unicode::CharExt;
use encode_unicode::error::CodepointError::{self, TooHigh, Utf16Reserved};

// Converts a number to a character through the trait bound.
fn of_number<T: CharExt>(number: u32) -> Result<T, CodepointError> {
    T::from_u32_detailed(number)
}

#[test]
fn from_u32(rt: HostRuntime) {
    for number in 0xd800..=0xdfff {
        assert!(rt; of_number::<char>(number) == Err(Utf16Reserved));
    }
    for plane in 0x11..=0xffff {
        assert!(rt; of_number::<char>(plane << 16) == Err(TooHigh));
    }
}
