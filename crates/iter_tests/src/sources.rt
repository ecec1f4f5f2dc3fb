//! How often an iterator calls its source.
use encode_unicode::{U8IterExt, U16IterExt};

// A source that counts its calls, and repeats its items once it has ended.
#[derive(Drop)]
struct Asked<'a, T> {
    items: &'a [T],
    next: usize,
    calls: u32,
}

impl<'a, T: Copy> Iterator for Asked<'a, T> {
    type Item = T;

    fn next(&mut self) -> Option<T> {
        self.calls = self.calls.saturating_add(1);
        match self.items.get(self.next) {
            None => {
                self.next = 0;
                None
            }
            Some(item) => {
                self.next = self.next.saturating_add(1);
                Some(*item)
            }
        }
    }
}

fn source_of<T>(items: &[T]) -> Asked<'_, T> {
    Asked {
        items,
        next: 0,
        calls: 0,
    }
}

#[test]
fn no_byte_is_read_ahead(rt: HostRuntime) {
    let bytes = [0x61, 0xe2, 0x82, 0xac, 0xe2, 0x41, 0x42];
    let mut merger = source_of(&bytes).to_utf8chars();
    assert!(rt; merger.next().is_some_and(|answer| answer.is_ok()));
    assert_eq!(rt; merger.into_inner().calls, 1);
    let mut merger = source_of(&bytes).to_utf8chars();
    assert!(rt; merger.next().is_some_and(|answer| answer.is_ok()));
    assert!(rt; merger.next().is_some_and(|answer| answer.is_ok()));
    assert_eq!(rt; merger.into_inner().calls, 4);
    let mut merger = source_of(&bytes).to_utf8chars();
    assert!(rt; merger.next().is_some());
    assert!(rt; merger.next().is_some());
    assert!(rt; merger.next().is_some());
    assert!(rt; merger.next().is_some());
    assert_eq!(rt; merger.into_inner().calls, 6);
}

#[test]
fn a_source_of_bytes_is_not_asked_again(rt: HostRuntime) {
    let mut merger = source_of(&[0xe2u8, 0x82]).to_utf8chars();
    assert!(rt; merger.next().is_some_and(|answer| answer.is_err()));
    assert!(rt; merger.next().is_some_and(|answer| answer.is_err()));
    assert!(rt; merger.next().is_none());
    assert!(rt; merger.next().is_none());
    assert!(rt; merger.next().is_none());
    assert_eq!(rt; merger.into_inner().calls, 3);
}

#[test]
fn no_unit_is_read_ahead(rt: HostRuntime) {
    let units = [0x0041, 0xd83c, 0xdca0, 0xd83c, 0x0042];
    let mut merger = source_of(&units).to_utf16chars();
    assert!(rt; merger.next().is_some_and(|answer| answer.is_ok()));
    assert_eq!(rt; merger.into_inner().calls, 1);
    let mut merger = source_of(&units).to_utf16chars();
    assert!(rt; merger.next().is_some());
    assert!(rt; merger.next().is_some());
    assert!(rt; merger.next().is_some());
    assert!(rt; merger.next().is_some());
    assert_eq!(rt; merger.into_inner().calls, 5);
}

#[test]
fn a_source_of_units_is_not_asked_again(rt: HostRuntime) {
    let mut merger = source_of(&[0xd83cu16]).to_utf16chars();
    assert!(rt; merger.next().is_some_and(|answer| answer.is_err()));
    assert!(rt; merger.next().is_none());
    assert!(rt; merger.next().is_none());
    assert!(rt; merger.next().is_none());
    let mut rest = merger.into_remaining_units();
    assert_eq!(rt; rest.next(), None);
    assert_eq!(rt;
        source_of(&[0xd83cu16]).to_utf16chars().into_inner().calls,
        0
    );
}
