//! Clones of iterators over a source whose `clone` may fail: they fail if and only if it fails.
ghost use Rattle.std.specs.Prelude.{◌≡◌, false};

use encode_unicode::iterator::{
    RemainingBytes, RemainingUnits, Utf8CharMerger, Utf8CharSplitter, Utf16CharMerger,
    Utf16CharSplitter,
};
use encode_unicode::{
    U8IterExt, U16IterExt, Utf8Char, Utf8CharIterExt, Utf16Char, Utf16CharIterExt,
};
use std::alloc::AllocError;

// A source that repeats one item, and whose `clone` fails if `refuses` is set.
#[derive(Drop)]
struct Refusing<T> {
    item: T,
    refuses: bool,
}

impl<T: Copy> Iterator for Refusing<T> {
    type Item = T;

    fn next(&mut self) -> Option<T> {
        Some(self.item)
    }
}

impl<T: Copy> Clone for Refusing<T> {
    ghost is_clone = { λ s copy. (s.refuses ≡ false) × (copy ≡ s) };

    ghost is_infallible = { λ s. s.refuses ≡ false };

    fn clone(&self) -> Result<Refusing<T>, AllocError> {
        if self.refuses {
            return Err(AllocError);
        }
        Ok(Refusing {
            item: self.item,
            refuses: self.refuses,
        })
    }
}

// Returns true if a clone of each fails, which is if and only if the clone of its source does.
fn bytes_fail(merger: &Utf8CharMerger<Refusing<u8>>) -> bool
    ensures { result ≡ merger.now.source.refuses }
{
    merger.clone().is_err()
}

fn units_fail(merger: &Utf16CharMerger<Refusing<u16>>) -> bool
    ensures { result ≡ merger.now.source.refuses }
{
    merger.clone().is_err()
}

fn remaining_bytes_fail(rest: &RemainingBytes<Refusing<u8>>) -> bool
    ensures { result ≡ rest.now.source.refuses }
{
    rest.clone().is_err()
}

fn remaining_units_fail(rest: &RemainingUnits<Refusing<u16>>) -> bool
    ensures { result ≡ rest.now.source.refuses }
{
    rest.clone().is_err()
}

fn bytes_of_characters_fail(splitter: &Utf8CharSplitter<Refusing<Utf8Char>>) -> bool
    ensures { result ≡ splitter.now.source.refuses }
{
    splitter.clone().is_err()
}

fn units_of_characters_fail(splitter: &Utf16CharSplitter<Refusing<Utf16Char>>) -> bool
    ensures { result ≡ splitter.now.source.refuses }
{
    splitter.clone().is_err()
}

fn source_of<T>(item: T, refuses: bool) -> Refusing<T>
    ensures { result.refuses ≡ refuses }
{
    Refusing { item, refuses }
}

#[test]
fn clones_of_mergers_fail_with_their_sources(rt: HostRuntime) {
    for refuses in [true, false] {
        let bytes = source_of(0xf0u8, refuses).to_utf8chars();
        assert!(rt; bytes_fail(&bytes) == refuses);
        assert!(rt; remaining_bytes_fail(&bytes.into_remaining_bytes()) == refuses);
        let units = source_of(0xd800u16, refuses).to_utf16chars();
        assert!(rt; units_fail(&units) == refuses);
        assert!(rt; remaining_units_fail(&units.into_remaining_units()) == refuses);
    }
}

#[test]
fn clones_of_splitters_fail_with_their_sources(rt: HostRuntime) {
    for refuses in [true, false] {
        let bytes = source_of(Utf8Char::new('\u{e9}'), refuses).to_bytes();
        assert!(rt; bytes_of_characters_fail(&bytes) == refuses);
        let units = source_of(Utf16Char::new('\u{1f4a3}'), refuses).to_units();
        assert!(rt; units_of_characters_fail(&units) == refuses);
    }
}
