//! Equality, order and hashes of the three character types, in each and across them.
use encode_unicode::{CharExt, Utf8Char, Utf16Char};
use std::alloc::{AllocError, Global};
use std::cmp::Ordering;
use std::collections::{BTreeMap, HashMap};
use std::hash::{BuildHasher, BuildHasherDefault, FoldHasher, Hash};
use std::test::Fail;

// Characters on both sides of each change in encoded length, letters of both cases, and some between, in order.
#[rattlefmt::skip]
pub(crate) fn characters() -> [char; 21] {
    [
        '\0', ';', 'A', 'N', 'Z', 'a', 'm', 'z', '\u{7f}', '\u{80}', '\u{111}', '\u{77b}', '\u{7ff}',
        '\u{800}', '\u{d7ff}', '\u{e000}', '\u{ffff}', '\u{10000}', '\u{abcde}', '\u{10befb}', '\u{10ffff}',
    ]
}

// Returns true if each comparison of two values of one type agrees with the order.
fn compares<T: Ord>(one: &T, other: &T, order: Ordering) -> bool {
    one.cmp(other) == order
        && one.partial_cmp(other) == Some(order)
        && (one == other) == order.is_eq()
        && (one < other) == order.is_lt()
}

// Returns true if each character type compares by this order.
fn forms_compare(one: char, other: char, order: Ordering) -> bool {
    compares(&one, &other, order)
        && compares(&one.to_utf8(), &other.to_utf8(), order)
        && compares(&one.to_utf16(), &other.to_utf16(), order)
}

// Returns true if values of two character types compare by this order.
fn forms_mix(one: char, other: char, order: Ordering) -> bool {
    let same = order.is_eq();
    let (bytes, other_bytes) = (one.to_utf8(), other.to_utf8());
    let (units, other_units) = (one.to_utf16(), other.to_utf16());
    bytes.eq_char(other) == same
        && bytes.cmp_char(other) == order
        && bytes.eq_utf16(other_units) == same
        && bytes.cmp_utf16(other_units) == order
        && units.eq_char(other) == same
        && units.cmp_char(other) == order
        && units.eq_utf8(other_bytes) == same
        && units.cmp_utf8(other_bytes) == order
}

#[test]
fn characters_go_by_their_scalars(rt: HostRuntime) {
    let some = ['a', 'b', '\u{e1}', '\u{1f4a3}'];
    let edges = characters();
    for ascending in [some.as_slice(), edges.as_slice()] {
        for (row, one) in ascending.iter().enumerate() {
            for (column, other) in ascending.iter().enumerate() {
                let order = row.cmp(&column);
                let holds = forms_compare(*one, *other, order) && forms_mix(*one, *other, order);
                assert!(rt; holds, "at {one:?} and {other:?}");
            }
        }
    }
    // The lesser scalar has the greater first unit.
    for (one, other) in [('\u{e000}', '\u{10000}'), ('\u{ffff}', '\u{10000}')] {
        assert!(rt; forms_compare(one, other, Ordering::Less));
        assert!(rt; forms_mix(one, other, Ordering::Less));
        let units = one.to_utf16().as_units().cmp(other.to_utf16().as_units());
        assert_eq!(rt; units, Ordering::Greater);
    }
}

fn hash_of<T: Hash + Drop>(value: T) -> u64 {
    BuildHasherDefault::<FoldHasher>::new().hash_one(value)
}

// Returns true if the three character types have equal hashes.
fn hash_alike(c: char) -> bool {
    let hash = hash_of(c);
    hash_of(c.to_utf8()) == hash && hash_of(c.to_utf16()) == hash
}

// Characters that are not in the table.
#[rattlefmt::skip]
fn strangers() -> [char; 10] {
    [
        '\u{1}', '\u{7e}', '\u{81}', '\u{7fe}', '\u{801}', '\u{d7fe}', '\u{e001}', '\u{fffe}', '\u{10001}',
        '\u{10fffe}',
    ]
}

// Returns true if an ordered map with the characters of the table as keys finds each at its index, and no
// other.
fn ordered_map_finds<T: From<char> + Ord + Copy + Drop>(alloc: Global) -> Result<bool, AllocError> {
    let mut map = BTreeMap::new(alloc);
    for (row, c) in characters().into_iter().enumerate() {
        map.insert(T::from(c), row)?;
    }
    let mut found = map.len() == 21;
    for (row, c) in characters().into_iter().enumerate() {
        found = found && map.get(&T::from(c)).copied() == Some(row);
    }
    Ok(
        found
            && strangers()
                .into_iter()
                .all(|c| !map.contains_key(&T::from(c))),
    )
}

// Returns true if a hash map with the characters of the table as keys finds each at its index, and no other.
fn hashed_map_finds<T: From<char> + Eq + Hash + Copy + Drop>(
    alloc: Global,
) -> Result<bool, AllocError> {
    let mut map = HashMap::new(alloc);
    for (row, c) in characters().into_iter().enumerate() {
        map.insert(T::from(c), row)?;
    }
    let mut found = map.len() == 21;
    for (row, c) in characters().into_iter().enumerate() {
        found = found && map.get(&T::from(c)).copied() == Some(row);
    }
    Ok(
        found
            && strangers()
                .into_iter()
                .all(|c| !map.contains_key(&T::from(c))),
    )
}

#[test]
fn maps_find_their_characters(rt: HostRuntime) -> Result<(), Fail> {
    let alloc = rt.alloc();
    assert!(rt; ordered_map_finds::<Utf8Char>(alloc)? && ordered_map_finds::<Utf16Char>(alloc)?);
    assert!(rt; hashed_map_finds::<Utf8Char>(alloc)? && hashed_map_finds::<Utf16Char>(alloc)?);
    for c in characters() {
        assert!(rt; hash_alike(c), "at {c:?}");
    }
    Ok(())
}
