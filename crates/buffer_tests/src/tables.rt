//! Tables that change again and again, and a long one.
ghost use Rattle.std.specs.Prelude.{◌<◌, ◌≤◌, ◌+◌, length};

use cuts::PieceTable;
use encode_unicode::{Steps, Utf8Char};
use fakes::budget::Budget;
use std::alloc::{AllocError, Allocator};
use std::process::Abort;
use std::test::Fail;

// Replaces one byte by two, in at most eight steps, whatever the table.
fn put_two<A: Allocator + Copy>(
    table: &mut PieceTable<A>,
    place: u32,
    steps: &mut Steps,
) -> Result<(), AllocError>
    requires { place < length table.old.bytes }
    ensures { steps.new ≤ steps.old + 8 }
{
    let start = place as usize;
    table.replace(start, start + 1, b"\xc3\xa9", steps)
}

#[test]
fn one_character_changes_among_ten_thousand(rt: HostRuntime) -> Result<(), Fail> {
    let bytes = vec![in rt.alloc(); b'a'; 10_000]?;
    let mut table = PieceTable::new(rt.alloc(), bytes.as_slice())?;
    put_two(&mut table, 5_000, &mut Steps::new())?;
    assert!(rt; table.pieces().len() == 10_000);
    for (count, item) in table.pieces().iter().enumerate() {
        let place = if count <= 5_000 { count } else { count + 1 };
        let c = if count == 5_000 { '\u{e9}' } else { 'a' };
        assert!(rt; *item == (place, Ok(Utf8Char::new(c)), c.len_utf8()));
    }
    Ok(())
}

#[test]
fn a_table_has_a_million_bytes(rt: HostRuntime) -> Result<(), Fail> {
    let bytes = vec![in rt.alloc(); b'a'; 1_000_000]?;
    let mut table = PieceTable::new(rt.alloc(), bytes.as_slice())?;
    put_two(&mut table, 999_999, &mut Steps::new())?;
    assert!(rt; table.bytes().len() == 1_000_001 && table.pieces().len() == 1_000_000);
    let last = (999_999, Ok(Utf8Char::new('\u{e9}')), 2);
    assert!(rt; table.pieces().last() == Some(&last));
    Ok(())
}

// Replaces some bytes of a table of ten thousand by `count` characters of two bytes; the pieces are then
// those that std finds.
fn takes_many<A: Allocator + Copy>(
    rt: &impl Abort,
    alloc: A,
    range: (usize, usize),
    count: usize,
) -> Result<(), Fail>
    requires ordered { range.0 ≤ range.1 }
    requires within { range.1 ≤ 10000 }
    requires countable { count ≤ 1000000 }
{
    let (start, end) = range;
    let mut new = String::new(alloc);
    for _ in 0..count {
        new.push('\u{e9}')?;
    }
    let mut table = PieceTable::new(alloc, &[b'a'; 10_000])?;
    let answer = table.replace(start, end, new.as_bytes(), &mut Steps::new());
    assert!(rt; answer.is_ok(), "{count} characters from {start} to {end}");
    assert!(rt;
        table
            .bytes()
            .get(start..)
            .is_some_and(|rest| rest.starts_with(new.as_bytes()))
    );
    are_those_of_std(rt, &table, 10_000 - (end - start) + count);
    Ok(())
}

fn are_those_of_std<A: Allocator + Copy>(rt: &impl Abort, table: &PieceTable<A>, count: usize) {
    assert!(rt; table.pieces().len() == count);
    let text = str::from_utf8(table.bytes()).unwrap_or("");
    assert!(rt; text.len() == table.bytes().len());
    for (item, (place, c)) in table.pieces().iter().zip(text.char_indices()) {
        assert!(rt; *item == (place, Ok(Utf8Char::new(c)), c.len_utf8()));
    }
}

// There is enough memory, and no count is too large.
#[test]
fn many_bytes_are_replaced_by_many(rt: HostRuntime) -> Result<(), Fail> {
    for count in [0, 1, 2_047, 2_048, 2_049, 32_767, 32_768, 500_000] {
        for range in [
            (0, 0),
            (5_000, 5_000),
            (10_000, 10_000),
            (100, 9_900),
            (0, 10_000),
        ] {
            takes_many(&rt, rt.alloc(), range, count)?;
        }
    }
    Ok(())
}

// A series of replacements leaves what a table made anew of the bytes has.
#[test]
fn replacements_follow_each_other(rt: HostRuntime) -> Result<(), Fail> {
    let mut table = PieceTable::new(rt.alloc(), b"\xf0\x9f\x92\xa3a\xc3\xa9\xe2\x82\xac")?;
    let news: [&[u8]; 6] = [
        b"",
        b"\x80",
        b"\xe2\x82",
        b"ab\xf4",
        b"\xf0\x90\x80\x80\x80",
        b"\xff",
    ];
    for round in 0..60 {
        let start = round * 7 % (table.bytes().len() + 1);
        let end = (start + round % 4).min(table.bytes().len());
        table.replace(start, end, news[round % 6], &mut Steps::new())?;
        let anew = PieceTable::new(rt.alloc(), table.bytes())?;
        assert!(rt; table.pieces() == anew.pieces(), "in round {round}");
    }
    assert!(rt; table.bytes().len() == 46);
    Ok(())
}

#[test]
fn nothing_takes_the_place_of_nothing_without_memory(rt: HostRuntime) -> Result<(), Fail> {
    let budget = Budget::new(rt.alloc(), u32::MAX);
    let bytes = b"a\xf0\x90\x80";
    let mut table = PieceTable::new(&budget, bytes)?;
    budget.allow(0);
    for wanted in 0..=bytes.len() {
        let place = wanted.min(table.bytes().len());
        table.replace(place, place, b"", &mut Steps::new())?;
        assert!(rt; table.bytes() == bytes.as_slice() && table.pieces().len() == 4);
    }
    Ok(())
}
