//! Compares whole runs, programs, tables and recoders with rows that another program computed. Each read,
//! write and allocation of each row also fails in turn, until none does.
//!
//! It prints how many rows agree. A row that differs, or that cannot be read, is printed too, and the status is then
//! 1.
#![tactic(auto)]

mod columns;
mod entries;
mod lines;
mod lists;
mod places;
mod recodings;
mod replacements;
mod runs;
mod strict;
mod trials;

use crate::recodings::{held_agree, parts_agree, refused_parts_agree, rooms_agree, shards_agree};
use crate::trials::{growths_agree, interrupted_agree, reads_agree, writes_agree};
use std::alloc::Global;
use std::process::ExitCode;
use std::{fs, io};

fn main(rt: HostRuntime) -> io::Result<ExitCode> {
    let all = [
        programs_agree(&rt)?,
        lists_agree(&rt)?,
        recodings_agree(&rt)?,
        blocks_agree(&rt)?,
    ];
    Ok(ExitCode::from(u8::from(all.contains(&false))))
}

#[rattlefmt::skip]
fn programs_agree(rt: &HostRuntime) -> io::Result<bool> {
    let all = [
        report(rt, "runs of both programs", "runs.txt", runs::agrees)?,
        report(rt, "each read refused", "runs.txt", reads_agree)?,
        report(rt, "each read interrupted", "runs.txt", interrupted_agree)?,
        report(rt, "each write refused", "runs.txt", writes_agree)?,
        report(rt, "each growth refused", "runs.txt", growths_agree)?,
        report(rt, "each growth of a longer run refused", "long_runs.txt", growths_agree)?,
        report(rt, "each write of lines refused", "runs.txt", lines::agrees)?,
    ];
    Ok(!all.contains(&false))
}

#[rattlefmt::skip]
fn lists_agree(rt: &HostRuntime) -> io::Result<bool> {
    let all = [
        report(rt, "entries written", "entries.txt", entries::agrees)?,
        report(rt, "lists collected, each growth refused", "lists.txt", lists::agrees)?,
        report(rt, "longer lists collected, each growth refused", "long_lists.txt", lists::agrees)?,
    ];
    Ok(!all.contains(&false))
}

#[rattlefmt::skip]
fn recodings_agree(rt: &HostRuntime) -> io::Result<bool> {
    let (short, long) = ("recodings.txt", "long_recodings.txt");
    let all = [
        report(rt, "recoded in parts", short, parts_agree)?,
        report(rt, "recoded in parts, each growth refused", short, refused_parts_agree)?,
        report(rt, "recoded into rooms of each size", short, rooms_agree)?,
        report(rt, "longer inputs recoded in parts", long, parts_agree)?,
        report(rt, "longer inputs recoded into rooms of each size", long, rooms_agree)?,
        report(rt, "recoded in two shards", short, shards_agree)?,
        report(rt, "held before more is fed", "held.txt", held_agree)?,
        report(rt, "text before the first fault", "strict.txt", strict::agrees)?,
        report(rt, "text before the first fault of a reader", "strict.txt", strict::stream_agrees)?,
        report(rt, "places and sizes", "places.txt", places::agrees)?,
    ];
    Ok(!all.contains(&false))
}

#[rattlefmt::skip]
fn blocks_agree(rt: &HostRuntime) -> io::Result<bool> {
    let blocks = "blocks.txt";
    let all = [
        report(rt, "replacements, each growth refused", "replacements.txt", replacements::agrees)?,
        report(rt, "blocks recoded in parts", blocks, parts_agree)?,
        report(rt, "blocks recoded into rooms of each size", blocks, rooms_agree)?,
        report(rt, "blocks recoded in two shards", blocks, shards_agree)?,
        report(rt, "how far blocks are well-formed", "block_places.txt", places::agrees)?,
    ];
    Ok(!all.contains(&false))
}

// Prints how many rows of the file agree, and each that does not. Returns whether all do.
fn report<F: Fn(Global, &str) -> io::Result<bool>>(
    rt: &HostRuntime,
    name: &str,
    file: &str,
    agrees: F,
) -> io::Result<bool>
    requires { F.IsAlwaysCallable agrees }
{
    let text = fs::read_to_string(rt, file)?;
    let mut count = 0u32;
    let mut equal = 0u32;
    for row in text.lines() {
        if row.starts_with('#') {
            continue;
        }
        count = count.saturating_add(1);
        match agrees(rt.alloc(), row) {
            Ok(true) => equal = equal.saturating_add(1),
            Ok(false) => println!(rt; "{name}: differs at {row}")?,
            Err(error) => println!(rt; "{name}: {error} at {row}")?,
        }
    }
    println!(rt; "{name}: {count} rows, {equal} equal")?;
    Ok(count == equal)
}
