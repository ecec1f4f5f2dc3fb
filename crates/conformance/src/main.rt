//! Compares the codec with vectors that another program computed, and prints how many agree.
//!
//! A row that differs is printed too, and the status is then 1.
#![tactic(auto)]

mod answers;
mod asked;
mod characters;
mod decoders;
mod parts;
mod recodings;
mod rows;
mod runs;
mod texts;
mod units;

use crate::asked::CallRow;
use crate::recodings::{Feeding, RecodedRow};
use crate::rows::Row;
use crate::runs::Run;
use crate::units::{UnitRow, UnitRun};
use std::process::ExitCode;
use std::{fs, io};

fn main(rt: HostRuntime) -> io::Result<ExitCode> {
    let bytes = bytes_agree(&rt)?;
    let units = units_agree(&rt)?;
    let recoded = recoded_agree(&rt)?;
    let calls = calls_agree(&rt)?;
    Ok(ExitCode::from(u8::from(!(bytes && units && recoded && calls))))
}

// Compares each kind of run with the rows of bytes. Returns whether all agree.
fn bytes_agree(rt: &HostRuntime) -> io::Result<bool> {
    let text = fs::read_to_string(rt, "bytes.txt")?;
    let rows = rows::parse(rt.alloc(), &text)?;
    let mut all = true;
    for run in [
        Run::Front,
        Run::Decoder,
        Run::Listing,
        Run::Walk,
        Run::Merger,
    ] {
        all &= report_bytes(rt, run, rows.as_slice())?;
    }
    Ok(all)
}

fn units_agree(rt: &HostRuntime) -> io::Result<bool> {
    let text = fs::read_to_string(rt, "units.txt")?;
    let rows = units::parse(rt.alloc(), &text)?;
    let mut all = true;
    for run in [UnitRun::Decoder, UnitRun::Merger, UnitRun::Walk] {
        all &= report_units(rt, run, rows.as_slice())?;
    }
    Ok(all)
}

fn recoded_agree(rt: &HostRuntime) -> io::Result<bool> {
    let text = fs::read_to_string(rt, "recode.txt")?;
    let rows = recodings::parse(rt.alloc(), &text)?;
    let mut all = true;
    for feeding in [Feeding::Whole, Feeding::ByteByByte] {
        all &= report_recoded(rt, feeding, rows.as_slice())?;
    }
    Ok(all)
}

fn calls_agree(rt: &HostRuntime) -> io::Result<bool> {
    let text = fs::read_to_string(rt, "calls.txt")?;
    let rows = asked::parse(rt.alloc(), &text)?;
    report_calls(rt, rows.as_slice())
}

// Prints how many of the rows agree under one kind of run, and each that does not. Returns whether all do.
fn report_bytes(rt: &HostRuntime, run: Run, rows: &[Row<'_>]) -> io::Result<bool> {
    let mut differing = Vec::new(rt.alloc());
    for row in rows {
        if !run.agrees(rt.alloc(), row)? {
            differing.push(row.text)?;
        }
    }
    report(rt, run.name(), rows.len(), &differing)
}

fn report_units(rt: &HostRuntime, run: UnitRun, rows: &[UnitRow<'_>]) -> io::Result<bool> {
    let mut differing = Vec::new(rt.alloc());
    for row in rows {
        if !run.agrees(rt.alloc(), row)? {
            differing.push(row.text)?;
        }
    }
    report(rt, run.name(), rows.len(), &differing)
}

fn report_recoded(rt: &HostRuntime, feeding: Feeding, rows: &[RecodedRow<'_>]) -> io::Result<bool> {
    let mut differing = Vec::new(rt.alloc());
    for row in rows {
        if !feeding.agrees(rt.alloc(), row)? {
            differing.push(row.text)?;
        }
    }
    report(rt, feeding.name(), rows.len(), &differing)
}

fn report_calls(rt: &HostRuntime, rows: &[CallRow<'_>]) -> io::Result<bool> {
    let mut differing = Vec::new(rt.alloc());
    for row in rows {
        if !row.agrees(rt.alloc())? {
            differing.push(row.text)?;
        }
    }
    report(rt, "calls", rows.len(), &differing)
}

fn report(rt: &HostRuntime, name: &str, count: usize, differing: &[&str]) -> io::Result<bool> {
    for text in differing {
        println!(rt; "{name}: differs at {text}")?;
    }
    let equal = count.saturating_sub(differing.len());
    println!(rt; "{name}: {count} inputs, {equal} equal")?;
    Ok(differing.is_empty())
}
