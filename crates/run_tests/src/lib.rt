//! Tests of what no row says: lines, positions, surveys, long inputs, first faults at each offset, every word of eight letters,
//! what programs print, and streams that fail.
#![tactic(auto)]

#[cfg(test)]
mod decoders;
#[cfg(test)]
mod first_faults;
#[cfg(test)]
mod guesses;
#[cfg(test)]
mod lines;
#[cfg(test)]
mod long_inputs;
#[cfg(test)]
mod mains;
#[cfg(test)]
mod positions;
#[cfg(test)]
mod programs;
#[cfg(test)]
mod rows;
#[cfg(test)]
mod streams;
#[cfg(test)]
mod streams_out_of_memory;
#[cfg(test)]
mod strict;
#[cfg(test)]
mod words;
