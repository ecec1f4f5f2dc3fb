//! Tests of the callers in `run_examples`: what they return, with expected values from outside.
#![tactic(auto)]

#[cfg(test)]
mod bounds;
#[cfg(test)]
mod faults;
#[cfg(test)]
mod growing;
#[cfg(test)]
mod lossy;
#[cfg(test)]
mod parts;
#[cfg(test)]
mod places;
#[cfg(test)]
mod repair;
#[cfg(test)]
mod shards;
#[cfg(test)]
mod undo;
