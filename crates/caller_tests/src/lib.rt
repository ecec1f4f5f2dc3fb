//! Tests of the callers in `examples`: what they return, with expected values from outside.
#![tactic(auto)]

#[cfg(test)]
mod asked;
#[cfg(test)]
mod callers;
#[cfg(test)]
mod codes;
#[cfg(test)]
mod fronts;
