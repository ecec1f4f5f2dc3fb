//! Tests of texts that are edited: tables of pieces and text buffers that change again and again, also with failing
//! allocation.
#![tactic(auto)]

#[cfg(test)]
mod buffers;
#[cfg(test)]
mod tables;
