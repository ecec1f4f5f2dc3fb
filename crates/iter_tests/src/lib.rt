//! Tests of iterators: over codes and texts, decoders, mergers, and the calls that collect.
#![tactic(auto)]

#[cfg(test)]
mod adapters;
#[cfg(test)]
mod clones;
#[cfg(test)]
mod codes;
#[cfg(test)]
mod collected;
#[cfg(test)]
mod debug_texts;
#[cfg(test)]
mod decoders;
#[cfg(test)]
mod hints;
#[cfg(test)]
mod mergers;
#[cfg(test)]
mod refusals;
#[cfg(test)]
mod sources;
#[cfg(test)]
mod splitters;
#[cfg(test)]
mod texts;
