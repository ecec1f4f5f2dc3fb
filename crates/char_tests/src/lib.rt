//! Tests of the three types of a character, `char`, `Utf8Char` and `Utf16Char`, of decoding one, of single bytes and
//! units, of the errors, and of the table of classes and states.
#![tactic(auto)]

#[cfg(test)]
mod cases;
#[cfg(test)]
mod error_texts;
#[cfg(test)]
mod front_bytes;
#[cfg(test)]
mod front_units;
#[cfg(test)]
mod numbers;
#[cfg(test)]
mod orders;
#[cfg(test)]
mod singles;
#[cfg(test)]
mod steps;
#[cfg(test)]
mod unchecked;
