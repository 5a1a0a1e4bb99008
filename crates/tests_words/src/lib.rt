//! Tests of the program's arguments.
#![tactic(auto)]

#[cfg(test)]
mod asked;
#[cfg(test)]
mod boxes;
#[cfg(test)]
mod requests;
#[cfg(test)]
mod rules;
mod words;

pub use words::split;
