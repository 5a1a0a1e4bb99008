//! Tests of pieces, partitions, trees and levels: worked examples, and maps whose lines cross one another.
#![tactic(auto)]

#[cfg(test)]
mod drawing;
#[cfg(test)]
mod expect;
#[cfg(test)]
mod foreign;
#[cfg(test)]
mod graphics;
#[cfg(test)]
mod imports;
#[cfg(test)]
mod lines;
#[cfg(test)]
mod listing;
#[cfg(test)]
mod nodes;
#[cfg(test)]
mod partition;
#[cfg(test)]
mod pwad;
#[cfg(test)]
mod rebuilt;
#[cfg(test)]
mod segs;
#[cfg(test)]
mod tangle;
#[cfg(test)]
mod tangles;
#[cfg(test)]
mod wads;
