//! Tests of runs: lines and their answers, in memory and over projects, and scripts.
#![tactic(auto)]

#[cfg(test)]
mod answers;
#[cfg(test)]
mod builds;
#[cfg(test)]
mod drawn_groups;
#[cfg(test)]
mod editor;
#[cfg(test)]
mod expect;
#[cfg(test)]
mod groups;
#[cfg(test)]
mod project_run;
#[cfg(test)]
mod scripts;
pub mod streams;
#[cfg(test)]
mod sweeping;
#[cfg(test)]
mod sweeps;
#[cfg(test)]
mod told;
