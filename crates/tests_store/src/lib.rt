//! Tests of disks, journals, slots, project files and salvages: worked examples, and devices that fail.
#![tactic(auto)]

#[cfg(test)]
mod checkpoint;
#[cfg(test)]
mod disk;
#[cfg(test)]
mod disks;
#[cfg(test)]
mod expect;
#[cfg(test)]
mod file_disk;
#[cfg(test)]
mod group_stops;
#[cfg(test)]
mod journal;
#[cfg(test)]
mod journal_stops;
#[cfg(test)]
mod project;
#[cfg(test)]
mod project_groups;
#[cfg(test)]
mod project_room;
#[cfg(test)]
mod project_stops;
#[cfg(test)]
mod read_ahead;
mod ready;
#[cfg(test)]
mod salvage;
#[cfg(test)]
mod slots;
pub mod small;
