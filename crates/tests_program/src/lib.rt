//! Tests of the program: each subcommand over streams and files.
#![tactic(auto)]

#[cfg(test)]
mod calls;
#[cfg(test)]
mod dumps;
#[cfg(test)]
mod expect;
#[cfg(test)]
mod file_faults;
#[cfg(test)]
mod inspection;
#[cfg(test)]
mod lints;
#[cfg(test)]
mod pictures;
#[cfg(test)]
mod project_file;
#[cfg(test)]
mod rebuilds;
#[cfg(test)]
mod scratch;
#[cfg(test)]
mod scripts;
#[cfg(test)]
mod typed;
#[cfg(test)]
mod wads;
