//! Tests of lumps, maps, commands, findings, warnings, dumps, scripts and pictures: worked examples, and maps that
//! commands draw.
#![tactic(auto)]

#[cfg(test)]
mod bodies;
#[cfg(test)]
mod checks;
#[cfg(test)]
mod commands;
#[cfg(test)]
mod crossed;
#[cfg(test)]
mod draw;
pub mod drawing;
#[cfg(test)]
mod dump;
#[cfg(test)]
mod expect;
#[cfg(test)]
mod lines;
#[cfg(test)]
mod lint;
#[cfg(test)]
mod lumps;
#[cfg(test)]
mod maps;
#[cfg(test)]
mod maptables;
#[cfg(test)]
mod picture;
#[cfg(test)]
mod shapes;
#[cfg(test)]
mod sheet;
#[cfg(test)]
mod stops;
#[cfg(test)]
mod textures;
