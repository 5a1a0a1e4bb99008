//! What stops or spoils a game of a map on the engine of 1997.
#![tactic(auto)]

mod bodies;
mod crowds;
mod donuts;
mod doors;
mod exits;
mod game;
mod games;
mod items;
mod locks;
mod near;
mod neighbours;
mod scrolls;
mod sided;
mod specials;
mod steps;
mod stuck;
mod tags;
mod teleports;
mod walls;

pub use doors::door_without_back;
pub use game::{
    GameFacts, game_facts, is_donut_gap, is_scroll_too_many, is_stuck, leads_nowhere,
    overfills_list, stays_locked,
};
pub use locks::Keys;
pub use sided::SidedLine;
pub use tags::{tag_count, tag_of};
