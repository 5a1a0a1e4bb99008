//! What the crates of tests share: tables that are texts.
#![tactic(auto)]

mod rows;

pub use rows::{
    expect_rows, expect_scripts, expect_text, halves, meant, number, part, said, script_halves,
    script_meant,
};
