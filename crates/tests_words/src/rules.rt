//! The words of rules, which `lint` takes with `--only` and `--except`.

use crate::asked::asked;
use std::test::Fail;
use tests_rows::expect_text;

// The words of all lines that COMMANDS.md has, and words that are none of these.
const RULES: &str = "\
    check no-start start-twice few-deathmatch-starts ceiling-below-floor tag-missing tag-of-no-sector tag-of-no-line \
    line-special-unknown sector-special-unknown thing-type-unknown texture-hidden sector-inside-out line-crossed \
    thing-outside door-without-back donut-without-back too-many-scrolls teleport-nowhere no-exit key-missing \
    too-many-neighbours thing-stuck flat-unknown texture-unknown texture-short texture-patched";

const NO_RULES: &str = ",CHECK,no-map,line,crossed,no-exit ,findings";

// What `lint` asks for with this option and this word.
fn asked_with(rt: &HostRuntime, option: &str, word: &str) -> Result<String, Fail> {
    asked(rt.alloc(), &["leveled", "lint", "f", option, word])
}

#[test]
fn takes_the_words_of_rules_alone(rt: HostRuntime) -> Result<(), Fail> {
    for word in RULES.split(' ') {
        let found = asked_with(&rt, "--only", word)?;
        expect_text(word, found.as_str(), "another request")?;
    }
    for word in NO_RULES.split(',') {
        let found = asked_with(&rt, "--except", word)?;
        expect_text(
            word,
            found.as_str().strip_prefix("no rule ").unwrap_or("none"),
            word,
        )?;
    }
    Ok(())
}
