//! The words by which `lint` chooses what it prints.
ghost use Rattle.std.specs.Prelude.{◌≡◌, map, option_map, string_bytes};
ghost use Rattle.std.specs.List.{list_any};
ghost use Rattle.std.specs.Str.{bytes_eq};
ghost use Rattle.cli_words.specs.RuleWords.{is_rule_word, unknown_word};

/// The word of the lines of `check`, and those of the rules, in the order of what `lint` prints.
pub const RULE_WORDS: &[&str] = &[
    "check",
    "no-start",
    "start-twice",
    "few-deathmatch-starts",
    "ceiling-below-floor",
    "tag-missing",
    "tag-of-no-sector",
    "tag-of-no-line",
    "line-special-unknown",
    "sector-special-unknown",
    "thing-type-unknown",
    "texture-hidden",
    "sector-inside-out",
    "line-crossed",
    "thing-outside",
    "door-without-back",
    "donut-without-back",
    "too-many-scrolls",
    "teleport-nowhere",
    "no-exit",
    "key-missing",
    "too-many-neighbours",
    "thing-stuck",
    "flat-unknown",
    "texture-unknown",
    "texture-short",
    "texture-patched",
];

// Whether a word is one of some words.
fn is_among(words: &[&str], word: &str) -> bool
    ensures { result ≡ list_any (λ known. bytes_eq known.now word.now) words.now }
{
    words.iter().any(|known| *known == word)
}

// Whether a word is one of the rules' words.
#[tactic(auto, unfolding(crate::specs::RuleWords::is_rule_word))]
fn is_rule_word(word: &str) -> bool
    ensures { result ≡ is_rule_word word.now }
{
    is_among(RULE_WORDS, word)
}

/// The first of the words that is none of the rules' words.
pub(crate) fn unknown_word<'a>(words: &'a [String]) -> Option<&'a str>
    ensures { option_map (λ w. w.now) result ≡ unknown_word (map string_bytes words.now) }
{
    for word in words {
        if !is_rule_word(word.as_str()) {
            return Some(word.as_str());
        }
    }
    None
}
