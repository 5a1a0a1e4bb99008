//! What `help` explains besides the subcommands.
ghost use Rattle.std.specs.Prelude.{◌≡◌};
ghost use Rattle.cli_words.specs.Help.{topic_of};

/// What `help TOPIC` explains.
#[derive(Clone, Copy, Debug)]
pub enum Topic {
    /// `codes`: the refusals.
    Codes,
    /// `scripts`: the lines and words of scripts.
    Scripts,
}

// The topic with the name.
pub fn topic_of(name: &str) -> Option<Topic>
    ensures { result ≡ topic_of name.now }
{
    match name {
        "codes" => Some(Topic::Codes),
        "scripts" => Some(Topic::Scripts),
        _ => None,
    }
}
