//! What a command line gives for an option.
ghost use Rattle.std.specs.Prelude.{◌≡◌, ◌↔◌, Contains, IsTrue, option_map};
ghost use Rattle.clap.specs.Words.{first_value, found_of};
ghost use Rattle.dmr_options.specs.Found.{IsFlagOf, text_of, texts_of};

use clap::ArgMatches;

/// The text of an option that is required, or has a default.
pub fn text_of<'a>(matches: &ArgMatches<'a>, option: &str) -> &'a str
    ensures text { result.now ≡ text_of (found_of matches.now) option.now }
{
    given_text_of(matches, option).unwrap_or("")
}

/// The text of an option that may be left out, where it is given.
pub fn given_text_of<'a>(matches: &ArgMatches<'a>, option: &str) -> Option<&'a str>
    ensures text { option_map (λ text. text.now) result ≡ first_value (found_of matches.now) option.now }
{
    matches.get_str(option)
}

/// Whether this is one of the texts of an option that may be given several times.
pub fn is_text_of(matches: &ArgMatches<'_>, option: &str, text: &str) -> bool
    ensures given { IsTrue result ↔ Contains (texts_of (found_of matches.now) option.now) text.now }
{
    match matches.get_strs(option) {
        Some(texts) => texts.contains(&text),
        None => false,
    }
}

/// Whether an option is given that takes no text.
pub fn flag_of(matches: &ArgMatches<'_>, option: &str) -> bool
    ensures flag { IsFlagOf (found_of matches.now) option.now result }
{
    matches.get_flag(option)
}
