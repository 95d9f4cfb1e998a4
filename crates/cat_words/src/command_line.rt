// What the words of the command line ask for.
ghost use Rattle.std.specs.Prelude.{◌≡◌, ◌≤◌, IfOk, IfSome, map, option_map, string_bytes, codes};
ghost use Rattle.clap.specs.Words.{found_of, matches_of, one_of, rows_of};
ghost use Rattle.cat_words.specs.Asked.{all_found, asked_of, asked_by, found_in, most_asked, text_in, IsCases};
ghost use Rattle.cat_words.specs.Asked.{SpellsCases};
ghost use Rattle.cat_words.specs.TheCommand.{the_command};

use crate::command::command;
use clap::ArgMatches;
use clap::error::ErrorKind;
use std::alloc::{AllocError, Global};

/// How many cases an audit looks at where the words don't say it.
pub const DEFAULT_CASES: u32 = 100_000;

/// The words `MODE SCOPE FILE [EXTRA] [--cases N]`, as they were written.
#[derive(Clone, Copy, Debug)]
pub struct CommandLine<'a> {
    pub mode: &'a str,
    pub scope: &'a str,
    pub file: &'a str,
    pub extra: Option<&'a str>,
    /// From 1 to 1,000,000.
    pub cases: u32,
}

/// The words that were found, where each that has to be there was.
fn line_of<'a>(
    mode: Option<&'a str>,
    scope: Option<&'a str>,
    file: Option<&'a str>,
    extra: Option<&'a str>,
    cases: u32,
) -> Option<CommandLine<'a>>
    ensures asked { option_map asked_of result
        ≡ all_found (text_in mode.entry) (text_in scope.entry) (text_in file.entry) (text_in extra.entry) }
    ensures cases { IfSome result (λ line. line.cases ≡ cases) }
{
    Some(CommandLine {
        mode: mode?,
        scope: scope?,
        file: file?,
        extra,
        cases,
    })
}

/// How many cases are asked for.
fn cases_of(matches: &ArgMatches<'_>) -> u32
    requires { IfSome (one_of (codes "cases") (rows_of (found_of matches.now))) SpellsCases }
    ensures { IsCases (one_of (codes "cases") (rows_of (found_of matches.now))) result }
{
    matches.get_one::<u32>("cases").unwrap_or(DEFAULT_CASES)
}

/// What was found for each word.
fn found<'a>(matches: &ArgMatches<'a>) -> Option<CommandLine<'a>>
    requires { IfSome (one_of (codes "cases") (rows_of (found_of matches.now))) SpellsCases }
    ensures asked { option_map asked_of result ≡ found_in (rows_of (found_of matches.now)) }
    ensures cases { IfSome result (λ line.
        IsCases (one_of (codes "cases") (rows_of (found_of matches.now))) line.cases) }
{
    line_of(
        matches.get_str("MODE"),
        matches.get_str("SCOPE"),
        matches.get_str("FILE"),
        matches.get_str("EXTRA"),
        cases_of(matches),
    )
}

/// What the words after the program's name ask for; nothing where the command doesn't take them.
pub fn read_words<'a>(
    alloc: Global,
    words: &'a [String],
) -> Result<Option<CommandLine<'a>>, AllocError>
    ensures asked { IfOk result (λ line. option_map asked_of line ≡ asked_by (map string_bytes words.entry.now)) }
    ensures cases { IfOk result (λ line. IfSome line (λ l.
        IsCases (one_of (codes "cases") (matches_of the_command (map string_bytes words.entry.now))) l.cases)) }
    ensures range { IfOk result (λ line. IfSome line (λ l. (1 ≤ l.cases) × (l.cases ≤ most_asked))) }
{
    let command = command(alloc)?;
    match command.try_get_matches_from(words) {
        Ok(matches) => Ok(found(&matches)),
        Err(error) => {
            if error.kind() == ErrorKind::OutOfMemory {
                Err(AllocError)
            } else {
                Ok(None)
            }
        }
    }
}
