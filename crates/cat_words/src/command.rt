// The command that `clap` knows the program by.
ghost use Rattle.std.specs.Prelude.{◌≡◌, IfOk, false};
ghost use Rattle.clap.specs.Words.{app_of, new_rule, rule_of};
ghost use Rattle.cat_words.specs.TheCommand.{cases_rule, required_rule, the_command};

use clap::{Arg, Command};
use std::alloc::{AllocError, Global};

/// A word that has to be there.
fn required<'a>(alloc: Global, id: &'a str) -> Arg<'a>
    ensures rule { rule_of result ≡ required_rule id.entry.now }
    ensures local { result.global ≡ false }
{
    Arg::new(alloc, id).required(true)
}

/// The option `--cases N`.
fn cases<'a>(alloc: Global) -> Arg<'a>
    ensures rule { rule_of result ≡ cases_rule }
    ensures local { result.global ≡ false }
{
    Arg::new(alloc, "cases")
        .long("cases")
        .value_parser(clap::value_parser!(u32).range(1..=1_000_000))
}

/// The program's command.
pub(crate) fn command<'a>(alloc: Global) -> Result<Command<'a>, AllocError>
    ensures { IfOk result (λ command. app_of command ≡ the_command) }
{
    Command::new(alloc, "catala")
        .no_binary_name(true)
        .arg(required(alloc, "MODE"))?
        .arg(required(alloc, "SCOPE"))?
        .arg(required(alloc, "FILE"))?
        .arg(Arg::new(alloc, "EXTRA"))?
        .arg(cases(alloc))
}
