//! The one command by which `clap` reads the words.

ghost use Rattle.std.specs.Prelude.{◌≡◌, IfOk, false};
ghost use Rattle.clap.specs.Words.{app_of, rule_of};
ghost use Rattle.dwz_words.specs.Command.{demo_rule, dwz_command, file_rule};
ghost use Rattle.dwz_words.specs.Command.{letter_rule, long_flag_rule, long_rule, quiet_rule, workers_rule};

use clap::{Arg, ArgAction, Command};
use dwz_model::NoMemory;
use std::alloc::Global;

fn quiet_flag<'a>(alloc: Global) -> Arg<'a>
    ensures rule { rule_of result ≡ quiet_rule }
    ensures local { result.global ≡ false }
{
    Arg::new(alloc, "q").short('q').action(ArgAction::SetTrue)
}

/// A flag, by a name.
fn long_flag<'a>(alloc: Global, name: &'a str) -> Arg<'a>
    ensures rule { rule_of result ≡ long_flag_rule name.entry.now }
    ensures local { result.global ≡ false }
{
    Arg::new(alloc, name).long(name).action(ArgAction::SetTrue)
}

/// An option with one value, by a letter.
fn letter_option<'a>(alloc: Global, id: &'a str, letter: char) -> Arg<'a>
    ensures rule { rule_of result ≡ letter_rule id.entry.now letter }
    ensures local { result.global ≡ false }
{
    Arg::new(alloc, id).short(letter).action(ArgAction::Set)
}

/// An option with one value, by a name.
fn long_option<'a>(alloc: Global, name: &'a str) -> Arg<'a>
    ensures rule { rule_of result ≡ long_rule name.entry.now }
    ensures local { result.global ≡ false }
{
    Arg::new(alloc, name).long(name).action(ArgAction::Set)
}

fn workers_option<'a>(alloc: Global) -> Arg<'a>
    ensures rule { rule_of result ≡ workers_rule }
    ensures local { result.global ≡ false }
{
    letter_option(alloc, "j", 'j')
        .value_parser(clap::value_parser!(u32).range(1..=64))
        .default_value("4")
}

fn demo_option<'a>(alloc: Global) -> Arg<'a>
    ensures rule { rule_of result ≡ demo_rule }
    ensures local { result.global ≡ false }
{
    Arg::new(alloc, "demo")
        .long("demo")
        .action(ArgAction::Set)
        .value_parser(clap::value_parser!(u32).range(2..=10_000))
}

fn file_words<'a>(alloc: Global) -> Arg<'a>
    ensures rule { rule_of result ≡ file_rule }
    ensures local { result.global ≡ false }
{
    Arg::new(alloc, "FILE").num_args(0..)
}

/// `[-q] [--dwarf-5] [-m COMMON [-M NAME]] [-o OUT] [-j N] FILE...`, `--demo N`, `--reuse COMMON [-M NAME] [-o OUT] [-j N] FILE...`,
/// `--batch COMMON [-M NAME] [-j N] FILE...`, `--explain FILE OFFSET FILE OFFSET`, `--expand FILE [--sup COMMON] -o OUT`, and
/// `--check OLD NEW [--sup COMMON]`.
pub(crate) fn make_command<'a>(alloc: Global) -> Result<Command<'a>, NoMemory>
    ensures { IfOk result (λ command. app_of command ≡ dwz_command) }
{
    let bare = Command::new(alloc, "dwz")
        .no_binary_name(true)
        .disable_help_flag(true)
        .disable_version_flag(true);
    let flagged = bare
        .arg(quiet_flag(alloc))?
        .arg(long_flag(alloc, "dwarf-5"))?;
    let named = flagged
        .arg(letter_option(alloc, "m", 'm'))?
        .arg(letter_option(alloc, "M", 'M'))?
        .arg(letter_option(alloc, "o", 'o'))?;
    let numbered = named.arg(workers_option(alloc))?.arg(demo_option(alloc))?;
    let filed = numbered.arg(file_words(alloc))?;
    let asked = filed
        .arg(long_flag(alloc, "explain"))?
        .arg(long_flag(alloc, "check"))?;
    let beside = asked.arg(long_option(alloc, "sup"))?;
    let expanding = beside.arg(long_flag(alloc, "expand"))?;
    let reusing = expanding.arg(long_option(alloc, "reuse"))?;
    reusing.arg(long_option(alloc, "batch"))
}
