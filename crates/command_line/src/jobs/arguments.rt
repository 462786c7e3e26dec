//! The arguments that several commands take, and what the words of a command line give for them.

ghost use Rattle.std.specs.Prelude.{◌≡◌, ◌↔◌, ◌≤◌, List, IfOk, IfErr, IfSome, IsTrue, codes, option_map, string_bytes};
ghost use Rattle.clap.specs.Words.{Rule, first_of, found_of, rows_of};
ghost use Rattle.step_trace.specs.CorrectSets.{IsCorrectIn};
ghost use Rattle.command_line.specs.Arguments.{AreArguments, IsArgument, IsCommand, IsListFaultOf, IsUnknown};
ghost use Rattle.command_line.specs.Arguments.{TellsList, command_app, correct_rule, file_rule, flag_in, flag_rule};
ghost use Rattle.command_line.specs.Arguments.{number_in, optional_number_in, option_rule, optional_positional_rule};
ghost use Rattle.command_line.specs.Arguments.{optional_rule, positional_rule, tick_in, tick_rule};

use crate::line_errors::LineError;
use clap::builder::ValueParser;
use clap::{Arg, ArgAction, ArgMatches, Command};
use std::alloc::{AllocError, Global};
use step_trace::Correct;

const FILE_HELP: &str = "The trace text; - is standard input";

pub const CORRECT_HELP: &str = "The correct processors, from 1 to 64: 1,2,5, or all, or none";

/// The command of this name, with these texts for its help, that takes these arguments.
pub fn new_command<'a>(
    alloc: Global,
    name: &'a str,
    about: &'a str,
    help: &'a str,
    arguments: Vec<Arg<'a>>,
) -> Result<Command<'a>, AllocError>
    ensures { (rules : List Rule) → AreArguments rules arguments.entry.items
        → IfOk result (IsCommand (command_app name.entry.now rules)) }
{
    Command::new(alloc, name)
        .about(about)
        .after_help(help)
        .args(arguments)
}

/// The argument FILE.
pub fn file_argument<'a>(alloc: Global) -> Arg<'a>
    ensures { IsArgument file_rule result }
{
    positional_argument(alloc, "file", "FILE", FILE_HELP)
}

/// The option --correct LIST.
pub fn correct_argument<'a>(alloc: Global) -> Arg<'a>
    ensures { IsArgument correct_rule result }
{
    option_argument(alloc, "correct", "LIST", CORRECT_HELP)
}

/// A required argument that is known by its place, and not by `--NAME`.
pub fn positional_argument<'a>(
    alloc: Global,
    name: &'a str,
    value_name: &'a str,
    help: &'a str,
) -> Arg<'a>
    ensures { IsArgument (positional_rule name.entry.now) result }
{
    Arg::new(alloc, name)
        .value_name(value_name)
        .help(help)
        .required(true)
        .action(ArgAction::Set)
}

/// An argument that is known by its place, and may be left out.
pub fn optional_positional_argument<'a>(
    alloc: Global,
    name: &'a str,
    value_name: &'a str,
    help: &'a str,
) -> Arg<'a>
    ensures { IsArgument (optional_positional_rule name.entry.now) result }
{
    Arg::new(alloc, name)
        .value_name(value_name)
        .help(help)
        .action(ArgAction::Set)
}

/// A required option `--NAME VALUE`.
pub fn option_argument<'a>(
    alloc: Global,
    name: &'a str,
    value_name: &'a str,
    help: &'a str,
) -> Arg<'a>
    ensures { IsArgument (option_rule name.entry.now) result }
{
    optional_argument(alloc, name, value_name, help).required(true)
}

/// An option `--NAME VALUE`, which may be left out.
pub fn optional_argument<'a>(
    alloc: Global,
    name: &'a str,
    value_name: &'a str,
    help: &'a str,
) -> Arg<'a>
    ensures { IsArgument (optional_rule name.entry.now) result }
{
    Arg::new(alloc, name)
        .long(name)
        .value_name(value_name)
        .help(help)
        .action(ArgAction::Set)
}

/// An option `--NAME TICK`, which may be left out.
pub fn tick_argument<'a>(alloc: Global, name: &'a str, help: &'a str) -> Arg<'a>
    ensures { IsArgument (tick_rule name.entry.now) result }
{
    optional_argument(alloc, name, "TICK", help).value_parser(ValueParser::unsigned(0, u64::MAX))
}

/// A flag `--NAME`, which takes no value.
pub fn flag_argument<'a>(alloc: Global, name: &'a str, help: &'a str) -> Arg<'a>
    ensures { IsArgument (flag_rule name.entry.now) result }
{
    Arg::new(alloc, name)
        .long(name)
        .help(help)
        .action(ArgAction::SetTrue)
}

/// The text of this name, if the matches have one.
pub fn text<'a>(found: &ArgMatches<'a>, name: &str) -> Option<&'a str>
    ensures { option_map (λ text. text.now) result ≡ first_of name.now
        (rows_of (found_of found.now)) }
{
    found.get_str(name)
}

/// The number of this name, if the matches have one within these bounds.
pub fn number(found: &ArgMatches<'_>, name: &str, least: u64, most: u64) -> Option<u64>
    ensures value { result ≡ number_in (rows_of (found_of found.now)) name.now least most }
    ensures low { IfSome result (λ value. least ≤ value) }
    ensures high { IfSome result (λ value. value ≤ most) }
{
    let word = text(found, name)?;
    let Ok(value) = word.parse::<u64>() else {
        return None;
    };
    if value < least || value > most {
        return None;
    }
    Some(value)
}

/// The number of this name within these bounds, or none if the matches have no word of this name. None if they have
/// another word of it.
pub fn optional_number(
    found: &ArgMatches<'_>,
    name: &str,
    least: u64,
    most: u64,
) -> Option<Option<u64>>
    ensures value { result ≡ optional_number_in (rows_of (found_of found.now)) name.now least most }
    ensures low { IfSome result (λ given. IfSome given (λ value. least ≤ value)) }
    ensures high { IfSome result (λ given. IfSome given (λ value. value ≤ most)) }
{
    match text(found, name) {
        Some(_) => Some(Some(number(found, name, least, most)?)),
        None => Some(None),
    }
}

/// The tick of this name, or none if the matches have no word of this name. None if they have another word of it.
pub fn tick(found: &ArgMatches<'_>, name: &str) -> Option<Option<u64>>
    ensures { result ≡ tick_in (rows_of (found_of found.now)) name.now }
{
    match text(found, name) {
        Some(_) => Some(Some(number(found, name, 0, u64::MAX)?)),
        None => Some(None),
    }
}

/// Whether the flag of this name was given; None if the matches don't have it.
pub fn flag(found: &ArgMatches<'_>, name: &str) -> Option<bool>
    ensures { result ≡ flag_in (rows_of (found_of found.now)) name.now }
{
    match text(found, name)? {
        "true" => Some(true),
        "false" => Some(false),
        _ => None,
    }
}

/// A copy of a text, if there is one.
pub fn kept(alloc: Global, text: Option<&str>) -> Result<Option<String>, AllocError>
    ensures { IfOk result
        (λ kept. option_map string_bytes kept ≡ option_map (λ t. t.now) text.entry) }
{
    match text {
        Some(text) => Ok(Some(String::from_str(alloc, text)?)),
        None => Ok(None),
    }
}

/// The processors that the list of this option names.
pub fn correct_in(alloc: Global, option: &str, list: &str) -> Result<Correct, LineError>
    ensures named { IfOk result (IsCorrectIn list.now) }
    ensures refused { IfErr result (IsListFaultOf option.now list.now) }
{
    match Correct::parse(list) {
        Some(correct) => Ok(correct),
        None => Err(refused_list(alloc, option)?),
    }
}

/// The refusal of a list of this option, which says on a second line what the option takes.
fn refused_list(alloc: Global, option: &str) -> Result<LineError, AllocError>
    ensures { IfOk result (TellsList option.now) }
{
    let words = format!(in alloc;
        "synchrony: bad --{option}\nsynchrony: --{option} takes all, none, or numbers from 1 to 64 with one comma between them"
    )?;
    Ok(LineError::Refused(words))
}

/// Whether the file of a job is standard input.
pub fn names_standard_input(file: &str) -> bool
    ensures { IsTrue result ↔ (file.now ≡ codes "-") }
{
    file == "-"
}

/// The refusal of a command line that has none of the commands, or lacks a word of its command.
pub fn unknown(alloc: Global) -> Result<LineError, AllocError>
    ensures { IfOk result IsUnknown }
{
    let text = String::from_str(alloc, "synchrony: bad command line")?;
    Ok(LineError::Refused(text))
}
