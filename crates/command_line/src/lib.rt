//! What the words of the command line ask for.
//!
//! The words are parsed by `clap` and are handed in, the program's name first, so that nothing here
//! reads the process's own state or prints. Above it stands `main`, which prints the text of a fault
//! and exits with its status. The table of commands is `commands.rt`: a command more is a function there,
//! a variant of `Ask` and an arm of `ask_by_name`.
#![tactic(auto)]

ghost use Rattle.std.specs.Prelude.{◌≡◌, [], Err, IfOk, IsOk, MatchOption, MatchResult, Ok, Some, codes, map};
ghost use Rattle.std.specs.Option.{option_map};
ghost use Rattle.clap.specs.Walk.{texts};
ghost use Rattle.clap.specs.Words.{first_value, found_of, kind_of};
ghost use Rattle.clap.specs.declared.error.kind.ErrorKind.TheVariants.{InvalidValue};
ghost use Rattle.command_line.specs.Commands.{AsksAhead, AsksBy, HasFault, IsOneOf, IsRefusedBy};
ghost use Rattle.command_line.specs.Commands.{NamesNoNetwork, NamesNoRow, NamesNoWaves, RefusesValue};
ghost use Rattle.command_line.specs.Commands.{asked_row, command_in, command_word, faults_in, is_set};
ghost use Rattle.command_line.specs.Commands.{mrjob, value_in, word_of};
ghost use Rattle.explanations.specs.Table.{row_of};

pub mod asked;
mod commands;

use crate::asked::{
    Ask, AskError, CheckOptions, PlanOptions, PlayOptions, RunOptions, ServeOptions,
};
use crate::commands::{all_commands, explain_command, plan_command, run_command};
use clap::error::ErrorKind;
use clap::{ArgMatches, Command};
use explanations::{Entry, entry_named};
use flow_network::NetworkKind;
use std::alloc::{AllocError, Global};

const UNKNOWN_NETWORK: &str = "\
invalid value for '--network <NETWORK>'
  [possible values: direct, racks]";

const NO_WAVES: &str = "\
invalid value for '--ahead <N>'
  [possible values: 1 to 255]";

const UNKNOWN_ROW: &str = "\
nothing is said of these words; `mrjob explain` alone says all that is said";

// A text says no number that is asked for.
struct NoNumber;

/// The command that the words ask for with its options, the program's name being the first word.
pub fn ask<'a>(alloc: Global, words: &'a [&'a str]) -> Result<Ask, AskError>
    ensures command { IfOk result (λ ask. command_in (texts words.entry.now) ≡ Some (command_word ask)) }
    ensures options { IfOk result (AsksBy (λ id. value_in id (texts words.entry.now))) }

    // An answer comes only for words in which clap finds no fault, and a fault is one that the words
    // have: a mistake, or their wish for help.
    ensures ok { IsOk result → faults_in (texts words.entry.now) ≡ [] }
    ensures fault { (error : _) → result ≡ Err (AskError.Fault error)
        → HasFault (texts words.entry.now) (kind_of error) }
{
    let Ok(commands) = all_commands(alloc) else {
        return Err(AskError::Memory);
    };
    match commands.try_get_matches_from(words) {
        Ok(matches) => {
            let Some((name, options)) = matches.subcommand() else {
                unreachable!()
            };
            ask_by_name(alloc, name, options)
        }
        Err(error) if error.kind() == ErrorKind::OutOfMemory => Err(AskError::Memory),
        Err(error) => Err(AskError::Fault(error)),
    }
}

// What is asked for by the command of this name, with its options.
fn ask_by_name(alloc: Global, name: &str, options: &ArgMatches) -> Result<Ask, AskError>
    requires { IsOneOf (Some name.now) (map (λ s. s.name) mrjob.subs) }
    ensures command { IfOk result (λ ask. name.now ≡ command_word ask) }
    ensures options { IfOk result (AsksBy (first_value (found_of options.now))) }
    ensures fault { (error : _) → result ≡ Err (AskError.Fault error)
        → (kind_of error ≡ InvalidValue) × IsRefusedBy (Some name.now) (first_value (found_of options.now)) }
{
    match name {
        "check" => Ok(Ask::Check(CheckOptions {
            explain: is_given(options, "explain"),
        })),
        "plan" => ask_for_plan(alloc, options),
        "play" => Ok(Ask::Play(PlayOptions {
            quiet: is_given(options, "quiet"),
            explain: is_given(options, "explain"),
        })),
        "serve" => Ok(Ask::Serve(ServeOptions {
            no_audit: is_given(options, "no-audit"),
        })),
        "run" => ask_for_run(alloc, options),
        "explain" => ask_for_rows(alloc, options),
        _ => unreachable!(),
    }
}

// The plan that is asked for.
fn ask_for_plan(alloc: Global, options: &ArgMatches) -> Result<Ask, AskError>
    ensures plan { IfOk result (λ ask. command_word ask ≡ codes "plan") }
    ensures options { IfOk result (AsksBy (first_value (found_of options.now))) }
    ensures fault { (error : _) → result ≡ Err (AskError.Fault error)
        → (kind_of error ≡ InvalidValue)
        × NamesNoNetwork (first_value (found_of options.now) (codes "network")) }
{
    match network_named(options) {
        Some(network) => Ok(Ask::Plan(PlanOptions {
            prices: is_given(options, "prices"),
            network,
            explain: is_given(options, "explain"),
        })),
        None => Err(no_value(plan_command(alloc), UNKNOWN_NETWORK)),
    }
}

// The run that is asked for.
fn ask_for_run(alloc: Global, options: &ArgMatches) -> Result<Ask, AskError>
    ensures run { IfOk result (λ ask. command_word ask ≡ codes "run") }
    ensures options { IfOk result (AsksBy (first_value (found_of options.now))) }
    ensures fault { (error : _) → result ≡ Err (AskError.Fault error)
        → (kind_of error ≡ InvalidValue) × NamesNoWaves (first_value (found_of options.now) (codes "ahead")) }
{
    match waves_asked(options) {
        Ok(ahead) => Ok(Ask::Run(RunOptions {
            ahead,
            history: is_given(options, "history"),
            quiet: is_given(options, "quiet"),
            explain: is_given(options, "explain"),
        })),
        Err(NoNumber) => Err(no_value(run_command(alloc), NO_WAVES)),
    }
}

// How many waves are to be planned ahead.
fn waves_asked(options: &ArgMatches) -> Result<Option<u8>, NoNumber>
    ensures { MatchResult result (AsksAhead (first_value (found_of options.now) (codes "ahead")))
        (λ _. NamesNoWaves (first_value (found_of options.now) (codes "ahead"))) }
{
    let Some(text) = options.get_str("ahead") else {
        return Ok(None);
    };
    match text.parse::<u8>() {
        Ok(waves) if waves > 0 => Ok(Some(waves)),
        _ => Err(NoNumber),
    }
}

// The rows of the table that are asked for.
fn ask_for_rows(alloc: Global, words: &ArgMatches) -> Result<Ask, AskError>
    ensures explain { IfOk result (λ ask. command_word ask ≡ codes "explain") }
    ensures options { IfOk result (AsksBy (first_value (found_of words.now))) }
    ensures fault { (error : _) → result ≡ Err (AskError.Fault error)
        → (kind_of error ≡ InvalidValue)
        × NamesNoRow (first_value (found_of words.now) (codes "kind"))
        (first_value (found_of words.now) (codes "name")) }
{
    let Some(kind) = words.get_str("kind") else {
        return Ok(Ask::Explain(None));
    };
    match row_asked(kind, words.get_str("name")) {
        Some(entry) => Ok(Ask::Explain(Some(entry))),
        None => Err(no_value(explain_command(alloc), UNKNOWN_ROW)),
    }
}

// The row of the table that these words name; one word is the name of a condition.
fn row_asked(kind: &str, name: Option<&str>) -> Option<Entry>
    ensures { option_map row_of result ≡ asked_row (Some kind.now) (option_map (λ n. n.now) name.entry) }
{
    match name {
        Some(name) => entry_named(kind, name),
        None => entry_named("condition", kind),
    }
}

// Whether the flag is given.
fn is_given(options: &ArgMatches, flag: &str) -> bool
    ensures { result ≡ is_set (first_value (found_of options.now) flag.now) }
{
    match options.get_str(flag) {
        // (clap keeps a flag as this text)
        Some(text) => text == "true",
        None => false,
    }
}

// The network that the option names.
fn network_named(options: &ArgMatches) -> Option<NetworkKind>
    ensures { MatchOption result (NamesNoNetwork (first_value (found_of options.now) (codes "network")))
        (λ network. first_value (found_of options.now) (codes "network") ≡ Some (word_of network)) }
{
    match options.get_str("network") {
        Some("direct") => Some(NetworkKind::Direct),
        Some("racks") => Some(NetworkKind::Racks),
        _ => None,
    }
}

// The fault of words that have a value which is none.
fn no_value(command: Result<Command<'_>, AllocError>, text: &str) -> AskError
    ensures { RefusesValue result }
{
    let Ok(mut command) = command else {
        return AskError::Memory;
    };
    match command.error(ErrorKind::InvalidValue, text) {
        Ok(error) => AskError::Fault(error),
        Err(_) => AskError::Memory,
    }
}
