ghost use Rattle.std.specs.Prelude.{◌≡◌, IfOk, false, true};
ghost use Rattle.clap.specs.Words.{App, Rule, app_of, new_app, rule_of, with_rule, with_subcommand};
ghost use Rattle.command_line.specs.Commands.{check, explain, flag, mrjob, network, option, plan, play, run};
ghost use Rattle.command_line.specs.Commands.{serve, word};

use clap::{Arg, ArgAction, Command};
use std::alloc::{AllocError, Global};

/// The version of the program, as the file VERSION has it.
pub(crate) const VERSION: &str = "1.1.0";

const ABOUT: &str = "\
Plans the map starts of a MapReduce job at the least byte-distance, certifies plans by prices, plays
scripts of a job, serves a live master, and runs jobs on threads";

const STATUSES: &str = "\
Statuses:
  0   certified, planned, every part of a script or a job is done, or help was asked for
  1   refused by a condition, or stuck: a script or a job ended before every part was done
  2   the text has a fault
  3   no memory
  4   a read or a write failed
  5   a wave or a plan ahead of a script starts more splits than there are attempts left, or a job has
      no place left for an event, a sweep or an attempt
  6   a job's history is not made of its threads' calls, or a thread could not be started
  64  the words of the command line are wrong, or a direct network of more than 1,024 splits or 256
      workers, or with prices of places, was asked for
  141 the reader of the answer has gone

Examples:
  mrjob plan --prices < examples/plan_swap.txt
  mrjob check < examples/swap.txt
  mrjob play < examples/play_death.txt
  mrjob run < examples/run_words.txt

docs/MODEL.md defines the texts and the answers.";

const CHECK_ABOUT: &str = "Certifies a plan by its prices, or says which condition fails";

const CHECK_TEXTS: &str = "\
Input:   a problem, a plan and its prices, as text on standard input
Output:  `certified COUNT COST`, with prices of places `certified COUNT COST PLACES`; or
         `refused CONDITION NAME..`, or `line LINE: fault NUMBER`
Status:  0 certified, 1 refused, 2 fault; `mrjob --help` has the others
Try:     mrjob check < examples/swap.txt
More:    docs/MODEL.md, from `Certificate` on

Example of an input, which is answered by `certified 1 0`:
  problem 1
  rack r
  worker a r 2
  split s 10 a
  plan
  start s a
  price s 41
  price a 0
  end";

const EXPLAIN_HELP: &str =
    "Says on standard error what a fault, a refusal or an ignored command means; it does so unasked \
     where that is a terminal";

const PLAN_ABOUT: &str = "Plans a job's map starts at the least byte-distance";

const PRICES_HELP: &str = "Writes the prices too, which certify the plan";

const NETWORK_HELP: &str =
    "Seeks the plan over this network, direct or racks; over either it is best";

const PLAN_TEXTS: &str = "\
Input:   a problem, as text on standard input
Output:  `wave COUNT COST`, with prices of places `wave COUNT COST PLACES`; then
         `start SPLIT WORKER` for each start, and with --prices `price NAME NUMBER` for each split
         and worker; or `line LINE: fault NUMBER`
Status:  0 planned, 2 fault; `mrjob --help` has the others
Try:     mrjob plan --prices < examples/plan_swap.txt
More:    docs/MODEL.md, `Texts` and `The answer of plan`

Example of an input:
  problem 1
  rack r
  worker a r 2
  split s 10 a
  end

With --prices it is answered by:
  wave 1 0
  start s a
  price s 41
  price a 0";

const PLAY_ABOUT: &str = "Plays a script of a job's commands, and reports what each one did";

const QUIET_HELP: &str =
    "Does not tell how far it is; else it does so where standard error is a terminal";

const PLAY_TEXTS: &str = "\
Input:   a script, as text on standard input: a cluster, its documents, and commands
Output:  `accepted PLACE` or `ignored WHY` for each command, with the lines of what it did; at last
         the index of the documents, or the splits that are not done; or `line LINE: fault NUMBER`
Status:  0 every part is done, 1 stuck, 2 fault, 5 history full; `mrjob --help` has the others
Try:     mrjob play < examples/play_death.txt
More:    docs/MODEL.md, `The answer of play` and `The master's machine`

Example of an input:
  script 1
  rack r
  worker a r 1
  split s 10 a
  doc d s The cat
  begin
  wave
  done 1
  reduce
  done 2
  end

It is answered by:
  accepted 1
  wave 1 0
  start 1 s a
  accepted 2
  accepted 3
  reduce 2 0 a
  accepted 4
  index 2
  word cat d
  word the d";

const SERVE_ABOUT: &str =
    "Serves a live master, which answers each command before it reads the next one";

const NO_AUDIT_HELP: &str =
    "Keeps no wave for an `audit`, which is then ignored, so that a wave copies no problem";

const SERVE_TEXTS: &str = "\
Input:   on standard input the head of a script and `begin`, then one command a line, and `end`
Output:  an empty line once the master is open, then the lines of `play` for each command; each answer
         ends with an empty line. A faulty command is answered by `fault NUMBER`, and changes nothing.
         `workers`, `open` and `outputs`, each alone on its line, ask what stands, and `audit` for the
         last wave as a text to check. Lines `start SPLIT WORKER` and `price NAME N` say a plan of your
         own, which `commit` starts if its prices certify it, and `drop` drops
Status:  0 every part is done, 1 stuck, 2 the head has a fault, or the input ended before `end`;
         `mrjob --help` has the others
Try:     mrjob serve < examples/serve_session.txt
More:    docs/MODEL.md, `The answer of serve`

Example of an input:
  script 1
  rack r
  worker a r 1
  split s 10 a
  begin
  wave
  end

It is answered by:

  accepted 1
  wave 1 0
  start 1 s a

  stuck 1
  open s";

const RUN_ABOUT: &str =
    "Runs a job, each of its workers a thread, and writes the index of its documents";

const HISTORY_HELP: &str = "Writes first all that was done, one event after another";

const AHEAD_HELP: &str =
    "Plans ahead, with queues of N waves' slots, 1 to 255: splits may wait for holders";

const RUN_TEXTS: &str = "\
Input:   a job, as text on standard input: a cluster and its documents; at most 32 workers, and in
         version 3 1,024
Output:  the index of the documents, or the splits that are not done; or `line LINE: fault NUMBER`;
         with --history, before these, what was done in the words of a script and its report
Deaths:  a worker whose thread gets no processor for some twice as many seconds as `silence` says,
         6 where it is absent, passes for dead, and what it ran is run again
Status:  0 every part is done, 1 stuck, 2 fault, 5 history full, 6 torn or no thread; `mrjob --help`
         has the others
Try:     mrjob run < examples/run_words.txt
More:    docs/MODEL.md, `The answer of run` and `A job on threads`

Example of an input:
  job 1
  rack r
  worker a r 1
  worker b r 1
  split s 10 a
  split t 20 b
  doc d s The cat
  doc e t A dog, the cat
  end

It is answered by:
  index 4
  word a e
  word cat d e
  word dog e
  word the d e";

const EXPLAIN_ABOUT: &str = "Says what a fault, a condition, a reason or a status means";

const KIND_HELP: &str = "fault, condition, ignored or status; or a condition's name alone";

const NAME_HELP: &str = "The number, of a condition the name";

const EXPLAIN_TEXTS: &str = "\
Output:  `KIND NAME: SENTENCE`, or without words this line of each fault, condition, reason and status
Status:  0, or 64 where nothing is said of the words
Try:     mrjob explain fault 5
         mrjob explain C6
         mrjob explain ignored 12
         mrjob explain status 6
More:    docs/MODEL.md";

// A command of this name with its texts.
fn command_of<'a>(alloc: Global, name: &'a str, about: &'a str, texts: &'a str) -> Command<'a>
    ensures { app_of result ≡ new_app name.now }
{
    Command::new(alloc, name).about(about).after_help(texts)
}

// A flag of this name, which takes no value.
fn flag_of<'a>(alloc: Global, name: &'a str, help: &'a str) -> Arg<'a>
    ensures rule { rule_of result ≡ flag name.now }
    ensures local { result.global ≡ false }
{
    Arg::new(alloc, name)
        .long(name)
        .help(help)
        .action(ArgAction::SetTrue)
}

// A word of this name in its place, which need not be there; help shows it as told.
fn word_of<'a>(alloc: Global, name: &'a str, shown: &'a str, help: &'a str) -> Arg<'a>
    ensures rule { rule_of result ≡ word name.now }
    ensures local { result.global ≡ false }
{
    Arg::new(alloc, name).help(help).value_name(shown)
}

// An option of this name, which takes a value; help shows the value as told.
fn option_of<'a>(alloc: Global, name: &'a str, shown: &'a str, help: &'a str) -> Arg<'a>
    ensures rule { rule_of result ≡ option name.now }
    ensures local { result.global ≡ false }
{
    word_of(alloc, name, shown, help).long(name)
}

fn network_option<'a>(alloc: Global) -> Arg<'a>
    ensures rule { rule_of result ≡ network }
    ensures local { result.global ≡ false }
{
    option_of(alloc, "network", "NETWORK", NETWORK_HELP).default_value("racks")
}

// The command with one more argument, where there was memory to make it.
fn with_arg<'a>(
    command: Result<Command<'a>, AllocError>,
    arg: Arg<'a>,
) -> Result<Command<'a>, AllocError>
    ensures { (app : App) (rule : Rule) → IfOk command.entry (λ made. app_of made ≡ app)
        → rule_of arg.entry ≡ rule → arg.entry.global ≡ false
        → IfOk result (λ after. app_of after ≡ with_rule app rule) }
{
    command?.arg(arg)
}

fn check_command<'a>(alloc: Global) -> Result<Command<'a>, AllocError>
    ensures { IfOk result (λ command. app_of command ≡ check) }
{
    let command = Ok(command_of(alloc, "check", CHECK_ABOUT, CHECK_TEXTS));
    with_arg(command, flag_of(alloc, "explain", EXPLAIN_HELP))
}

fn play_command<'a>(alloc: Global) -> Result<Command<'a>, AllocError>
    ensures { IfOk result (λ command. app_of command ≡ play) }
{
    let command = Ok(command_of(alloc, "play", PLAY_ABOUT, PLAY_TEXTS));
    let command = with_arg(command, flag_of(alloc, "quiet", QUIET_HELP));
    with_arg(command, flag_of(alloc, "explain", EXPLAIN_HELP))
}

fn serve_command<'a>(alloc: Global) -> Result<Command<'a>, AllocError>
    ensures { IfOk result (λ command. app_of command ≡ serve) }
{
    let command = Ok(command_of(alloc, "serve", SERVE_ABOUT, SERVE_TEXTS));
    with_arg(command, flag_of(alloc, "no-audit", NO_AUDIT_HELP))
}

/// The command that runs a job.
pub(crate) fn run_command<'a>(alloc: Global) -> Result<Command<'a>, AllocError>
    ensures { IfOk result (λ command. app_of command ≡ run) }
{
    let command = Ok(command_of(alloc, "run", RUN_ABOUT, RUN_TEXTS));
    let command = with_arg(command, option_of(alloc, "ahead", "N", AHEAD_HELP));
    let command = with_arg(command, flag_of(alloc, "history", HISTORY_HELP));
    let command = with_arg(command, flag_of(alloc, "quiet", QUIET_HELP));
    with_arg(command, flag_of(alloc, "explain", EXPLAIN_HELP))
}

/// The command that explains.
pub(crate) fn explain_command<'a>(alloc: Global) -> Result<Command<'a>, AllocError>
    ensures { IfOk result (λ command. app_of command ≡ explain) }
{
    let command = Ok(command_of(alloc, "explain", EXPLAIN_ABOUT, EXPLAIN_TEXTS));
    let command = with_arg(command, word_of(alloc, "kind", "KIND", KIND_HELP));
    with_arg(command, word_of(alloc, "name", "NAME", NAME_HELP))
}

/// The command that plans.
pub(crate) fn plan_command<'a>(alloc: Global) -> Result<Command<'a>, AllocError>
    ensures { IfOk result (λ command. app_of command ≡ plan) }
{
    let command = Ok(command_of(alloc, "plan", PLAN_ABOUT, PLAN_TEXTS));
    let command = with_arg(command, flag_of(alloc, "prices", PRICES_HELP));
    let command = with_arg(command, network_option(alloc));
    with_arg(command, flag_of(alloc, "explain", EXPLAIN_HELP))
}

// The commands with one more, where there was memory to make them.
fn with_command<'a>(
    commands: Result<Command<'a>, AllocError>,
    command: Result<Command<'a>, AllocError>,
) -> Result<Command<'a>, AllocError>
    ensures { (program new : App) → IfOk commands.entry (λ made. app_of made ≡ program)
        → IfOk command.entry (λ made. app_of made ≡ new) → new.top.is_plain ≡ true
        → IfOk result (λ after. app_of after ≡ with_subcommand program new.top) }
{
    commands?.subcommand(command?)
}

/// `mrjob` and its commands.
pub(crate) fn all_commands<'a>(alloc: Global) -> Result<Command<'a>, AllocError>
    ensures { IfOk result (λ commands. app_of commands ≡ mrjob) }
{
    let commands = command_of(alloc, "mrjob", ABOUT, STATUSES)
        .version(VERSION)
        .subcommand_required(true);
    let commands = with_command(Ok(commands), check_command(alloc));
    let commands = with_command(commands, plan_command(alloc));
    let commands = with_command(commands, play_command(alloc));
    let commands = with_command(commands, serve_command(alloc));
    let commands = with_command(commands, run_command(alloc));
    with_command(commands, explain_command(alloc))
}
