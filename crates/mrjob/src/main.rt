//! `mrjob`: plans the map starts of a MapReduce job, with prices that show each plan best.
//!
//! The commands stand in `tools`, `job_play`, `live_master` and `job_run`, whose contracts say what is
//! written for what was read. `main` hands them the standard streams and turns how they end into a status and
//! words on standard error, by the table of `tools::Ending`.
#![tactic(auto)]

ghost use Rattle.std.specs.Prelude.{◌≡◌};
ghost use Rattle.mrjob.specs.Ending.{ending_of_error, ending_of_play, ending_of_run};

mod aside;
mod console;
mod terminal;

use crate::aside::Aside;
use crate::console::Console;
use crate::terminal::Terminal;
use answer_notes::Listening;
use command_line::ask;
use command_line::asked::{
    Ask, AskError, CheckOptions, PlanOptions, PlayOptions, RunOptions, ServeOptions,
};
use command_runner::ToolError;
use explanations::Entry;
use job_play::{PlayEnd, play_observed};
use job_run::{PlainGate, RunEnd, RunError, RunTextError, run_text_observed};
use live_master::serve;
use std::io::{BufReader, Stdout};
use std::process::ExitCode;
use std::rt::Clock;
use std::sync::Wait;
use std::thread::Threads;
use std::{env, io, thread};
use tools::{Ending, Message, check_on, explain, plan};

fn main(rt: HostRuntime) -> ExitCode {
    let ending = run(&rt, &rt);
    if let Some(message) = ending.message() {
        tell(&rt, message);
    }
    ExitCode::from(ending.status())
}

// Tells a message on standard error; one that can't be written is left out.
fn tell(rt: &HostRuntime, message: Message) {
    let words = message.words;
    let _ = match message.number {
        Some(number) => eprintln!(rt; "{words}{number}"),
        None => eprintln!(rt; "{words}"),
    };
}

// Only `main` can say that its runtime starts threads and may wait, so what does is handed on beside it.
fn run(rt: &HostRuntime, threads: &(impl Threads + Wait + Clock + Sync)) -> Ending {
    match given_words(rt) {
        Ok(given) => answer(rt, threads, &given),
        Err(error) if error.kind() == io::ErrorKind::OutOfMemory => {
            Ending::Failed(ToolError::Memory)
        }
        Err(_) => {
            let _ = eprintln!(rt; "mrjob: the words are not text");
            Ending::Misused
        }
    }
}

fn given_words(rt: &HostRuntime) -> io::Result<Vec<String>> {
    let mut given = Vec::new(rt.alloc());
    for word in env::args(rt)? {
        given.push(word)?;
    }
    Ok(given)
}

fn answer(
    rt: &HostRuntime,
    threads: &(impl Threads + Wait + Clock + Sync),
    given: &Vec<String>,
) -> Ending {
    let mut words = Vec::new(rt.alloc());
    for word in given {
        if words.push(word.as_str()).is_err() {
            return Ending::Failed(ToolError::Memory);
        }
    }
    match ask(rt.alloc(), words.as_slice()) {
        Ok(ask) => run_command(rt, threads, ask),
        Err(error) => show(rt, &error),
    }
}

fn run_command(
    rt: &HostRuntime,
    threads: &(impl Threads + Wait + Clock + Sync),
    ask: Ask,
) -> Ending {
    match ask {
        Ask::Check(options) => run_check(rt, threads, options),
        Ask::Plan(options) => run_plan(rt, options),
        Ask::Play(options) => run_play(rt, options),
        Ask::Serve(options) => run_serve(rt, options),
        Ask::Run(options) => run_beside(rt, threads, options),
        Ask::Explain(entry) => run_explain(rt, entry),
    }
}

fn run_explain(rt: &HostRuntime, entry: Option<Entry>) -> Ending {
    let mut output = Aside::new(rt, false).writer();
    or_left(
        Ending::of_explaining(explain(rt.alloc(), &mut output, entry)),
        &output,
    )
}

fn run_check(rt: &HostRuntime, threads: &(impl Threads + Sync), options: CheckOptions) -> Ending {
    let aside = Aside::new(rt, options.explain);
    let (mut input, mut output) = (aside.reader(), aside.writer());
    let end = check_on(threads, rt.alloc(), &mut input, &mut output);
    aside.tell_check(&input, &end);
    or_left(Ending::of_check(end), &output)
}

fn run_plan(rt: &HostRuntime, options: PlanOptions) -> Ending {
    let aside = Aside::new(rt, options.explain);
    let (mut input, mut output) = (aside.reader(), aside.writer());
    let end = plan(rt.alloc(), &mut input, &mut output, options);
    if let Err(error) = end {
        aside.tell_fault(&input, error);
    }
    or_left(Ending::of_plan(end), &output)
}

fn run_play(rt: &HostRuntime, options: PlayOptions) -> Ending {
    let aside = Aside::new(rt, options.explain);
    let (mut input, mut output) = (aside.reader(), aside.listening_writer());
    let told = Terminal::new(rt, options.quiet);
    let end = play_observed(rt.alloc(), &mut input, &mut output, &told);
    told.clear();
    match end {
        Ok(_) => aside.tell_reasons(&output),
        Err(error) => aside.tell_fault(&input, error),
    }
    or_left(of_play(end), &output)
}

// Each answer is flushed before the next line is read.
fn run_serve(rt: &HostRuntime, options: ServeOptions) -> Ending {
    let mut output = Console::new(rt, Aside::new(rt, false).writer());
    match BufReader::new(rt.alloc(), rt.stdin()) {
        Ok(reader) => {
            let mut input = reader;
            let end = serve(rt.alloc(), &mut input, &mut output, !options.no_audit);
            or_left(of_play(end), output.writer())
        }
        Err(_) => Ending::Failed(ToolError::Memory),
    }
}

// How much stack the thread asks for that runs a job, several times what it uses. The first thread has as much as
// the limit on stacks says, which may be too little.
const STACK_BYTES: usize = 524_288;

// Runs a job in a thread with a stack of its own.
fn run_beside(
    rt: &HostRuntime,
    threads: &(impl Threads + Wait + Clock + Sync),
    options: RunOptions,
) -> Ending {
    thread::scope(thread::scope_env(), threads, |scope| {
        let builder = thread::Builder::new().stack_size(STACK_BYTES);
        match builder.spawn_scoped(scope, move || run_job(rt, threads, options)) {
            Ok(thread) => thread.join(threads),
            Err(_) => Ending::NoThread,
        }
    })
}

fn run_job(
    rt: &HostRuntime,
    threads: &(impl Threads + Wait + Clock + Sync),
    options: RunOptions,
) -> Ending {
    let aside = Aside::new(rt, options.explain);
    let (mut input, mut output) = (aside.reader(), aside.writer());
    let told = Terminal::new(rt, options.quiet);
    let end = run_text_observed(
        threads,
        rt.alloc(),
        &mut input,
        &mut output,
        &PlainGate,
        &told,
        options.ahead,
        options.history,
    );
    told.clear();
    if let Err(RunTextError::Tool(error)) = end {
        aside.tell_fault(&input, error);
    }
    or_left(of_run(end), &output)
}

// A write that failed since nobody reads any more needs no words.
fn or_left(ending: Ending, output: &Listening<Stdout>) -> Ending {
    match ending {
        Ending::Failed(ToolError::Write) if output.is_left() => Ending::Left,
        _ => ending,
    }
}

// The end of a program whose playing ended so.
fn of_play(end: Result<PlayEnd, ToolError>) -> Ending
    ensures { result ≡ ending_of_play end }
{
    match end {
        Ok(PlayEnd::Done) => Ending::Well,
        Ok(PlayEnd::Stuck) => Ending::Stuck,
        Err(error) => Ending::Failed(error),
    }
}

// The end of a program whose run ended so.
fn of_run(end: Result<RunEnd, RunTextError>) -> Ending
    ensures { result ≡ ending_of_run end }
{
    match end {
        Ok(RunEnd::Done) => Ending::Well,
        Ok(RunEnd::Stuck) => Ending::Stuck,
        Err(RunTextError::Tool(error)) => Ending::Failed(error),
        Err(RunTextError::Run(error)) => of_error(error),
    }
}

// The end of a program whose job has no outcome.
fn of_error(error: RunError) -> Ending
    ensures { result ≡ ending_of_error error }
{
    match error {
        RunError::Memory => Ending::Failed(ToolError::Memory),
        RunError::HistoryFull => Ending::Failed(ToolError::HistoryFull),
        RunError::Torn(place) => Ending::Torn(place),
        RunError::NoThread => Ending::NoThread,
        RunError::GateLimit => Ending::GateLimit,
    }
}

// Prints why the words name no command. Help that can't be written is a fault of writing.
fn show(rt: &HostRuntime, error: &AskError) -> Ending {
    let ending = Ending::of_asking(error);
    if let AskError::Fault(text) = error {
        if text.print(rt).is_err() && ending == Ending::Well {
            return Ending::Failed(ToolError::Write);
        }
    }
    ending
}
