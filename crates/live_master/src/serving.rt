//! A live master: one line after another is answered, each before the next one is read.
ghost use Rattle.std.specs.Prelude.{◌≡◌, ◌≢◌, ◌+◌, ◌-◌, ◌++◌, ◌<◌, ◌≤◌, ◌^◌, [], IfErr, IfOk, OnOk, Some};
ghost use Rattle.std.specs.Prelude.{length, string_bytes, true};
ghost use Rattle.wave_problem.specs.Assignment.{pairs_of};
ghost use Rattle.line_shapes.specs.Lines.{statement_of};
ghost use Rattle.line_rules.specs.Reading.{IsFitLine, IsLeastError};
ghost use Rattle.line_rules.specs.Faults.{IsLeastOf};
ghost use Rattle.line_rules.specs.Texts.{LineHas};
ghost use Rattle.line_talk.specs.Talks.{IsOfReading, Replied, Said, closed};
ghost use Rattle.master_core.specs.Starts.{HasSizesOf};
ghost use Rattle.script_text.specs.Heads.{IsFitHead};
ghost use Rattle.script_text.specs.Ready.{AreFew};
ghost use Rattle.script_text.specs.Scripts.{IsOfHead, IsOpening};
ghost use Rattle.script_text.specs.declared.script.Command.TheVariants as command;
ghost use Rattle.text_lines.specs.Streams.{most_read};
ghost use Rattle.text_lines.specs.Texts.{Line};
ghost use Rattle.master_state.specs.States.{Setup};
ghost use Rattle.job_play.specs.Given.{HoldsRuns};
ghost use Rattle.job_play.specs.PlayAnswer.{cluster_in};
ghost use Rattle.job_play.specs.Reports.{IsKnownCommand, opening_job};
ghost use Rattle.live_master.specs.Plans.{IsNoCommand, planning, wave_lines};
ghost use Rattle.live_master.specs.Requests.{IsRequest, word_of};
ghost use Rattle.live_master.specs.Refusals.{refusal_line};
ghost use Rattle.live_master.specs.Serving.{Committed, CommittedPlan, GoesOnHearing, Hears, IsOpen, IsOpened};
ghost use Rattle.live_master.specs.Serving.{IsSession, Live, Obeys, PerformedLive, Replies, Told, live_of};
ghost use Rattle.live_master.specs.Serving.{no_draft, served_on};
ghost use Rattle.live_master.specs.Sessions.{CutsOff, IsEndOf, IsHead, Serves, ServesLines, TakesHeadLine};
ghost use Rattle.live_master.specs.Sessions.{Writes};

use crate::requests::{Request, add_all_outputs, add_open_work, request_of};
use command_runner::{NoAnswer, ToolError};
use job_play::clusters::cluster_of;
use job_play::ending::add_end;
use job_play::given::GivenRuns;
use job_play::performing::perform;
use job_play::waves::tell_wave;
use job_play::{PlayEnd, PlayError};
use line_rules::section::section_of;
use line_rules::{KnownLines, LineError, Purpose, Section, fault_answer, fit_line};
use line_shapes::{KeyedLine, Keyword, keyword_of};
use line_talk::{LineRead, MAX_HEARD_BYTES, TalkEnd, Talker, Turn, read_line, talk};
use master_core::{Master, are_parts_done};
use master_state::{CommitError, Limits, Wave, Why};
use node_ids::{SplitNo, WorkerNo};
use plan_draft::Draft;
use plan_text::check_report::refused;
use price_certificate::Prices;
use report_lines::{add_ignored, add_workers};
use script_text::{Command, Head, Names, Script, ScriptText, command_of, read_opening};
use std::alloc::{AllocError, Global};
use std::io::{BufRead, Write};
use text_lines::{Fault, MAX_READ_BYTES, TextFault, printable, write_text};
use wave_planner::pairs_of;
use wave_problem::{Plan, Problem};
use wave_text::wave_text;

/// The room that a live master has.
pub const SERVING_ROOM: Limits = Limits {
    events: 1_048_576,
    attempts: 1_000_000,
    sweeps: 65_536,
};

/// A wave that was started: the problem that it found, its plan, and the prices that certify the plan.
pub struct Audited {
    problem: Problem,
    plan: Plan,
    prices: Prices,
}

// (one call wherever it is dropped)
impl Drop for Audited {
    fn drop(self) {
        let Audited {
            problem: _,
            plan: _,
            prices: _,
        } = self;
    }
}

/// A live master, with what the head of its text says, its last wave if waves are kept for audits, and what
/// was said of a plan of the client's own.
pub struct Session<'t> {
    known: KnownLines<'t>,
    script: Script<'t>,
    master: Master,
    given: GivenRuns,
    audits: bool,
    last: Option<Audited>,
    draft: Draft,
}

// (one call wherever it is dropped)
impl<'t> Drop for Session<'t> {
    fn drop(self) {
        let Session {
            known: _,
            script: _,
            master: _,
            given: _,
            audits: _,
            last: _,
            draft: _,
        } = self;
    }
}

/// Serves the master of the head that stands first, one command or query after another: each line is answered
/// before the next line is read, and an empty line ends each answer. After `end` it answers how the script
/// has ended. A head with a fault, and an input that ends before `end`, end in `ToolError::Text`, whose fault is
/// written. With `audits` the last wave is kept for an audit, which copies the problem at each wave.
pub fn serve<R: BufRead, W: Write>(
    alloc: Global,
    reader: &mut R,
    writer: &mut W,
    audits: bool,
) -> Result<PlayEnd, ToolError>
    ensures { Serves audits (R.remaining reader.old) (R.remaining reader.new) (W.contents writer.old)
        (W.contents writer.new) result }
{
    let mut head = Vec::new(alloc);
    read_head(reader, &mut head)?;
    match read_opening(alloc, head.as_slice()) {
        Ok((opening, known)) => {
            let mut session = Session::new(alloc, opening, known, audits)?;
            write_answer(writer, String::new(alloc))?;
            serve_lines(alloc, &mut session, reader, writer)
        }
        Err(error) => {
            let (line, fault) = fault_answer(alloc, error)?;
            write_answer(writer, line)?;
            Err(ToolError::Text(fault))
        }
    }
}

// Reads the head, up to the first line that is no line of a head. Where that line is a `begin`, an `end` is
// put behind it.
fn read_head<R: BufRead>(reader: &mut R, head: &mut Vec<u8>) -> Result<(), ToolError>
    requires { head.old.items ≡ [] }
    ensures ok { OnOk result (IsHead (R.remaining reader.old) (R.remaining reader.new) head.new.items) }
    ensures err { IfErr result IsOfReading }
{
    for _ in 0..u64::MAX {
        match read_head_line(reader, head)? {
            HeadLine::Setting => {}
            HeadLine::Begin => return Ok(head.extend_from_slice(b"end\n")?),
            HeadLine::Last => return Ok(()),
        }
    }
    Err(ToolError::Read)
}

// What a line is to the head of a script.
#[derive(Clone, Copy)]
enum HeadLine {
    Setting,
    Begin,
    // It is no line of a head, or not whole, or there is no room for it.
    Last,
}

// Reads a line more of a head, with its line feed.
fn read_head_line<R: BufRead>(reader: &mut R, head: &mut Vec<u8>) -> Result<HeadLine, ToolError>
    requires { length head.old.items ≤ most_read }
    ensures ok { IfOk result (λ line.
        TakesHeadLine (R.remaining reader.old) (R.remaining reader.new) head.old.items head.new.items line) }
    ensures err { IfErr result IsOfReading }
{
    let start = head.len();
    match read_line(reader, MAX_READ_BYTES, head)? {
        LineRead::Over => return Ok(HeadLine::Last),
        LineRead::Unfed => return Ok(HeadLine::Last),
        LineRead::Whole => {}
    }
    if head.len() >= MAX_READ_BYTES {
        return Ok(HeadLine::Last);
    }
    let line = head_line_of(&head.as_slice()[start..]);
    head.extend_from_slice(b"\n")?;
    Ok(line)
}

fn head_line_of(line: &[u8]) -> HeadLine {
    let Some(text) = printable(line) else {
        return HeadLine::Last;
    };
    match keyword_of(text) {
        Some((Keyword::Begin, _)) => HeadLine::Begin,
        Some((keyword, _)) if is_of_head(keyword) => HeadLine::Setting,
        _ => HeadLine::Last,
    }
}

// Whether lines of this keyword stand before the `begin` of a script.
fn is_of_head(keyword: Keyword) -> bool {
    matches!(
        section_of(Purpose::Playing, keyword),
        Some(Section::First | Section::Head)
    )
}

// Writes an answer, with an empty line behind it.
fn write_answer<W: Write>(writer: &mut W, answer: String) -> Result<(), ToolError>
    ensures { Writes (W.contents writer.old) (W.contents writer.new) (closed (string_bytes answer)) result }
{
    let mut answer = answer;
    answer.push('\n')?;
    write_text(writer, answer.as_bytes())?;
    Ok(())
}

// Answers lines up to `end`, or to the end of the input.
fn serve_lines<R: BufRead, W: Write>(
    alloc: Global,
    session: &mut Session<'_>,
    reader: &mut R,
    writer: &mut W,
) -> Result<PlayEnd, ToolError>
    requires { IsOpen session.old }
    ensures { ServesLines (R.remaining reader.old) (R.remaining reader.new) (W.contents writer.old)
        (W.contents writer.new) session.old session.new result }
{
    match talk(alloc, session, reader, writer)? {
        TalkEnd::Told => Ok(session.end()),
        TalkEnd::Over => Err(cut_off(alloc, writer, Fault::Misplaced)),
        TalkEnd::Unfed => Err(cut_off(alloc, writer, Fault::NoFeed)),
    }
}

// Writes the fault of an input that ends before `end`.
fn cut_off<W: Write>(alloc: Global, writer: &mut W, fault: Fault) -> ToolError
    ensures { CutsOff (W.contents writer.old) (W.contents writer.new) fault result }
{
    match tell_fault(alloc, writer, fault) {
        Ok(()) => ToolError::Text(TextFault {
            line: 0,
            number: fault,
        }),
        Err(error) => error,
    }
}

fn tell_fault<W: Write>(alloc: Global, writer: &mut W, fault: Fault) -> Result<(), ToolError>
    ensures { Writes (W.contents writer.old) (W.contents writer.new) (closed (refusal_line fault)) result }
{
    let mut answer = String::new(alloc);
    add_fault(&mut answer, fault)?;
    write_answer(writer, answer)
}

impl<'t> Session<'t> {
    /// The new master of the cluster that a head makes; with `audits` its last wave is kept.
    pub fn new(
        alloc: Global,
        opening: ScriptText<'t>,
        known: KnownLines<'t>,
        audits: bool,
    ) -> Result<Session<'t>, AllocError>
        requires fit { IsFitHead opening.head }
        requires of_head { IsOfHead opening.head opening.script }
        requires opening { (text : Line) × IsOpening text opening known }
        ensures ready { IfOk result IsOpen }
        ensures opened { IfOk result (λ session. (text : Line) → IsOpening text opening.entry known.entry
            → IsOpened audits text (live_of session)) }
    {
        let ScriptText { head, script } = opening;
        let draft = draft_of(alloc, &script.names)?;
        let master = master_of(alloc, head)?;
        let given = no_runs(alloc, &master)?;
        Ok(Session {
            known,
            script,
            master,
            given,
            audits,
            last: None,
            draft,
        })
    }

    // How a script ends whose last command was the last line.
    fn end(&self) -> PlayEnd
        ensures { IsEndOf result self.now.master }
    {
        if are_parts_done(&self.master) {
            PlayEnd::Done
        } else {
            PlayEnd::Stuck
        }
    }

    // Performs a command; a wave or a plan ahead for which there is no room is ignored.
    fn perform(
        &mut self,
        alloc: Global,
        command: &Command,
        answer: &mut String,
    ) -> Result<(), AllocError>
        requires ready { IsOpen self.old }
        requires known { IsKnownCommand self.old.master.setup command.now }
        ensures ready { OnOk result (IsOpen self.new) }
        ensures ok { OnOk result (PerformedLive self.old command.now (string_bytes answer.old)
            (string_bytes answer.new) self.new) }
    {
        if self.audits {
            if let Command::Wave = command {
                return self.start_wave(alloc, answer);
            }
        }
        let (master, given) = (&mut self.master, &mut self.given);
        match perform(alloc, master, given, &self.script, command, answer) {
            Ok(()) => Ok(()),
            Err(PlayError::Memory) => Err(AllocError),
            Err(PlayError::HistoryFull) => add_ignored(answer, Why::HistoryFull),
        }
    }

    // Starts the best wave, and keeps it for an audit.
    fn start_wave(&mut self, alloc: Global, answer: &mut String) -> Result<(), AllocError>
        requires ready { IsOpen self.old }
        requires audits { self.old.audits ≡ true }
        ensures ready { OnOk result (IsOpen self.new) }
        ensures ok { OnOk result (PerformedLive self.old command.Wave (string_bytes answer.old)
            (string_bytes answer.new) self.new) }
    {
        self.master.is_kept();
        let problem = self.master.problem(alloc)?;
        match self.master.start_best(alloc) {
            Ok((planned, wave)) => {
                let (plan, prices, pairs) = planned.into_parts();
                self.tell_started(problem, plan, prices, &pairs, wave, answer)
            }
            Err(CommitError::HistoryFull) => add_ignored(answer, Why::HistoryFull),
            Err(CommitError::Memory) => Err(AllocError),
            Err(CommitError::Stale(_)) => unreachable!(),
        }
    }

    // Tells a wave that was started, and keeps it for an audit.
    fn tell_started(
        &mut self,
        problem: Problem,
        plan: Plan,
        prices: Prices,
        pairs: &[(SplitNo, WorkerNo)],
        wave: Wave,
        answer: &mut String,
    ) -> Result<(), AllocError>
        requires pairs { pairs.now ≡ pairs_of plan.starts }
        requires few { wave.first + length (pairs_of plan.starts) ≤ 2 ^ 32 - 1 }
        ensures kept { OnOk result (self.new ≡ record self.old {
          last = Some (record { problem = problem; plan = plan; prices = prices });
        }) }
        ensures told { OnOk result (string_bytes answer.new
            ≡ string_bytes answer.old ++ wave_lines self.old.script.names plan.starts wave) }
    {
        tell_wave(answer, &self.script.names, wave, pairs)?;
        self.last = Some(Audited {
            problem,
            plan,
            prices,
        });
        Ok(())
    }

    // Commits the plan that was said, if it has all prices. A new one may be said then.
    fn commit(&mut self, alloc: Global, answer: &mut String) -> Result<Turn, AllocError>
        requires ready { IsOpen self.old }
        ensures ready { OnOk result (IsOpen self.new) }
        ensures ok { IfOk result (λ turn. (turn ≡ Turn.More)
            × Committed self.old (string_bytes answer.old) (string_bytes answer.new) self.new) }
    {
        let Some((plan, prices)) = self.draft.plan(alloc)? else {
            return refuse(answer, Fault::NoPrice);
        };
        self.draft.clear();
        self.commit_plan(alloc, plan, prices, answer)?;
        Ok(Turn::More)
    }

    // Commits a plan, and tells the wave, or why there is none.
    fn commit_plan(
        &mut self,
        alloc: Global,
        plan: Plan,
        prices: Prices,
        answer: &mut String,
    ) -> Result<(), AllocError>
        requires ready { IsOpen self.old }
        requires sizes { HasSizesOf self.old.master.setup plan prices }
        ensures ready { OnOk result (IsOpen self.new) }
        ensures ok { OnOk result (CommittedPlan self.old plan.starts prices (string_bytes answer.old)
            (string_bytes answer.new) self.new) }
    {
        self.master.is_kept();
        let problem = self.master.problem(alloc)?;
        let pairs = pairs_of(alloc, &plan)?;
        match self.master.commit_plan(alloc, &plan, &prices) {
            Ok(wave) if self.audits => {
                self.tell_started(problem, plan, prices, &pairs, wave, answer)
            }
            Ok(wave) => tell_wave(answer, &self.script.names, wave, &pairs),
            Err(CommitError::HistoryFull) => add_ignored(answer, Why::HistoryFull),
            Err(CommitError::Stale(condition)) => {
                let names = &self.script.names;
                let line = refused(alloc, &names.splits, &names.workers, condition)?;
                add_text(answer, &line)
            }
            Err(CommitError::Memory) => Err(AllocError),
        }
    }

    // Reads a line that may not stand among commands as a line of a plan.
    fn draft_line(
        &mut self,
        alloc: Global,
        line: &[u8],
        answer: &mut String,
    ) -> Result<Turn, AllocError>
        requires ready { IsOpen self.old }
        requires short { length line.now < 524288 }
        requires no_request { ¬ (IsRequest line.now) }
        requires no_command { IsNoCommand self.old.known line.now }
        ensures ready { OnOk result (IsOpen self.new) }
        ensures ok { IfOk result (λ turn. Hears self.old line.now turn (string_bytes answer.old)
            (string_bytes answer.new) self.new) }
    {
        let mut words = Vec::new(alloc);
        match fit_plan_line(&mut words, line, &mut self.known) {
            Ok(said) if self.draft.take(&self.script.names, &said) => Ok(Turn::More),
            Ok(_) => refuse(answer, Fault::SecondEntry),
            Err(LineError::Fault(fault)) => refuse(answer, fault),
            Err(LineError::Memory) => Err(AllocError),
        }
    }

    // Does what a request asks for.
    fn grant(
        &mut self,
        alloc: Global,
        request: Request,
        answer: &mut String,
    ) -> Result<Turn, AllocError>
        requires ready { IsOpen self.old }
        ensures ready { OnOk result (IsOpen self.new) }
        ensures ok { (line : Line) → line ≡ word_of request → IfOk result (λ turn. Hears self.old line turn
            (string_bytes answer.old) (string_bytes answer.new) self.new) }
    {
        match request {
            Request::Workers => add_workers(
                answer,
                &self.script.names.workers,
                self.master.workers(),
            )?,
            Request::Open => add_open_work(alloc, &self.master, &self.script.names, answer)?,
            Request::Outputs => add_all_outputs(alloc, &self.master, &self.script.names, answer)?,
            Request::Audit => self.add_audit(alloc, answer)?,
            Request::Commit => return self.commit(alloc, answer),
            Request::Drop => self.draft.clear(),
        }
        Ok(Turn::More)
    }

    // The last wave as a text to check.
    fn add_audit(&self, alloc: Global, answer: &mut String) -> Result<(), AllocError>
        requires { IsOpen self.now }
        ensures { OnOk result (Told self.now Request.Audit (string_bytes answer.old)
            (string_bytes answer.new)) }
    {
        let Some(last) = &self.last else {
            return add_ignored(answer, Why::NotReady);
        };
        match wave_text(alloc, &self.known, &last.problem, &last.plan, &last.prices)? {
            Some(text) => add_text(answer, &text),
            None => add_fault(answer, Fault::TooLong),
        }
    }

    // Does what a line says.
    fn obey(
        &mut self,
        alloc: Global,
        line: &KeyedLine<'_, '_>,
        answer: &mut String,
    ) -> Result<Turn, AllocError>
        requires ready { IsOpen self.old }
        requires fit { (text : Line) × IsFitLine self.old.known text (statement_of line.now) }
        ensures ready { OnOk result (IsOpen self.new) }
        ensures ok { IfOk result (λ turn. Obeys self.old (statement_of line.now) turn
            (string_bytes answer.old)
            (string_bytes answer.new) self.new) }
    {
        match line.keyword {
            Keyword::End => {
                let _end = add_end(alloc, &self.master, &self.script.names, answer)?;
                Ok(Turn::Last)
            }
            _ => {
                let command = command_of(alloc, &self.script.names, line)?;
                self.perform(alloc, &command, answer)?;
                Ok(Turn::More)
            }
        }
    }

    // Answers a line that is not too long.
    fn answer(
        &mut self,
        alloc: Global,
        line: &[u8],
        answer: &mut String,
    ) -> Result<Turn, AllocError>
        requires ready { IsOpen self.old }
        requires short { length line.now < 524288 }
        ensures ready { OnOk result (IsOpen self.new) }
        ensures ok { IfOk result (λ turn. Hears self.old line.now turn (string_bytes answer.old)
            (string_bytes answer.new) self.new) }
    {
        match request_of(line) {
            Some(request) => self.grant(alloc, request, answer),
            None => self.take(alloc, line, answer),
        }
    }

    // Answers a line that is not too long, and no request.
    fn take(&mut self, alloc: Global, line: &[u8], answer: &mut String) -> Result<Turn, AllocError>
        requires ready { IsOpen self.old }
        requires short { length line.now < 524288 }
        requires no_request { ¬ (IsRequest line.now) }
        ensures ready { OnOk result (IsOpen self.new) }
        ensures ok { IfOk result (λ turn. Hears self.old line.now turn (string_bytes answer.old)
            (string_bytes answer.new) self.new) }
    {
        let mut words = Vec::new(alloc);
        match fit_line(&mut words, line, &self.known) {
            Ok(said) => self.obey(alloc, &said, answer),
            Err(LineError::Fault(fault)) => self.take_faulty(alloc, line, fault, answer),
            Err(LineError::Memory) => Err(AllocError),
        }
    }

    // Answers a line with this fault, which may be a line of a plan.
    fn take_faulty(
        &mut self,
        alloc: Global,
        line: &[u8],
        fault: Fault,
        answer: &mut String,
    ) -> Result<Turn, AllocError>
        requires ready { IsOpen self.old }
        requires short { length line.now < 524288 }
        requires no_request { ¬ (IsRequest line.now) }
        requires least { IsLeastOf (LineHas self.old.known line.now) fault }
        ensures ready { OnOk result (IsOpen self.new) }
        ensures ok { IfOk result (λ turn. Hears self.old line.now turn (string_bytes answer.old)
            (string_bytes answer.new) self.new) }
    {
        match fault {
            Fault::Misplaced => self.draft_line(alloc, line, answer),
            _ => refuse(answer, fault),
        }
    }
}

// What a line says as a line of a plan, or its least fault.
fn fit_plan_line<'w, 'l>(
    words: &'w mut Vec<&'l str>,
    line: &'l [u8],
    known: &mut KnownLines<'_>,
) -> Result<KeyedLine<'w, 'l>, LineError>
    requires { known.old.purpose ≡ Purpose.Playing }
    ensures ok { IfOk result (λ said. IsFitLine (planning known.old) line.entry.now (statement_of said)) }
    ensures err { IfErr result (IsLeastError (LineHas (planning known.old) line.entry.now)) }
    ensures same { known.new ≡ known.old }
{
    known.turn_to(Purpose::Checking);
    let said = fit_line(words, line, known);
    known.turn_to(Purpose::Playing);
    said
}

// The new master of the cluster that a head makes.
fn master_of(alloc: Global, head: Head) -> Result<Master, AllocError>
    requires { IsFitHead head }
    ensures { IfOk result (λ master. master ≡ opening_job (served_on (cluster_in head))) }
{
    let cluster = cluster_of(alloc, head)?;
    Master::new(alloc, cluster, SERVING_ROOM)
}

// The runs that the parts of a new master were given, which are none.
fn no_runs(alloc: Global, master: &Master) -> Result<GivenRuns, AllocError>
    requires { (setup : Setup) × (master.now ≡ opening_job setup) }
    ensures { IfOk result (λ given. HoldsRuns given master.now) }
{
    GivenRuns::new(alloc, master.cluster().parts())
}

// A draft of so many splits and workers as have names.
fn draft_of(alloc: Global, names: &Names<'_>) -> Result<Draft, AllocError>
    requires { AreFew names.now }
    ensures { IfOk result (λ draft. draft ≡ no_draft names.now) }
{
    Draft::new(alloc, names.splits.len(), names.workers.len())
}

// Tells the fault of a line, after which the session goes on.
fn refuse(answer: &mut String, fault: Fault) -> Result<Turn, AllocError>
    ensures { IfOk result (λ turn. (turn ≡ Turn.More)
        × (string_bytes answer.new ≡ string_bytes answer.old ++ refusal_line fault)) }
{
    add_fault(answer, fault)?;
    Ok(Turn::More)
}

fn add_text(answer: &mut String, text: &String) -> Result<(), AllocError>
    ensures { OnOk result (string_bytes answer.new ≡ string_bytes answer.old ++ string_bytes text.now) }
{
    answer.push_str(text.as_str())
}

fn add_fault(answer: &mut String, fault: Fault) -> Result<(), AllocError>
    ensures { OnOk result (string_bytes answer.new ≡ string_bytes answer.old ++ refusal_line fault) }
{
    let number = fault.number();
    write!(answer, "fault {number}\n")
}

impl<'t> Talker for Session<'t> {
    ghost ready = { IsOpen };

    ghost Replies = { λ old line turn out new. Replies (live_of old) line turn out (live_of new) };

    fn reply(&mut self, alloc: Global, line: &[u8]) -> Result<(String, Turn), NoAnswer> {
        let mut answer = String::new(alloc);
        if line.len() >= MAX_HEARD_BYTES {
            add_fault(&mut answer, Fault::TooLong)?;
            return Ok((answer, Turn::More));
        }
        let turn = self.answer(alloc, line, &mut answer)?;
        Ok((answer, turn))
    }
}

/// A law: what was said to a live master is a script, and its report.
pub fn sessions_are_scripts()
    ensures { (said : Said) (old new : Live) → Replied GoesOnHearing old said new → IsSession old said new }
{}
