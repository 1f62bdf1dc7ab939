ghost use Rattle.std.specs.Prelude.{◌≡◌};
ghost use Rattle.std.specs.Option.{option_map};
ghost use Rattle.tools.specs.Ending.{told, ending_of_asking, ending_of_check, ending_of_explaining};
ghost use Rattle.tools.specs.Ending.{ending_of_plan, message_of, status_of};

use command_line::asked::AskError;
use command_runner::ToolError;
use price_certificate::Condition;

/// How a check ends that was written.
#[derive(Clone, Copy, Debug, PartialEq, Eq)]
pub enum CheckEnd {
    Certified,
    /// The first condition that fails.
    Refused(Condition),
}

/// How planning ends that was written.
#[derive(Clone, Copy, Debug, PartialEq, Eq)]
pub enum PlanEnd {
    /// A best plan, which its prices certify.
    Planned,
    /// No network of the kind is built for so many splits or workers, or for prices of places, and nothing was
    /// written.
    PastNetwork,
}

/// How the program ends.
#[derive(Clone, Copy, Debug, PartialEq, Eq)]
pub enum Ending {
    /// A plan was certified or made, the parts of a script or a job are all done, or words were explained.
    Well,
    /// A condition refuses the plan.
    Refused,
    /// A script or a job ended with splits or parts that are not done.
    Stuck,
    /// The words of the command line ask for nothing.
    Misused,
    /// The words of the command line ask for a network that is not built for so many splits or workers, or for
    /// prices of places.
    PastNetwork,
    /// The command has no answer of its own.
    Failed(ToolError),
    /// The history of a job's threads is not made of their calls, from this place on.
    Torn(u32),
    /// A thread of a job could not be started.
    NoThread,
    /// What a job asks as it runs has ended it.
    GateLimit,
    /// The reader of the answer has gone.
    Left,
}

/// What is told on standard error, without its line feed: words, and a number after them where there is one.
#[derive(Clone, Copy, Debug, PartialEq, Eq)]
pub struct Message {
    pub words: &'static str,
    pub number: Option<u32>,
}

impl Ending {
    /// The end of a program whose check ended so.
    pub fn of_check(end: Result<CheckEnd, ToolError>) -> Ending
        ensures { result ≡ ending_of_check end }
    {
        match end {
            Ok(CheckEnd::Certified) => Ending::Well,
            Ok(CheckEnd::Refused(_)) => Ending::Refused,
            Err(error) => Ending::Failed(error),
        }
    }

    /// The end of a program whose planning ended so.
    pub fn of_plan(end: Result<PlanEnd, ToolError>) -> Ending
        ensures { result ≡ ending_of_plan end }
    {
        match end {
            Ok(PlanEnd::Planned) => Ending::Well,
            Ok(PlanEnd::PastNetwork) => Ending::PastNetwork,
            Err(error) => Ending::Failed(error),
        }
    }

    /// The end of a program that was asked what numbers mean.
    pub fn of_explaining(end: Result<(), ToolError>) -> Ending
        ensures { result ≡ ending_of_explaining end }
    {
        match end {
            Ok(()) => Ending::Well,
            Err(error) => Ending::Failed(error),
        }
    }

    /// The end of a program whose words name no command.
    pub fn of_asking(error: &AskError) -> Ending
        ensures { result ≡ ending_of_asking error.now }
    {
        match error {
            AskError::Fault(error) if error.use_stderr() => Ending::Misused,
            AskError::Fault(_) => Ending::Well,
            AskError::Memory => Ending::Failed(ToolError::Memory),
        }
    }

    /// The status with which the program exits.
    pub fn status(self) -> u8
        ensures { result ≡ status_of self }
    {
        match self {
            Ending::Well => 0,
            Ending::Refused | Ending::Stuck => 1,
            Ending::Failed(ToolError::Text(_)) => 2,
            Ending::Failed(ToolError::Memory) => 3,
            Ending::Failed(ToolError::Read | ToolError::Write) => 4,
            Ending::Failed(ToolError::HistoryFull) => 5,
            Ending::Torn(_) | Ending::NoThread | Ending::GateLimit => 6,
            Ending::Misused | Ending::PastNetwork => 64,
            Ending::Left => 141,
        }
    }

    /// What is told on standard error; the text of wrong words is `clap`'s.
    pub fn message(self) -> Option<Message>
        ensures { option_map told result ≡ message_of self }
    {
        match self {
            Ending::Failed(ToolError::Memory) => Some(plain("mrjob: no memory")),
            Ending::Failed(ToolError::Read) => Some(plain("mrjob: read fault")),
            Ending::Failed(ToolError::Write) => Some(plain("mrjob: write fault")),
            Ending::Failed(ToolError::HistoryFull) => Some(plain("mrjob: history full")),
            Ending::Torn(place) => Some(Message {
                words: "mrjob: torn at ",
                number: Some(place),
            }),
            Ending::NoThread => Some(plain("mrjob: no thread")),
            Ending::GateLimit => Some(plain("mrjob: gate limit")),
            Ending::PastNetwork => Some(plain(
                "mrjob: no direct network for so many splits or workers, or for prices of places",
            )),
            Ending::Failed(ToolError::Text(_)) => None,
            Ending::Well | Ending::Refused | Ending::Stuck | Ending::Misused | Ending::Left => None,
        }
    }
}

fn plain(words: &'static str) -> Message
    ensures { told result ≡ words.now }
{
    Message {
        words,
        number: None,
    }
}
