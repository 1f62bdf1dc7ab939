use explanations::Entry;
use flow_network::NetworkKind;

/// A command with its options.
#[derive(Clone, Copy, Debug, PartialEq, Eq)]
pub enum Ask {
    /// Check a plan by its prices.
    Check(CheckOptions),
    /// Plan a job's map starts.
    Plan(PlanOptions),
    /// Play a script of a job.
    Play(PlayOptions),
    /// Serve a live master.
    Serve(ServeOptions),
    /// Run a job on threads.
    Run(RunOptions),
    /// Say what this line of the table of explanations says, or each, where none is named.
    Explain(Option<Entry>),
}

/// What is told of a check.
#[derive(Clone, Copy, Debug, PartialEq, Eq)]
pub struct CheckOptions {
    /// Standard error says what a fault or a refusal means.
    pub explain: bool,
}

/// How a plan is to be made and what is written of it.
#[derive(Clone, Copy, Debug, PartialEq, Eq)]
pub struct PlanOptions {
    /// Write the prices too.
    pub prices: bool,
    /// The network over which the plan is sought.
    pub network: NetworkKind,
    /// Standard error says what a fault means.
    pub explain: bool,
}

/// What is told while a script is played.
#[derive(Clone, Copy, Debug, PartialEq, Eq)]
pub struct PlayOptions {
    /// A terminal is not told how far it is.
    pub quiet: bool,
    /// Standard error says what a fault means, and why commands were ignored.
    pub explain: bool,
}

/// What a live master keeps.
#[derive(Clone, Copy, Debug, PartialEq, Eq)]
pub struct ServeOptions {
    /// No wave is kept for an audit.
    pub no_audit: bool,
}

/// How a run is planned, what is written of it, and what is told while it lasts.
#[derive(Clone, Copy, Debug, PartialEq, Eq)]
pub struct RunOptions {
    /// Each wave is a plan ahead, with queues of so many waves' slots.
    pub ahead: Option<u8>,
    /// Write first all that was done.
    pub history: bool,
    /// A terminal is not told how far it is.
    pub quiet: bool,
    /// Standard error says what a fault means.
    pub explain: bool,
}

/// Why the words ask for no command.
#[derive(Debug, Drop)]
pub enum AskError {
    /// The words are wrong, or ask for help: `clap`'s text, for standard error or output.
    Fault(clap::Error),
    /// Want of memory.
    Memory,
}
