use std::alloc::AllocError;
use text_lines::{ReadError, TextFault, WriteError};
use thiserror::Error;

/// Why a command of the program gives no answer of its own.
#[derive(Clone, Copy, Debug, PartialEq, Eq, Error)]
pub enum ToolError {
    /// The text has a fault, which is written.
    #[error("the text has a fault")]
    Text(TextFault),
    /// No memory was found; nothing is written.
    #[error("no memory")]
    Memory,
    /// The reader failed, or the most calls that are made of one did not bring its end; nothing is
    /// written.
    #[error("read fault")]
    Read,
    /// The writer failed, or took nothing; it may have taken a front of what was to be written.
    #[error("write fault")]
    Write,
    /// A wave or a plan ahead starts more splits than there are attempts left; nothing is written.
    #[error("history full")]
    HistoryFull,
}

/// Why a command has no answer to a text.
#[derive(Clone, Copy, Debug, PartialEq, Eq, Error)]
pub enum NoAnswer {
    #[error("no memory")]
    Memory,
    /// A wave or a plan ahead starts more splits than there are attempts left.
    #[error("history full")]
    HistoryFull,
}

impl From<AllocError> for NoAnswer {
    ghost use Rattle.std.specs.Prelude.{◌≡◌};
    ghost use Rattle.command_runner.specs.declared.tool_error.NoAnswer.TheVariants.{Memory};

    ghost from_gives = { λ _ result. result ≡ Memory };

    fn from(_: AllocError) -> Self {
        NoAnswer::Memory
    }
}

impl From<NoAnswer> for ToolError {
    ghost use Rattle.std.specs.Prelude.{◌≡◌};
    ghost use Rattle.command_runner.specs.CommandRun.{error_of_answering};

    ghost from_gives = { λ error result. result ≡ error_of_answering error };

    fn from(error: NoAnswer) -> Self {
        match error {
            NoAnswer::Memory => ToolError::Memory,
            NoAnswer::HistoryFull => ToolError::HistoryFull,
        }
    }
}

impl From<AllocError> for ToolError {
    ghost use Rattle.std.specs.Prelude.{◌≡◌};
    ghost use Rattle.command_runner.specs.declared.tool_error.ToolError.TheVariants.{Memory};

    ghost from_gives = { λ _ result. result ≡ Memory };

    fn from(_: AllocError) -> Self {
        ToolError::Memory
    }
}

impl From<ReadError> for ToolError {
    ghost use Rattle.std.specs.Prelude.{◌≡◌};
    ghost use Rattle.command_runner.specs.Streams.{error_of_reading};

    ghost from_gives = { λ error result. result ≡ error_of_reading error };

    fn from(error: ReadError) -> Self {
        match error {
            ReadError::Memory => ToolError::Memory,
            ReadError::Read => ToolError::Read,
        }
    }
}

impl From<WriteError> for ToolError {
    ghost use Rattle.std.specs.Prelude.{◌≡◌};
    ghost use Rattle.command_runner.specs.declared.tool_error.ToolError.TheVariants.{Write};

    ghost from_gives = { λ _ result. result ≡ Write };

    fn from(_: WriteError) -> Self {
        ToolError::Write
    }
}
