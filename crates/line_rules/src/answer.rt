ghost use Rattle.std.specs.Prelude.{IfOk, string_bytes};
ghost use Rattle.line_rules.specs.Faulty.{TellsFault};

use crate::line_reader::ReadingError;
use std::alloc::{AllocError, Global};
use text_lines::{TextFault, fault_line};

/// The line that answers a text with a fault, and the fault; or want of memory.
pub fn fault_answer(alloc: Global, error: ReadingError) -> Result<(String, TextFault), AllocError>
    ensures { IfOk result (λ told. TellsFault error told.1 (string_bytes told.0)) }
{
    match error {
        ReadingError::Text(fault) => Ok((fault_line(alloc, fault)?, fault)),
        ReadingError::Memory => Err(AllocError),
    }
}
