use answer_notes::{Copying, Listening, condition_note, fault_note, reasons_note};
use command_runner::ToolError;
use price_certificate::Condition;
use std::alloc::AllocError;
use std::io::{IsTerminal, Read, Stdin, Stdout, Write};
use text_lines::write_text;
use tools::CheckEnd;

// What standard error says of an answer, where it is asked for or standard error is a terminal. A note for
// which there is no memory, or that can't be written, is left out.
#[derive(Drop)]
pub(crate) struct Aside<'a> {
    rt: &'a HostRuntime,
    explains: bool,
}

impl<'a> Aside<'a> {
    pub(crate) fn new(rt: &'a HostRuntime, is_asked: bool) -> Aside<'a> {
        let explains = is_asked || rt.stderr().is_terminal();
        Aside { rt, explains }
    }

    // Standard input, copied where a fault would be told.
    pub(crate) fn reader(&self) -> Copying<Stdin> {
        Copying::new(self.rt.alloc(), self.rt.stdin(), self.explains)
    }

    // Standard output.
    pub(crate) fn writer(&self) -> Listening<Stdout> {
        Listening::new(self.rt.stdout(), false)
    }

    // Standard output, which is listened to where ignored commands would be told.
    pub(crate) fn listening_writer(&self) -> Listening<Stdout> {
        Listening::new(self.rt.stdout(), self.explains)
    }

    pub(crate) fn tell_fault<R: Read>(&self, input: &Copying<R>, error: ToolError) {
        if let (Some(text), ToolError::Text(fault)) = (input.copy(), error) {
            self.tell(fault_note(self.rt.alloc(), text, fault));
        }
    }

    pub(crate) fn tell_check<R: Read>(
        &self,
        input: &Copying<R>,
        end: &Result<CheckEnd, ToolError>,
    ) {
        match end {
            Ok(end) => self.tell_verdict(end),
            Err(error) => self.tell_fault(input, *error),
        }
    }

    fn tell_verdict(&self, end: &CheckEnd) {
        if let CheckEnd::Refused(condition) = end {
            self.tell_condition(*condition);
        }
    }

    fn tell_condition(&self, condition: Condition) {
        if self.explains {
            self.tell(condition_note(self.rt.alloc(), condition));
        }
    }

    pub(crate) fn tell_reasons<W: Write>(&self, output: &Listening<W>) {
        if self.explains {
            self.tell(reasons_note(self.rt.alloc(), output));
        }
    }

    fn tell(&self, note: Result<Vec<u8>, AllocError>) {
        if let Ok(note) = note {
            let _ = write_text(&mut self.rt.stderr(), note.as_slice());
        }
    }
}
