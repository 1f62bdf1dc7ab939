ghost use Rattle.std.specs.Prelude.{◌≡◌};

use answer_notes::answer_note;
use std::io;
use std::io::{IsTerminal, Write};
use text_lines::write_text;

// So many bytes of the first line of an answer are kept.
const KEPT: usize = 80;

const GREETING: &[u8] =
    b"The head of a script, then begin, then a command a line. An empty line ends each answer.\n";

const PROMPT: &[u8] = b"mrjob> ";

// A writer that passes on what a live master answers. To a person at a terminal standard error says what a
// fault or a refusal means, and when the next line is awaited.
#[derive(Drop)]
pub(crate) struct Console<'a, W: Write> {
    rt: &'a HostRuntime,
    writer: W,
    talks: bool,
    first: FirstLine,
}

// The first line of the present answer, as far as it is kept.
#[derive(Drop)]
struct FirstLine {
    bytes: Vec<u8>,
    is_whole: bool,
}

impl<'a, W: Write> Console<'a, W> {
    pub(crate) fn new(rt: &'a HostRuntime, writer: W) -> Console<'a, W>
        ensures { W.contents result.writer ≡ W.contents writer }
    {
        let talks = rt.stdin().is_terminal() && rt.stderr().is_terminal();
        if talks {
            tell(rt, GREETING);
        }
        Console {
            rt,
            writer,
            talks,
            first: FirstLine {
                bytes: Vec::new(rt.alloc()),
                is_whole: false,
            },
        }
    }

    pub(crate) fn writer(&self) -> &W
        ensures { result.now ≡ self.now.writer }
    {
        &self.writer
    }

    // An answer is written.
    fn end(&mut self)
        ensures { W.contents self.new.writer ≡ W.contents self.old.writer }
    {
        if let Ok(note) = answer_note(self.rt.alloc(), self.first.bytes.as_slice()) {
            tell(self.rt, note.as_slice());
        }
        tell(self.rt, PROMPT);
        self.first.bytes.clear();
        self.first.is_whole = false;
    }
}

impl FirstLine {
    // Keeps what belongs to the first line. A byte for which there is no memory is left out.
    fn keep(&mut self, bytes: &[u8]) {
        for byte in bytes {
            if *byte == b'\n' {
                self.is_whole = true;
            }
            if !self.is_whole && self.bytes.len() < KEPT {
                let _ = self.bytes.push(*byte);
            }
        }
    }
}

// What can't be written is left out.
fn tell(rt: &HostRuntime, text: &[u8]) {
    let _ = write_text(&mut rt.stderr(), text);
}

impl<'a, W: Write> Write for Console<'a, W> {
    ghost contents = { λ console. W.contents console.writer };

    fn write(&mut self, buf: &[u8]) -> io::Result<usize> {
        match self.writer.write(buf) {
            Ok(count) => {
                if self.talks {
                    self.first.keep(&buf[..count]);
                }
                Ok(count)
            }
            Err(error) => Err(error),
        }
    }

    fn flush(&mut self) -> io::Result<()> {
        match self.writer.flush() {
            Ok(()) => {
                if self.talks {
                    self.end();
                }
                Ok(())
            }
            Err(error) => Err(error),
        }
    }
}
