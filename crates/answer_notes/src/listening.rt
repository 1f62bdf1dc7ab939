ghost use Rattle.std.specs.Prelude.{◌≡◌};

use std::io;
use std::io::Write;

const IGNORED: &[u8] = b"ignored ";

// Numbers from here on are no reasons.
const REASONS: u8 = 32;

/// A writer that hears for which reasons commands were ignored, by the lines that it passes on, and whether
/// its reader has gone.
#[derive(Drop)]
pub struct Listening<W: Write> {
    writer: W,
    listens: bool,
    heard: Heard,
    is_left: bool,
}

// What was heard of the present line, and of all lines before.
#[derive(Drop)]
struct Heard {
    // how many bytes of `ignored ` it began with, none where it is another line
    matched: Option<usize>,
    // the number that follows
    number: u8,
    // a bit for each reason
    reasons: u32,
}

impl<W: Write> Listening<W> {
    /// A writer to this one, which listens or does not.
    pub fn new(writer: W, listens: bool) -> Listening<W>
        ensures { W.contents result.writer ≡ W.contents writer }
    {
        Listening {
            writer,
            listens,
            heard: Heard {
                matched: Some(0),
                number: 0,
                reasons: 0,
            },
            is_left: false,
        }
    }

    /// Whether a command was ignored for this reason.
    pub fn has_heard(&self, reason: u8) -> bool {
        reason < REASONS && self.heard.reasons & (1 << reason) != 0
    }

    /// Whether a write failed because nobody reads any more.
    pub fn is_left(&self) -> bool {
        self.is_left
    }

    fn note(&mut self, error: &io::Error)
        ensures { W.contents self.new.writer ≡ W.contents self.old.writer }
    {
        if error.kind() == io::ErrorKind::BrokenPipe {
            self.is_left = true;
        }
    }
}

impl Heard {
    fn hear_all(&mut self, bytes: &[u8]) {
        for byte in bytes {
            if *byte == b'\n' {
                self.end_line();
            } else {
                self.matched = self.matched_with(*byte);
            }
        }
    }

    fn end_line(&mut self) {
        if self.matched == Some(IGNORED.len()) && self.number < REASONS {
            self.reasons |= 1 << self.number;
        }
        self.matched = Some(0);
        self.number = 0;
    }

    // How the line goes on with this byte.
    fn matched_with(&mut self, byte: u8) -> Option<usize> {
        let matched = self.matched?;
        if matched < IGNORED.len() {
            return if byte == IGNORED[matched] {
                Some(matched + 1)
            } else {
                None
            };
        }
        if !byte.is_ascii_digit() || self.number >= 20 {
            return None;
        }
        self.number = 10 * self.number + (byte - b'0');
        Some(matched)
    }
}

impl<W: Write> Write for Listening<W> {
    ghost contents = { λ listening. W.contents listening.writer };

    fn write(&mut self, buf: &[u8]) -> io::Result<usize> {
        match self.writer.write(buf) {
            Ok(count) => {
                if self.listens {
                    self.heard.hear_all(&buf[..count]);
                }
                Ok(count)
            }
            Err(error) => {
                self.note(&error);
                Err(error)
            }
        }
    }

    fn flush(&mut self) -> io::Result<()> {
        match self.writer.flush() {
            Ok(()) => Ok(()),
            Err(error) => {
                self.note(&error);
                Err(error)
            }
        }
    }
}
