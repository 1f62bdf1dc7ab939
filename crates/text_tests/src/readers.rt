use std::io;
use std::io::{ErrorKind, Read};
use text_lines::{ReadError, read_text};

// What ails a reader.
#[derive(Clone, Copy, Debug, PartialEq, Eq)]
enum Ails {
    Nothing,
    FailsAt(usize),
    EachSecondCall,
    EachCall,
}

// Gives `step` bytes a call at most, and counts its calls.
#[derive(Drop)]
struct Source<'t> {
    rest: &'t [u8],
    step: usize,
    ails: Ails,
    calls: usize,
}

impl<'t> Source<'t> {
    fn new(rest: &'t [u8], step: usize, ails: Ails) -> Source<'t> {
        Source {
            rest,
            step,
            ails,
            calls: 0,
        }
    }

    // What the present call fails with.
    fn failure(&self) -> Option<ErrorKind> {
        match self.ails {
            Ails::FailsAt(call) if call == self.calls => Some(ErrorKind::ConnectionReset),
            Ails::EachSecondCall if self.calls % 2 == 1 => Some(ErrorKind::Interrupted),
            Ails::EachCall => Some(ErrorKind::Interrupted),
            _ => None,
        }
    }
}

impl<'t> Read for Source<'t> {
    fn read(&mut self, buf: &mut [u8]) -> io::Result<usize> {
        self.calls = self.calls.saturating_add(1);
        if let Some(kind) = self.failure() {
            return Err(io::Error::from(kind));
        }
        let count = buf.len().min(self.rest.len()).min(self.step);
        buf[..count].copy_from_slice(&self.rest[..count]);
        self.rest = &self.rest[count..];
        Ok(count)
    }
}

const TEXT: &[u8] = b"problem 1\nend\n";

#[test]
fn reads_a_text_by_any_steps(rt: HostRuntime) {
    for step in [1, 2, 5, 14, 4096] {
        for ails in [Ails::Nothing, Ails::EachSecondCall] {
            let mut source = Source::new(TEXT, step, ails);
            let text = read_text(rt.alloc(), &mut source).expect(&rt, "no text");
            assert_eq!(rt; text.as_slice(), TEXT, "by {step}, {ails:?}");
        }
    }
}

#[test]
fn a_read_that_fails_is_told(rt: HostRuntime) {
    // Fourteen calls of one byte, and one that finds the end.
    for call in 1..16 {
        let mut source = Source::new(TEXT, 1, Ails::FailsAt(call));
        let read = read_text(rt.alloc(), &mut source);
        assert_eq!(rt; (read.err(), source.calls), (Some(ReadError::Read), call));
    }
}

#[test]
fn a_reader_that_never_wakes_is_given_up(rt: HostRuntime) {
    let mut source = Source::new(TEXT, 1, Ails::EachCall);
    let read = read_text(rt.alloc(), &mut source);
    assert_eq!(rt;
        (read.err(), source.calls),
        (Some(ReadError::Read), 33_554_434)
    );
}
