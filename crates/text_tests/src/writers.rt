ghost use Rattle.std.specs.Prelude.{◌≤◌, IfOk};

use std::alloc::Global;
use std::io;
use std::io::{ErrorKind, Write};
use std::process::Abort;
use text_lines::write_text;

// How a writer with no room left answers.
#[derive(Clone, Copy, Debug, PartialEq, Eq)]
enum Full {
    Fails,
    TakesNothing,
}

// Takes one byte a call, and `room` bytes in all. Where `interrupts` is set each second call is
// interrupted; where `flushes` is not, no flush succeeds.
#[derive(Drop)]
struct Sink {
    taken: Vec<u8>,
    room: usize,
    full: Full,
    interrupts: bool,
    flushes: bool,
    calls: usize,
}

impl Sink {
    fn take(&mut self, byte: u8) -> io::Result<usize>
        ensures { IfOk result (λ count. count ≤ 1) }
    {
        if self.taken.len() >= self.room {
            return match self.full {
                Full::Fails => Err(io::Error::from(ErrorKind::BrokenPipe)),
                Full::TakesNothing => Ok(0),
            };
        }
        match self.taken.push(byte) {
            Ok(()) => Ok(1),
            Err(_) => Err(io::Error::from(ErrorKind::OutOfMemory)),
        }
    }
}

impl Write for Sink {
    fn write(&mut self, buf: &[u8]) -> io::Result<usize> {
        self.calls = self.calls.saturating_add(1);
        if self.interrupts && self.calls % 2 == 1 {
            return Err(io::Error::from(ErrorKind::Interrupted));
        }
        match buf.first() {
            Some(byte) => self.take(*byte),
            None => Ok(0),
        }
    }

    fn flush(&mut self) -> io::Result<()> {
        if self.flushes {
            Ok(())
        } else {
            Err(io::Error::from(ErrorKind::BrokenPipe))
        }
    }
}

const TEXT: &[u8] = b"problem 1\nend\n";

// Writes the text to a writer that has taken nothing, which must then have taken its front of `taken` bytes.
fn writes(rt: &impl Abort, mut sink: Sink, taken: usize) {
    let written = write_text(&mut sink, TEXT);
    let is_whole = taken == TEXT.len() && sink.flushes;
    let is_front = TEXT.starts_with(sink.taken.as_slice());
    assert_eq!(rt;
        (written.is_ok(), is_front, sink.taken.len()),
        (is_whole, true, taken)
    );
}

fn make_sink(alloc: Global, room: usize, full: Full, interrupts: bool) -> Sink {
    Sink {
        taken: Vec::new(alloc),
        room,
        full,
        interrupts,
        flushes: true,
        calls: 0,
    }
}

#[test]
fn a_writer_has_taken_the_front(rt: HostRuntime) {
    for room in 0..15 {
        for full in [Full::Fails, Full::TakesNothing] {
            for interrupts in [false, true] {
                writes(&rt, make_sink(rt.alloc(), room, full, interrupts), room);
            }
        }
    }
}

#[test]
fn a_flush_that_fails_is_told(rt: HostRuntime) {
    let mut sink = make_sink(rt.alloc(), usize::MAX, Full::Fails, false);
    sink.flushes = false;
    writes(&rt, sink, TEXT.len());
}
