ghost use Rattle.std.specs.Prelude.{◌≡◌};

use std::alloc::Global;
use std::io;
use std::io::Read;

/// A reader that keeps a copy of what it gave, where it is asked to, as far as there is memory for all of it.
#[derive(Drop)]
pub struct Copying<R: Read> {
    reader: R,
    copy: Vec<u8>,
    copies: bool,
}

impl<R: Read> Copying<R> {
    /// A reader of what this one has, of which a copy is kept or not.
    pub fn new(alloc: Global, reader: R, copies: bool) -> Copying<R>
        ensures { R.remaining result.reader ≡ R.remaining reader }
    {
        Copying {
            reader,
            copy: Vec::new(alloc),
            copies,
        }
    }

    /// What was read, if it was kept.
    pub fn copy(&self) -> Option<&[u8]> {
        if self.copies {
            Some(self.copy.as_slice())
        } else {
            None
        }
    }
}

impl<R: Read> Read for Copying<R> {
    ghost remaining = { λ copying. R.remaining copying.reader };

    fn read(&mut self, buf: &mut [u8]) -> io::Result<usize> {
        let count = self.reader.read(buf)?;
        if self.copies && self.copy.extend_from_slice(&buf[..count]).is_err() {
            self.copies = false;
        }
        Ok(count)
    }
}
