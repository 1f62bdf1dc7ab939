/// Who is told that a long call goes on. Nothing is asked of it, and no result rests on it.
pub trait Pace {
    /// At each document, each word and each entry that is looked at, and at each comparison of two words.
    fn goes_on(&self);
}

/// Nobody is told.
#[derive(Clone, Copy, Debug)]
pub struct Unpaced;

impl Pace for Unpaced {
    fn goes_on(&self) {}
}
