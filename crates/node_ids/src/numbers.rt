// Seven types of one form, written out: no macro may write an `impl` here, and one type over a kind would
// give all numbers the width and the bound of the widest.

ghost use Rattle.std.specs.Prelude.{◌≡◌, ◌<◌, ◌^◌, ℕ};

use std::marker::Model;

/// The number of a split, from 0.
#[derive(Clone, Copy, Debug, Default, PartialEq, Eq, PartialOrd, Ord, Hash)]
pub struct SplitNo {
    number: u32,
}

impl Model for SplitNo {
    ghost Value = { ℕ };

    ghost view = { λ n. n.number };

    ghost inverse = { λ n. record { number = n } };
}

impl SplitNo {
    /// A split with this number.
    pub fn new(number: u32) -> Self
        ensures { result ≡ number }
    {
        SplitNo { number }
    }

    /// The number, as an index.
    pub fn index(self) -> usize
        ensures value { result ≡ self }
        ensures bound { result < 2 ^ 32 }
    {
        self.number as usize
    }
}

/// The number of a worker, from 0.
#[derive(Clone, Copy, Debug, Default, PartialEq, Eq, PartialOrd, Ord, Hash)]
pub struct WorkerNo {
    number: u16,
}

impl Model for WorkerNo {
    ghost Value = { ℕ };

    ghost view = { λ n. n.number };

    ghost inverse = { λ n. record { number = n } };
}

impl WorkerNo {
    /// A worker with this number.
    pub fn new(number: u16) -> Self
        ensures { result ≡ number }
    {
        WorkerNo { number }
    }

    /// The number, as an index.
    pub fn index(self) -> usize
        ensures value { result ≡ self }
        ensures bound { result < 2 ^ 16 }
    {
        self.number as usize
    }
}

/// The number of a rack, from 0.
#[derive(Clone, Copy, Debug, Default, PartialEq, Eq, PartialOrd, Ord, Hash)]
pub struct RackNo {
    number: u16,
}

impl Model for RackNo {
    ghost Value = { ℕ };

    ghost view = { λ n. n.number };

    ghost inverse = { λ n. record { number = n } };
}

impl RackNo {
    /// A rack with this number.
    pub fn new(number: u16) -> Self
        ensures { result ≡ number }
    {
        RackNo { number }
    }

    /// The number, as an index.
    pub fn index(self) -> usize
        ensures value { result ≡ self }
        ensures bound { result < 2 ^ 16 }
    {
        self.number as usize
    }
}

/// The number of a data centre, from 0.
#[derive(Clone, Copy, Debug, Default, PartialEq, Eq, PartialOrd, Ord, Hash)]
pub struct CentreNo {
    number: u8,
}

impl Model for CentreNo {
    ghost Value = { ℕ };

    ghost view = { λ n. n.number };

    ghost inverse = { λ n. record { number = n } };
}

impl CentreNo {
    /// A data centre with this number.
    pub fn new(number: u8) -> Self
        ensures { result ≡ number }
    {
        CentreNo { number }
    }

    /// The number, as an index.
    pub fn index(self) -> usize
        ensures value { result ≡ self }
        ensures bound { result < 2 ^ 8 }
    {
        self.number as usize
    }
}

/// The number of a part of the words, from 0.
#[derive(Clone, Copy, Debug, Default, PartialEq, Eq, PartialOrd, Ord, Hash)]
pub struct PartNo {
    number: u8,
}

impl Model for PartNo {
    ghost Value = { ℕ };

    ghost view = { λ n. n.number };

    ghost inverse = { λ n. record { number = n } };
}

impl PartNo {
    /// A part of the words with this number.
    pub fn new(number: u8) -> Self
        ensures { result ≡ number }
    {
        PartNo { number }
    }

    /// The number, as an index.
    pub fn index(self) -> usize
        ensures value { result ≡ self }
        ensures bound { result < 2 ^ 8 }
    {
        self.number as usize
    }
}

/// The number of a document, from 0.
#[derive(Clone, Copy, Debug, Default, PartialEq, Eq, PartialOrd, Ord, Hash)]
pub struct DocNo {
    number: u32,
}

impl Model for DocNo {
    ghost Value = { ℕ };

    ghost view = { λ n. n.number };

    ghost inverse = { λ n. record { number = n } };
}

impl DocNo {
    /// A document with this number.
    pub fn new(number: u32) -> Self
        ensures { result ≡ number }
    {
        DocNo { number }
    }

    /// The number, as an index.
    pub fn index(self) -> usize
        ensures value { result ≡ self }
        ensures bound { result < 2 ^ 32 }
    {
        self.number as usize
    }
}

/// The number of an attempt, from 1.
#[derive(Clone, Copy, Debug, Default, PartialEq, Eq, PartialOrd, Ord, Hash)]
pub struct AttemptNo {
    number: u32,
}

impl Model for AttemptNo {
    ghost Value = { ℕ };

    ghost view = { λ n. n.number };

    ghost inverse = { λ n. record { number = n } };
}

impl AttemptNo {
    /// An attempt with this number.
    pub fn new(number: u32) -> Self
        ensures { result ≡ number }
    {
        AttemptNo { number }
    }

    /// The number, as an index.
    pub fn index(self) -> usize
        ensures value { result ≡ self }
        ensures bound { result < 2 ^ 32 }
    {
        self.number as usize
    }
}
