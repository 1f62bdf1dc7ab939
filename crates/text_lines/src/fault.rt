ghost use Rattle.std.specs.Prelude.{◌≡◌, IfOk, string_bytes};
ghost use Rattle.text_lines.specs.Faults.{fault_line as line_of, number_of_fault};

use std::alloc::{AllocError, Global};

/// What is wrong with a line of a text, or with the text as a whole.
#[derive(Clone, Copy, Debug, PartialEq, Eq)]
pub enum Fault {
    /// The first word is no keyword, or the line has not its keyword's shape.
    Shape = 1,
    /// A word in a name's place is no name.
    Misnamed = 2,
    /// A name that is used is not declared, or is of another kind.
    Unknown = 3,
    /// A name, a setting, a barred pair, a dead worker, a busy split or a worker's places are declared twice.
    Repeated = 4,
    /// A number is out of its range, or prices of places fall.
    OutOfRange = 5,
    /// The line passes a limit on how many there may be.
    PassesLimit = 6,
    /// A known line stands where it may not.
    Misplaced = 7,
    /// A holder stands twice in one split line, or a split twice in one `join`.
    RepeatedHolder = 8,
    /// A second start of one split, or a second price of one name.
    SecondEntry = 9,
    /// At `end` a split or a worker has no price.
    NoPrice = 10,
    /// The text has more than 16,777,216 bytes, or 268,435,456 in version 3.
    TooLong = 11,
    /// The last line has no line feed.
    NoFeed = 12,
    /// A byte is outside printable ASCII.
    Unprintable = 13,
    /// A line stands after `end`.
    AfterEnd = 14,
}

/// The first faulty line of a text, and the lowest of its faults.
#[derive(Clone, Copy, Debug, PartialEq, Eq)]
pub struct TextFault {
    /// The line's number, from 1; 0 is the text as a whole.
    pub line: u32,
    pub number: Fault,
}

impl Fault {
    /// The number by which the fault is told, 1 to 14.
    pub fn number(self) -> u8
        ensures { result ≡ number_of_fault self }
    {
        self as u8
    }
}

/// The line that answers a text with this fault.
pub fn fault_line(alloc: Global, fault: TextFault) -> Result<String, AllocError>
    ensures { IfOk result (λ line. string_bytes line ≡ line_of fault) }
{
    let line = fault.line;
    let number = fault.number.number();
    format!(in alloc; "line {line}: fault {number}\n")
}
