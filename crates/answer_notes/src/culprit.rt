use crate::note::Span;
use crate::words::{LinesBefore, Word, Words, word_at};
use line_shapes::demand::is_within;
use line_shapes::{Keyword, Kind, Place};
use std::alloc::{AllocError, Global};
use text_lines::{Fault, NameTable, Number, TextFault, is_long_name, is_name, printable, value_in};

// How many words stand before the bytes of a split, and before the slots of a worker.
const SPLIT_BYTES: usize = 2;

const WORKER_SLOTS: usize = 3;

// A split line with its ninth holder has so many words before it.
const NINTH_HOLDER: usize = 11;

// A line of places with as many prices as a worker may have slots has so many words.
const MOST_PLACES: usize = 257;

// Where in its line a fault lies: a word, or the place after the last one.
pub(crate) fn culprit(
    alloc: Global,
    text: &[u8],
    fault: TextFault,
    line: &[u8],
) -> Result<Span, AllocError> {
    let end = Span {
        start: line.len(),
        len: 0,
    };
    if fault.number == Fault::NoFeed {
        return Ok(end);
    }
    let Some(line) = printable(line) else {
        return Ok(first_unprintable(line));
    };
    let found = match fault.number {
        Fault::Shape => misshapen(text, fault.line, line),
        Fault::Misnamed => first_unfit(fault.number, is_third(text), line),
        Fault::OutOfRange => out_of_range(line),
        Fault::Unknown => first_unknown(alloc, text, fault.line, line)?,
        Fault::RepeatedHolder => first_repeated(alloc, line)?,
        _ => word_at(line, number_of_word(fault.number, line)),
    };
    Ok(match found {
        Some(word) => word.span(),
        None => end,
    })
}

fn first_unprintable(line: &[u8]) -> Span {
    for start in 0..line.len() {
        if !(b' '..=b'~').contains(&line[start]) {
            return Span { start, len: 1 };
        }
    }
    Span { start: 0, len: 0 }
}

// The keyword of a line, if it has one.
fn keyword_in(line: &str) -> Option<Keyword> {
    Keyword::of(Words::of(line).next_word()?.text)
}

// How many words stand before the one at fault, where the fault alone says it.
fn number_of_word(fault: Fault, line: &str) -> usize {
    match fault {
        Fault::Repeated => match keyword_in(line) {
            Some(Keyword::Parts | Keyword::Target | Keyword::Silence) => 0,
            _ => 1,
        },
        Fault::PassesLimit if word_at(line, NINTH_HOLDER).is_some() => match keyword_in(line) {
            Some(Keyword::Split) => NINTH_HOLDER,
            _ => 0,
        },
        Fault::SecondEntry => 1,
        _ => 0,
    }
}

// The first word that does not fit in its place, for a fault that the place alone tells. Names may be `long`
// in a text of version 3.
fn first_unfit<'t>(fault: Fault, long: bool, line: &'t str) -> Option<Word<'t>> {
    let keyword = keyword_in(line)?;
    let mut words = Words::of(line);
    words.next_word();
    for _ in 0..line.len() {
        let word = words.next_word()?;
        if is_unfit(
            fault,
            long,
            keyword.place(word.number.saturating_sub(1)),
            word.text,
        ) {
            return Some(word);
        }
    }
    None
}

// The number that is out of the range of its place, or else a price of a place that is lower than the one before
// it, or the bytes of a split or the slots of a worker, which have a lower limit before version 3.
fn out_of_range(line: &str) -> Option<Word<'_>> {
    match (
        first_unfit(Fault::OutOfRange, false, line),
        keyword_in(line),
    ) {
        (Some(word), _) => Some(word),
        (None, Some(Keyword::Worker)) => word_at(line, WORKER_SLOTS),
        (None, Some(Keyword::Places)) => first_lower(line),
        (None, _) => word_at(line, SPLIT_BYTES),
    }
}

// The first number after the worker of a line of places that is lower than the one before it.
fn first_lower(line: &str) -> Option<Word<'_>> {
    let mut words = Words::of(line);
    words.next_word();
    words.next_word();
    let mut before = 0;
    for _ in 0..line.len() {
        let word = words.next_word()?;
        let number = value_in(word.text)?;
        if number < before {
            return Some(word);
        }
        before = number;
    }
    None
}

fn is_unfit(fault: Fault, long: bool, place: Option<Place>, word: &str) -> bool {
    match (fault, place) {
        (Fault::Shape, None) => true,
        (Fault::Shape, Some(Place::New | Place::Used(_))) => word.is_empty(),
        (Fault::Shape, Some(Place::Number(_, _))) => Number::of(word).is_none(),
        (Fault::Misnamed, Some(Place::New | Place::Used(_))) if long => !is_long_name(word),
        (Fault::Misnamed, Some(Place::New | Place::Used(_))) => !is_name(word),
        (Fault::OutOfRange, Some(Place::Number(least, most))) => !is_within(word, least, most),
        _ => false,
    }
}

// The word that is no keyword, that has not the shape of its place, or that is one too many; none where one
// is missing.
fn misshapen<'t>(text: &[u8], number: u32, line: &'t str) -> Option<Word<'t>> {
    let Some(keyword) = keyword_in(line) else {
        return word_at(line, 0);
    };
    match first_unfit(Fault::Shape, false, line) {
        Some(word) => Some(word),
        None => word_at(line, most_words(text, number, keyword)),
    }
}

// How many words a line of this keyword has at most, where the lines before say so.
fn most_words(text: &[u8], number: u32, keyword: Keyword) -> usize {
    match keyword {
        Keyword::Rack if has_centres(text) => 3,
        Keyword::Rack => 2,
        Keyword::Ahead | Keyword::Sweep => count_workers(text, number).saturating_add(1),
        Keyword::Places => MOST_PLACES,
        _ => usize::MAX,
    }
}

// Whether racks name their centres, as from version 2 on.
fn has_centres(text: &[u8]) -> bool {
    matches!(version_of(text), Some("2" | "3"))
}

// Whether the text is of version 3.
fn is_third(text: &[u8]) -> bool {
    matches!(version_of(text), Some("3"))
}

// The version that the first line tells.
fn version_of(text: &[u8]) -> Option<&str> {
    Some(word_at(LinesBefore::of(text, 2).next_line()?, 1)?.text)
}

fn count_workers(text: &[u8], number: u32) -> usize {
    let mut lines = LinesBefore::of(text, number);
    let mut count: usize = 0;
    for _ in 1..number {
        if let Some(line) = lines.next_line() {
            if let Some(Keyword::Worker) = keyword_in(line) {
                count = count.saturating_add(1);
            }
        }
    }
    count
}

// The names that the lines before declare, by number, with what each is of.
#[derive(Drop)]
struct Declared<'t> {
    names: NameTable<'t>,
    kinds: Vec<Kind>,
}

impl<'t> Declared<'t> {
    fn before(alloc: Global, text: &'t [u8], number: u32) -> Result<Declared<'t>, AllocError> {
        let mut declared = Declared {
            names: NameTable::new(alloc),
            kinds: Vec::new(alloc),
        };
        let mut lines = LinesBefore::of(text, number);
        for _ in 1..number {
            if let Some(line) = lines.next_line() {
                declared.add(line)?;
            }
        }
        Ok(declared)
    }

    // Adds what a line declares.
    fn add(&mut self, line: &'t str) -> Result<(), AllocError> {
        let Some(kind) = kind_declared(line) else {
            return Ok(());
        };
        let Some(word) = word_at(line, 1) else {
            return Ok(());
        };
        if !self.names.has(word.text) {
            self.names.declare(word.text)?;
            self.kinds.push(kind)?;
        }
        Ok(())
    }

    // Whether the name is one of this kind.
    fn has(&self, name: &str, wanted: Kind) -> bool {
        let Some(number) = self.names.number(name) else {
            return false;
        };
        match self.kinds.get(number) {
            Some(kind) => is_of(*kind, wanted),
            None => false,
        }
    }
}

// What a line declares a name of that can be used.
fn kind_declared(line: &str) -> Option<Kind> {
    match keyword_in(line)? {
        Keyword::Centre => Some(Kind::Centre),
        Keyword::Rack => Some(Kind::Rack),
        Keyword::Worker => Some(Kind::Worker),
        Keyword::Split => Some(Kind::Split),
        _ => None,
    }
}

fn is_of(kind: Kind, wanted: Kind) -> bool {
    match (kind, wanted) {
        (Kind::Centre, Kind::Centre) | (Kind::Rack, Kind::Rack) => true,
        (Kind::Worker, Kind::Worker | Kind::Priced) => true,
        (Kind::Split, Kind::Split | Kind::Priced) => true,
        _ => false,
    }
}

// The first word that uses a name which is not declared, or is of another kind.
fn first_unknown<'t>(
    alloc: Global,
    text: &[u8],
    number: u32,
    line: &'t str,
) -> Result<Option<Word<'t>>, AllocError> {
    let declared = Declared::before(alloc, text, number)?;
    let Some(keyword) = keyword_in(line) else {
        return Ok(None);
    };
    Ok(first_stranger(&declared, keyword, line))
}

fn first_stranger<'t>(
    declared: &Declared<'_>,
    keyword: Keyword,
    line: &'t str,
) -> Option<Word<'t>> {
    let mut words = Words::of(line);
    words.next_word();
    for _ in 0..line.len() {
        let word = words.next_word()?;
        if let Some(Place::Used(kind)) = keyword.place(word.number.saturating_sub(1)) {
            if !declared.has(word.text, kind) {
                return Some(word);
            }
        }
    }
    None
}

// The first word of those that may follow any number of times that stood among them before.
fn first_repeated<'t>(alloc: Global, line: &'t str) -> Result<Option<Word<'t>>, AllocError> {
    let Some(keyword) = keyword_in(line) else {
        return Ok(None);
    };
    let places = keyword.places().len();
    let mut seen = NameTable::new(alloc);
    let mut words = Words::of(line);
    for _ in 0..line.len() {
        let Some(word) = words.next_word() else {
            return Ok(None);
        };
        if word.number > places {
            if seen.has(word.text) {
                return Ok(Some(word));
            }
            seen.declare(word.text)?;
        }
    }
    Ok(None)
}
