ghost use Rattle.std.specs.Prelude.{◌≤◌, ◌+◌, IfSome, length};
ghost use Rattle.std.specs.Option.{option_map_or};

use crate::note::Span;
use text_lines::{printable, split_line, split_word};

// A word of a line: how many stand before it, and where it begins.
#[derive(Clone, Copy)]
pub(crate) struct Word<'t> {
    pub(crate) number: usize,
    pub(crate) start: usize,
    pub(crate) text: &'t str,
}

impl<'t> Word<'t> {
    pub(crate) fn span(&self) -> Span {
        Span {
            start: self.start,
            len: self.text.len(),
        }
    }
}

// The words of a line, one after another.
#[derive(Drop)]
pub(crate) struct Words<'t> {
    line: &'t str,
    number: usize,
    rest: Option<&'t str>,
}

impl<'t> Words<'t> {
    pub(crate) fn of(line: &'t str) -> Words<'t> {
        Words {
            line,
            number: 0,
            rest: Some(line),
        }
    }

    pub(crate) fn next_word(&mut self) -> Option<Word<'t>> {
        let Some(rest) = self.rest else {
            return None;
        };
        let (text, after) = split_word(rest);
        let word = Word {
            number: self.number,
            start: self.line.len().saturating_sub(rest.len()),
            text,
        };
        self.number = self.number.saturating_add(1);
        self.rest = after;
        Some(word)
    }
}

// The word before which so many stand, if the line has it.
pub(crate) fn word_at<'t>(line: &'t str, number: usize) -> Option<Word<'t>> {
    let mut words = Words::of(line);
    for _ in 0..number {
        words.next_word()?;
    }
    words.next_word()
}

// The lines of a text that stand before one, as far as they are printable.
#[derive(Drop)]
pub(crate) struct LinesBefore<'t> {
    rest: &'t [u8],
    left: u32,
}

impl<'t> LinesBefore<'t> {
    pub(crate) fn of(text: &'t [u8], number: u32) -> LinesBefore<'t> {
        LinesBefore {
            rest: text,
            left: number.saturating_sub(1),
        }
    }

    pub(crate) fn next_line(&mut self) -> Option<&'t str> {
        if self.left == 0 {
            return None;
        }
        self.left -= 1;
        let (line, after) = split_line(self.rest);
        self.rest = after.unwrap_or(&[]);
        printable(line)
    }
}
