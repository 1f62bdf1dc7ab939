ghost use Rattle.std.specs.Prelude.{◌≡◌, ◌∷◌, ◌++◌, [], ◌<◌, ◌≤◌, ◌↔◌, ◌==◌, IfOk, IsTrue, MatchOption};
ghost use Rattle.std.specs.Prelude.{false, length, map, position, slice_index, All, ℕ};
ghost use Rattle.std.specs.Int.{bit_at};
ghost use Rattle.text_lines.specs.Texts.{IsCutAtSpace, IsOfLine, IsPrintable, lines_of, words_left, words_of};

use memchr::memchr;
use std::alloc::AllocError;
use std::simd::prelude::*;

// So many bytes of a line are tested for a space at once.
const FRONT: usize = 8;

/// The first line of a text, without its line feed, and what follows the line feed, if it has one.
pub fn split_line(text: &[u8]) -> (&[u8], Option<&[u8]>)
    ensures { MatchOption result.1 (lines_of text.entry.now ≡ result.0.now ∷ [])
        (λ rest. (lines_of text.entry.now ≡ result.0.now ∷ lines_of rest.now)
        × (length rest.now < length text.entry.now)) }
{
    match line_end(text) {
        Some(at) => (&text[..at], Some(&text[at + 1..])),
        None => (text, None),
    }
}

// Where the first line feed stands.
fn line_end(text: &[u8]) -> Option<usize>
    ensures { result ≡ position (λ b. b == 10) text.now }
{
    memchr(b'\n', text)
}

/// Whether each line of a text is found printable by one pass over its bytes.
pub fn has_printable_lines(text: &[u8]) -> bool
    ensures { IsTrue result → All (All IsPrintable) (lines_of text.now) }
{
    are_of_lines(text)
}

fn are_of_lines(text: &[u8]) -> bool
    ensures { IsTrue result → All IsOfLine text.now }
{
    let mut all = true;
    for byte in text {
        all &= is_of_line(*byte);
    }
    all
}

fn is_of_line(byte: u8) -> bool
    ensures { IsTrue result ↔ IsOfLine byte }
{
    byte == b'\n' || is_printable_byte(byte)
}

/// The line as text, where all its bytes are printable ASCII; they are looked at where that is not known.
pub fn printable_in(known: bool, line: &[u8]) -> Option<&str>
    requires { IsTrue known → All IsPrintable line.now }
    ensures { MatchOption result (¬ (All IsPrintable line.entry.now))
        (λ text. (text.now ≡ line.entry.now) × All IsPrintable line.entry.now) }
{
    if has_printable(known, line) {
        Some(unsafe { str::from_utf8_unchecked(line) })
    } else {
        None
    }
}

/// The line as text, where all its bytes are printable ASCII.
pub fn printable(line: &[u8]) -> Option<&str>
    ensures { MatchOption result (¬ (All IsPrintable line.entry.now))
        (λ text. (text.now ≡ line.entry.now) × All IsPrintable line.entry.now) }
{
    printable_in(false, line)
}

fn has_printable(known: bool, line: &[u8]) -> bool
    requires { IsTrue known → All IsPrintable line.now }
    ensures { IsTrue result ↔ All IsPrintable line.now }
{
    known || is_printable(line)
}

// Every byte is looked at, so that many can be tested in one step.
fn is_printable(line: &[u8]) -> bool
    ensures { IsTrue result ↔ All IsPrintable line.now }
{
    let mut all = true;
    for byte in line {
        all &= is_printable_byte(*byte);
    }
    all
}

fn is_printable_byte(byte: u8) -> bool
    ensures { IsTrue result ↔ IsPrintable byte }
{
    (b' '..=b'~').contains(&byte)
}

/// The first word of a line, and what follows the space after it, if it has one.
#[inline(always)]
pub fn split_word(line: &str) -> (&str, Option<&str>)
    ensures words { MatchOption result.1 (words_of line.entry.now ≡ result.0.now ∷ [])
        (λ rest. (words_of line.entry.now ≡ result.0.now ∷ words_of rest.now)
        × (length rest.now < length line.entry.now)) }
    ensures cut { IsCutAtSpace line.entry.now result.0.now result.1 }
{
    match first_space(line.as_bytes()) {
        Some(at) => (&line[..at], Some(&line[at + 1..])),
        None => (line, None),
    }
}

// Where the first space stands. The first bytes are tested at once, since most words are short.
#[inline(always)]
fn first_space(line: &[u8]) -> Option<usize>
    ensures { result ≡ position (λ b. b == 32) line.now }
{
    if line.len() < FRONT {
        return first_space_from(line, 0);
    }
    let spaces = spaces_in_front(line);
    if spaces != 0 {
        Some(spaces.trailing_zeros() as usize)
    } else {
        first_space_from(line, FRONT)
    }
}

// The places of the spaces among the first bytes, each as a bit.
#[inline(always)]
fn spaces_in_front(line: &[u8]) -> u64
    requires { 8 ≤ length line.now }
    ensures marked { (k : ℕ) → k < 8 → slice_index line.now k ≡ 32 → bit_at result k ≡ 1 }
    ensures spaces { (k : ℕ) → bit_at result k ≡ 1 → (k < 8) × (slice_index line.now k ≡ 32) }
{
    u8x8::from_slice(line)
        .simd_eq(u8x8::splat(b' '))
        .to_bitmask()
}

// Where the first space stands, which is none of the bytes before `from`.
#[inline(always)]
fn first_space_from(line: &[u8], from: usize) -> Option<usize>
    requires { (k : ℕ) → k < from → (slice_index line.now k == 32) ≡ false }
    ensures { result ≡ position (λ b. b == 32) line.now }
{
    for at in from..line.len() {
        if line[at] == b' ' {
            return Some(at);
        }
    }
    None
}

/// Puts the words of a line at the end of a list, until it has so many, and gives what is left of the
/// line. Between two spaces side by side stands an empty word, as it does before a space that stands first
/// and after one that stands last; an empty line is one empty word.
pub fn add_words<'t>(
    line: &'t str,
    most: usize,
    words: &mut Vec<&'t str>,
) -> Result<Option<&'t str>, AllocError>
    ensures all { IfOk result (λ left. map (λ w. w.now) words.old.items ++ words_of line.entry.now
        ≡ map (λ w. w.now) words.new.items ++ words_left left) }
    ensures full { IfOk result (λ left. MatchOption left (Unit {0}) (λ rest. most ≤ length words.new.items)) }
{
    let mut rest = line;
    loop {
        if words.len() >= most {
            return Ok(Some(rest));
        }
        let (word, after) = split_word(rest);
        words.push(word)?;
        let Some(after) = after else {
            return Ok(None);
        };
        rest = after;
    }
}
