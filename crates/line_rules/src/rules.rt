ghost use Rattle.std.specs.Prelude.{◌≡◌, ◌↔◌, ◌≤◌, ◌<◌, ℕ, List, IsTrue, Contains, length, map};
ghost use Rattle.std.specs.Prelude.{slice_index_or};
ghost use Rattle.std.specs.Prelude.{[], All};
ghost use Rattle.std.specs.Borrow.{Bor};
ghost use Rattle.text_lines.specs.Texts.{Word};
ghost use Rattle.line_shapes.specs.Lines.{Statement, stated, statement_of, tail_words};
ghost use Rattle.line_shapes.specs.Places.{places_of};
ghost use Rattle.line_rules.specs.Entering.{Key, entering_of as entering, first_key};
ghost use Rattle.line_rules.specs.Entering.{most_more_of as most_words, second_key};
ghost use Rattle.line_rules.specs.Faults.{HasItsPrice, IsDeclaredIn, IsFew, IsFirst, IsFirstOfBody};
ghost use Rattle.line_rules.specs.Faults.{IsFirstOfHead, IsFreeIn, Keep, KeepsTo};
ghost use Rattle.line_rules.specs.Known.{HasRow, IsDeclared, IsTaken, keys_of};
ghost use Rattle.line_rules.specs.declared.entering.Entering.TheVariants.{InTurn};
ghost use Rattle.line_rules.specs.declared.rule.Rule.TheVariants.{Declared, Free};

use crate::edition::Version;
use crate::entering::{Entering, entering_of, is_priced, most_more_of};
use crate::rows::Rows;
use crate::rule::Rule;
use crate::section::Section;
use line_shapes::{KeyedLine, Keyword, Kind, Place};

/// Whether each word after the keyword keeps to the rule in its place.
#[inline(never)]
pub fn keep(rule: Rule, rows: &Rows<'_>, line: &KeyedLine<'_, '_>) -> bool
    ensures { IsTrue result ↔ Keep rule rows.now (statement_of line.now) }
{
    for i in 0..line.words.len() {
        if !keeps_to(rule, rows, line.keyword.place(i), line.words[i]) {
            return false;
        }
    }
    true
}

fn keeps_to(rule: Rule, rows: &Rows<'_>, place: Option<Place>, word: &str) -> bool
    ensures { IsTrue result ↔ KeepsTo rule rows.now place word.now }
{
    match rule {
        Rule::Declared => is_declared_in(rows, place, word),
        Rule::Free => is_free_in(rows, place, word),
    }
}

pub(crate) fn is_declared_in(rows: &Rows<'_>, place: Option<Place>, word: &str) -> bool
    ensures { IsTrue result ↔ IsDeclaredIn rows.now place word.now }
{
    match place {
        None => true,
        Some(Place::New) => true,
        Some(Place::Used(kind)) => is_declared(rows, kind, word),
        Some(Place::Number(_, _)) => true,
        Some(Place::Text) => true,
    }
}

fn is_free_in(rows: &Rows<'_>, place: Option<Place>, word: &str) -> bool
    ensures { IsTrue result ↔ IsFreeIn rows.now place word.now }
{
    match place {
        None => true,
        Some(Place::New) => is_free(rows, word),
        Some(Place::Used(_)) => true,
        Some(Place::Number(_, _)) => true,
        Some(Place::Text) => true,
    }
}

fn is_declared(rows: &Rows<'_>, kind: Kind, name: &str) -> bool
    ensures { IsTrue result ↔ IsDeclared rows.now kind name.now }
{
    match kind {
        Kind::Centre => has_row(rows, Keyword::Centre, name),
        Kind::Rack => has_row(rows, Keyword::Rack, name),
        Kind::Worker => has_row(rows, Keyword::Worker, name),
        Kind::Split => has_row(rows, Keyword::Split, name),
        Kind::Priced => has_row(rows, Keyword::Split, name) || has_row(rows, Keyword::Worker, name),
    }
}

/// Whether the name is not taken.
#[inline(always)]
pub fn is_free(rows: &Rows<'_>, name: &str) -> bool
    ensures { IsTrue result ↔ (IsTaken rows.now name.now → ⊥) }
{
    !is_taken(rows, name)
}

// Most names that are asked for are new, which is found at once.
#[inline(always)]
fn is_taken(rows: &Rows<'_>, name: &str) -> bool
    ensures { IsTrue result ↔ IsTaken rows.now name.now }
{
    rows.has_word(name)
        && (has_row(rows, Keyword::Centre, name)
            || has_row(rows, Keyword::Rack, name)
            || has_row(rows, Keyword::Worker, name)
            || has_row(rows, Keyword::Split, name)
            || has_row(rows, Keyword::Doc, name))
}

// Whether a row of this keyword has this first word and is entered by it alone.
fn has_row(rows: &Rows<'_>, keyword: Keyword, name: &str) -> bool
    ensures { IsTrue result ↔ HasRow rows.now keyword name.now }
{
    rows.has(keyword, name, "")
}

/// Whether no line before was entered by the same words.
pub fn is_first(rows: &Rows<'_>, line: &KeyedLine<'_, '_>) -> bool
    ensures { IsTrue result ↔ IsFirst rows.now (statement_of line.now) }
{
    !rows.has(line.keyword, first_of_key(line), second_of_key(line))
}

/// The first word of a line's key, empty where it has none.
#[inline(always)]
pub fn first_of_key<'t>(line: &KeyedLine<'_, 't>) -> &'t str
    ensures { result.now ≡ first_key (entering line.now.keyword) (statement_of line.now).words }
{
    match entering_of(line.keyword) {
        Entering::Nothing | Entering::InTurn | Entering::Alone => "",
        Entering::Word => word_at(line.words, 0),
        Entering::Pair => word_at(line.words, 0),
    }
}

/// The second word of a line's key, empty where it has none.
#[inline(always)]
pub fn second_of_key<'t>(line: &KeyedLine<'_, 't>) -> &'t str
    ensures { result.now ≡ second_key (entering line.now.keyword) (statement_of line.now).words }
{
    match entering_of(line.keyword) {
        Entering::Nothing | Entering::InTurn | Entering::Alone => "",
        Entering::Word => "",
        Entering::Pair => word_at(line.words, 1),
    }
}

// The word at a place, empty past the last.
#[inline(always)]
pub(crate) fn word_at<'t>(words: &[&'t str], place: usize) -> &'t str
    ensures { result.now ≡ slice_index_or (map (λ w. w.now) words.now) place [] }
{
    match words.get(place) {
        Some(word) => word,
        None => "",
    }
}

/// Whether no more words follow those in the places of the line than may in a text of the version.
#[inline(always)]
pub fn is_few(version: Version, line: &KeyedLine<'_, '_>) -> bool
    ensures { IsTrue result
        ↔ IsFew (most_words version line.now.keyword) (length (tail_words (statement_of line.now))) }
{
    match most_more_of(version, line.keyword) {
        Some(most) => line.words.len().saturating_sub(line.keyword.places().len()) <= most,
        None => true,
    }
}

/// Whether each split and each worker has its price.
#[inline(never)]
pub fn are_priced(rows: &Rows<'_>) -> bool
    ensures { IsTrue result ↔ All (HasItsPrice rows.now) (keys_of rows.now) }
{
    for row in 0..rows.len() {
        if !has_its_price(rows, row) {
            return false;
        }
    }
    true
}

// Whether the row at a place has a price, if it wants one.
fn has_its_price(rows: &Rows<'_>, row: usize) -> bool
    requires { row < length rows.now }
    ensures { (d : Key) → IsTrue result ↔ HasItsPrice rows.now (slice_index_or (keys_of rows.now) row d) }
{
    match rows.key(row) {
        Some((keyword, name)) => !is_priced(keyword) || has_row(rows, Keyword::Price, name),
        None => true,
    }
}

/// Whether lines of this keyword are entered by the name that they declare; such a line is the first where
/// its name is free.
#[inline(always)]
pub fn is_entered_by_new_name(keyword: Keyword) -> bool
    ensures { IsTrue result → (rows : List Statement) (words : List (Bor (List ℕ)))
        → length (places_of keyword) ≤ length words → Keep Free rows (stated keyword words)
        → IsFirst rows (stated keyword words) }
{
    matches!(
        (entering_of(keyword), keyword.place(0)),
        (Entering::Word, Some(Place::New))
    )
}

/// Whether lines of this keyword are commands.
#[inline(always)]
pub fn is_command(keyword: Keyword) -> bool
    ensures { IsTrue result ↔ (entering keyword ≡ InTurn) }
{
    matches!(entering_of(keyword), Entering::InTurn)
}

/// Whether a line that declares something does so for the first time; `after` is the section after it.
pub fn is_first_of_head(after: Section, rows: &Rows<'_>, line: &KeyedLine<'_, '_>) -> bool
    ensures { IsTrue result ↔ IsFirstOfHead after rows.now (statement_of line.now) }
{
    match after {
        Section::Head => is_first(rows, line),
        Section::First | Section::Body | Section::Ended => true,
    }
}

/// Whether a line that states something does so for the first time; `after` is the section after it.
#[inline(always)]
pub fn is_first_of_body(after: Section, rows: &Rows<'_>, line: &KeyedLine<'_, '_>) -> bool
    ensures { IsTrue result ↔ IsFirstOfBody after rows.now (statement_of line.now) }
{
    match after {
        Section::Body => is_first(rows, line),
        Section::First | Section::Head | Section::Ended => true,
    }
}
