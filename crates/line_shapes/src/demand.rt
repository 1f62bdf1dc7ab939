ghost use Rattle.std.specs.Prelude.{◌↔◌, IsTrue};
ghost use Rattle.text_lines.specs.Texts.{IsLongName, IsName};
ghost use Rattle.line_shapes.specs.Demands.{HasShape, IsNamedIn, IsNumberWithin, IsWithinIn};
ghost use Rattle.line_shapes.specs.Demands.{MeetIn, MeetsDemand};

use crate::keyword::Keyword;
use crate::place::Place;
use text_lines::{Number, is_long_name, is_name, value_in};

/// What is asked of each word in its place.
#[derive(Clone, Copy)]
pub enum Demand {
    /// The place is one of the keyword's, and a number's word is a number.
    Shape,
    /// A name's word is a name.
    Name,
    /// A name's word is a long name.
    LongName,
    /// A number is within its range.
    Range,
}

/// Whether each word after the keyword meets the demand.
#[inline(always)]
pub fn meet(demand: Demand, keyword: Keyword, words: &[&str]) -> bool
    ensures { IsTrue result ↔ MeetIn demand keyword words.now }
{
    for i in 0..words.len() {
        if !meets(demand, keyword.place(i), words[i]) {
            return false;
        }
    }
    true
}

/// Whether a word in this place meets the demand.
#[inline(always)]
pub fn meets(demand: Demand, place: Option<Place>, word: &str) -> bool
    ensures { IsTrue result ↔ MeetsDemand demand place word.now }
{
    match demand {
        Demand::Shape => has_shape(place, word),
        Demand::Name => is_named_in(place, word),
        Demand::LongName => is_long_named_in(place, word),
        Demand::Range => is_within_in(place, word),
    }
}

#[inline(always)]
fn has_shape(place: Option<Place>, word: &str) -> bool
    ensures { IsTrue result ↔ HasShape place word.now }
{
    match place {
        None => false,
        Some(Place::New | Place::Used(_)) => !word.is_empty(),
        Some(Place::Number(_, _)) => Number::of(word).is_some(),
        Some(Place::Text) => true,
    }
}

#[inline(always)]
fn is_named_in(place: Option<Place>, word: &str) -> bool
    ensures { IsTrue result ↔ IsNamedIn IsName place word.now }
{
    match place {
        None | Some(Place::Number(_, _) | Place::Text) => true,
        Some(Place::New | Place::Used(_)) => is_name(word),
    }
}

#[inline(always)]
fn is_long_named_in(place: Option<Place>, word: &str) -> bool
    ensures { IsTrue result ↔ IsNamedIn IsLongName place word.now }
{
    match place {
        None | Some(Place::Number(_, _) | Place::Text) => true,
        Some(Place::New | Place::Used(_)) => is_long_name(word),
    }
}

// A word that is no number is in no range; no line has one in a number's place.
#[inline(always)]
fn is_within_in(place: Option<Place>, word: &str) -> bool
    ensures { IsTrue result ↔ IsWithinIn place word.now }
{
    match place {
        None | Some(Place::New | Place::Used(_) | Place::Text) => true,
        Some(Place::Number(least, most)) => is_within(word, least, most),
    }
}

/// Whether the word is a number of at least and at most so much.
#[inline(always)]
pub fn is_within(word: &str, least: u64, most: u64) -> bool
    ensures { IsTrue result ↔ IsNumberWithin least most word.now }
{
    match value_in(word) {
        Some(value) => least <= value && value <= most,
        None => false,
    }
}
