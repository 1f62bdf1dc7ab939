ghost use Rattle.std.specs.Prelude.{◌≡◌, MatchOption, ◌↔◌, ◌≤◌, IsTrue, length, map};
ghost use Rattle.line_shapes.specs.Demands.{Meet};
ghost use Rattle.line_shapes.specs.Lines.{IsShaped, stated, statement_of, HasTailApart, IsInRange};
ghost use Rattle.line_shapes.specs.Lines.{tail_words};
ghost use Rattle.line_shapes.specs.Places.{places_of};

use crate::apart::are_apart;
use crate::demand::{Demand, meet};
use crate::keyword::Keyword;
use crate::place::Place;

/// What a line says: its keyword, and the words after it.
#[derive(Clone, Copy)]
pub struct KeyedLine<'w, 't> {
    pub keyword: Keyword,
    pub words: &'w [&'t str],
}

/// The line of this keyword and these words after it, or None where they have not its shape.
pub fn said_by<'w, 't>(keyword: Keyword, words: &'w [&'t str]) -> Option<KeyedLine<'w, 't>>
    ensures { MatchOption result (IsShaped (stated keyword words.entry.now) → ⊥)
        (λ line. (statement_of line ≡ stated keyword words.entry.now) × IsShaped (statement_of line)) }
{
    if words.len() >= keyword.places().len() && meet(Demand::Shape, keyword, words) {
        Some(KeyedLine { keyword, words })
    } else {
        None
    }
}

impl<'w, 't> KeyedLine<'w, 't> {
    /// Whether each word meets the demand.
    pub fn meets(&self, demand: Demand) -> bool
        ensures { IsTrue result ↔ Meet demand self.now.keyword (statement_of self.now).words }
    {
        meet(demand, self.keyword, self.words)
    }

    /// Whether each number is within its range.
    pub fn is_in_range(&self) -> bool
        ensures { IsTrue result ↔ IsInRange (statement_of self.now) }
    {
        self.meets(Demand::Range)
    }

    /// Whether no name stands twice among those that may follow any number of times.
    pub fn has_tail_apart(&self) -> bool
        requires { length (places_of self.now.keyword) ≤ length self.now.words.now }
        ensures { IsTrue result ↔ HasTailApart (statement_of self.now) }
    {
        match self.keyword.more() {
            None => true,
            Some(Place::Number(_, _)) => true,
            Some(Place::Text) => true,
            Some(Place::New) => are_apart(self.tail()),
            Some(Place::Used(_)) => are_apart(self.tail()),
        }
    }

    // The words after the places.
    fn tail(&self) -> &'w [&'t str]
        requires { length (places_of self.now.keyword) ≤ length self.now.words.now }
        ensures { map (λ w. w.now) result.now ≡ tail_words (statement_of self.now) }
    {
        &self.words[self.keyword.places().len()..]
    }
}
