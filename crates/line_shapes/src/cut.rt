ghost use Rattle.std.specs.Prelude.{◌≡◌, ◌∷◌, ◌++◌, ◌≤◌, [], ℕ, suc, IfOk, MatchOption, None, OnOk, Option};
ghost use Rattle.std.specs.Prelude.{Some, length, map};
ghost use Rattle.text_lines.specs.Texts.{words_left};
ghost use Rattle.line_shapes.specs.Lines.{first_words as front, pieces, pieces_after};
ghost use Rattle.line_shapes.specs.Lines.{words_after as words_of_rest};
ghost use Rattle.line_shapes.specs.Places.{more_of};
ghost use Rattle.line_shapes.specs.declared.place.Place.{Place};
ghost use Rattle.line_shapes.specs.declared.place.Place.TheVariants.{Text};

use crate::keyword::Keyword;
use crate::place::Place;
use std::alloc::AllocError;
use text_lines::{add_words, split_word};

/// The first word of a text, and what follows the space after it.
#[inline(always)]
pub fn first_word(text: &str) -> (&str, Option<&str>)
    ensures { (more : Option Place) (n : ℕ)
        → pieces more (suc n) text.entry.now ≡ result.0.now ∷ pieces_after more n result.1 }
{
    split_word(text)
}

// Puts the first words, so many, into an empty list, and what follows them as it stands.
fn first_words<'t>(count: usize, text: &'t str, words: &mut Vec<&'t str>) -> Result<(), AllocError>
    requires { words.old.items ≡ [] }
    ensures { OnOk result (map (λ w. w.now) words.new.items ≡ front count text.entry.now) }
{
    let mut rest = text;
    for number in 0..count {
        let (word, after) = first_word(rest);
        words.push(word)?;
        let Some(after) = after else {
            return Ok(());
        };
        rest = after;
    }
    words.push(rest)?;
    Ok(())
}

/// Puts the words that follow a keyword and its space into a list, so many at most, in place of what the list
/// has, and gives the rest of the line. A text that may follow these words is one word, whatever spaces it
/// has, and leaves no rest.
#[inline(always)]
pub fn cut_words<'t>(
    keyword: Keyword,
    rest: Option<&'t str>,
    most: usize,
    words: &mut Vec<&'t str>,
) -> Result<Option<&'t str>, AllocError>
    ensures all { IfOk result (λ left. words_of_rest keyword rest.entry
        ≡ map (λ w. w.now) words.new.items ++ words_left left) }
    ensures full { IfOk result (λ left. MatchOption left (Unit {0}) (λ rest. most ≤ length words.new.items)) }
    ensures text { more_of keyword ≡ Some Text → IfOk result (λ left. left ≡ None) }
{
    words.clear();
    let Some(rest) = rest else {
        return Ok(None);
    };
    match keyword.more() {
        Some(Place::Text) => {
            first_words(keyword.places().len(), rest, words)?;
            Ok(None)
        }
        None | Some(Place::New | Place::Used(_) | Place::Number(_, _)) => {
            add_words(rest, most, words)
        }
    }
}
