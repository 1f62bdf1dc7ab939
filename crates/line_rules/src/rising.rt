ghost use Rattle.std.specs.Prelude.{◌≡◌, ◌↔◌, IsTrue, drop, map};
ghost use Rattle.std.specs.List.Sorted.{IsNonDecreasingBy};
ghost use Rattle.text_lines.specs.Texts.{number_of};
ghost use Rattle.line_shapes.specs.Demands.{IsNumberWithin};
ghost use Rattle.line_shapes.specs.Lines.{IsInRange, stated, statement_of};
ghost use Rattle.line_shapes.specs.declared.keyword.Keyword.TheVariants.{Places};
ghost use Rattle.line_rules.specs.Faults.{AreRising};

use line_shapes::{KeyedLine, Keyword};
use text_lines::value_in;

/// Whether no price of a place in the line is lower than the one before it.
#[inline(always)]
pub fn are_rising(line: &KeyedLine<'_, '_>) -> bool
    requires { IsInRange (statement_of line.now) }
    ensures { IsTrue result ↔ AreRising line.now.keyword (statement_of line.now).words }
{
    match line.keyword {
        Keyword::Places => do_not_fall(line.words),
        _ => true,
    }
}

// Whether none of the numbers past the first word is lower than the one before it.
fn do_not_fall(words: &[&str]) -> bool
    requires { IsInRange (stated Places words.now) }
    ensures { IsTrue result ↔ IsNonDecreasingBy number_of (drop 1 (map (λ w. w.now) words.now)) }
{
    for i in 2..words.len() {
        if price_of(words[i]) < price_of(words[i - 1]) {
            return false;
        }
    }
    true
}

// The price that the word stands for.
fn price_of(word: &str) -> u64
    requires { IsNumberWithin 0 68719476736 word.now }
    ensures { result ≡ number_of word.now }
{
    match value_in(word) {
        Some(price) => price,
        None => unreachable!(),
    }
}
