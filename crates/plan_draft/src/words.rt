ghost use Rattle.std.specs.Prelude.{◌≡◌, ◌<◌, ◌↔◌, Contains, IfSome, IsSome, is_some, length, map};
ghost use Rattle.text_lines.specs.Texts.{number_of};
ghost use Rattle.plan_text.specs.Value.{number_in, stands_in};
ghost use Rattle.script_text.specs.Commands.{word_at};
ghost use Rattle.script_text.specs.Ready.{HasNumber};

use script_text::numbers::word_in;
use text_lines::{NameTable, value_in};

/// The number of the name that stands at a place, if it is one of these.
pub fn number_if_known(names: &NameTable<'_>, words: &[&str], place: usize) -> Option<usize>
    requires { place < length words.now }
    ensures known { IsSome result ↔ Contains names.now (word_at (map (λ w. w.now) words.now) place) }
    ensures stands { is_some result ≡ stands_in names.now (word_at (map (λ w. w.now) words.now) place) }
    ensures number { IfSome result (λ number.
        number ≡ number_in names.now (word_at (map (λ w. w.now) words.now) place)) }
{
    names.number(word_in(words, place))
}

/// The price that stands at a place.
pub fn price_at(words: &[&str], place: usize) -> u64
    requires { HasNumber 18446744073709551615 (map (λ w. w.now) words.now) place }
    ensures { result ≡ number_of (word_at (map (λ w. w.now) words.now) place) }
{
    match value_in(word_in(words, place)) {
        Some(price) => price,
        None => unreachable!(),
    }
}
