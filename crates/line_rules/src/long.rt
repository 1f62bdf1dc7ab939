ghost use Rattle.std.specs.Prelude.{◌≡◌, ◌↔◌, ◌≤◌, ◌<◌, ◌⊎◌, ℕ, Contains, IsTrue, List, OnOk, length, map};
ghost use Rattle.std.specs.Prelude.{set};
ghost use Rattle.std.specs.Prelude.{slice_index_or};
ghost use Rattle.std.specs.Borrow.{Bor};
ghost use Rattle.text_lines.specs.Texts.{words_of};
ghost use Rattle.line_shapes.specs.Lines.{words_after};
ghost use Rattle.line_rules.specs.Entering.{follow_of as follows, most_more_of as most_words_of};
ghost use Rattle.line_rules.specs.Faults.{IsDeclaredIn};
ghost use Rattle.line_rules.specs.Long.{HasFirst, HaveFirst, IsUsed, IsWorst, StandsFor};
ghost use Rattle.line_rules.specs.Long.{most_more as most_after};
ghost use Rattle.line_rules.specs.Long.{most_words as most};

use crate::edition::{Version, name_demand};
use crate::entering::{Follow, MORE_PLACES, follow_of, most_more_of};
use crate::fit::is_fit;
use crate::known::{KnownLines, centres_in};
use crate::rows::Rows;
use crate::rules::is_declared_in;
use line_shapes::{Demand, Keyword, Place, cut_words, meets};
use std::alloc::AllocError;
use text_lines::split_word;

// How much is asked of a word after the places of a line: the shape of its place, a name, a declared name.
const ASKED: usize = 3;

// How many marks of words there are.
const MARKS: usize = 1_024;

/// Puts the words after a keyword into a list, in place of what it has. Where there are more than lines of
/// this keyword may have, one of those past them stands for all.
#[inline(always)]
pub fn cut_most<'t>(
    known: &KnownLines<'_>,
    keyword: Keyword,
    rest: Option<&'t str>,
    words: &mut Vec<&'t str>,
) -> Result<(), AllocError>
    ensures { OnOk result (StandsFor known.now keyword (map (λ w. w.now) words.new.items)
        (words_after keyword rest.entry)) }
{
    let Some(left) = cut_words(keyword, rest, most_words(known, keyword), words)? else {
        return Ok(());
    };
    // (No list has so many words.)
    prove!(words.len() < usize::MAX);
    words.push(worst_word(known.rows(), known.version(), keyword.more(), left))?;
    Ok(())
}

// How many words a line of this keyword may have after these lines, or the greatest number if that is more.
// A line with more words has a fault, whatever the words are.
#[inline(always)]
fn most_words(known: &KnownLines<'_>, keyword: Keyword) -> usize
    ensures { (result ≡ most known.now keyword) ⊎ (result ≡ 18446744073709551615) }
{
    keyword
        .places()
        .len()
        .saturating_add(most_more(known, keyword))
}

#[inline(always)]
fn most_more(known: &KnownLines<'_>, keyword: Keyword) -> usize
    ensures { result ≡ most_after (follows keyword) (most_words_of known.now.version keyword) known.now }
{
    match follow_of(keyword) {
        Follow::Centre => centres_in(known.version()),
        Follow::Counts => known.rows().count(Keyword::Worker),
        Follow::Slots => MORE_PLACES,
        Follow::Any => match most_more_of(known.version(), keyword) {
            Some(most) => most,
            None => known.rows().count(Keyword::Split),
        },
    }
}

// One of the words that are left of a line. Where names may stand there, it lacks what any of them lacks
// first: a line with more words than it may have is answered as if this word stood for all of them.
fn worst_word<'t>(rows: &Rows<'_>, version: Version, place: Option<Place>, left: &'t str) -> &'t str
    ensures one { Contains (words_of left.entry.now) result.now }
    ensures worst { IsUsed place → IsWorst version rows.now place (words_of left.entry.now) result.now }
{
    match place {
        Some(Place::Used(_)) => worst_in(rows, version, place, left),
        None | Some(Place::New | Place::Number(_, _) | Place::Text) => split_word(left).0,
    }
}

// The first of the words that have the least, by one pass. `marked` has words that have no less.
#[inline(never)]
fn worst_in<'t>(rows: &Rows<'_>, version: Version, place: Option<Place>, left: &'t str) -> &'t str
    ensures one { Contains (words_of left.entry.now) result.now }
    ensures worst { IsWorst version rows.now place (words_of left.entry.now) result.now }
{
    let (first, after) = split_word(left);
    let Some(after) = after else {
        return first;
    };
    let mut worst = first;
    let mut least = has_first(rows, version, place, first, ASKED + 1);
    let mut marked = [first; MARKS];
    let mut rest = after;
    loop {
        let (word, after) = split_word(rest);
        let has = has_marked(rows, version, place, &mut marked, word, least);
        if has < least {
            worst = word;
            least = has;
        }
        let Some(after) = after else {
            return worst;
        };
        rest = after;
    }
}

// What `has_first` answers, of a word among others that have as much as `least`. While names are looked up, a
// name that was looked up is known again.
#[inline(always)]
fn has_marked<'t>(
    rows: &Rows<'_>,
    version: Version,
    place: Option<Place>,
    marked: &mut [&'t str; MARKS],
    word: &'t str,
    least: usize,
) -> usize
    requires { HaveFirst version rows.now place least marked.old }
    ensures within { result ≤ 3 }
    ensures less { result < least
        → (n : ℕ) → n ≤ 3 → (HasFirst n version rows.now place word.entry.now ↔ n ≤ result) }
    ensures enough { least ≤ result
        → (n : ℕ) → n ≤ 3 → n ≤ least → HasFirst n version rows.now place word.entry.now }
    ensures worse { result < least → HaveFirst version rows.now place result marked.new }
    ensures same { least ≤ result → HaveFirst version rows.now place least marked.new }
{
    if least == ASKED && is_marked(marked, word) {
        return ASKED;
    }
    has_first(rows, version, place, word, least)
}

// Whether the word stands at its mark, where it is put.
#[inline(always)]
fn is_marked<'t>(marked: &mut [&'t str; MARKS], word: &'t str) -> bool
    ensures put { (n : ℕ) × (n < 1024) × (marked.new ≡ set marked.old n word.entry) }
    ensures known { IsTrue result → (n : ℕ) × (n < length marked.old)
        × ((d : Bor (List ℕ)) → (slice_index_or marked.old n d).now ≡ word.entry.now) }
{
    let mark = mark_of(word);
    let known = are_same(marked[mark], word);
    marked[mark] = word;
    known
}

#[inline(always)]
fn are_same(a: &str, b: &str) -> bool
    ensures { IsTrue result ↔ (a.now ≡ b.now) }
{
    a == b
}

// A number that is told by the last three bytes of a word, or by its last one where it has not so many.
#[inline(always)]
fn mark_of(word: &str) -> usize
    ensures { result < 1024 }
{
    let bytes = word.as_bytes();
    let length = bytes.len();
    if length == 0 {
        return 0;
    }
    let last = bytes[length - 1];
    if length < 3 {
        return usize::from(last);
    }
    let (second, third) = (bytes[length - 2], bytes[length - 3]);
    (usize::from(last) + 10 * usize::from(second) + 100 * usize::from(third)) % MARKS
}

// How much the word has of what is asked of it, in turn, if that is less than `least`, and else as much as
// that or more: a name is not looked up where this decides nothing.
#[inline(always)]
fn has_first(
    rows: &Rows<'_>,
    version: Version,
    place: Option<Place>,
    word: &str,
    least: usize,
) -> usize
    ensures within { result ≤ 3 }
    ensures less { result < least
        → (n : ℕ) → n ≤ 3 → (HasFirst n version rows.now place word.now ↔ n ≤ result) }
    ensures enough { least ≤ result
        → (n : ℕ) → n ≤ 3 → n ≤ least → HasFirst n version rows.now place word.now }
{
    if !meets(Demand::Shape, place, word) {
        0
    } else if !meets(name_demand(version), place, word) {
        1
    } else if least > 2 && !is_declared(rows, version, place, word) {
        2
    } else {
        ASKED
    }
}

// Whether a name that is used is declared. Most are, by the first line that was entered by them.
#[inline(always)]
fn is_declared(rows: &Rows<'_>, version: Version, place: Option<Place>, word: &str) -> bool
    ensures { IsTrue result ↔ IsDeclaredIn rows.now place word.now }
{
    is_fit(rows, version, place, word) || is_declared_in(rows, place, word)
}
