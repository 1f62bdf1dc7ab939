ghost use Rattle.std.specs.Prelude.{◌≡◌, ◌<◌, List, IfSome, IsSome, IsTrue, length, slice_get};
ghost use Rattle.text_lines.specs.Texts.{Word};
ghost use Rattle.line_shapes.specs.Lines.{HasTailApart, Statement, stated};
ghost use Rattle.line_shapes.specs.Places.{or_more};
ghost use Rattle.line_shapes.specs.declared.keyword.Keyword.TheVariants.{Barred, Join};
ghost use Rattle.line_rules.specs.Entered.{AreFit, IsFitIn};
ghost use Rattle.line_rules.specs.Known.{HasRow, IsDeclared, IsTaken};
ghost use Rattle.line_rules.specs.Names.{IsNameOf};
ghost use Rattle.line_rules.specs.Rows.{IsBarOf, bar_said};
ghost use Rattle.line_rules.specs.declared.edition.Version.{Version};

use crate::edition::{Version, is_name_of};
use crate::rows::Rows;
use crate::rules::is_free;
use line_shapes::{Keyword, Kind, Place, is_within};

// A line of more words than this is a line of many splits.
const MANY: usize = 8;

/// Whether each word after the keyword is fit for its place in a text of the version, by one pass over the
/// words. Most lines are fit; which fault another line has, if any, other tests find.
#[inline(always)]
pub fn are_fit(rows: &Rows<'_>, version: Version, keyword: Keyword, words: &[&str]) -> bool
    ensures { IsTrue result → AreFit version rows.now (stated keyword words.now) }
{
    let places = keyword.places();
    let more = keyword.more();
    for i in 0..words.len() {
        if !is_fit(rows, version, place_among(places, more, i), words[i]) {
            return false;
        }
    }
    true
}

/// The same of a line of many splits, and whether no split stands twice there: each is looked up once. False
/// is answered of every other line.
pub fn are_fit_splits(rows: &Rows<'_>, version: Version, keyword: Keyword, words: &[&str]) -> bool
    ensures fit { IsTrue result → AreFit version rows.now (stated keyword words.now) }
    ensures apart { IsTrue result → HasTailApart (stated keyword words.now) }
{
    if words.len() <= MANY {
        return false;
    }
    match keyword {
        Keyword::Join => are_fit_in_join(rows, version, words),
        _ => false,
    }
}

fn are_fit_in_join(rows: &Rows<'_>, version: Version, words: &[&str]) -> bool
    requires { 0 < length words.now }
    ensures fit { IsTrue result → AreFit version rows.now (stated Join words.now) }
    ensures apart { IsTrue result → HasTailApart (stated Join words.now) }
{
    if !is_fit(rows, version, Some(Place::Used(Kind::Worker)), words[0]) {
        return false;
    }
    rows.are_splits_apart(&words[1..])
}

#[inline(always)]
fn place_among(places: &[Place], more: Option<Place>, number: usize) -> Option<Place>
    ensures { result ≡ or_more (slice_get places.now number) more }
{
    match places.get(number) {
        Some(place) => Some(*place),
        None => more,
    }
}

/// The numbers of the split and the worker whose pair a line of this keyword and these two words bars. Where
/// it has some, its words are fit.
#[inline(always)]
pub fn bar_of(rows: &Rows<'_>, keyword: Keyword, words: &[&str]) -> Option<(u32, u32)>
    ensures bar { IfSome result (IsBarOf rows.now (stated keyword words.now)) }
    ensures fit { IsSome result → (version : Version) → AreFit version rows.now (stated keyword words.now) }
{
    match keyword {
        Keyword::Barred => named_pair(rows, words),
        _ => None,
    }
}

#[inline(always)]
fn named_pair(rows: &Rows<'_>, words: &[&str]) -> Option<(u32, u32)>
    ensures bar { IfSome result (IsBarOf rows.now (stated Barred words.now)) }
    ensures fit { IsSome result → (version : Version) → AreFit version rows.now (stated Barred words.now) }
{
    if words.len() == 2 {
        pair_of(rows, words[0], words[1])
    } else {
        None
    }
}

// The numbers of the split and the worker that have these names.
fn pair_of(rows: &Rows<'_>, first: &str, second: &str) -> Option<(u32, u32)>
    ensures bar { IfSome result (IsBarOf rows.now (bar_said first.now second.now)) }
    ensures fit { IsSome result → (version : Version)
        → AreFit version rows.now (bar_said first.now second.now) }
{
    if first.is_empty() || second.is_empty() {
        return None;
    }
    let split = rows.first_of(Keyword::Split, first)?;
    let worker = rows.first_of(Keyword::Worker, second)?;
    Some((split, worker))
}

/// Whether the word is fit for this place in a text of the version.
#[inline(always)]
pub fn is_fit(rows: &Rows<'_>, version: Version, place: Option<Place>, word: &str) -> bool
    ensures { IsTrue result → IsFitIn version rows.now place word.now }
{
    match place {
        None => false,
        Some(Place::New) => is_free_name(rows, version, word),
        Some(Place::Used(kind)) => !word.is_empty() && is_of_kind(rows, kind, word),
        Some(Place::Number(least, most)) => is_within(word, least, most),
        Some(Place::Text) => true,
    }
}

#[inline(always)]
fn is_free_name(rows: &Rows<'_>, version: Version, word: &str) -> bool
    ensures { IsTrue result → IsNameOf version word.now × (IsTaken rows.now word.now → ⊥) }
{
    is_name_of(version, word) && is_free(rows, word)
}

// Whether the first line that was entered by the name declares one of this kind.
#[inline(always)]
fn is_of_kind(rows: &Rows<'_>, kind: Kind, name: &str) -> bool
    ensures { IsTrue result → IsDeclared rows.now kind name.now }
{
    match rows.first(name) {
        Some(keyword) => declares(keyword, kind),
        None => false,
    }
}

// Whether a line of this keyword declares one of this kind.
#[inline(always)]
fn declares(keyword: Keyword, kind: Kind) -> bool
    ensures { IsTrue result
        → (rows : List Statement) (w : Word) → HasRow rows keyword w → IsDeclared rows kind w }
{
    match kind {
        Kind::Centre => matches!(keyword, Keyword::Centre),
        Kind::Rack => matches!(keyword, Keyword::Rack),
        Kind::Worker => matches!(keyword, Keyword::Worker),
        Kind::Split => matches!(keyword, Keyword::Split),
        Kind::Priced => matches!(keyword, Keyword::Split | Keyword::Worker),
    }
}
