ghost use Rattle.std.specs.Prelude.{◌≡◌, ◌↔◌, ◌∷◌, [], IsTrue, map};
ghost use Rattle.line_rules.specs.Names.{IsNameOf, name_demand as demanded};
ghost use Rattle.line_rules.specs.Sections.{IsOfVersion, edition_of as editions, version_by, version_told};

use line_shapes::{Demand, KeyedLine, Keyword};
use text_lines::{is_long_name, is_name};

/// The version of a text, which its first line tells.
#[derive(Clone, Copy)]
pub enum Version {
    One,
    /// With data centres and backup attempts.
    Two,
    /// With long names, large splits, greater limits, queues and prices of places too.
    Three,
}

/// What a line has to do with the version of its text.
#[derive(Clone, Copy)]
pub enum Edition {
    /// It tells the version.
    Tells,
    /// It stands in each version.
    Each,
    /// It stands from version 2 on.
    Second,
    /// It stands in version 3.
    Third,
}

/// What lines of this keyword have to do with the version of their text.
#[inline(always)]
pub fn edition_of(keyword: Keyword) -> Edition
    ensures { result ≡ editions keyword }
{
    match keyword {
        Keyword::Problem | Keyword::Script | Keyword::Job => Edition::Tells,
        Keyword::Centre | Keyword::Backup => Edition::Second,
        Keyword::Ahead | Keyword::Places => Edition::Third,
        Keyword::Rack | Keyword::Worker | Keyword::Split => Edition::Each,
        Keyword::Barred | Keyword::Dead | Keyword::Busy => Edition::Each,
        Keyword::Parts | Keyword::Target | Keyword::Silence | Keyword::Doc => Edition::Each,
        Keyword::Plan | Keyword::Start | Keyword::Price => Edition::Each,
        Keyword::Begin | Keyword::Wave | Keyword::Done | Keyword::Fail => Edition::Each,
        Keyword::Withdraw | Keyword::Die | Keyword::Join | Keyword::Add => Edition::Each,
        Keyword::Lose | Keyword::Sweep | Keyword::Reduce | Keyword::Copies => Edition::Each,
        Keyword::End => Edition::Each,
    }
}

/// Whether lines of this keyword may stand in a text of the version.
#[inline(always)]
pub fn is_of_version(keyword: Keyword, version: Version) -> bool
    ensures { IsTrue result ↔ IsOfVersion (editions keyword) version }
{
    match (edition_of(keyword), version) {
        (Edition::Tells | Edition::Each, _) => true,
        (Edition::Second, Version::One) => false,
        (Edition::Second, Version::Two | Version::Three) => true,
        (Edition::Third, Version::One | Version::Two) => false,
        (Edition::Third, Version::Three) => true,
    }
}

/// The version of a text after a line, where it was this before.
#[inline(always)]
pub fn version_after(version: Version, line: &KeyedLine<'_, '_>) -> Version
    ensures { result ≡ version_by (editions line.now.keyword) version (map (λ w. w.now) line.now.words.now) }
{
    match edition_of(line.keyword) {
        Edition::Tells => version_of(line.words),
        Edition::Each | Edition::Second | Edition::Third => version,
    }
}

/// What a text of the version demands of names.
pub fn name_demand(version: Version) -> Demand
    ensures { result ≡ demanded version }
{
    match version {
        Version::One | Version::Two => Demand::Name,
        Version::Three => Demand::LongName,
    }
}

/// Whether the word is a name in a text of the version.
#[inline(always)]
pub fn is_name_of(version: Version, word: &str) -> bool
    ensures { IsTrue result ↔ IsNameOf version word.now }
{
    match version {
        Version::One | Version::Two => is_name(word),
        Version::Three => is_long_name(word),
    }
}

// The version that the first word tells.
fn version_of(words: &[&str]) -> Version
    ensures { result ≡ version_told (map (λ w. w.now) words.now) }
{
    match words.first() {
        Some(word) => version_in(word),
        None => Version::One,
    }
}

fn version_in(word: &str) -> Version
    ensures { result ≡ version_told (word.now ∷ []) }
{
    match word {
        "2" => Version::Two,
        "3" => Version::Three,
        _ => Version::One,
    }
}
