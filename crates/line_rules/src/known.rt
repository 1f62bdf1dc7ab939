ghost use Rattle.std.specs.Prelude.{◌≡◌, ◌≢◌, ◌++◌, ◌≤◌, ◌↔◌, IfOk, IfSome, IsTrue, MatchOption, OnErr, OnOk};
ghost use Rattle.std.specs.Prelude.{Some, length, slice_index_or, ◌<◌, []};
ghost use Rattle.text_lines.specs.Texts.{number_of, IsNumber};
ghost use Rattle.line_shapes.specs.Lines.{statement_of, HasTailApart, IsInRange, Statement, words_after};
ghost use Rattle.line_shapes.specs.Places.{places_of};
ghost use Rattle.line_rules.specs.Entering.{command_of, entered_of, entering_of as entering};
ghost use Rattle.line_rules.specs.Entering.{most_of as most_in};
ghost use Rattle.line_rules.specs.Faults.{IsFirst, centres_in as centres, Fails, IsFewer, IsFit, IsLeastOf};
ghost use Rattle.line_rules.specs.Faults.{AreInRange, IsOfSize, most_bytes, most_slots};
ghost use Rattle.line_rules.specs.Faults.{IsNew, IsFirstOfBody, IsFirstOfHead, IsPricedBefore, IsComplete};
ghost use Rattle.line_rules.specs.Faults.{Keep, IsWithinLimit, MayStand, counted_of};
ghost use Rattle.line_rules.specs.declared.entering.Entering.TheVariants.{Nothing};
ghost use Rattle.text_lines.specs.declared.fault.Fault.{Fault};
ghost use Rattle.line_rules.specs.Entered.{AreFit, IsSoundBefore};
ghost use Rattle.line_rules.specs.Known.{Known, entered, known_at};
ghost use Rattle.line_rules.specs.Holders.{AreHolders, AreHoldersOf};
ghost use Rattle.line_rules.specs.Names.{IsNamed};
ghost use Rattle.line_rules.specs.Rows.{IsBarOf};
ghost use Rattle.line_shapes.specs.declared.keyword.Keyword.{Keyword};
ghost use Rattle.line_rules.specs.Sections.{section_after as after, section_of as section_in};
ghost use Rattle.line_rules.specs.declared.rule.Rule.TheVariants as rule;
ghost use Rattle.line_rules.specs.declared.section.Section.TheVariants.{Body};

use crate::command_list::CommandList;
use crate::edition::{Version, is_of_version, name_demand, version_after};
use crate::entering::{Entering, Follow, MORE_PLACES, entering_of, follow_of, most_of};
use crate::purpose::Purpose;
use crate::rising::are_rising;
use crate::rows::{FEW_NAMES, Rows};
use crate::rule::Rule;
use crate::rules::{
    are_priced, is_command, is_entered_by_new_name, is_few, is_first_of_body, is_first_of_head,
    keep, word_at,
};
use crate::section::{Section, section_after, section_of};
use line_shapes::{KeyedLine, Keyword, is_within};
use std::alloc::{AllocError, Global};
use std::marker::Model;
use text_lines::Fault;

// For how many bytes there is room for a line and for a word, and for how many there is room at most.
const BYTES_OF_A_LINE: usize = 24;

const BYTES_OF_A_WORD: usize = 6;

const MOST_ROOM: usize = 16_384;

/// What the lines so far say: all on which the faults of the next line depend.
pub struct KnownLines<'t> {
    purpose: Purpose,
    version: Version,
    section: Section,
    rows: Rows<'t>,
    commands: CommandList<'t>,
    // The numbers of the holders of all splits, split by split.
    holders: Vec<u32>,
}

// (one call wherever it is dropped)
impl<'t> Drop for KnownLines<'t> {
    fn drop(self) {
        let KnownLines {
            purpose: _,
            version: _,
            section: _,
            rows: _,
            commands: _,
            holders: _,
        } = self;
    }
}

impl<'t> Model for KnownLines<'t> {
    ghost Value = { Known };

    ghost view = { λ k. record {
      purpose = k.purpose;
      version = k.version;
      section = k.section;
      rows = k.rows;
      commands = k.commands;
    } };

    ghost invariant = { λ k. IsSoundBefore k.version k.section k.rows × AreHolders k.rows k.holders.items };
}

impl<'t> KnownLines<'t> {
    /// Before the first line of a text, with room for what so many bytes say.
    pub fn before(
        alloc: Global,
        purpose: Purpose,
        bytes: usize,
    ) -> Result<KnownLines<'t>, AllocError>
        ensures { IfOk result (λ known. known ≡ known_at purpose []) }
    {
        let (lines, words) = (
            MOST_ROOM.min(bytes / BYTES_OF_A_LINE),
            MOST_ROOM.min(bytes / BYTES_OF_A_WORD),
        );
        let rows = Rows::with_room(alloc, lines, words, bytes / BYTES_OF_A_LINE)?;
        Ok(KnownLines {
            purpose,
            version: Version::One,
            section: Section::First,
            rows,
            commands: CommandList::new(alloc),
            holders: Vec::new(alloc),
        })
    }

    /// As before the `end` that was the last line, so that more lines of the body may follow.
    pub fn reopen(&mut self)
        ensures { self.new ≡ record self.old { section = Body } }
    {
        self.section = Section::Body;
    }

    /// As if the lines before had been read for this purpose.
    pub fn turn_to(&mut self, purpose: Purpose)
        ensures { self.new ≡ record self.old { purpose = purpose } }
    {
        self.purpose = purpose;
    }

    /// Where the next line stands.
    pub fn section(&self) -> Section
        ensures { result ≡ self.now.section }
    {
        self.section
    }

    /// The version of the text: that of its first line.
    pub fn version(&self) -> Version
        ensures { result ≡ self.now.version }
    {
        self.version
    }

    /// The commands of a script, in their order.
    pub fn commands(&self) -> &CommandList<'t>
        ensures { result.now ≡ self.now.commands }
    {
        &self.commands
    }

    /// The lines that were entered, but for commands.
    pub fn rows(&self) -> &Rows<'t>
        ensures { result.now ≡ self.now.rows }
    {
        &self.rows
    }

    /// The numbers of the workers that hold the splits, split by split.
    pub fn holders(&self) -> &[u32]
        ensures { AreHolders self.now.rows result.now }
    {
        &self.holders
    }

    // Whether as many words follow those in the places of the line as have to.
    #[inline(always)]
    fn is_whole(&self, line: &KeyedLine<'_, '_>) -> bool
        requires { length (places_of line.now.keyword) ≤ length line.now.words.now }
        ensures { IsTrue result ↔ IsComplete self.now (statement_of line.now) }
    {
        let words = line.words.len() - line.keyword.places().len();
        match follow_of(line.keyword) {
            Follow::Any => true,
            Follow::Centre => words == centres_in(self.version),
            Follow::Counts => words == self.rows.count(Keyword::Worker),
            Follow::Slots => words <= MORE_PLACES,
        }
    }

    #[inline(always)]
    fn may_stand(&self, line: &KeyedLine<'_, '_>) -> bool
        ensures { IsTrue result ↔ MayStand self.now (statement_of line.now) }
    {
        self.is_in_section(line.keyword) && is_of_version(line.keyword, self.version)
    }

    #[inline(always)]
    fn is_in_section(&self, keyword: Keyword) -> bool
        ensures { IsTrue result ↔ (section_in self.now.purpose keyword ≡ Some self.now.section) }
    {
        match section_of(self.purpose, keyword) {
            Some(section) => section == self.section,
            None => false,
        }
    }

    #[inline(always)]
    fn is_new(&self, fit: bool, bar: Option<(u32, u32)>, line: &KeyedLine<'_, '_>) -> bool
        requires places { length (places_of line.now.keyword) ≤ length line.now.words.now }
        requires fit { IsTrue fit → AreFit self.now.version self.now.rows (statement_of line.now) }
        requires bar { IfSome bar (IsBarOf self.now.rows (statement_of line.now)) }
        ensures { IsTrue result ↔ IsNew self.now.rows (statement_of line.now) }
    {
        keeps(fit, Rule::Free, &self.rows, line)
            && (is_entered_by_new_name(line.keyword) || is_first_in_head(&self.rows, bar, line))
    }

    #[inline(always)]
    fn is_in_range(&self, fit: bool, line: &KeyedLine<'_, '_>) -> bool
        requires { IsTrue fit → AreFit self.now.version self.now.rows (statement_of line.now) }
        ensures { IsTrue result ↔ AreInRange self.now.version (statement_of line.now) }
    {
        (fit || line.is_in_range()) && is_of_size(self.version, line) && are_rising(line)
    }

    #[inline(always)]
    fn is_within_limit(&self, line: &KeyedLine<'_, '_>) -> bool
        ensures { IsTrue result ↔ IsWithinLimit self.now (statement_of line.now) }
    {
        self.has_room(line) && is_few(self.version, line)
    }

    #[inline(always)]
    fn has_room(&self, line: &KeyedLine<'_, '_>) -> bool
        ensures { IsTrue result
            ↔ IsFewer (most_in self.now.version self.now.purpose line.now.keyword)
            (counted_of self.now line.now.keyword) }
    {
        let Some(most) = most_of(self.version, self.purpose, line.keyword) else {
            return true;
        };
        match entering_of(line.keyword) {
            Entering::InTurn => self.commands.len() < most,
            Entering::Nothing | Entering::Alone | Entering::Word | Entering::Pair => {
                self.rows.count(line.keyword) < most
            }
        }
    }

    // No row is a command, so none is looked for.
    #[inline(always)]
    fn is_once(&self, after: Section, line: &KeyedLine<'_, '_>) -> bool
        ensures { IsTrue result ↔ IsFirstOfBody after self.now.rows (statement_of line.now) }
    {
        is_command(line.keyword) || is_first_of_body(after, &self.rows, line)
    }

    #[inline(always)]
    fn is_priced_before(&self, after: Section) -> bool
        ensures { IsTrue result ↔ IsPricedBefore after self.now }
    {
        match (after, self.purpose) {
            (Section::Ended, Purpose::Checking) => are_priced(&self.rows),
            _ => true,
        }
    }

    /// The least fault of a line after these, if it has one. `fit` says that its words are known to be fit, and
    /// `apart` that no name is known to stand twice where it may not; `bar` are the numbers of the pair that it
    /// bars, where they are known.
    #[inline(always)]
    pub fn fault_of(
        &self,
        fit: bool,
        apart: bool,
        bar: Option<(u32, u32)>,
        line: &KeyedLine<'_, '_>,
    ) -> Option<Fault>
        requires places { length (places_of line.now.keyword) ≤ length line.now.words.now }
        requires fit { IsTrue fit → AreFit self.now.version self.now.rows (statement_of line.now) }
        requires apart { IsTrue apart → HasTailApart (statement_of line.now) }
        requires bar { IfSome bar (IsBarOf self.now.rows (statement_of line.now)) }
        ensures { MatchOption result (IsFit self.now (statement_of line.now))
            (IsLeastOf (Fails self.now (statement_of line.now))) }
    {
        let after = section_after(line.keyword);
        if !self.is_whole(line) {
            Some(Fault::Shape)
        } else if !self.may_stand(line) {
            Some(Fault::Misplaced)
        } else if !is_named(fit, self.version, line) {
            Some(Fault::Misnamed)
        } else if !keeps(fit, Rule::Declared, &self.rows, line) {
            Some(Fault::Unknown)
        } else if !self.is_new(fit, bar, line) {
            Some(Fault::Repeated)
        } else if !self.is_in_range(fit, line) {
            Some(Fault::OutOfRange)
        } else if !self.is_within_limit(line) {
            Some(Fault::PassesLimit)
        } else if !is_apart(apart, &self.rows, line) {
            Some(Fault::RepeatedHolder)
        } else if !self.is_once(after, line) {
            Some(Fault::SecondEntry)
        } else if !self.is_priced_before(after) {
            Some(Fault::NoPrice)
        } else {
            None
        }
    }

    /// Takes one line more; `rest` is what follows the space after its keyword, `bar` are the numbers of the
    /// pair that it bars, where they are known, and `holders` the numbers of its holders. After an error it
    /// was not taken.
    #[inline(always)]
    pub fn enter(
        &mut self,
        line: &KeyedLine<'_, 't>,
        rest: Option<&'t str>,
        bar: Option<(u32, u32)>,
        holders: &[u32],
    ) -> Result<(), AllocError>
        requires fit { IsFit self.old (statement_of line.now) }
        requires rest { (statement_of line.now).words ≡ words_after line.now.keyword rest }
        requires bar { IfSome bar (IsBarOf self.old.rows (statement_of line.now)) }
        requires holders { AreHoldersOf self.old.rows (statement_of line.now) holders.now }
        ensures ok { OnOk result (self.new ≡ entered self.old (statement_of line.now)) }
        ensures err { OnErr result (self.new ≡ self.old) }
    {
        let count = self.holders.len();
        add_numbers(&mut self.holders, holders)?;
        match put(line, rest, bar, &mut self.rows, &mut self.commands) {
            Ok(()) => {
                self.version = version_after(self.version, line);
                self.section = section_after(line.keyword);
                Ok(())
            }
            Err(error) => {
                self.holders.truncate(count);
                Err(error)
            }
        }
    }
}

// Appends numbers to a list. Most splits have few holders: a loop appends few of them sooner than a copy of
// memory does.
#[inline(always)]
fn add_numbers(list: &mut Vec<u32>, numbers: &[u32]) -> Result<(), AllocError>
    ensures ok { OnOk result (list.new.items ≡ list.old.items ++ numbers.now) }
    ensures err { OnErr result (list.new.items ≡ list.old.items) }
{
    list.reserve(numbers.len())?;
    for number in numbers {
        list.push_reserved(*number);
    }
    Ok(())
}

// Whether a line that declares something does so for the first time, as one does that bars a new pair.
#[inline(always)]
fn is_first_in_head(rows: &Rows<'_>, bar: Option<(u32, u32)>, line: &KeyedLine<'_, '_>) -> bool
    requires { IfSome bar (IsBarOf rows.now (statement_of line.now)) }
    ensures { IsTrue result ↔ IsFirstOfHead (after line.now.keyword) rows.now (statement_of line.now) }
{
    is_new_bar(rows, bar, line) || is_first_of_head(section_after(line.keyword), rows, line)
}

// Whether the numbers of the pair that a line bars are known, and no line before bars the pair.
#[inline(always)]
fn is_new_bar(rows: &Rows<'_>, bar: Option<(u32, u32)>, line: &KeyedLine<'_, '_>) -> bool
    requires { IfSome bar (IsBarOf rows.now (statement_of line.now)) }
    ensures { IsTrue result → IsFirst rows.now (statement_of line.now) }
{
    match bar {
        Some(bar) => rows.is_new_bar(bar, word_at(line.words, 0), word_at(line.words, 1)),
        None => false,
    }
}

// Whether the words in the places of names are names. Fit words are, since the rows have names alone.
#[inline(always)]
fn is_named(fit: bool, version: Version, line: &KeyedLine<'_, '_>) -> bool
    requires { IsTrue fit → IsNamed version (statement_of line.now) }
    ensures { IsTrue result ↔ IsNamed version (statement_of line.now) }
{
    fit || line.meets(name_demand(version))
}

// Whether each word keeps to the rule in its place, as fit words do.
#[inline(always)]
fn keeps(fit: bool, rule: Rule, rows: &Rows<'_>, line: &KeyedLine<'_, '_>) -> bool
    requires { IsTrue fit → Keep rule rows.now (statement_of line.now) }
    ensures { IsTrue result ↔ Keep rule rows.now (statement_of line.now) }
{
    fit || keep(rule, rows, line)
}

// Whether no name stands twice where it may not. Of many splits it is found by their numbers: each two names
// would take long to compare.
#[inline(always)]
fn is_apart(apart: bool, rows: &Rows<'_>, line: &KeyedLine<'_, '_>) -> bool
    requires places { length (places_of line.now.keyword) ≤ length line.now.words.now }
    requires apart { IsTrue apart → HasTailApart (statement_of line.now) }
    ensures { IsTrue result ↔ HasTailApart (statement_of line.now) }
{
    apart || (!has_split_twice(rows, line) && line.has_tail_apart())
}

// Whether a join of many splits is known to name one of them twice.
#[inline(always)]
fn has_split_twice(rows: &Rows<'_>, line: &KeyedLine<'_, '_>) -> bool
    ensures { IsTrue result → HasTailApart (statement_of line.now) → ⊥ }
{
    match line.keyword {
        Keyword::Join if line.words.len() > FEW_NAMES => rows.is_split_twice(&line.words[1..]),
        _ => false,
    }
}

// How many centres a rack names in a text of the version.
#[inline(always)]
pub(crate) fn centres_in(version: Version) -> usize
    ensures { result ≡ centres version }
{
    match version {
        Version::One => 0,
        Version::Two | Version::Three => 1,
    }
}

// The most bytes of a split in a text of the version.
#[inline(always)]
fn most_bytes(version: Version) -> u64
    ensures { result ≡ most_bytes version }
{
    match version {
        Version::One | Version::Two => 67_108_864,
        Version::Three => 8_589_934_592,
    }
}

// The most slots of a worker in a text of the version.
#[inline(always)]
fn most_slots(version: Version) -> u64
    ensures { result ≡ most_slots version }
{
    match version {
        Version::One | Version::Two => 16,
        Version::Three => 255,
    }
}

// Whether the line gives a split no more bytes, and a worker no more slots, than they may have in a text of
// the version. In the newest version they may have as many as the ranges of their places allow.
#[inline(always)]
fn is_of_size(version: Version, line: &KeyedLine<'_, '_>) -> bool
    requires { IsInRange (statement_of line.now) }
    ensures { IsTrue result ↔ IsOfSize version line.now.keyword (statement_of line.now).words }
{
    match version {
        Version::One | Version::Two => is_within_size(version, line),
        Version::Three => true,
    }
}

// The same, by the number that the line gives. Its word is a number, since the line is in range.
#[inline(always)]
fn is_within_size(version: Version, line: &KeyedLine<'_, '_>) -> bool
    requires { IsInRange (statement_of line.now) }
    ensures { IsTrue result ↔ IsOfSize version line.now.keyword (statement_of line.now).words }
{
    match line.keyword {
        Keyword::Split => is_at_most(line, 1, most_bytes(version)),
        Keyword::Worker => is_at_most(line, 2, most_slots(version)),
        _ => true,
    }
}

// Whether the number at a place of the line, if it has that place, is at most so much.
#[inline(always)]
fn is_at_most(line: &KeyedLine<'_, '_>, place: usize, most: u64) -> bool
    requires { place < length line.now.words.now
        → IsNumber (slice_index_or (statement_of line.now).words place []) }
    ensures { IsTrue result ↔ number_of (slice_index_or (statement_of line.now).words place []) ≤ most }
{
    match line.words.get(place) {
        Some(word) => is_within(word, 0, most),
        None => true,
    }
}

// Puts a line where lines of its keyword are entered. After an error it was not put.
#[inline(always)]
fn put<'t>(
    line: &KeyedLine<'_, 't>,
    rest: Option<&'t str>,
    bar: Option<(u32, u32)>,
    rows: &mut Rows<'t>,
    commands: &mut CommandList<'t>,
) -> Result<(), AllocError>
    requires first { entering line.now.keyword ≢ Nothing → IsFirst rows.old (statement_of line.now) }
    requires rest { (statement_of line.now).words ≡ words_after line.now.keyword rest }
    requires bar { IfSome bar (IsBarOf rows.old (statement_of line.now)) }
    ensures rows { OnOk result (rows.new ≡ rows.old ++ entered_of (statement_of line.now)) }
    ensures commands { OnOk result (commands.new ≡ commands.old ++ command_of (statement_of line.now)) }
    ensures err { OnErr result ((rows.new ≡ rows.old) × (commands.new ≡ commands.old)) }
{
    match entering_of(line.keyword) {
        Entering::InTurn => commands.push(line, rest),
        Entering::Nothing | Entering::Alone | Entering::Word | Entering::Pair => {
            rows.enter(line, bar)
        }
    }
}
