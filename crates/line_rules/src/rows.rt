ghost use Rattle.std.specs.Prelude.{◌≡◌, ◌++◌, ◌∷◌, ◌↔◌, ◌≤◌, ◌<◌, IsTrue, MatchOption, OnErr, OnOk, []};
ghost use Rattle.std.specs.Prelude.{Contains, IfOk, IsSome, None, Ok, Some, ℕ, false, length, map, replicate};
ghost use Rattle.std.specs.Prelude.{true};
ghost use Rattle.std.specs.Prelude.{List, ◌≢◌, IfSome, is_some, slice_index_or};
ghost use Rattle.std.specs.List.{AllPairs};
ghost use Rattle.std.specs.Borrow.{Bor};
ghost use Rattle.line_rules.specs.Rows.{AreNumbered, AreNumbers, ArePlaced, AreTabled, HasKeyMore};
ghost use Rattle.line_rules.specs.Rows.{HaveWords, IsBarOf, IsBarred, IsKeyAt, IsNewKey, IsRowAt, IsTabled};
ghost use Rattle.line_rules.specs.Rows.{NameSplits, NameTwice, Others};
ghost use Rattle.line_rules.specs.Rows.{bar_by, bar_said, first_by, name_in, other_by, rows_in};
ghost use Rattle.line_rules.specs.Said.{row_said};
ghost use Rattle.line_shapes.specs.Lines.{Statement, statement_of};
ghost use Rattle.line_shapes.specs.declared.keyword.Keyword.{Keyword};
ghost use Rattle.line_shapes.specs.declared.keyword.Keyword.TheVariants.{Barred, Split, Worker};
ghost use Rattle.line_rules.specs.Entering.{entered_of, entering_of as entering, key_of};
ghost use Rattle.line_rules.specs.Holders.{AreNumbersOf};
ghost use Rattle.line_rules.specs.Known.{HasNumber, HasRow, keys_of, rows_of};
ghost use Rattle.text_lines.specs.Texts.{Word};
ghost use Rattle.line_rules.specs.declared.entering.Entering.TheVariants.{Nothing};

use crate::entering::{Entering, entering_of};
use crate::line_list::{KeptLine, LineList};
use crate::rules::{first_of_key, second_of_key, word_at};
use crate::word_table::WordTable;
use indexmap::IndexMap;
use line_shapes::{KeyedLine, Keyword};
use std::alloc::{AllocError, Global};
use std::hash::Hash;
use std::marker::Model;

// How many keywords there are.
const KEYWORDS: usize = 33;

// How many marks the small table has, in which splits are told apart by their numbers.
const MARKS: usize = 1_024;

// How many marks the large table has: one for each split that a text may have. It takes memory, which may be
// wanting.
const MANY_MARKS: usize = 131_072;

/// For so many names or fewer the large table is not made.
pub(crate) const FEW_NAMES: usize = 64;

// The rows of a keyword have numbers below this one.
const MOST_ROWS: usize = 4_294_967_296;

/// The lines that were entered, in their order. The lines of a keyword are found by their numbers, and a line
/// by the words by which it was entered: a word by which no line was entered is found by one hash of it.
#[derive(Drop)]
pub struct Rows<'t> {
    lines: LineList<'t>,
    // For each keyword the places of its lines.
    places: Vec<Vec<usize>>,
    // Of each word that is a key alone: the keyword of the first line that was entered by it, and which one
    // of its keyword that line is.
    firsts: WordTable<'t>,
    // The number of each barred pair among all, by the numbers of its split and its worker.
    bars: IndexMap<(u32, u32), u32>,
    // For each other key the number of its line among the lines of its keyword.
    others: IndexMap<(Keyword, &'t str, &'t str), u32>,
}

/// A row.
#[derive(Clone, Copy)]
pub enum Row<'w, 't> {
    Line(KeyedLine<'w, 't>),
    Bar(BarRow<'w, 't>),
}

/// A barred pair that is kept by the numbers of its split and its worker.
#[derive(Clone, Copy)]
pub struct BarRow<'w, 't> {
    rows: &'w Rows<'t>,
    split: u32,
    worker: u32,
}

impl<'w, 't> Row<'w, 't> {
    /// The word at a place after the keyword, counted from 0; empty past the last.
    #[inline(always)]
    pub fn word(&self, place: usize) -> &'t str
        ensures { result.now ≡ slice_index_or (row_said self.now).words place [] }
    {
        match self {
            Row::Line(line) => word_at(line.words, place),
            Row::Bar(bar) => match place {
                0 => bar.rows.name(Keyword::Split, bar.split),
                1 => bar.rows.name(Keyword::Worker, bar.worker),
                _ => "",
            },
        }
    }
}

impl<'t> Model for Rows<'t> {
    ghost use Rattle.std.specs.Prelude.{List, map};
    ghost use Rattle.line_shapes.specs.Lines.{Statement};
    ghost use Rattle.line_rules.specs.Rows.{AreNumbered, ArePlaced, AreTabled, rows_in};

    ghost Value = { List Statement };

    ghost view = { λ r. rows_in r.lines };

    ghost invariant = { λ r. ArePlaced (rows_in r.lines) (map (λ l. l.items) r.places.items)
        × AreTabled (rows_in r.lines) r.firsts.entries r.others.entries r.bars.entries
        × AreNumbered r.lines };
}

impl<'t> Rows<'t> {
    /// No lines, with room for so many lines and words. The table of the words that are keys alone has a mark
    /// for each of so many names.
    pub fn with_room(
        alloc: Global,
        lines: usize,
        words: usize,
        names: usize,
    ) -> Result<Rows<'t>, AllocError>
        ensures { IfOk result (λ rows. rows ≡ []) }
    {
        let list = LineList::with_room(alloc, lines, words)?;
        let firsts = WordTable::with_room(alloc, lines, names)?;
        Ok(Rows {
            lines: list,
            places: no_places(alloc)?,
            firsts,
            bars: IndexMap::new(alloc),
            others: IndexMap::new(alloc),
        })
    }

    /// How many lines there are.
    pub fn len(&self) -> usize
        ensures { result ≡ length self.now }
    {
        self.lines.len()
    }

    /// Whether there are none.
    pub fn is_empty(&self) -> bool
        ensures { IsTrue result ↔ (self.now ≡ []) }
    {
        self.lines.is_empty()
    }

    /// How many lines of this keyword there are.
    pub fn count(&self, keyword: Keyword) -> usize
        ensures { result ≡ length (rows_of keyword self.now) }
    {
        self.places[keyword as usize].len()
    }

    /// A line of this keyword, by its number among them, counted from 0.
    pub fn row(&self, keyword: Keyword, number: usize) -> Option<Row<'_, 't>>
        ensures { MatchOption result (length (rows_of keyword self.now) ≤ number)
            (λ row. (number < length (rows_of keyword self.now))
            × IsRowAt (rows_of keyword self.now) number (row_said row)) }
    {
        match self.places[keyword as usize].get(number) {
            Some(place) => self.row_at(*place),
            None => None,
        }
    }

    // A row, by its place among all rows.
    #[inline(always)]
    fn row_at(&self, place: usize) -> Option<Row<'_, 't>>
        ensures { MatchOption result (length self.now ≤ place)
            (λ row. (place < length self.now) × IsRowAt self.now place (row_said row)) }
    {
        match self.lines.line(place) {
            Some(KeptLine::Line(line)) => Some(Row::Line(line)),
            Some(KeptLine::Bar(split, worker)) => Some(Row::Bar(BarRow {
                rows: self,
                split,
                worker,
            })),
            None => None,
        }
    }

    // The first word of the line of a keyword, by its number among them; empty where there is none.
    #[inline(never)]
    fn name(&self, keyword: Keyword, number: u32) -> &'t str
        requires { keyword ≢ Barred }
        ensures { result.now ≡ name_in keyword self.now number }
    {
        match self.places[keyword as usize].get(number as usize) {
            Some(place) => match self.lines.line(*place) {
                Some(KeptLine::Line(line)) => word_at(line.words, 0),
                Some(KeptLine::Bar(_, _)) => "",
                None => "",
            },
            None => "",
        }
    }

    /// Which one of the lines of this keyword was entered by these words, counted from 0; a line that is
    /// entered by one word has an empty second one.
    pub fn number(&self, keyword: Keyword, first: &str, second: &str) -> Option<usize>
        ensures { MatchOption result (Contains (keys_of self.now) (keyword, first.now, second.now) → ⊥)
            (HasNumber self.now (keyword, first.now, second.now)) }
    {
        let (firsts, others) = (&self.firsts, &self.others);
        match key_number(firsts, others, keyword, first, second) {
            Some(number) => Some(number as usize),
            None => match bar_number(firsts, others, &self.bars, keyword, first, second) {
                Some(number) => Some(number as usize),
                None => None,
            },
        }
    }

    /// Whether no line bars the pair of the split and the worker of these numbers, which have these names. False
    /// may be answered where a name is empty.
    #[inline(always)]
    pub fn is_new_bar(&self, bar: (u32, u32), first: &str, second: &str) -> bool
        requires { IsBarOf self.now (bar_said first.now second.now) bar }
        ensures { IsTrue result → Contains (keys_of self.now) (Barred, first.now, second.now) → ⊥ }
    {
        if second.is_empty() || self.bars.contains_key(&bar) {
            return false;
        }
        !has_other(&self.others, Keyword::Barred, first, second)
    }

    /// Whether a line of this keyword was entered by these words.
    pub fn has(&self, keyword: Keyword, first: &str, second: &str) -> bool
        ensures { IsTrue result ↔ Contains (keys_of self.now) (keyword, first.now, second.now) }
    {
        self.number(keyword, first, second).is_some()
    }

    /// The keyword of the first line that was entered by this word alone.
    #[inline(always)]
    pub fn first(&self, word: &str) -> Option<Keyword>
        ensures { MatchOption result ((keyword : Keyword) → HasRow self.now keyword word.now → ⊥)
            (λ keyword. HasRow self.now keyword word.now) }
    {
        match self.firsts.get(word) {
            Some(of) => Some(of.0),
            None => None,
        }
    }

    /// Which one of the lines of this keyword was the first line that was entered by this word alone, if it
    /// was one of them.
    #[inline(always)]
    pub fn first_of(&self, keyword: Keyword, word: &str) -> Option<u32>
        ensures { IfSome result (HasNumber self.now (keyword, word.now, [])) }
    {
        let of = self.firsts.get(word)?;
        if of.0 == keyword { Some(of.1) } else { None }
    }

    /// Whether a line of any keyword was entered by this word alone.
    #[inline(always)]
    pub fn has_word(&self, word: &str) -> bool
        ensures { IsTrue result ↔ ((keyword : Keyword) × HasRow self.now keyword word.now) }
    {
        self.firsts.has(word)
    }

    /// Whether each of the names is that of a split, and no two are the same: it is found by the splits'
    /// numbers. False may be answered of few names of which one has a number from `MARKS` on, and of many
    /// where memory is wanting.
    pub fn are_splits_apart(&self, names: &[&str]) -> bool
        ensures named { IsTrue result → (k : ℕ) (d : Bor (List ℕ)) → k < length names.now
            → (0 < length (slice_index_or names.now k d).now)
            × HasRow self.now Split (slice_index_or names.now k d).now }
        ensures apart { IsTrue result → AllPairs (λ a b. a.now ≢ b.now) names.now }
    {
        let is_great = names.len() > FEW_NAMES && self.count(Keyword::Split) > MARKS;
        let alloc = *self.places.allocator();
        have_numbers_apart(alloc, &self.firsts, names, is_great)
    }

    /// Whether these numbers name each worker at most once.
    #[inline(always)]
    pub fn are_workers_apart(&self, numbers: &[u32]) -> bool
        ensures { IsTrue result → (names : List Word) → AreNumbersOf self.now names numbers.now
            → AllPairs (λ a b. a ≢ b) names }
    {
        let _firsts = &self.firsts;
        are_numbers_apart(numbers)
    }

    /// Whether one of these names stands twice: it is found by the numbers of the splits that they name.
    /// False may be answered where one is that of no split, or memory is wanting.
    pub fn is_split_twice(&self, names: &[&str]) -> bool
        ensures { IsTrue result → AllPairs (λ a b. a.now ≢ b.now) names.now → ⊥ }
    {
        let alloc = *self.places.allocator();
        is_number_twice(alloc, &self.firsts, names)
    }

    /// The keyword of a row, counted from 0, and the first word of its key.
    pub fn key(&self, row: usize) -> Option<(Keyword, &'t str)>
        ensures { MatchOption result (length self.now ≤ row)
            (λ key. (row < length self.now) × IsKeyAt (keys_of self.now) row key.0 key.1.now) }
    {
        match self.row_at(row) {
            Some(Row::Line(line)) => Some((line.keyword, first_of_key(&line))),
            Some(Row::Bar(bar)) => Some((
                Keyword::Barred,
                bar.rows.name(Keyword::Split, bar.split),
            )),
            None => None,
        }
    }

    /// Enters a line, if lines of its keyword are entered. `bar` are the numbers of the pair that it bars,
    /// where they are known. After an error nothing was entered.
    #[inline(always)]
    pub fn enter(
        &mut self,
        line: &KeyedLine<'_, 't>,
        bar: Option<(u32, u32)>,
    ) -> Result<(), AllocError>
        requires new { entering line.now.keyword ≢ Nothing
            → Contains (keys_of self.old) (key_of (statement_of line.now)) → ⊥ }
        requires bar { IfSome bar (IsBarOf self.old (statement_of line.now)) }
        ensures ok { OnOk result (self.new ≡ self.old ++ entered_of (statement_of line.now)) }
        ensures err { OnErr result (self.new ≡ self.old) }
    {
        match entering_of(line.keyword) {
            Entering::Nothing | Entering::InTurn => Ok(()),
            Entering::Alone | Entering::Word | Entering::Pair => match bar {
                Some(bar) => self.put_bar(bar),
                None => self.put(line),
            },
        }
    }

    // Puts a barred pair behind the rows, by its numbers.
    #[inline(never)]
    fn put_bar(&mut self, bar: (u32, u32)) -> Result<(), AllocError>
        requires within { AreNumbers self.old bar.0 bar.1 }
        requires new { Contains (keys_of self.old)
            (Barred, name_in Split self.old bar.0, name_in Worker self.old bar.1) → ⊥ }
        ensures ok { OnOk result (self.new ≡ self.old
            ++ bar_said (name_in Split self.old bar.0) (name_in Worker self.old bar.1) ∷ []) }
        ensures err { OnErr result (self.new ≡ self.old) }
    {
        let place = self.lines.len();
        let number = short_number(self.count(Keyword::Barred))?;
        self.places[Keyword::Barred as usize].reserve(1)?;
        self.lines.push_bar(bar.0, bar.1)?;
        match put_numbers(&self.firsts, &mut self.bars, bar, number) {
            Ok(()) => {
                self.places[Keyword::Barred as usize].push_reserved(place);
                Ok(())
            }
            Err(error) => {
                self.lines.truncate(place);
                Err(error)
            }
        }
    }

    // Puts a row behind the others, by its words.
    #[inline(always)]
    fn put(&mut self, line: &KeyedLine<'_, 't>) -> Result<(), AllocError>
        requires { Contains (keys_of self.old) (key_of (statement_of line.now)) → ⊥ }
        ensures ok { OnOk result (self.new ≡ self.old ++ statement_of line.now ∷ []) }
        ensures err { OnErr result (self.new ≡ self.old) }
    {
        let place = self.lines.len();
        let number = short_number(self.count(line.keyword))?;
        self.places[line.keyword as usize].reserve(1)?;
        self.lines.push(line)?;
        let (first, second) = (first_of_key(line), second_of_key(line));
        match put_key(
            &mut self.firsts,
            &mut self.others,
            line.keyword,
            first,
            second,
            number,
        ) {
            Ok(()) => {
                self.places[line.keyword as usize].push_reserved(place);
                Ok(())
            }
            Err(error) => {
                self.lines.truncate(place);
                Err(error)
            }
        }
    }
}

// Which one of the lines of this keyword has this key in the tables of words.
#[inline(always)]
fn key_number(
    firsts: &WordTable<'_>,
    others: &IndexMap<(Keyword, &str, &str), u32>,
    keyword: Keyword,
    first: &str,
    second: &str,
) -> Option<u32>
    requires { HaveWords firsts.now.entries others.now.entries }
    ensures { MatchOption result
        (IsNewKey firsts.now.entries others.now.entries (keyword, first.now, second.now))
        (IsTabled firsts.now.entries others.now.entries (keyword, first.now, second.now)) }
{
    if second.is_empty() {
        let of = firsts.get(first)?;
        if of.0 == keyword {
            return Some(of.1);
        }
    }
    let number = others.get(&(keyword, first, second))?;
    Some(*number)
}

// Whether the key stands in the table of all other keys, which most often is empty.
#[inline(always)]
fn has_other(
    others: &IndexMap<(Keyword, &str, &str), u32>,
    keyword: Keyword,
    first: &str,
    second: &str,
) -> bool
    ensures { result ≡ is_some (other_by others.now.entries (keyword, first.now, second.now)) }
{
    !others.is_empty() && others.contains_key(&(keyword, first, second))
}

// Which barred pair has these words, where it is kept by numbers.
fn bar_number(
    firsts: &WordTable<'_>,
    others: &IndexMap<(Keyword, &str, &str), u32>,
    bars: &IndexMap<(u32, u32), u32>,
    keyword: Keyword,
    first: &str,
    second: &str,
) -> Option<u32>
    requires { HaveWords firsts.now.entries others.now.entries }
    ensures { (rows : List Statement)
        → AreTabled rows firsts.now.entries others.now.entries bars.now.entries → MatchOption result
        ((n : ℕ) → IsBarred rows bars.now.entries (keyword, first.now, second.now) n → ⊥)
        (IsBarred rows bars.now.entries (keyword, first.now, second.now)) }
{
    match keyword {
        Keyword::Barred => pair_number(firsts, others, bars, first, second),
        _ => None,
    }
}

// Which barred pair has these names, where it is kept by numbers.
fn pair_number(
    firsts: &WordTable<'_>,
    others: &IndexMap<(Keyword, &str, &str), u32>,
    bars: &IndexMap<(u32, u32), u32>,
    first: &str,
    second: &str,
) -> Option<u32>
    requires { HaveWords firsts.now.entries others.now.entries }
    ensures { (rows : List Statement)
        → AreTabled rows firsts.now.entries others.now.entries bars.now.entries → MatchOption result
        ((n : ℕ) → IsBarred rows bars.now.entries (Barred, first.now, second.now) n → ⊥)
        (IsBarred rows bars.now.entries (Barred, first.now, second.now)) }
{
    let split = key_number(firsts, others, Keyword::Split, first, "")?;
    let worker = key_number(firsts, others, Keyword::Worker, second, "")?;
    let number = bars.get(&(split, worker))?;
    Some(*number)
}

// A number of a row in 32 bits. More rows of a keyword than these count are an error of memory.
pub(crate) fn short_number(number: usize) -> Result<u32, AllocError>
    ensures { IfOk result (λ short. short ≡ number) }
{
    if number < MOST_ROWS {
        Ok(number as u32)
    } else {
        Err(AllocError)
    }
}

// Puts the numbers of a barred pair into their table, with which barred pair it is. After an error they were
// not put.
fn put_numbers(
    firsts: &WordTable<'_>,
    bars: &mut IndexMap<(u32, u32), u32>,
    bar: (u32, u32),
    number: u32,
) -> Result<(), AllocError>
    requires { bar_by bars.old.entries bar ≡ None }
    ensures ok { OnOk result (bars.new.entries ≡ bars.old.entries ++ (bar, number) ∷ []) }
    ensures err { OnErr result (bars.new.entries ≡ bars.old.entries) }
{
    make_room(firsts, bars)?;
    bars.insert(bar, number)?;
    Ok(())
}

// Whether each name stands in the table as that of a split, with a number that no name before it has; all
// numbers have their marks if `is_great`, and else those below `MARKS`.
fn have_numbers_apart(alloc: Global, firsts: &WordTable<'_>, names: &[&str], is_great: bool) -> bool
    ensures named { IsTrue result → NameSplits firsts.now.entries names.now }
    ensures apart { IsTrue result → AllPairs (λ a b. a.now ≢ b.now) names.now }
{
    if is_great {
        have_many_marks(alloc, firsts, names)
    } else {
        have_few_marks(firsts, names)
    }
}

#[inline(never)]
fn have_few_marks(firsts: &WordTable<'_>, names: &[&str]) -> bool
    ensures named { IsTrue result → NameSplits firsts.now.entries names.now }
    ensures apart { IsTrue result → AllPairs (λ a b. a.now ≢ b.now) names.now }
{
    have_marks(firsts, names, &mut [false; MARKS])
}

fn have_many_marks(alloc: Global, firsts: &WordTable<'_>, names: &[&str]) -> bool
    ensures named { IsTrue result → NameSplits firsts.now.entries names.now }
    ensures apart { IsTrue result → AllPairs (λ a b. a.now ≢ b.now) names.now }
{
    let Ok(mut marks) = vec![in alloc; false; MANY_MARKS] else {
        return false;
    };
    have_marks(firsts, names, &mut marks)
}

// Whether each name is that of a split, with a number whose mark no name before it has put.
fn have_marks(firsts: &WordTable<'_>, names: &[&str], seen: &mut [bool]) -> bool
    ensures named { IsTrue result → NameSplits firsts.now.entries names.now }
    ensures apart { IsTrue result → AllPairs (λ a b. a.now ≢ b.now) names.now }
{
    for i in 0..names.len() {
        let Some(number) = split_in(firsts, names[i]) else {
            return false;
        };
        let number = number as usize;
        if number >= seen.len() || seen[number] {
            return false;
        }
        seen[number] = true;
    }
    true
}

// Whether no number stands twice.
#[inline(always)]
fn are_numbers_apart(numbers: &[u32]) -> bool
    ensures { IsTrue result → AllPairs (λ a b. a ≢ b) numbers.now }
{
    for i in 0..numbers.len() {
        if stands_before(numbers, i) {
            return false;
        }
    }
    true
}

// Whether the number at a place stands at an earlier one too.
#[inline(always)]
fn stands_before(numbers: &[u32], i: usize) -> bool
    requires { i < length numbers.now }
    ensures { result ≡ false → (k : ℕ) (d : ℕ) → k < i
        → slice_index_or numbers.now k d ≢ slice_index_or numbers.now i d }
{
    for k in 0..i {
        if numbers[k] == numbers[i] {
            return true;
        }
    }
    false
}

// Whether two of the names belong to one split in the table.
fn is_number_twice(alloc: Global, firsts: &WordTable<'_>, names: &[&str]) -> bool
    ensures { IsTrue result → NameTwice firsts.now.entries names.now }
{
    let Ok(mut marks) = vec![in alloc; false; MANY_MARKS] else {
        return false;
    };
    is_marked_twice(firsts, names, &mut marks)
}

// The same by a table of marks, of which none is put yet.
fn is_marked_twice(firsts: &WordTable<'_>, names: &[&str], marked: &mut [bool]) -> bool
    requires { (m : ℕ) → slice_index_or marked.old m false ≡ false }
    ensures { IsTrue result → NameTwice firsts.now.entries names.now }
{
    for i in 0..names.len() {
        let Some(number) = split_in(firsts, names[i]) else {
            return false;
        };
        let number = number as usize;
        if number >= marked.len() {
            return false;
        }
        if marked[number] {
            return true;
        }
        marked[number] = true;
    }
    false
}

// The number of the split whose name stands in the table.
#[inline(always)]
fn split_in(firsts: &WordTable<'_>, name: &str) -> Option<u32>
    ensures { IfSome result (λ n. (0 < length name.now)
        × (first_by firsts.now.entries name.now ≡ Some (Split, n))) }
{
    if name.is_empty() {
        return None;
    }
    match firsts.get(name) {
        Some((Keyword::Split, number)) => Some(number),
        _ => None,
    }
}

// No places, for each keyword.
fn no_places(alloc: Global) -> Result<Vec<Vec<usize>>, AllocError>
    ensures { IfOk result (λ lists. map (λ l. l.items) lists.items ≡ replicate 33 []) }
{
    let mut lists = Vec::new(alloc);
    for _ in 0..KEYWORDS {
        lists.push(Vec::new(alloc))?;
    }
    Ok(lists)
}

// Puts a key that is new into its table. After an error it was not put.
#[inline(always)]
fn put_key<'t>(
    firsts: &mut WordTable<'t>,
    others: &mut IndexMap<(Keyword, &'t str, &'t str), u32>,
    keyword: Keyword,
    first: &'t str,
    second: &'t str,
    number: u32,
) -> Result<(), AllocError>
    requires { IsNewKey firsts.old.entries others.old.entries (keyword, first.now, second.now) }
    ensures ok { OnOk result (HasKeyMore firsts.old.entries others.old.entries
        (keyword, first.now, second.now) number firsts.new.entries others.new.entries) }
    ensures err { OnErr result ((firsts.new.entries ≡ firsts.old.entries)
        × (others.new.entries ≡ others.old.entries)) }
{
    if second.is_empty() && put_first(firsts, keyword, first, number)? {
        return Ok(());
    }
    make_room(firsts, others)?;
    others.insert((keyword, first, second), number)?;
    Ok(())
}

// Puts a word that is a key alone into the first table. Where it stands there by another keyword, that entry
// stays, and the key is not put.
#[inline(always)]
fn put_first<'t>(
    firsts: &mut WordTable<'t>,
    keyword: Keyword,
    word: &'t str,
    number: u32,
) -> Result<bool, AllocError>
    requires { (n : ℕ) → first_by firsts.old.entries word.now ≡ Some (keyword, n) → ⊥ }
    ensures put { result ≡ Ok true → (others : Others)
        → HasKeyMore firsts.old.entries others (keyword, word.now, []) number firsts.new.entries others }
    ensures other { result ≡ Ok false → (firsts.new.entries ≡ firsts.old.entries)
        × IsSome (first_by firsts.old.entries word.now) }
    ensures err { OnErr result (firsts.new.entries ≡ firsts.old.entries) }
{
    firsts.put(word, (keyword, number))
}

// Before the first key is put into another table: makes room there for as many as the first table still has
// room for.
fn make_room<K: Eq + Hash>(
    firsts: &WordTable<'_>,
    table: &mut IndexMap<K, u32>,
) -> Result<(), AllocError>
    ensures { table.new.entries ≡ table.old.entries }
{
    if table.is_empty() {
        table.reserve(firsts.spare())?;
    }
    Ok(())
}
