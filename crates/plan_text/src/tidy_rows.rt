ghost use Rattle.std.specs.Prelude.{◌≡◌, ◌<◌, List, All, Contains, IfOk, length};
ghost use Rattle.std.specs.List.{position};
ghost use Rattle.std.specs.Str.{bytes_eq};
ghost use Rattle.text_lines.specs.Texts.{number_of};
ghost use Rattle.line_shapes.specs.Lines.{Statement, tail_words};
ghost use Rattle.line_shapes.specs.declared.keyword.Keyword.TheVariants.{Rack, Split, Worker};
ghost use Rattle.line_rules.specs.Entering.{entering_of as entering};
ghost use Rattle.line_rules.specs.Holders.{AreHolders};
ghost use Rattle.line_rules.specs.Known.{nth_row, rows_of};
ghost use Rattle.line_rules.specs.Said.{row_said};
ghost use Rattle.line_rules.specs.declared.entering.Entering.TheVariants.{Word as ByWord};
ghost use Rattle.plan_text.specs.Names.{names_of, nth_word};
ghost use Rattle.plan_text.specs.Tidy.{AreTidy, IsAtMost};
ghost use Rattle.plan_text.specs.Value.{holders_of, number_in, stands_in};

use crate::name_list::NameList;
use line_rules::{KnownLines, Row, Rows};
use line_shapes::Keyword;
use node_ids::{RackNo, SplitNo, WorkerNo};
use std::alloc::{AllocError, Global};
use std::marker::Model;
use text_lines::{NameTable, value_in};

/// The rows of a text without a fault. The rows of each keyword are numbered from 0, and the name that a row
/// declares has its row's number.
#[derive(Drop)]
pub struct TidyRows<'r, 't> {
    rows: &'r Rows<'t>,
    holders: &'r [u32],
}

impl<'r, 't> Model for TidyRows<'r, 't> {
    ghost Value = { List Statement };

    ghost view = { λ t. t.rows.now };

    ghost invariant = { λ t. AreTidy t.rows.now × AreHolders t.rows.now t.holders.now };
}

impl<'r, 't> TidyRows<'r, 't> {
    /// The rows of these lines, which have no fault.
    pub fn new(known: &'r KnownLines<'t>) -> TidyRows<'r, 't>
        requires { AreTidy known.now.rows }
        ensures { result ≡ known.now.rows }
    {
        TidyRows {
            rows: known.rows(),
            holders: known.holders(),
        }
    }

    /// Does nothing. Its contract tells a proof that the rows are tidy.
    pub fn are_tidy(&self)
        ensures { AreTidy self.now }
    {
        let _rows = &self.rows;
    }

    /// How many rows of the keyword there are.
    pub fn count(&self, keyword: Keyword) -> usize
        ensures value { result ≡ length (rows_of keyword self.now) }
        ensures tidy { AreTidy self.now }
    {
        self.rows.count(keyword)
    }

    /// A row.
    pub fn row(&self, keyword: Keyword, number: usize) -> Row<'r, 't>
        requires { number < length (rows_of keyword self.now) }
        ensures { row_said result ≡ nth_row keyword number self.now }
    {
        match self.rows.row(keyword, number) {
            Some(row) => row,
            None => unreachable!(),
        }
    }

    /// The word at a place after the keyword of a row, counted from 0; empty past the last.
    pub fn word(&self, keyword: Keyword, number: usize, place: usize) -> &'t str
        requires { number < length (rows_of keyword self.now) }
        ensures { result.now ≡ nth_word place (nth_row keyword number self.now) }
    {
        self.row(keyword, number).word(place)
    }

    /// The numbers of the holders of all splits, split by split.
    pub fn holders(&self) -> &'r [u32]
        ensures value { result.now ≡ holders_of (names_of Worker self.now) (rows_of Split self.now) }
        ensures within { All (λ h. h < 32768) result.now }
    {
        self.holders
    }

    /// How many holders a split has.
    pub fn holder_count(&self, split: usize) -> usize
        requires { split < length (rows_of Split self.now) }
        ensures { result ≡ length (tail_words (nth_row Split split self.now)) }
    {
        self.are_tidy();
        match self.row(Keyword::Split, split) {
            Row::Line(line) => line.words.len() - 2,
            Row::Bar(_) => unreachable!(),
        }
    }

    /// The number that the word at a place of a row stands for.
    pub fn amount(&self, keyword: Keyword, number: usize, place: usize) -> u64
        requires row { number < length (rows_of keyword self.now) }
        requires amount { IsAtMost (nth_word place (nth_row keyword number self.now)) 18446744073709551615 }
        ensures { result ≡ number_of (nth_word place (nth_row keyword number self.now)) }
    {
        match value_in(self.word(keyword, number, place)) {
            Some(amount) => amount,
            None => unreachable!(),
        }
    }

    /// How many slots a worker has.
    pub fn slots(&self, worker: usize) -> u8
        requires { worker < length (rows_of Worker self.now) }
        ensures { result ≡ number_of (nth_word 2 (nth_row Worker worker self.now)) }
    {
        self.are_tidy();
        self.amount(Keyword::Worker, worker, 2) as u8
    }

    /// The number of the row of this keyword that is about the name.
    pub fn number(&self, keyword: Keyword, name: &str) -> Option<usize>
        requires { entering keyword ≡ ByWord }
        ensures { result ≡ position (λ n. bytes_eq name.now n) (names_of keyword self.now) }
    {
        self.rows.number(keyword, name, "")
    }

    // The number of a name that a row of this keyword declares.
    fn declared(&self, keyword: Keyword, name: &str) -> usize
        requires by_word { entering keyword ≡ ByWord }
        requires known { Contains (names_of keyword self.now) name.now }
        ensures value { result ≡ number_in (names_of keyword self.now) name.now }
        ensures within { result < length (names_of keyword self.now) }
    {
        self.number(keyword, name).unwrap_or(0)
    }

    /// Whether a row of this keyword is about the name.
    pub fn has(&self, keyword: Keyword, name: &str) -> bool
        requires { entering keyword ≡ ByWord }
        ensures { result ≡ stands_in (names_of keyword self.now) name.now }
    {
        if self.rows.count(keyword) == 0 {
            return false;
        }
        self.rows.has(keyword, name, "")
    }

    /// The number of a declared split.
    pub fn split(&self, name: &str) -> SplitNo
        requires { Contains (names_of Split self.now) name.now }
        ensures value { result ≡ number_in (names_of Split self.now) name.now }
        ensures within { result < length (names_of Split self.now) }
    {
        self.are_tidy();
        SplitNo::new(self.declared(Keyword::Split, name) as u32)
    }

    /// The number of a declared worker.
    pub fn worker(&self, name: &str) -> WorkerNo
        requires { Contains (names_of Worker self.now) name.now }
        ensures value { result ≡ number_in (names_of Worker self.now) name.now }
        ensures within { result < length (names_of Worker self.now) }
    {
        self.are_tidy();
        WorkerNo::new(self.declared(Keyword::Worker, name) as u16)
    }

    /// The number of a declared rack.
    pub fn rack(&self, name: &str) -> RackNo
        requires { Contains (names_of Rack self.now) name.now }
        ensures value { result ≡ number_in (names_of Rack self.now) name.now }
        ensures within { result < length (names_of Rack self.now) }
    {
        self.are_tidy();
        RackNo::new(self.declared(Keyword::Rack, name) as u16)
    }

    /// The names that the rows of a keyword declare, in their order.
    pub fn name_list(&self, alloc: Global, keyword: Keyword) -> Result<NameList<'t>, AllocError>
        ensures { IfOk result (λ names. names ≡ names_of keyword self.now) }
    {
        let count = self.count(keyword);
        let mut names = NameList::with_room(alloc, count)?;
        for number in 0..count {
            names.push(self.word(keyword, number, 0))?;
        }
        Ok(names)
    }

    /// The names as a table, in which the number of a name is looked up.
    pub fn names(&self, alloc: Global, keyword: Keyword) -> Result<NameTable<'t>, AllocError>
        requires { entering keyword ≡ ByWord }
        ensures { IfOk result (λ names. names ≡ names_of keyword self.now) }
    {
        let count = self.count(keyword);
        let mut names = NameTable::with_room(alloc, count)?;
        for number in 0..count {
            names.declare(self.word(keyword, number, 0))?;
        }
        Ok(names)
    }
}
