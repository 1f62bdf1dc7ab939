ghost use Rattle.std.specs.Prelude.{◌≡◌, ◌++◌, ◌∷◌, ◌<◌, IfOk, IsSome, None, Ok, OnErr, [], false, is_some, length, map, true};
ghost use Rattle.line_rules.specs.Rows.{first_by};
ghost use Rattle.line_rules.specs.WordTable.{AreChained, mark_of as mark_in, pair_of};

use crate::rows::short_number;
use line_shapes::Keyword;
use std::alloc::{AllocError, Global};
use std::hash::{FoldHasher, Hasher};
use std::marker::Model;
use text_lines::are_same;

// The most marks of a table. A table of more words has longer chains: more marks would take memory from long
// texts that name little.
const MOST_MARKS: usize = 262_144;

/// A hash table of words, each with the keyword and the number of a row. The mark of a word is the low bits
/// of its hash. The entries of one mark are chained, from the last one to the first.
#[derive(Drop)]
pub struct WordTable<'t> {
    // In the order in which they were put.
    entries: Vec<WordEntry<'t>>,
    // For each mark one more than the place of the last entry of that mark, or 0 where there is none.
    heads: Vec<u32>,
}

/// A word, with the keyword and the number of its row.
#[derive(Clone, Copy)]
pub struct WordEntry<'t> {
    word: &'t str,
    of: (Keyword, u32),
    // One more than the place of the entry before this one in its chain, or 0 where this is the first.
    next: u32,
}

impl<'t> Model for WordTable<'t> {
    ghost use Rattle.std.specs.Prelude.{map};
    ghost use Rattle.line_rules.specs.WordTable.{AreChained, Words, pair_of};

    ghost Value = { Words };

    ghost view = { λ t. record { entries = map pair_of t.entries.items } };

    ghost invariant = { λ t. AreChained (map (λ e. e.word.now) t.entries.items) (map (λ e. e.next) t.entries.items)
        t.heads.items };
}

impl<'t> WordTable<'t> {
    /// No words, with room for so many, and at least so many marks.
    pub fn with_room(alloc: Global, words: usize, marks: usize) -> Result<WordTable<'t>, AllocError>
        ensures { IfOk result (λ table. table.entries ≡ []) }
    {
        let marks = marks.clamp(1, MOST_MARKS).next_power_of_two();
        Ok(WordTable {
            entries: Vec::with_capacity(alloc, words)?,
            heads: vec![in alloc; 0; marks]?,
        })
    }

    /// How many words more there is room for.
    pub fn spare(&self) -> usize {
        self.entries.capacity().saturating_sub(self.entries.len())
    }

    /// The keyword and the number of the row of a word.
    #[inline(always)]
    pub fn get(&self, word: &str) -> Option<(Keyword, u32)>
        ensures { result ≡ first_by self.now.entries word.now }
    {
        let mark = mark_of(word, self.heads.len());
        find(&self.entries, &self.heads, mark, word)
    }

    /// Whether the word is there.
    #[inline(always)]
    pub fn has(&self, word: &str) -> bool
        ensures { result ≡ is_some (first_by self.now.entries word.now) }
    {
        self.get(word).is_some()
    }

    /// Puts a word, if it is not there, and answers whether it was put. After an error it was not put.
    #[inline(always)]
    pub fn put(&mut self, word: &'t str, of: (Keyword, u32)) -> Result<bool, AllocError>
        ensures put { result ≡ Ok true → (first_by self.old.entries word.now ≡ None)
            × (self.new.entries ≡ self.old.entries ++ (word.entry, of) ∷ []) }
        ensures there { result ≡ Ok false → IsSome (first_by self.old.entries word.now)
            × (self.new.entries ≡ self.old.entries) }
        ensures err { OnErr result (self.new.entries ≡ self.old.entries) }
    {
        let mark = mark_of(word, self.heads.len());
        if find(&self.entries, &self.heads, mark, word).is_some() {
            return Ok(false);
        }
        let last = short_number(self.entries.len() + 1)?;
        let next = self.heads[mark];
        self.entries.reserve(1)?;
        self.entries.push_reserved(WordEntry { word, of, next });
        self.heads[mark] = last;
        Ok(true)
    }
}

// The keyword and the number of the row of a word, by the chain of its mark.
#[inline(always)]
fn find(entries: &[WordEntry<'_>], heads: &[u32], mark: usize, word: &str) -> Option<(Keyword, u32)>
    requires marked { mark ≡ mark_in word.now (length heads.now) }
    requires within { mark < length heads.now }
    requires chained { AreChained (map (λ e. e.word.now) entries.now) (map (λ e. e.next) entries.now) heads.now }
    ensures { result ≡ first_by (map pair_of entries.now) word.now }
{
    let mut at = heads[mark] as usize;
    while at > 0 {
        let entry = &entries[at - 1];
        if are_same(entry.word, word) {
            return Some(entry.of);
        }
        at = entry.next as usize;
    }
    None
}

// The mark of a word, where there are so many marks.
#[inline(always)]
fn mark_of(word: &str, marks: usize) -> usize
    requires { 0 < marks }
    ensures is { result ≡ mark_in word.now marks }
    ensures within { result < marks }
{
    let mut hasher = FoldHasher::default();
    hasher.write(word.as_bytes());
    hasher.finish() as usize & (marks - 1)
}
