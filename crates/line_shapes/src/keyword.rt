ghost use Rattle.std.specs.Prelude.{◌≡◌, ◌∷◌, MatchOption, ℕ, List, true};
ghost use Rattle.text_lines.specs.Texts.{Word};
ghost use Rattle.line_shapes.specs.Keywords.{is_of_few, spelling_of};
ghost use Rattle.line_shapes.specs.Lines.{words_after, words_in};
ghost use Rattle.line_shapes.specs.declared.keyword.Keyword.{Keyword};
ghost use Rattle.line_shapes.specs.Places.{more_of, place_at, places_of};

use crate::cut::first_word;
use crate::place::{Kind, Place};
use text_lines::are_same;

/// The first word of a line.
#[derive(Clone, Copy, PartialEq, Eq, Hash)]
pub enum Keyword {
    Problem,
    Script,
    Job,
    Centre,
    Rack,
    Worker,
    Split,
    Barred,
    Dead,
    Busy,
    Places,
    Parts,
    Target,
    Silence,
    Doc,
    Plan,
    Start,
    Price,
    Begin,
    Wave,
    Ahead,
    Done,
    Fail,
    Withdraw,
    Die,
    Join,
    Add,
    Lose,
    Sweep,
    Reduce,
    Copies,
    Backup,
    End,
}

impl Keyword {
    /// The keyword that is spelled so. Those of most lines are tried first.
    pub fn of(word: &str) -> Option<Keyword>
        ensures { MatchOption result ((k : Keyword) → spelling_of k ≡ word.now → ⊥)
            (λ k. spelling_of k ≡ word.now) }
    {
        if are_same(word, "split") {
            return Some(Keyword::Split);
        }
        if are_same(word, "worker") {
            return Some(Keyword::Worker);
        }
        match word {
            "done" => Some(Keyword::Done),
            "wave" => Some(Keyword::Wave),
            "doc" => Some(Keyword::Doc),
            "add" => Some(Keyword::Add),
            "lose" => Some(Keyword::Lose),
            "fail" => Some(Keyword::Fail),
            "withdraw" => Some(Keyword::Withdraw),
            "rack" => Some(Keyword::Rack),
            "start" => Some(Keyword::Start),
            "price" => Some(Keyword::Price),
            "join" => Some(Keyword::Join),
            "die" => Some(Keyword::Die),
            "sweep" => Some(Keyword::Sweep),
            "reduce" => Some(Keyword::Reduce),
            "backup" => Some(Keyword::Backup),
            "ahead" => Some(Keyword::Ahead),
            "copies" => Some(Keyword::Copies),
            _ => Keyword::of_few(word),
        }
    }

    // The keyword of few lines that is spelled so.
    fn of_few(word: &str) -> Option<Keyword>
        ensures { MatchOption result ((k : Keyword) → is_of_few k ≡ true → spelling_of k ≡ word.now → ⊥)
            (λ k. spelling_of k ≡ word.now) }
    {
        match word {
            "barred" => Some(Keyword::Barred),
            "dead" => Some(Keyword::Dead),
            "busy" => Some(Keyword::Busy),
            "places" => Some(Keyword::Places),
            "centre" => Some(Keyword::Centre),
            "parts" => Some(Keyword::Parts),
            "target" => Some(Keyword::Target),
            "silence" => Some(Keyword::Silence),
            "begin" => Some(Keyword::Begin),
            "plan" => Some(Keyword::Plan),
            "end" => Some(Keyword::End),
            "problem" => Some(Keyword::Problem),
            "script" => Some(Keyword::Script),
            "job" => Some(Keyword::Job),
            _ => None,
        }
    }
}

impl Keyword {
    /// What follows the keyword, with the ranges of the newest version of a text.
    #[inline(always)]
    pub fn places(self) -> &'static [Place]
        ensures { result.now ≡ places_of self }
    {
        match self {
            Keyword::Problem | Keyword::Script | Keyword::Job => &[Place::Number(1, 3)],
            Keyword::Centre | Keyword::Rack => &[Place::New],
            Keyword::Worker => &[Place::New, Place::Used(Kind::Rack), Place::Number(0, 255)],
            Keyword::Split => &[Place::New, Place::Number(0, 8_589_934_592)],
            Keyword::Barred | Keyword::Start | Keyword::Add | Keyword::Lose => &[
                Place::Used(Kind::Split),
                Place::Used(Kind::Worker),
            ],
            Keyword::Backup => &[Place::Used(Kind::Split), Place::Used(Kind::Worker)],
            Keyword::Dead | Keyword::Die | Keyword::Join => &[Place::Used(Kind::Worker)],
            Keyword::Busy => &[Place::Used(Kind::Split)],
            Keyword::Places => &[Place::Used(Kind::Worker), Place::Number(0, 68_719_476_736)],
            Keyword::Parts => &[Place::Number(1, 64)],
            Keyword::Target => &[Place::Number(1, 8)],
            Keyword::Silence => &[Place::Number(1, 1_000)],
            Keyword::Doc => &[Place::New, Place::Used(Kind::Split)],
            Keyword::Plan | Keyword::Begin | Keyword::Wave | Keyword::Ahead => &[],
            Keyword::Sweep | Keyword::Reduce | Keyword::Copies | Keyword::End => &[],
            Keyword::Price => &[Place::Used(Kind::Priced), Place::Number(0, u64::MAX)],
            Keyword::Done | Keyword::Fail | Keyword::Withdraw => &[Place::Number(0, 1_000_000)],
        }
    }

    /// What may follow these places, any number of times.
    #[inline(always)]
    pub fn more(self) -> Option<Place>
        ensures { result ≡ more_of self }
    {
        match self {
            Keyword::Rack => Some(Place::Used(Kind::Centre)),
            Keyword::Split => Some(Place::Used(Kind::Worker)),
            Keyword::Places => Some(Place::Number(0, 68_719_476_736)),
            Keyword::Doc => Some(Place::Text),
            Keyword::Join => Some(Place::Used(Kind::Split)),
            Keyword::Ahead => Some(Place::Number(0, 255)),
            Keyword::Sweep => Some(Place::Number(0, 1_099_511_627_776)),
            Keyword::Problem | Keyword::Script | Keyword::Job => None,
            Keyword::Centre | Keyword::Worker => None,
            Keyword::Barred | Keyword::Dead | Keyword::Busy => None,
            Keyword::Parts | Keyword::Target | Keyword::Silence => None,
            Keyword::Plan | Keyword::Start | Keyword::Price => None,
            Keyword::Begin | Keyword::Wave | Keyword::Done | Keyword::Fail => None,
            Keyword::Withdraw | Keyword::Die | Keyword::Add | Keyword::Lose => None,
            Keyword::Reduce | Keyword::Copies | Keyword::Backup | Keyword::End => None,
        }
    }

    /// The place of the word with this number, from 0, after the keyword.
    #[inline(always)]
    pub fn place(self, number: usize) -> Option<Place>
        ensures { result ≡ place_at self number }
    {
        match self.places().get(number) {
            Some(place) => Some(*place),
            None => self.more(),
        }
    }
}

/// The keyword of a line, and what follows the space after it; no word after it is looked at.
pub fn keyword_of(line: &str) -> Option<(Keyword, Option<&str>)>
    ensures { MatchOption result
        ((k : Keyword) (ws : List Word) → words_in k line.entry.now ≡ spelling_of k ∷ ws → ⊥)
        (λ cut. words_in cut.0 line.entry.now ≡ spelling_of cut.0 ∷ words_after cut.0 cut.1) }
{
    let (first, rest) = first_word(line);
    Some((Keyword::of(first)?, rest))
}
