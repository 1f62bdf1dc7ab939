ghost use Rattle.std.specs.Prelude.{◌≡◌, ◌≢◌, ◌↔◌, All, Err, IfErr, IfOk, IfSome, IsSome, IsTrue, map};
ghost use Rattle.text_lines.specs.Texts.{IsPrintable, Line};
ghost use Rattle.line_shapes.specs.Demands.{Meet};
ghost use Rattle.line_shapes.specs.Lines.{IsShaped, stated, statement_of, words_after};
ghost use Rattle.line_shapes.specs.declared.demand.Demand.TheVariants.{Shape};
ghost use Rattle.line_rules.specs.Faults.{IsFit, IsLeastOf};
ghost use Rattle.line_rules.specs.Long.{WordsHave};
ghost use Rattle.line_rules.specs.Entered.{AreFit};
ghost use Rattle.line_rules.specs.Holders.{AreHoldersOf, IsHeld};
ghost use Rattle.line_rules.specs.Rows.{IsBarOf};
ghost use Rattle.line_rules.specs.declared.edition.Version.{Version};
ghost use Rattle.line_rules.specs.Reading.{HasKeyword, IsCut, IsFitLine, IsLeastError};
ghost use Rattle.line_rules.specs.Texts.{LineHas};

use crate::fit::{are_fit, are_fit_splits, bar_of};
use crate::holders::{are_holders_apart, find_holders, is_fit_before_holders};
use crate::known::KnownLines;
use crate::line_reader::{LineError, is_ended};
use crate::long::cut_most;
use line_shapes::{KeyedLine, Keyword, keyword_of, said_by};
use text_lines::{Fault, printable_in};

/// What a line says after these lines, or its least fault. The line is given without its line feed, and is
/// not entered. Its words replace the words that `words` had.
pub fn fit_line<'w, 'l>(
    words: &'w mut Vec<&'l str>,
    line: &'l [u8],
    known: &KnownLines<'_>,
) -> Result<KeyedLine<'w, 'l>, LineError>
    ensures ok { IfOk result (λ said. IsFitLine known.now line.entry.now (statement_of said)) }
    ensures err { IfErr result (IsLeastError (LineHas known.now line.entry.now)) }
    ensures memory { result ≡ Err LineError.Memory → HasKeyword known.now line.entry.now }
{
    let mut holders = Vec::new(*words.allocator());
    let (keyword, rest) = cut_keyword(false, line, known)?;
    fit_after(words, &mut holders, keyword, rest, known)?;
    Ok(KeyedLine { keyword, words })
}

/// The keyword of a line after these lines, and what follows the space after it, or the line's least fault.
/// `printable` says that all bytes of the line are known to be printable.
#[inline(always)]
pub(crate) fn cut_keyword<'l>(
    printable: bool,
    line: &'l [u8],
    known: &KnownLines<'_>,
) -> Result<(Keyword, Option<&'l str>), LineError>
    requires { IsTrue printable → All IsPrintable line.now }
    ensures ok { IfOk result (λ cut. IsCut known.now line.entry.now cut.0 cut.1) }
    ensures err { IfErr result (IsLeastError (LineHas known.now line.entry.now)) }
    ensures memory { result ≢ Err LineError.Memory }
{
    let Some(line) = printable_in(printable, line) else {
        return Err(LineError::Fault(Fault::Unprintable));
    };
    if is_ended(known) {
        return Err(LineError::Fault(Fault::AfterEnd));
    }
    match keyword_of(line) {
        Some(cut) => Ok(cut),
        None => Err(LineError::Fault(Fault::Shape)),
    }
}

/// Whether a line is fit that begins with this keyword; `rest` is what follows the space after it. Its words
/// and the numbers of its holders replace what `words` and `holders` had. The answer is the numbers of the
/// pair that the line bars, where they are known, or the line's least fault.
#[inline(always)]
pub(crate) fn fit_after<'l>(
    words: &mut Vec<&'l str>,
    holders: &mut Vec<u32>,
    keyword: Keyword,
    rest: Option<&'l str>,
    known: &KnownLines<'_>,
) -> Result<Option<(u32, u32)>, LineError>
    ensures shaped { IfOk result (λ _. IsShaped (stated keyword words.new.items)) }
    ensures fit { IfOk result (λ _. IsFit known.now (stated keyword words.new.items)) }
    ensures rest { IfOk result (λ _. map (λ w. w.now) words.new.items ≡ words_after keyword rest.entry) }
    ensures bar { IfOk result (λ bar. IfSome bar (IsBarOf known.now.rows (stated keyword words.new.items))) }
    ensures holders { IfOk result (λ _.
        AreHoldersOf known.now.rows (stated keyword words.new.items) holders.new.items) }
    ensures err { IfErr result (λ error. (line : Line) → IsCut known.now line keyword rest.entry
        → IsLeastError (LineHas known.now line) error) }
{
    cut_most(known, keyword, rest, words)?;
    let words = words.as_slice();
    let held = find_holders(known.rows(), keyword, words, holders)?;
    match fit_words(keyword, words, held, holders, known) {
        Ok(bar) => Ok(bar),
        Err(fault) => Err(LineError::Fault(fault)),
    }
}

// The same for these words. Most words are found fit at once. `held` says whether each holder of a split is a
// worker, and `holders` are the numbers of these workers.
#[inline(always)]
fn fit_words(
    keyword: Keyword,
    words: &[&str],
    held: bool,
    holders: &[u32],
    known: &KnownLines<'_>,
) -> Result<Option<(u32, u32)>, Fault>
    requires held { IsTrue held ↔ IsHeld known.now.rows (stated keyword words.now) }
    requires holders { IsTrue held → AreHoldersOf known.now.rows (stated keyword words.now) holders.now }
    ensures shaped { IfOk result (λ _. IsShaped (stated keyword words.now)) }
    ensures fit { IfOk result (λ _. IsFit known.now (stated keyword words.now)) }
    ensures bar { IfOk result (λ bar. IfSome bar (IsBarOf known.now.rows (stated keyword words.now))) }
    ensures held { IfOk result (λ _. IsTrue held) }
    ensures err { IfErr result (IsLeastOf (WordsHave known.now keyword (map (λ w. w.now) words.now))) }
{
    let apart = are_fit_splits(known.rows(), known.version(), keyword, words);
    let bar = bar_of(known.rows(), keyword, words);
    let fit = apart || are_all_fit(known, held, bar, keyword, words);
    if !has_shape(fit, keyword, words) {
        return Err(Fault::Shape);
    }
    let line = KeyedLine { keyword, words };
    let apart = apart || (held && are_holders_apart(known.rows(), keyword, words, holders));
    match known.fault_of(fit, apart, bar, &line) {
        Some(fault) => Err(fault),
        None => Ok(bar),
    }
}

// Whether the words are fit, as those are that name a pair whose numbers are known.
#[inline(always)]
fn are_all_fit(
    known: &KnownLines<'_>,
    held: bool,
    bar: Option<(u32, u32)>,
    keyword: Keyword,
    words: &[&str],
) -> bool
    requires held { IsTrue held → IsHeld known.now.rows (stated keyword words.now) }
    requires bar { IsSome bar → (version : Version)
        → AreFit version known.now.rows (stated keyword words.now) }
    ensures { IsTrue result → AreFit known.now.version known.now.rows (stated keyword words.now) }
{
    match keyword {
        Keyword::Split if held => is_fit_before_holders(known.rows(), known.version(), words),
        _ => bar.is_some() || are_fit(known.rows(), known.version(), keyword, words),
    }
}

// Whether the words have the shapes of their places, as fit words do.
#[inline(always)]
fn has_shape(fit: bool, keyword: Keyword, words: &[&str]) -> bool
    requires { IsTrue fit → Meet Shape keyword (map (λ w. w.now) words.now) }
    ensures { IsTrue result ↔ IsShaped (stated keyword words.now) }
{
    (fit && words.len() >= keyword.places().len()) || said_by(keyword, words).is_some()
}
