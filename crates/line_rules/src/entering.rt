ghost use Rattle.std.specs.Prelude.{◌≡◌};
ghost use Rattle.line_rules.specs.Entering.{entering_of as entering, follow_of as follow};
ghost use Rattle.line_rules.specs.Entering.{is_priced as priced};
ghost use Rattle.line_rules.specs.Entering.{most_more_of as most_words, most_of as most};
ghost use Rattle.line_rules.specs.Entering.{most_splits as splits, most_workers as workers};
ghost use Rattle.line_rules.specs.Entering.{most_holders as holders};
ghost use Rattle.line_rules.specs.Entering.{most_commands as commands, most_documents as documents};
ghost use Rattle.line_rules.specs.Entering.{newer_limit as newer};

use crate::edition::Version;
use crate::purpose::Purpose;
use line_shapes::Keyword;

/// By which words a line is entered. A later line with the same words repeats it.
#[derive(Clone, Copy)]
pub enum Entering {
    /// It is not entered.
    Nothing,
    /// Behind the lines before it, as often as it stands: a command.
    InTurn,
    /// By its keyword alone.
    Alone,
    /// By its first word.
    Word,
    /// By its first two words.
    Pair,
}

/// Which words have to follow those in the places of a line.
#[derive(Clone, Copy)]
pub enum Follow {
    /// Any, as far as some may.
    Any,
    /// A data centre, from version 2 on, and else nothing.
    Centre,
    /// A number for each worker that was declared.
    Counts,
    /// No more than may stand with the first of them for the slots of a worker.
    Slots,
}

/// How many prices of places may follow the first, since a worker has at most 255 slots.
pub const MORE_PLACES: usize = 254;

/// How the lines of a keyword are entered.
#[inline(always)]
pub fn entering_of(keyword: Keyword) -> Entering
    ensures { result ≡ entering keyword }
{
    match keyword {
        Keyword::Problem | Keyword::Script | Keyword::Job | Keyword::Plan => Entering::Nothing,
        Keyword::Begin | Keyword::End => Entering::Nothing,
        Keyword::Centre | Keyword::Rack | Keyword::Worker | Keyword::Split => Entering::Word,
        Keyword::Dead | Keyword::Busy | Keyword::Doc | Keyword::Start => Entering::Word,
        Keyword::Price | Keyword::Places => Entering::Word,
        Keyword::Barred => Entering::Pair,
        Keyword::Parts | Keyword::Target | Keyword::Silence => Entering::Alone,
        Keyword::Wave | Keyword::Done | Keyword::Fail | Keyword::Withdraw => Entering::InTurn,
        Keyword::Die | Keyword::Join | Keyword::Add | Keyword::Lose => Entering::InTurn,
        Keyword::Sweep | Keyword::Reduce | Keyword::Copies | Keyword::Backup => Entering::InTurn,
        Keyword::Ahead => Entering::InTurn,
    }
}

/// How many lines of a keyword there may be, where there is a limit; of commands, how many in all.
#[inline(always)]
pub fn most_of(version: Version, purpose: Purpose, keyword: Keyword) -> Option<usize>
    ensures { result ≡ most version purpose keyword }
{
    match keyword {
        Keyword::Problem | Keyword::Script | Keyword::Job | Keyword::Barred => None,
        Keyword::Dead | Keyword::Busy | Keyword::Parts | Keyword::Target => None,
        Keyword::Silence | Keyword::Plan | Keyword::Start | Keyword::Price => None,
        Keyword::Begin | Keyword::End | Keyword::Places => None,
        Keyword::Centre => Some(newer_limit(version, 8, 256)),
        Keyword::Rack => Some(newer_limit(version, 32, 4096)),
        Keyword::Worker => Some(most_workers(version, purpose)),
        Keyword::Split => Some(most_splits(version)),
        Keyword::Doc => Some(most_documents(version)),
        Keyword::Wave | Keyword::Done | Keyword::Fail | Keyword::Withdraw => {
            Some(most_commands(version))
        }
        Keyword::Die | Keyword::Join | Keyword::Add | Keyword::Lose => Some(most_commands(version)),
        Keyword::Sweep | Keyword::Reduce | Keyword::Copies | Keyword::Backup => {
            Some(most_commands(version))
        }
        Keyword::Ahead => Some(most_commands(version)),
    }
}

#[inline(always)]
fn most_workers(version: Version, purpose: Purpose) -> usize
    ensures { result ≡ workers version purpose }
{
    match purpose {
        Purpose::Checking | Purpose::Planning | Purpose::Playing => {
            newer_limit(version, 256, 32_768)
        }
        Purpose::Running => newer_limit(version, 32, 1024),
    }
}

#[inline(always)]
fn most_splits(version: Version) -> usize
    ensures { result ≡ splits version }
{
    newer_limit(version, 1024, 131_072)
}

#[inline(always)]
fn most_documents(version: Version) -> usize
    ensures { result ≡ documents version }
{
    newer_limit(version, 65_536, 1_048_576)
}

#[inline(always)]
fn most_commands(version: Version) -> usize
    ensures { result ≡ commands version }
{
    newer_limit(version, 65_536, 1_048_576)
}

// The greater of two limits, `more`, holds in version 3.
#[inline(always)]
fn newer_limit(version: Version, less: usize, more: usize) -> usize
    ensures { result ≡ newer version less more }
{
    match version {
        Version::One | Version::Two => less,
        Version::Three => more,
    }
}

/// How many words may follow those in the places of a line, where there is a limit.
#[inline(always)]
pub fn most_more_of(version: Version, keyword: Keyword) -> Option<usize>
    ensures { result ≡ most_words version keyword }
{
    match keyword {
        Keyword::Problem | Keyword::Script | Keyword::Job | Keyword::Centre => None,
        Keyword::Rack | Keyword::Worker | Keyword::Barred | Keyword::Dead | Keyword::Busy => None,
        Keyword::Parts | Keyword::Target | Keyword::Silence | Keyword::Doc => None,
        Keyword::Plan | Keyword::Start | Keyword::Price | Keyword::Begin | Keyword::Wave => None,
        Keyword::Done | Keyword::Fail | Keyword::Withdraw | Keyword::Die | Keyword::Join => None,
        Keyword::Add | Keyword::Lose | Keyword::Sweep | Keyword::Reduce | Keyword::Copies => None,
        Keyword::Ahead | Keyword::Backup | Keyword::End | Keyword::Places => None,
        Keyword::Split => Some(most_holders(version)),
    }
}

// How many holders a split may have.
#[inline(always)]
fn most_holders(version: Version) -> usize
    ensures { result ≡ holders version }
{
    newer_limit(version, 8, 16)
}

/// Which words have to follow those in the places of a line.
#[inline(always)]
pub fn follow_of(keyword: Keyword) -> Follow
    ensures { result ≡ follow keyword }
{
    match keyword {
        Keyword::Problem | Keyword::Script | Keyword::Job | Keyword::Centre => Follow::Any,
        Keyword::Worker | Keyword::Split | Keyword::Barred | Keyword::Dead => Follow::Any,
        Keyword::Busy | Keyword::Parts | Keyword::Target | Keyword::Silence => Follow::Any,
        Keyword::Doc | Keyword::Plan | Keyword::Start | Keyword::Price => Follow::Any,
        Keyword::Begin | Keyword::Wave | Keyword::Done | Keyword::Fail => Follow::Any,
        Keyword::Withdraw | Keyword::Die | Keyword::Join | Keyword::Add => Follow::Any,
        Keyword::Lose | Keyword::Reduce | Keyword::Copies | Keyword::Backup => Follow::Any,
        Keyword::End => Follow::Any,
        Keyword::Rack => Follow::Centre,
        Keyword::Ahead | Keyword::Sweep => Follow::Counts,
        Keyword::Places => Follow::Slots,
    }
}

/// Whether what a line of this keyword declares has a price.
pub fn is_priced(keyword: Keyword) -> bool
    ensures { result ≡ priced keyword }
{
    match keyword {
        Keyword::Problem | Keyword::Script | Keyword::Job | Keyword::Centre => false,
        Keyword::Rack | Keyword::Barred | Keyword::Dead | Keyword::Busy | Keyword::Parts => false,
        Keyword::Target | Keyword::Silence | Keyword::Doc | Keyword::Plan => false,
        Keyword::Start | Keyword::Price | Keyword::Begin | Keyword::Wave | Keyword::Done => false,
        Keyword::Fail | Keyword::Withdraw | Keyword::Die | Keyword::Join | Keyword::Add => false,
        Keyword::Lose | Keyword::Sweep | Keyword::Reduce | Keyword::Copies => false,
        Keyword::Ahead | Keyword::Backup | Keyword::End | Keyword::Places => false,
        Keyword::Worker | Keyword::Split => true,
    }
}
