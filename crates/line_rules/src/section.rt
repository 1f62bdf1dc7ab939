ghost use Rattle.std.specs.Prelude.{◌≡◌};
ghost use Rattle.line_rules.specs.Sections.{in_check, in_job, in_plan, in_script};
ghost use Rattle.line_rules.specs.Sections.{section_after as after, section_of as sections};

use crate::purpose::Purpose;
use line_shapes::Keyword;

/// Where in a text a line stands.
#[derive(Clone, Copy, PartialEq, Eq)]
pub enum Section {
    /// The first line, which names the kind of the text.
    First,
    /// The lines that declare what the text is about.
    Head,
    /// What stands after the head: the plan of a text to check, or the commands of a script.
    Body,
    /// After the last line.
    Ended,
}

/// The section in which a line of this keyword may stand, if the kind of text has such a line.
#[inline(always)]
pub fn section_of(purpose: Purpose, keyword: Keyword) -> Option<Section>
    ensures { result ≡ sections purpose keyword }
{
    match purpose {
        Purpose::Checking => section_in_check(keyword),
        Purpose::Planning => section_in_plan(keyword),
        Purpose::Playing => section_in_script(keyword),
        Purpose::Running => section_in_job(keyword),
    }
}

#[inline(always)]
fn section_in_check(keyword: Keyword) -> Option<Section>
    ensures { result ≡ in_check keyword }
{
    match keyword {
        Keyword::Problem => Some(Section::First),
        Keyword::Script | Keyword::Job | Keyword::Parts | Keyword::Target => None,
        Keyword::Silence | Keyword::Doc | Keyword::Begin | Keyword::Wave | Keyword::Done => None,
        Keyword::Fail | Keyword::Withdraw | Keyword::Die | Keyword::Join | Keyword::Add => None,
        Keyword::Lose | Keyword::Sweep | Keyword::Reduce | Keyword::Copies => None,
        Keyword::Ahead | Keyword::Backup => None,
        Keyword::Centre | Keyword::Rack | Keyword::Worker | Keyword::Split => Some(Section::Head),
        Keyword::Barred | Keyword::Dead | Keyword::Busy | Keyword::Plan => Some(Section::Head),
        Keyword::Places => Some(Section::Head),
        Keyword::Start | Keyword::Price | Keyword::End => Some(Section::Body),
    }
}

#[inline(always)]
fn section_in_plan(keyword: Keyword) -> Option<Section>
    ensures { result ≡ in_plan keyword }
{
    match keyword {
        Keyword::Problem => Some(Section::First),
        Keyword::Script | Keyword::Job | Keyword::Parts | Keyword::Target => None,
        Keyword::Silence | Keyword::Doc | Keyword::Plan | Keyword::Start | Keyword::Price => None,
        Keyword::Begin | Keyword::Wave | Keyword::Ahead | Keyword::Done | Keyword::Fail => None,
        Keyword::Withdraw | Keyword::Die | Keyword::Join | Keyword::Add | Keyword::Lose => None,
        Keyword::Sweep | Keyword::Reduce | Keyword::Copies | Keyword::Backup => None,
        Keyword::Centre | Keyword::Rack | Keyword::Worker | Keyword::Split => Some(Section::Head),
        Keyword::Barred | Keyword::Dead | Keyword::Busy | Keyword::Places => Some(Section::Head),
        Keyword::End => Some(Section::Head),
    }
}

#[inline(always)]
fn section_in_script(keyword: Keyword) -> Option<Section>
    ensures { result ≡ in_script keyword }
{
    match keyword {
        Keyword::Problem | Keyword::Job | Keyword::Barred | Keyword::Dead | Keyword::Busy => None,
        Keyword::Plan | Keyword::Start | Keyword::Price | Keyword::Places => None,
        Keyword::Script => Some(Section::First),
        Keyword::Centre | Keyword::Rack | Keyword::Worker | Keyword::Split => Some(Section::Head),
        Keyword::Parts | Keyword::Target | Keyword::Silence | Keyword::Doc => Some(Section::Head),
        Keyword::Begin => Some(Section::Head),
        Keyword::Wave | Keyword::Done | Keyword::Fail | Keyword::Withdraw => Some(Section::Body),
        Keyword::Die | Keyword::Join | Keyword::Add | Keyword::Lose => Some(Section::Body),
        Keyword::Sweep | Keyword::Reduce | Keyword::Copies => Some(Section::Body),
        Keyword::Ahead | Keyword::Backup | Keyword::End => Some(Section::Body),
    }
}

#[inline(always)]
fn section_in_job(keyword: Keyword) -> Option<Section>
    ensures { result ≡ in_job keyword }
{
    match keyword {
        Keyword::Problem | Keyword::Script | Keyword::Barred | Keyword::Dead => None,
        Keyword::Busy | Keyword::Plan | Keyword::Start | Keyword::Price | Keyword::Begin => None,
        Keyword::Wave | Keyword::Done | Keyword::Fail | Keyword::Withdraw | Keyword::Die => None,
        Keyword::Join | Keyword::Add | Keyword::Lose | Keyword::Sweep | Keyword::Reduce => None,
        Keyword::Ahead | Keyword::Copies | Keyword::Backup | Keyword::Places => None,
        Keyword::Job => Some(Section::First),
        Keyword::Centre | Keyword::Rack | Keyword::Worker | Keyword::Split => Some(Section::Head),
        Keyword::Parts | Keyword::Target | Keyword::Silence | Keyword::Doc => Some(Section::Head),
        Keyword::End => Some(Section::Head),
    }
}

/// The section after a line of this keyword.
#[inline(always)]
pub fn section_after(keyword: Keyword) -> Section
    ensures { result ≡ after keyword }
{
    match keyword {
        Keyword::Problem | Keyword::Script | Keyword::Job | Keyword::Centre => Section::Head,
        Keyword::Rack | Keyword::Worker | Keyword::Split | Keyword::Barred => Section::Head,
        Keyword::Dead | Keyword::Busy | Keyword::Parts | Keyword::Target => Section::Head,
        Keyword::Silence | Keyword::Doc | Keyword::Places => Section::Head,
        Keyword::Plan | Keyword::Start | Keyword::Price | Keyword::Begin => Section::Body,
        Keyword::Wave | Keyword::Done | Keyword::Fail | Keyword::Withdraw => Section::Body,
        Keyword::Die | Keyword::Join | Keyword::Add | Keyword::Lose => Section::Body,
        Keyword::Sweep | Keyword::Reduce | Keyword::Copies | Keyword::Backup => Section::Body,
        Keyword::Ahead => Section::Body,
        Keyword::End => Section::Ended,
    }
}
