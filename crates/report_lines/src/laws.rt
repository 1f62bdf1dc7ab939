//! Laws of pasts, each proved once, of the definitions alone.
ghost use Rattle.report_lines.specs.Laws.{LaterPastsTellTheSame, LegalHistoriesArePasts, PastsTellTheCopies};

/// The past of a job tells the same copies as its master answered.
pub fn pasts_tell_the_copies()
    ensures pasts { LegalHistoriesArePasts }
    ensures copies { PastsTellTheCopies }
    ensures later { LaterPastsTellTheSame }
{}
