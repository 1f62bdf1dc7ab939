ghost use Rattle.std.specs.Prelude.{◌≡◌, ◌<◌, [], IfOk};
ghost use Rattle.word_map.specs.Divided.{AreDivided};

use crate::entry::Entry;
use crate::hash::part_of;
use crate::pace::Pace;
use std::alloc::{AllocError, Global};

// No entry for any part.
fn no_entries(alloc: Global, parts: usize) -> Result<Vec<Vec<Entry>>, AllocError>
    ensures { IfOk result (λ divided. AreDivided [] parts divided.items) }
{
    let mut divided = Vec::with_capacity(alloc, parts)?;
    for _part in 0..parts {
        divided.push(Vec::new(alloc))?;
    }
    Ok(divided)
}

/// The entries by the parts of their words.
pub(crate) fn divide<P: Pace>(
    alloc: Global,
    entries: Vec<Entry>,
    parts: usize,
    pace: &P,
) -> Result<Vec<Vec<Entry>>, AllocError>
    requires { 0 < parts }
    ensures { IfOk result (λ divided. AreDivided entries.items parts divided.items) }
{
    let mut divided = no_entries(alloc, parts)?;
    for entry in entries {
        pace.goes_on();
        let part = part_of(entry.word(), parts);
        divided[part].push(entry)?;
    }
    Ok(divided)
}
