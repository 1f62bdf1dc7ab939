ghost use Rattle.std.specs.Prelude.{◌≡◌, IfOk, map};
ghost use Rattle.line_shapes.specs.declared.keyword.Keyword.TheVariants.{Worker};
ghost use Rattle.line_rules.specs.Known.{rows_of};
ghost use Rattle.script_text.specs.Heads.{FitMaster, IsFitHead, MakesHead, slots_told};

use crate::documents::build_texts;
use crate::naming::setting_of;
use line_rules::Version;
use line_shapes::Keyword;
use plan_text::TidyRows;
use plan_text::built::{build_splits, build_tree};
use rack_tree::RackTree;
use std::alloc::{AllocError, Global};
use std::sync::Arc;
use wave_problem::SplitLine;
use word_map::SplitText;

/// What the cluster of a master is made of, and the version of its text. Slots are listed by worker number,
/// splits and texts by split number.
#[derive(Drop)]
pub struct Head {
    pub version: Version,
    pub tree: RackTree,
    pub slots: Vec<u8>,
    /// The splits with their first holders.
    pub splits: Vec<SplitLine>,
    /// The documents of each split.
    pub texts: Vec<Arc<SplitText>>,
    /// How many parts the words are divided into.
    pub parts: usize,
    /// The sweeps without a new beat after which a worker is dead.
    pub silence: u32,
}

/// The head that the rows of a text of the version declare. The only error is want of memory.
pub fn build_head(
    alloc: Global,
    version: Version,
    rows: &TidyRows<'_, '_>,
) -> Result<Head, AllocError>
    requires { FitMaster rows.now }
    ensures value { IfOk result (MakesHead version rows.now) }
    ensures fit { IfOk result IsFitHead }
{
    rows.are_tidy();
    let parts = setting_of(rows, Keyword::Parts, 1) as usize;
    let silence = setting_of(rows, Keyword::Silence, 3) as u32;
    let slots = build_slots(alloc, rows)?;
    let tree = build_tree(alloc, rows)?;
    let splits = build_splits(alloc, rows)?;
    let texts = build_texts(alloc, rows)?;
    Ok(Head {
        version,
        tree,
        slots,
        splits,
        texts,
        parts,
        silence,
    })
}

// The slots of each worker, by number.
fn build_slots(alloc: Global, rows: &TidyRows<'_, '_>) -> Result<Vec<u8>, AllocError>
    ensures { IfOk result (λ slots. slots.items ≡ map slots_told (rows_of Worker rows.now)) }
{
    let count = rows.count(Keyword::Worker);
    let mut slots = Vec::with_capacity(alloc, count)?;
    for worker in 0..count {
        slots.push(rows.slots(worker))?;
    }
    Ok(slots)
}
