ghost use Rattle.std.specs.Prelude.{◌≡◌, Any, IfOk, IsErr};
ghost use Rattle.word_map.specs.Entries.{pairs_of_index};
ghost use Rattle.shuffle_reduce.specs.Merged.{HaveWord, PartView};
ghost use Rattle.shuffle_reduce.specs.Gather.{GathersRuns, GathersResults, texts_of_runs, values_of};

use crate::part::PartResult;
use std::alloc::{AllocError, Global};
use std::sync::Arc;
use word_map::{Pace, Run, SplitText, Unpaced, WordTable};

/// The texts of the runs.
pub(crate) fn all_texts(alloc: Global, runs: &[Arc<Run>]) -> Result<Vec<Arc<SplitText>>, AllocError>
    ensures { IfOk result (λ texts. values_of texts.items ≡ texts_of_runs runs.now) }
{
    let mut texts = Vec::with_capacity(alloc, runs.len())?;
    for run in runs {
        texts.push(Arc::try_clone(run.text())?)?;
    }
    Ok(texts)
}

/// The words of the runs, each with the documents of all runs.
pub(crate) fn gathered_runs<'a, P: Pace>(
    alloc: Global,
    runs: &'a [Arc<Run>],
    pace: &P,
) -> Result<WordTable<'a>, AllocError>
    ensures { IfOk result (λ table. GathersRuns runs.now (pairs_of_index table)) }
{
    let mut table = WordTable::new(alloc);
    for run in runs {
        table.add(alloc, run.entries(), pace)?;
    }
    Ok(table)
}

/// The words of the results, each with the documents of all results.
pub(crate) fn gathered_results(
    alloc: Global,
    results: &[PartResult],
) -> Result<WordTable<'_>, AllocError>
    ensures gathers { IfOk result (λ table. GathersResults results.now (pairs_of_index table)) }
    ensures memory { IsErr result → Any (λ (part : PartView). HaveWord part.texts) results.now }
{
    let mut table = WordTable::new(alloc);
    for part in results {
        table.add(alloc, part.entries(), &Unpaced)?;
    }
    Ok(table)
}
