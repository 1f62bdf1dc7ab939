ghost use Rattle.std.specs.Prelude.{◌≡◌, ◌↔◌, ◌<◌, ◌≤◌, All, IsTrue, length};
ghost use Rattle.shuffle_reduce.specs.Merged.{PartView};
ghost use Rattle.shuffle_reduce.specs.Indexed.{HasDouble, HasMissing, count_of};

use crate::part::PartResult;

// How many results are of the part.
fn count_of(results: &[PartResult], part: usize) -> usize
    ensures value { result ≡ count_of results.now part }
    ensures bound { result ≤ length results.now }
    ensures in_range { All (λ (one : PartView). one.part < one.parts) results.now }
{
    let mut count = 0;
    for result in results {
        if result.part().index() == part {
            count += 1;
        }
    }
    count
}

/// Whether a part stands twice.
pub(crate) fn has_double(results: &[PartResult], parts: usize) -> bool
    requires some { 0 < parts }
    requires same { All (λ (one : PartView). one.parts ≡ parts) results.now }
    ensures { IsTrue result ↔ HasDouble results.now }
{
    for part in 0..parts {
        if count_of(results, part) > 1 {
            return true;
        }
    }
    false
}

/// Whether a part is not there.
pub(crate) fn has_missing(results: &[PartResult], parts: usize) -> bool
    ensures { IsTrue result ↔ HasMissing results.now parts }
{
    for part in 0..parts {
        if count_of(results, part) == 0 {
            return true;
        }
    }
    false
}
