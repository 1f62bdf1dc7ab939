ghost use Rattle.std.specs.Prelude.{◌↔◌, Contains};
ghost use Rattle.std.specs.List.Sorted.{IsStrictlySortedBy};
ghost use Rattle.word_map.specs.Distinct.{TellsApart};

use smallvec::SmallVec;

/// Puts the items into rising order, each once. It takes no memory.
pub fn sort_distinct<T: Ord + Default + Drop, const N: usize>(items: &mut SmallVec<T, N>)
    requires { TellsApart T.cmp }
    ensures rising { IsStrictlySortedBy T.cmp items.new.items }
    ensures same { (x : T) → Contains items.new.items x ↔ Contains items.old.items x }
{
    items.as_mut_slice().sort_unstable();
    items.dedup();
}
