ghost use Rattle.std.specs.Prelude.{◌≡◌, ◌<◌, length, true, false};
ghost use Rattle.block_map.specs.Holdings.{are_full, holders_of, is_holder, with_holder, without_holder};

use block_map::{BlockMap, HolderLimit};
use node_ids::{SplitNo, WorkerNo};

/// Makes a worker, that is none, a holder of a split that has fewer than the limit allows.
pub fn add_holder(holders: &mut BlockMap, limit: HolderLimit, split: SplitNo, worker: WorkerNo)
    requires known { split < length holders.old }
    requires new { is_holder holders.old split worker ≡ false }
    requires few { are_full limit (holders_of holders.old split) ≡ false }
    ensures { holders.new ≡ with_holder holders.old split worker }
{
    // (there is room for it, as is required)
    let _added = holders.add(limit, split, worker);
}

/// Takes a holder of a split away.
pub fn drop_holder(holders: &mut BlockMap, split: SplitNo, worker: WorkerNo)
    requires known { split < length holders.old }
    requires holder { is_holder holders.old split worker ≡ true }
    ensures { holders.new ≡ without_holder holders.old split worker }
{
    // (it is there, as is required)
    let _dropped = holders.drop_one(split, worker);
}
