ghost use Rattle.std.specs.Prelude.{◌≡◌, map, IfOk};

use crate::cluster::Cluster;
use block_map::BlockMap;
use std::alloc::{AllocError, Global};

/// The first holders of each split.
pub fn first_holders(alloc: Global, cluster: &Cluster) -> Result<BlockMap, AllocError>
    ensures { IfOk result (λ holders. holders ≡ map (λ split. split.holders) cluster.now.splits) }
{
    let mut holders = BlockMap::new(alloc, 0)?;
    for line in cluster.splits() {
        holders.push(&line.holders)?;
    }
    Ok(holders)
}
