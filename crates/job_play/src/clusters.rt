ghost use Rattle.std.specs.Prelude.{◌≡◌, IfOk};
ghost use Rattle.script_text.specs.Heads.{IsFitHead};
ghost use Rattle.job_play.specs.PlayAnswer.{cluster_in, holder_limit_in};

use block_map::HolderLimit;
use line_rules::Version;
use master_core::{Cluster, ClusterError};
use script_text::Head;
use std::alloc::{AllocError, Global};

/// The cluster that a head makes.
pub fn cluster_of(alloc: Global, head: Head) -> Result<Cluster, AllocError>
    requires { IsFitHead head }
    ensures { IfOk result (λ cluster. cluster ≡ cluster_in head) }
{
    let (tree, splits, texts) = (head.tree, head.splits, head.texts);
    let (slots, parts, silence) = (head.slots, head.parts, head.silence);
    let limit = holder_limit_in(head.version);
    match Cluster::new(
        alloc,
        tree,
        slots.as_slice(),
        splits,
        texts,
        parts,
        silence,
        limit,
    ) {
        Ok(cluster) => Ok(cluster),
        Err(ClusterError::Memory) => Err(AllocError),
        Err(ClusterError::Limit) => unreachable!(),
        Err(ClusterError::Holder) => unreachable!(),
    }
}

// To how many holders a split may grow in a script or a job of the version.
fn holder_limit_in(version: Version) -> HolderLimit
    ensures { result ≡ holder_limit_in version }
{
    match version {
        Version::One | Version::Two => HolderLimit::Eight,
        Version::Three => HolderLimit::Sixteen,
    }
}
