ghost use Rattle.std.specs.Prelude.{◌≡◌, ◌<◌, length};
ghost use Rattle.shuffle_reduce.specs.Merged.{IsPartOf};
ghost use Rattle.master_state.specs.States.{Setup};
ghost use Rattle.master_state.specs.Refusals.{is_wrong_map, is_wrong_part};

use crate::cluster::Cluster;
use node_ids::{PartNo, SplitNo};
use shuffle_reduce::PartResult;
use word_map::MapResult;

/// Whether what was made is not of the split's text and the cluster's number of parts.
pub fn is_wrong_map(cluster: &Cluster, split: SplitNo, made: &MapResult) -> bool
    requires { split < length cluster.now.texts }
    ensures { (setup : Setup) → setup.cluster ≡ cluster.now → result ≡ is_wrong_map setup split made.now }
{
    let text = &cluster.texts()[split.index()];
    !made.text().is_same(text) || made.parts() != cluster.parts()
}

/// Whether what was made is not of the part, the cluster's number of parts and its texts.
pub fn is_wrong_part(cluster: &Cluster, part: PartNo, made: &PartResult) -> bool
    ensures merged { IsPartOf made.now.texts made.now.part made.now.parts made.now.pairs }
    ensures wrong { (setup : Setup) → setup.cluster ≡ cluster.now → result ≡ is_wrong_part setup part made.now }
{
    made.part() != part || made.parts() != cluster.parts() || !made.covers(cluster.texts())
}
