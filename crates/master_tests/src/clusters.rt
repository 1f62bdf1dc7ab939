//! How many documents a cluster may have.
ghost use Rattle.std.specs.Prelude.{◌≡◌, IfSome, length, map};
ghost use Rattle.std.specs.List.{range_with_len};
ghost use Rattle.shuffle_reduce.specs.Gather.{values_of};

use crate::jobs::racks_of;
use block_map::HolderLimit;
use master_core::{Cluster, ClusterError};
use node_ids::{DocNo, SplitNo};
use std::alloc::Global;
use std::process::Abort;
use std::sync::Arc;
use wave_problem::SplitLine;
use word_map::{Document, SplitText, Text};

// So many empty documents of the first split.
fn text_of(alloc: Global, count: u32) -> Option<SplitText>
    ensures { IfSome result (λ text. text.split ≡ 0) }
{
    let mut documents = Vec::new(alloc);
    for number in 0..count {
        documents
            .push(Document {
                number: DocNo::new(number),
                text: Text::new(String::new(alloc)),
            })
            .ok()?;
    }
    Some(SplitText::new(SplitNo::new(0), documents))
}

// The splits of a cluster with one split, and their texts, with so many documents.
fn split_of(alloc: Global, count: u32) -> Option<(Vec<SplitLine>, Vec<Arc<SplitText>>)>
    ensures { IfSome result (λ made. map (λ text. text.split) (values_of made.1.items)
        ≡ range_with_len 0 (length made.0.items)) }
{
    let mut lines = Vec::new(alloc);
    let line = SplitLine {
        bytes: 1,
        pending: true,
        holders: Vec::new(alloc),
    };
    lines.push(line).ok()?;
    let mut texts = Vec::new(alloc);
    texts
        .push(Arc::new(alloc, text_of(alloc, count)?).ok()?)
        .ok()?;
    Some((lines, texts))
}

// A cluster of one worker and one split with so many documents.
fn cluster_of(rt: &impl Abort, alloc: Global, count: u32) -> Option<Result<Cluster, ClusterError>> {
    let tree = racks_of(rt, alloc, &[1])?;
    let (lines, texts) = split_of(alloc, count)?;
    assert!(rt; tree.workers() == 1);
    Some(Cluster::new(alloc, tree, &[1], lines, texts, 1, 3, HolderLimit::Eight))
}

#[test]
fn a_cluster_has_no_more_documents_than_it_may_have(rt: HostRuntime) {
    for (count, is_made) in [(1_048_576, true), (1_048_577, false)] {
        let made = cluster_of(&rt, rt.alloc(), count).expect(&rt, "no memory");
        match made {
            Ok(_) => assert!(rt; is_made, "{count}"),
            Err(why) => assert_eq!(rt; (why, is_made), (ClusterError::Limit, false)),
        }
    }
}
