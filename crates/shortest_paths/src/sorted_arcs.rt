//! The residual arcs that leave the nodes that are no sources, but for those back to sources.
ghost use Rattle.std.specs.Prelude.{◌≡◌, ℕ, ◌<◌, List, [], ◌∷◌, ◌++◌, length, slice_index_or, false, None};
ghost use Rattle.std.specs.Prelude.{Some, replicate, slice_set, IfOk, OnOk};
ghost use Rattle.flow_network.specs.declared.arcs.FlowArc.{FlowArc};
ghost use Rattle.flow_network.specs.declared.arcs.ArcNo.{ArcNo};
ghost use Rattle.flow_network.specs.Flows.{arc_at};
ghost use Rattle.shortest_paths.specs.Sorted.{AreListed, IsListed};

use flow_network::{ArcNo, FlowArc, Leaving, Network, none_leaving};
use node_ids::Layout;
use std::alloc::{AllocError, Global};

/// For each node that is no source: an arc to the sink, and the other residual arcs that leave it, except
/// those back to sources. For a source: nothing.
#[derive(Drop)]
pub struct SortedArcs {
    pub sink_arcs: Vec<Option<u32>>,
    pub inner: Vec<Leaving>,
}

impl SortedArcs {
    // No arc at so many nodes.
    fn none(alloc: Global, nodes: usize) -> Result<SortedArcs, AllocError>
        ensures sink_arcs { IfOk result (λ w. w.sink_arcs.items ≡ replicate nodes None) }
        ensures inner { IfOk result (λ w. w.inner.items ≡ replicate nodes []) }
    {
        Ok(SortedArcs {
            sink_arcs: no_sink_arcs(alloc, nodes)?,
            inner: none_leaving(alloc, nodes)?,
        })
    }

    // An arc of this number becomes the arc to the sink of a node.
    fn set_sink_arc(&mut self, node: usize, number: u32)
        requires { node < length self.old.sink_arcs.items }
        ensures sink_arcs { self.new.sink_arcs.items ≡ slice_set self.old.sink_arcs.items node (Some number) }
        ensures inner { self.new.inner.items ≡ self.old.inner.items }
    {
        self.sink_arcs[node] = Some(number);
    }

    // One arc more among the others of a node.
    fn put(&mut self, node: usize, arc: ArcNo) -> Result<(), AllocError>
        requires { node < length self.old.inner.items }
        ensures sink_arcs { self.new.sink_arcs.items ≡ self.old.sink_arcs.items }
        ensures inner { OnOk result (self.new.inner.items
            ≡ slice_set self.old.inner.items node (slice_index_or self.old.inner.items node [] ++ arc ∷ [])) }
    {
        self.inner[node].put(arc)?;
        Ok(())
    }

    // Lists an arc of this number at its start: it stands apart where it is the first to the sink.
    fn list_own(&mut self, number: u32, arc: FlowArc, sink: usize) -> Result<(), AllocError>
        requires sink_arcs { arc.from < length self.old.sink_arcs.items }
        requires inner { arc.from < length self.old.inner.items }
        ensures sink_arcs { length self.new.sink_arcs.items ≡ length self.old.sink_arcs.items }
        ensures inner { OnOk result (length self.new.inner.items ≡ length self.old.inner.items) }
        ensures listed { OnOk result ((arcs : List FlowArc) → arc ≡ arc_at arcs number
            → IsListed arcs sink arc.from (ArcNo.Forward number) self.old.sink_arcs.items self.old.inner.items
            self.new.sink_arcs.items self.new.inner.items) }
    {
        let from = arc.from as usize;
        if arc.to as usize == sink && self.sink_arcs[from].is_none() {
            self.set_sink_arc(from, number);
            return Ok(());
        }
        self.put(from, ArcNo::Forward(number))?;
        Ok(())
    }

    // Lists the next arc, of this number, at its start, and its reverse at its end, where no source has it.
    #[inline(always)]
    fn list(
        &mut self,
        is_source: &[bool],
        number: u32,
        arc: FlowArc,
        sink: usize,
    ) -> Result<(), AllocError>
        requires from { arc.from < length is_source.now }
        requires sink_arcs { length self.old.sink_arcs.items ≡ length is_source.now }
        requires inner { length self.old.inner.items ≡ length is_source.now }
        requires to { arc.to < length is_source.now }
        requires no_entry { slice_index_or is_source.now arc.to false ≡ false }
        ensures sink_arcs { length self.new.sink_arcs.items ≡ length self.old.sink_arcs.items }
        ensures inner { OnOk result (length self.new.inner.items ≡ length self.old.inner.items) }
        ensures listed { OnOk result ((arcs some : List FlowArc) → arc ≡ arc_at arcs number
            → length some ≡ number
            → AreListed arcs is_source.now sink some self.old.sink_arcs.items self.old.inner.items
            → AreListed arcs is_source.now sink (some ++ arc ∷ []) self.new.sink_arcs.items
            self.new.inner.items) }
    {
        if is_source[arc.from as usize] {
            return Ok(());
        }
        self.list_own(number, arc, sink)?;
        self.put(arc.to as usize, ArcNo::Reverse(number))?;
        Ok(())
    }
}

/// The residual arcs of a network's nodes, of which these are sources, to which no arc leads.
pub fn sort_arcs<L: Layout>(
    alloc: Global,
    network: &Network<L>,
    is_source: &[bool],
    sink: usize,
) -> Result<SortedArcs, AllocError>
    requires size { length is_source.now ≡ L.node_count network.now.layout }
    requires no_entry { (k : ℕ) → k < length network.now.arcs
        → slice_index_or is_source.now (arc_at network.now.arcs k).to false ≡ false }
    ensures sink_arcs { IfOk result (λ w. length w.sink_arcs.items ≡ L.node_count network.now.layout) }
    ensures inner { IfOk result (λ w. length w.inner.items ≡ L.node_count network.now.layout) }
    ensures listed { IfOk result (λ w.
        AreListed network.now.arcs is_source.now sink network.now.arcs w.sink_arcs.items w.inner.items) }
{
    let arcs = network.all_arcs();
    let mut sorted = SortedArcs::none(alloc, is_source.len())?;
    for k in 0..arcs.len() {
        sorted.list(is_source, k as u32, arcs[k], sink)?;
    }
    Ok(sorted)
}

/// No arc to the sink at any of so many nodes.
pub fn no_sink_arcs(alloc: Global, nodes: usize) -> Result<Vec<Option<u32>>, AllocError>
    ensures { IfOk result (λ s. s.items ≡ replicate nodes None) }
{
    let arcs = vec![in alloc; None; nodes]?;
    Ok(arcs)
}
