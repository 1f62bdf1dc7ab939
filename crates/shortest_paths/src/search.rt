//! The search for a least path to one sink.
ghost use Rattle.std.specs.Prelude.{◌≡◌, ℕ, ◌+◌, ◌*◌, ◌<◌, ◌≤◌, ◌^◌, List, [], ◌∷◌, ◌++◌, true, false};
ghost use Rattle.std.specs.Prelude.{length, slice_index, slice_index_or, slice_set, Option, OnOk, IfOk, IfSome};
ghost use Rattle.flow_network.specs.declared.arcs.ArcNo.{ArcNo};
ghost use Rattle.flow_network.specs.Flows.{tail_of, head_of};
ghost use Rattle.shortest_paths.specs.Lists.{AreSized, source_at, inner_at, matched_at, stack_arcs};
ghost use Rattle.shortest_paths.specs.Finding.{reached_at};
ghost use Rattle.shortest_paths.specs.Lowering.{lowered};
ghost use Rattle.shortest_paths.specs.ToSink.{far};
ghost use Rattle.shortest_paths.specs.Searching.{ListsReached, IsAtRest, IsLeft, LeadsBack, distance_at};
ghost use Rattle.shortest_paths.specs.Searching.{arrival_at, trace_to};
ghost use Rattle.shortest_paths.specs.Search.{tables, problem, option_list, MaySearch, Searches, ComesTo};
ghost use Rattle.shortest_paths.specs.Search.{EndsSearch, IsCursor, IsNextArc, Spends, Falls};

use crate::arrival::Arrival;
use crate::queue::Queue;
use crate::reduced_costs::{leaving, reduced};
use crate::{Potentials, Query, ResidualArcs};
use flow_network::{ArcNo, Meter};
use node_ids::Layout;
use std::alloc::{AllocError, Global};

/// The tables of the searches. Between two searches no node is reached.
pub struct Search {
    distances: Vec<u64>,
    arrivals: Vec<Arrival>,
    reached: Vec<usize>,
    settled: Vec<bool>,
    left: Vec<usize>,
    stack: Vec<usize>,
    queue: Queue,
}

// (one call wherever it is dropped)
impl Drop for Search {
    fn drop(self) {
        let Search {
            distances: _,
            arrivals: _,
            reached: _,
            settled: _,
            left: _,
            stack: _,
            queue: _,
        } = self;
    }
}

impl Search {
    /// Tables for so many nodes.
    pub fn new(alloc: Global, nodes: usize) -> Result<Search, AllocError>
        ensures { IfOk result (λ s. IsAtRest nodes (tables s)) }
    {
        let arrival = Arrival {
            arc: ArcNo::Forward(0),
            before: 0,
            arcs: 0,
        };
        Ok(Search {
            distances: vec![in alloc; u64::MAX; nodes]?,
            arrivals: vec![in alloc; arrival; nodes]?,
            settled: vec![in alloc; false; nodes]?,
            left: vec![in alloc; 0; nodes]?,
            reached: Vec::new(alloc),
            stack: Vec::new(alloc),
            queue: Queue::new(alloc),
        })
    }

    // Takes a path to a node that is shorter than what is known.
    fn reach(&mut self, node: usize, distance: u64, arrival: Arrival) -> Result<(), AllocError>
        requires distances { node < length self.old.distances.items }
        requires arrivals { node < length self.old.arrivals.items }
        ensures tables { OnOk result (tables self.new ≡ record (tables self.old) {
          distances = slice_set self.old.distances.items node distance;
          arrivals = slice_set self.old.arrivals.items node arrival;
          reached = self.new.reached.items;
        }) }
        ensures listed { OnOk result (ListsReached self.old.distances.items self.old.reached.items
            → ListsReached (slice_set self.old.distances.items node distance) self.new.reached.items) }
    {
        if self.distances[node] == u64::MAX {
            self.reached.push(node)?;
        }
        self.distances[node] = distance;
        self.arrivals[node] = arrival;
        Ok(())
    }

    // Looks at a residual arc that leaves a settled node of the level; which node is to be entered next.
    #[inline(always)]
    fn look<L: Layout>(
        &mut self,
        meter: &mut Meter<L>,
        query: &Query,
        node: usize,
        level: u64,
        arc: ArcNo,
    ) -> Result<Option<usize>, AllocError>
        requires leaves { tail_of meter.old.network.arcs arc ≡ node }
        requires state { (rest : List ArcNo)
            × Searches L.node_count meter.old query.now level [] (arc ∷ rest) self.old }
        ensures goes { IfOk result (λ found. (rest : List ArcNo)
            → Searches L.node_count meter.old query.now level [] (arc ∷ rest) self.old
            → Searches L.node_count meter.new query.now level (option_list found) rest self.new) }
        ensures head { IfOk result (λ found. IfSome found (λ v. v ≡ head_of meter.old.network.arcs arc)) }
        ensures counted { meter.new ≡ record meter.old { count = meter.old.count + 1 } }
        ensures steps { meter.new.count ≤ 2 * length meter.old.network.arcs }
        ensures stack { OnOk result (self.new.stack.items ≡ self.old.stack.items) }
        ensures queue { OnOk result (length self.new.queue ≤ length self.old.queue + 1) }
    {
        let look = meter.look(arc);
        if look.residual == 0 {
            return Ok(None);
        }
        let cost = reduced(query.potentials, node, look);
        let distance = level + cost;
        if distance >= self.distances[look.to] {
            return Ok(None);
        }
        let arcs = self.arrivals[node].arcs + 1;
        self.reach(
            look.to,
            distance,
            Arrival {
                arc,
                before: node,
                arcs,
            },
        )?;
        if cost == 0 {
            return Ok(Some(look.to));
        }
        self.queue.put(distance, look.to)?;
        Ok(None)
    }

    // Settles a node that is no source: it goes on the stack, with all its arcs still to be looked at.
    fn open(&mut self, lists: &ResidualArcs, node: usize) -> Result<(), AllocError>
        requires sized { AreSized (length self.old.settled.items) lists.now }
        requires node { node < length self.old.settled.items }
        requires left { length self.old.left.items ≡ length self.old.settled.items }
        ensures { OnOk result (tables self.new ≡ record (tables self.old) {
          settled = slice_set self.old.settled.items node true;
          left = slice_set self.old.left.items node
              (length (matched_at lists.now node) + length (inner_at lists.now node));
          stack = self.old.stack.items ++ node ∷ [];
        }) }
    {
        self.stack.push(node)?;
        self.settled[node] = true;
        self.left[node] = lists.matched(node).len() + lists.inner(node).len();
        Ok(())
    }

    // Settles a node that is no source, and looks at its arc to the sink; whether that is entered next.
    fn visit<L: Layout>(
        &mut self,
        meter: &mut Meter<L>,
        query: &Query,
        node: usize,
        level: u64,
    ) -> Result<bool, AllocError>
        requires no_source { source_at query.now.lists.now node ≡ false }
        requires state { (rest : List ArcNo)
            × Searches L.node_count meter.old query.now level (node ∷ []) rest self.old }
        ensures goes { IfOk result (λ found. (rest : List ArcNo)
            → Searches L.node_count meter.old query.now level (node ∷ []) rest self.old
            → ComesTo found L.node_count meter.new query.now level rest self.new) }
        ensures network { meter.new.network ≡ meter.old.network }
        ensures steps { meter.new.count ≤ 2 * length meter.old.network.arcs }
        ensures spends { OnOk result (Spends 1 meter.old self.old meter.new self.new) }
        ensures counted { meter.old.count ≤ meter.new.count }
    {
        if node == query.sink {
            return Ok(true);
        }
        self.open(query.lists, node)?;
        match query.lists.sink_arc(node) {
            Some(k) => {
                let found = self.look(meter, query, node, level, ArcNo::Forward(k))?;
                Ok(found.is_some())
            }
            None => Ok(false),
        }
    }

    // Looks at an arc that leads to no source, and settles its end where that costs nothing; whether the
    // sink is entered next.
    fn pass<L: Layout>(
        &mut self,
        meter: &mut Meter<L>,
        query: &Query,
        node: usize,
        level: u64,
        arc: ArcNo,
    ) -> Result<bool, AllocError>
        requires leaves { tail_of meter.old.network.arcs arc ≡ node }
        requires no_source { source_at query.now.lists.now (head_of meter.old.network.arcs arc) ≡ false }
        requires state { (rest : List ArcNo)
            × Searches L.node_count meter.old query.now level [] (arc ∷ rest) self.old }
        ensures goes { IfOk result (λ found. (rest : List ArcNo)
            → Searches L.node_count meter.old query.now level [] (arc ∷ rest) self.old
            → ComesTo found L.node_count meter.new query.now level rest self.new) }
        ensures network { meter.new.network ≡ meter.old.network }
        ensures steps { meter.new.count ≤ 2 * length meter.old.network.arcs }
        ensures spends { OnOk result (Spends 0 meter.old self.old meter.new self.new) }
        ensures counted { meter.old.count ≤ meter.new.count }
        ensures looked { OnOk result (meter.old.count < meter.new.count) }
    {
        match self.look(meter, query, node, level, arc)? {
            Some(to) => {
                let found = self.visit(meter, query, to, level)?;
                Ok(found)
            }
            None => Ok(false),
        }
    }

    // Settles a source, and looks over its arcs from the last on, so that what is added first, the highest
    // node, is gone on from first; whether the sink is entered next.
    #[tactic(auto, using(crate::proofs::Searching::entered_inside))]
    fn scan<L: Layout>(
        &mut self,
        meter: &mut Meter<L>,
        query: &Query,
        node: usize,
        level: u64,
    ) -> Result<bool, AllocError>
        requires source { source_at query.now.lists.now node ≡ true }
        requires state { Searches L.node_count meter.old query.now level (node ∷ []) [] self.old }
        ensures goes { IfOk result (λ found.
            ComesTo found L.node_count meter.new query.now level [] self.new) }
        ensures network { meter.new.network ≡ meter.old.network }
        ensures steps { meter.new.count ≤ 2 * length meter.old.network.arcs }
        ensures counted { meter.old.count ≤ meter.new.count }
        ensures spends { OnOk result (Spends 0 meter.old self.old meter.new self.new) }
    {
        self.settled[node] = true;
        self.left[node] = 0;
        let arcs = leaving(meter, node);
        for i in 0..arcs.len() {
            let arc = arcs[arcs.len() - 1 - i];
            if self.pass(meter, query, node, level, arc)? {
                return Ok(true);
            }
        }
        Ok(false)
    }

    // Settles the node that is entered: a source looks over its arcs, another stands on the stack; whether
    // the sink is entered next.
    fn enter<L: Layout>(
        &mut self,
        meter: &mut Meter<L>,
        query: &Query,
        node: usize,
        level: u64,
    ) -> Result<bool, AllocError>
        requires state { Searches L.node_count meter.old query.now level (node ∷ []) [] self.old }
        ensures goes { IfOk result (λ found.
            ComesTo found L.node_count meter.new query.now level [] self.new) }
        ensures network { meter.new.network ≡ meter.old.network }
        ensures steps { meter.new.count ≤ 2 * length meter.old.network.arcs }
        ensures spends { OnOk result (Spends 1 meter.old self.old meter.new self.new) }
    {
        if query.lists.is_source(node) {
            return self.scan(meter, query, node, level);
        }
        let found = self.visit(meter, query, node, level)?;
        Ok(found)
    }

    // Looks at an arc that leaves a node on the stack, and settles its end where that costs nothing;
    // whether the sink is entered next.
    fn step<L: Layout>(
        &mut self,
        meter: &mut Meter<L>,
        query: &Query,
        node: usize,
        level: u64,
        arc: ArcNo,
    ) -> Result<bool, AllocError>
        requires leaves { tail_of meter.old.network.arcs arc ≡ node }
        requires state { Searches L.node_count meter.old query.now level [] (arc ∷ []) self.old }
        ensures goes { IfOk result (λ found.
            ComesTo found L.node_count meter.new query.now level [] self.new) }
        ensures network { meter.new.network ≡ meter.old.network }
        ensures steps { meter.new.count ≤ 2 * length meter.old.network.arcs }
        ensures falls { OnOk result (Falls meter.old self.old meter.new self.new) }
    {
        match self.look(meter, query, node, level, arc)? {
            Some(to) => self.enter(meter, query, to, level),
            None => Ok(false),
        }
    }

    // The next arc of a node on the stack that was not looked at, of which its cursor is set past.
    fn next_arc(&mut self, lists: &ResidualArcs, node: usize) -> Option<ArcNo>
        requires sized { AreSized (length self.old.left.items) lists.now }
        requires node { node < length self.old.left.items }
        requires cursor { IsCursor lists.now (tables self.old) node }
        ensures { IsNextArc lists.now node (tables self.old) result (tables self.new) }
    {
        let left = self.left[node];
        if left == 0 {
            return None;
        }
        self.left[node] = left - 1;
        Some(stack_arc(lists, node, left - 1))
    }

    // One turn of the node on top of the stack: its next arc is looked at, or it leaves the stack; whether
    // the sink is entered next.
    fn turn<L: Layout>(
        &mut self,
        meter: &mut Meter<L>,
        query: &Query,
        node: usize,
        level: u64,
    ) -> Result<bool, AllocError>
        requires top { (stack : List ℕ) × (self.old.stack.items ≡ stack ++ node ∷ []) }
        requires state { Searches L.node_count meter.old query.now level [] [] self.old }
        ensures goes { IfOk result (λ found.
            ComesTo found L.node_count meter.new query.now level [] self.new) }
        ensures network { meter.new.network ≡ meter.old.network }
        ensures steps { meter.new.count ≤ 2 * length meter.old.network.arcs }
        ensures falls { OnOk result (Falls meter.old self.old meter.new self.new) }
    {
        if let Some(arc) = self.next_arc(query.lists, node) {
            return self.step(meter, query, node, level, arc);
        }
        self.stack.pop();
        Ok(false)
    }

    // Goes on along arcs of reduced cost 0 from the nodes on the stack, depth first; whether the sink is
    // entered next.
    fn follow<L: Layout>(
        &mut self,
        meter: &mut Meter<L>,
        query: &Query,
        level: u64,
    ) -> Result<bool, AllocError>
        requires state { Searches L.node_count meter.old query.now level [] [] self.old }
        ensures goes { IfOk result (λ found.
            ComesTo found L.node_count meter.new query.now level [] self.new) }
        ensures network { meter.new.network ≡ meter.old.network }
        ensures steps { meter.new.count ≤ 2 * length meter.old.network.arcs }
        ensures spends { OnOk result (Spends 0 meter.old self.old meter.new self.new) }
        ensures empty { IfOk result (λ found. found ≡ false → self.new.stack.items ≡ []) }
    {
        'turns: while let Some(top) = self.stack.last() {
            let node = *top;
            if self.turn(meter, query, node, level)? {
                return Ok(true);
            }
        }
        Ok(false)
    }

    // Settles a node, and those to which arcs of reduced cost 0 lead from it; whether the sink is entered
    // next.
    fn settle<L: Layout>(
        &mut self,
        meter: &mut Meter<L>,
        query: &Query,
        node: usize,
        level: u64,
    ) -> Result<bool, AllocError>
        requires state { Searches L.node_count meter.old query.now level (node ∷ []) [] self.old }
        ensures goes { IfOk result (λ found.
            ComesTo found L.node_count meter.new query.now level [] self.new) }
        ensures network { meter.new.network ≡ meter.old.network }
        ensures steps { meter.new.count ≤ 2 * length meter.old.network.arcs }
        ensures spends { OnOk result (Spends 1 meter.old self.old meter.new self.new) }
        ensures empty { IfOk result (λ found. found ≡ false → self.new.stack.items ≡ []) }
    {
        if self.enter(meter, query, node, level)? {
            return Ok(true);
        }
        self.follow(meter, query, level)
    }

    // Settles the nodes that wait in the queue, nearest first; the sink's distance, if it is entered next.
    fn empty_queue<L: Layout>(
        &mut self,
        meter: &mut Meter<L>,
        query: &Query,
    ) -> Result<Option<u64>, AllocError>
        requires empty { self.old.stack.items ≡ [] }
        requires state { (level : ℕ) × Searches L.node_count meter.old query.now level [] [] self.old }
        ensures ends { IfOk result (λ found.
            EndsSearch found (problem meter.new.network query.now) meter.new.count (tables self.new)) }
        ensures network { meter.new.network ≡ meter.old.network }
        ensures steps { meter.new.count ≤ 2 * length meter.old.network.arcs }
    {
        'nodes: while let Some((level, node)) = self.queue.take() {
            if self.settled[node] {
                continue;
            }
            if self.settle(meter, query, node, level)? {
                return Ok(Some(level));
            }
        }
        Ok(None)
    }

    /// Searches from the start, over tables at rest; the sink's distance, if a path leads to it.
    pub fn run<L: Layout>(
        &mut self,
        meter: &mut Meter<L>,
        query: &Query,
    ) -> Result<Option<u64>, AllocError>
        requires may { MaySearch L.node_count meter.old.network query.now }
        requires count { meter.old.count ≡ 0 }
        requires rest { IsAtRest (length query.now.potentials.now) (tables self.old) }
        ensures ends { IfOk result (λ found.
            EndsSearch found (problem meter.old.network query.now) meter.new.count (tables self.new)) }
        ensures network { meter.new.network ≡ meter.old.network }
        ensures steps { meter.new.count ≤ 2 * length meter.old.network.arcs }
    {
        let arrival = Arrival {
            arc: ArcNo::Forward(0),
            before: query.start,
            arcs: 0,
        };
        self.reach(query.start, 0, arrival)?;
        if self.settle(meter, query, query.start, 0)? {
            return Ok(Some(0));
        }
        self.empty_queue(meter, query)
    }

    /// Lowers each potential by what the node's distance lacks of the total, and forgets the distances.
    pub fn forget(&mut self, potentials: &mut Potentials, total: u64)
        requires left { IsLeft (length potentials.old) (tables self.old) }
        requires low { (v : ℕ) → slice_index potentials.old v + total ≤ 2 ^ 60 }
        ensures rest { IsAtRest (length potentials.old) (tables self.new) }
        ensures lowered { (v : ℕ) → slice_index potentials.new v
            ≡ lowered (slice_index potentials.old) (distance_at self.old.distances.items) total v }
        ensures size { length potentials.new ≡ length potentials.old }
    {
        self.stack.clear();
        self.queue.clear();
        'nodes: while let Some(node) = self.reached.pop() {
            potentials.lower(node, total.saturating_sub(self.distances[node]));
            self.clear(node);
        }
    }

    // Forgets the distance of a node.
    fn clear(&mut self, node: usize)
        requires node { node < length self.old.distances.items }
        requires settled { node < length self.old.settled.items }
        ensures { tables self.new ≡ record (tables self.old) {
          distances = slice_set self.old.distances.items node far;
          settled = slice_set self.old.settled.items node false;
        } }
    {
        self.distances[node] = u64::MAX;
        self.settled[node] = false;
    }

    /// The distance of a node, or none where it was not reached.
    pub fn distance(&self, node: usize) -> Option<u64>
        requires { node < length self.now.distances.items }
        ensures { result ≡ reached_at (distance_at self.now.distances.items node) }
    {
        let distance = self.distances[node];
        if distance == u64::MAX {
            return None;
        }
        Some(distance)
    }

    /// The path that the arrivals lead back over from a node.
    pub fn trace(&self, alloc: Global, node: usize) -> Result<Vec<ArcNo>, AllocError>
        requires inside { node < length self.now.arrivals.items }
        requires back { LeadsBack self.now.arrivals.items node
            (arrival_at self.now.arrivals.items node).arcs }
        ensures { IfOk result (λ p. p.items ≡ trace_to self.now.arrivals.items node) }
    {
        let mut path = Vec::new(alloc);
        let mut here = node;
        let mut left = self.arrivals[node].arcs;
        'back: while left > 0 {
            let last = self.arrivals[here];
            path.push(last.arc)?;
            here = last.before;
            left -= 1;
        }
        path.reverse();
        Ok(path)
    }
}

// The arc at a place in the list of a node that is no source: first the arcs back to its matched sources, then
// its inner arcs.
#[inline(always)]
#[tactic(auto, using(crate::proofs::Cursors::arc_back, crate::proofs::Cursors::arc_inner))]
fn stack_arc(lists: &ResidualArcs, node: usize, place: usize) -> ArcNo
    requires inner { node < length lists.now.inner }
    requires matched { node < length lists.now.matched }
    requires place { place < length (stack_arcs lists.now node) }
    ensures { result ≡ slice_index_or (stack_arcs lists.now node) place (ArcNo.Forward 0) }
{
    let matched = lists.matched(node);
    if place < matched.len() {
        ArcNo::Reverse(matched[place])
    } else {
        lists.inner(node)[place - matched.len()]
    }
}
