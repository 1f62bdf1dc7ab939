//! What a search found, and the tables that it is made over.
ghost use Rattle.std.specs.Prelude.{◌≡◌, ℕ, ◌+◌, ◌*◌, ◌<◌, ◌≤◌, ◌^◌, length, slice_index, IfOk, IsSome};
ghost use Rattle.std.specs.Prelude.{IfSome, MatchOption, None};
ghost use Rattle.shortest_paths.specs.Finding.{IsTotal, total_of, Finding, IsFinished};
ghost use Rattle.shortest_paths.specs.Lowering.{lowered};
ghost use Rattle.shortest_paths.specs.Search.{MaySearch, tables};
ghost use Rattle.shortest_paths.specs.Searching.{distance_at, IsAtRest, trace_to};
ghost use Rattle.shortest_paths.specs.ToSink.{IsSearched, IsLeastCost, IsTrace};

use crate::search::Search;
use crate::{Potentials, Query};
use flow_network::{ArcNo, Meter};
use node_ids::Layout;
use std::alloc::{AllocError, Global};
use std::marker::Model;

/// The tables of searches, for so many nodes. A search takes them, and what it found gives them back.
#[derive(Drop)]
pub struct Buffers {
    search: Search,
}

impl Model for Buffers {
    ghost Value = { ℕ };

    ghost view = { λ t. length t.search.distances.items };

    ghost invariant = { λ t. IsAtRest (length t.search.distances.items) (tables t.search) };
}

/// The distances of a search, with a path to its sink.
#[derive(Drop)]
pub struct Found {
    total: Option<u64>,
    search: Search,
    sink: usize,
}

impl Model for Found {
    ghost Value = { Finding };

    ghost view = { λ f. record {
      distances = f.search.distances.items;
      total = f.total;
      path = trace_to f.search.arrivals.items f.sink;
    } };

    ghost invariant = { λ f. IsFinished (tables f.search) f.sink f.total };
}

impl Buffers {
    /// Tables for so many nodes.
    pub fn new(alloc: Global, nodes: usize) -> Result<Buffers, AllocError>
        ensures { IfOk result (λ t. t ≡ nodes) }
    {
        let search = Search::new(alloc, nodes)?;
        Ok(Buffers { search })
    }

    /// Searches for a least path from the start to the sink (Dijkstra's search over reduced costs). Arcs of
    /// reduced cost 0 are followed depth first, at once. Each arc is looked at at most once in each
    /// direction. Only memory can fail.
    #[tactic(auto, using(crate::proofs::Finds::finds))]
    pub fn search<L: Layout>(self, meter: &mut Meter<L>, query: &Query) -> Result<Found, AllocError>
        requires may { MaySearch L.node_count meter.old.network query.now }
        requires count { meter.old.count ≡ 0 }
        requires nodes { self ≡ length query.now.potentials.now }
        requires sink { query.now.sink < length query.now.potentials.now }
        ensures size { IfOk result (λ f. length f.distances ≡ length query.now.potentials.now) }
        ensures total { IfOk result (λ f. IsTotal f.total (distance_at f.distances query.now.sink)) }
        ensures searched { IfOk result (λ f. IsSearched meter.old.network.arcs meter.old.network.flows
            (slice_index query.now.potentials.now) query.now.start query.now.sink
            (distance_at f.distances)) }
        ensures least { IfOk result (λ f. IfSome f.total (λ total. IsLeastCost meter.old.network.arcs
            meter.old.network.flows (slice_index query.now.potentials.now) query.now.start query.now.sink
            total)) }
        ensures path { IfOk result (λ f. IsSome f.total
            → IsTrace meter.old.network.arcs meter.old.network.flows
            (slice_index query.now.potentials.now) query.now.start query.now.sink
            (distance_at f.distances) f.path) }
        ensures network { meter.new.network ≡ meter.old.network }
        ensures steps { meter.new.count ≤ 2 * length meter.old.network.arcs }
    {
        let Buffers { mut search } = self;
        let total = search.run(meter, query)?;
        Ok(Found {
            search,
            sink: query.sink,
            total,
        })
    }
}

impl Found {
    /// The distance of the sink, if there is a path to it.
    pub fn total(&self) -> Option<u64>
        ensures { result ≡ self.now.total }
    {
        self.total
    }

    /// The path to the sink, if there is one.
    pub fn path(&self, alloc: Global) -> Result<Option<Vec<ArcNo>>, AllocError>
        ensures { IfOk result (λ p. MatchOption p (self.now.total ≡ None) (λ v. v.items ≡ self.now.path)) }
    {
        if self.total.is_none() {
            return Ok(None);
        }
        let path = self.search.trace(alloc, self.sink)?;
        Ok(Some(path))
    }

    /// Lowers each potential by what the node's distance lacks of the sink's, and gives the tables back.
    pub fn lower(self, potentials: &mut Potentials) -> Buffers
        requires size { length potentials.old ≡ length self.distances }
        requires low { (v : ℕ) → slice_index potentials.old v + total_of self.total ≤ 2 ^ 60 }
        ensures size { length potentials.new ≡ length potentials.old }
        ensures lowered { (v : ℕ) → slice_index potentials.new v
            ≡ lowered (slice_index potentials.old) (distance_at self.distances) (total_of self.total) v }
        ensures nodes { result ≡ length self.distances }
    {
        let Found {
            mut search,
            total,
            ..
        } = self;
        search.forget(potentials, total.unwrap_or(0));
        Buffers { search }
    }
}
