ghost use Rattle.std.specs.Prelude.{◌≡◌, ◌≤◌, All, IfOk, IfSome, MatchOption, None, Some, length, map};
ghost use Rattle.std.specs.Prelude.{option_map, slice_get};
ghost use Rattle.std.specs.Arc.{arc_value};
ghost use Rattle.shuffle_reduce.specs.Gather.{values_of};
ghost use Rattle.wave_problem.specs.declared.TheConstants.{MAX_SLOTS};
ghost use Rattle.job_threads.specs.Steps.{places, queues_of};

use crate::aim::Aim;
use master_core::Cluster;
use node_ids::SplitNo;
use shared_master::OfJob;
use std::alloc::{AllocError, Global};
use std::marker::{Model, PhantomData};
use std::sync::Arc;
use word_map::SplitText;

// What the calling thread knows of its job: the texts of the splits, how many replicas each should have, in
// how many sweeps a worker may be silent, and how many places the workers' queues have, where the job is
// planned ahead.
#[derive(Drop)]
pub(crate) struct Brief<L: OfJob + Aim> {
    texts: Vec<Arc<SplitText>>,
    target: usize,
    silence: u32,
    places: Option<Vec<u64>>,
    of: PhantomData<L>,
}

impl<L: OfJob + Aim> Model for Brief<L> {
    ghost use Rattle.std.specs.Prelude.{◌≡◌, ℕ, option_map};
    ghost use Rattle.shuffle_reduce.specs.Gather.{values_of};
    ghost use Rattle.job_threads.specs.Steps.{queues_of};

    ghost Value = { ℕ };

    ghost view = { λ b. b.silence };

    ghost invariant = { λ b. (values_of b.texts.items ≡ L.setup.cluster.texts) × (b.target ≡ L.target)
        × (b.silence ≡ L.setup.cluster.silence)
        × (option_map (λ places. places.items) b.places ≡ queues_of L.setup L.ahead) };
}

impl<L: OfJob + Aim> Brief<L> {
    // Of the job of this cluster, whose texts are shared and not copied.
    pub(crate) fn of(
        alloc: Global,
        cluster: &Cluster,
        target: usize,
        ahead: Option<u8>,
    ) -> Result<Brief<L>, AllocError>
        requires cluster { cluster.now ≡ L.setup.cluster }
        requires target { target ≡ L.target }
        requires ahead { ahead ≡ L.ahead }
    {
        Ok(Brief {
            texts: copy_texts(alloc, cluster.texts())?,
            target,
            silence: cluster.silence(),
            places: all_places::<L>(alloc, cluster.slots(), ahead)?,
            of: PhantomData,
        })
    }

    // How many texts there are.
    pub(crate) fn splits(&self) -> usize
        ensures { result ≡ length L.setup.cluster.texts }
    {
        self.texts.len()
    }

    // The text of a split.
    pub(crate) fn text(&self, split: SplitNo) -> Option<&Arc<SplitText>>
        ensures { IfSome result
            (λ text. slice_get L.setup.cluster.texts split ≡ Some (arc_value text.now)) }
    {
        self.texts.get(split.index())
    }

    // How many replicas each split should have.
    pub(crate) fn target(&self) -> usize
        ensures { result ≡ L.target }
    {
        self.target
    }

    // In how many sweeps a worker may be silent.
    pub(crate) fn silence(&self) -> u32
        ensures { result ≡ L.setup.cluster.silence }
    {
        self.silence
    }

    // The places of each worker's queue.
    pub(crate) fn places(&self) -> Option<&[u64]>
        ensures value { MatchOption result (queues_of L.setup L.ahead ≡ None)
            (λ places. queues_of L.setup L.ahead ≡ Some places.now) }
        ensures few { MatchOption result (Unit {0}) (λ places. All (λ n. n ≤ MAX_SLOTS) places.now) }
    {
        match &self.places {
            Some(places) => Some(places.as_slice()),
            None => None,
        }
    }
}

fn copy_texts(alloc: Global, texts: &[Arc<SplitText>]) -> Result<Vec<Arc<SplitText>>, AllocError>
    ensures { IfOk result (λ copied. values_of copied.items ≡ values_of texts.now) }
{
    let mut copied = Vec::with_capacity(alloc, texts.len())?;
    for text in texts {
        copied.push(Arc::try_clone(text)?)?;
    }
    Ok(copied)
}

// The places of the job's queues, on workers with these numbers of slots.
fn all_places<L: OfJob + Aim>(
    alloc: Global,
    slots: &[u8],
    ahead: Option<u8>,
) -> Result<Option<Vec<u64>>, AllocError>
    requires slots { slots.now ≡ L.setup.cluster.slots }
    requires ahead { ahead ≡ L.ahead }
    ensures { IfOk result
        (λ made. option_map (λ places. places.items) made ≡ queues_of L.setup L.ahead) }
{
    match ahead {
        Some(waves) => Ok(Some(places(alloc, slots, waves)?)),
        None => Ok(None),
    }
}

// The slots of so many waves on each worker, and 255 at most.
fn places(alloc: Global, slots: &[u8], waves: u8) -> Result<Vec<u64>, AllocError>
    ensures { IfOk result (λ made. made.items ≡ map (places waves) slots.now) }
{
    let mut made = Vec::with_capacity(alloc, slots.len())?;
    for count in slots {
        made.push((u64::from(waves) * u64::from(*count)).min(255))?;
    }
    Ok(made)
}
