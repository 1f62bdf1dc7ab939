//! Threads of one's own over a shared master.
ghost use Rattle.std.specs.Prelude.{◌≡◌, []};

use crate::jobs::SplitRow;
use crate::shared_masters::{
    AMPLE, Setting, hand_of, list_of_both, master_of, settled, sweep_all, wave_of,
};
use master_core::Master;
use shared_master::{OfJob, SharedMaster};
use std::alloc::Global;
use std::marker::Brand;
use std::process::Abort;
use std::sync::Wait;
use std::sync::ledger::{Blank, Ledger};
use std::thread;
use std::thread::Threads;

// Two splits on the first of two workers.
const ROWS: [SplitRow<'static>; 2] = [(10, &[0], "one two"), (20, &[0], "two")];

// One thread plans a wave while another sweeps. Each event is a call of one of them.
fn start_and_sweep<L: Ledger + OfJob + Send + Sync, R: Threads + Wait + Abort + Sync>(
    rt: &R,
    alloc: Global,
    blank: Blank,
    master: Master,
)
    requires ledger { (blank.name ≡ L.name) × (blank.parts ≡ L.parts) × (blank.parts ≡ 4096) }
    requires job { (master.history ≡ []) × (master.setup ≡ L.setup) }
{
    let shared: SharedMaster<L> = SharedMaster::new(blank, master);
    let on = Setting { rt, alloc, shared };
    let mut one = hand_of(&on);
    let mut two = hand_of(&on);
    thread::join(
        on.rt,
        || wave_of(&on, &mut one),
        || sweep_all(&on, &mut two, 1),
    );
    let hands = list_of_both(on.alloc, one, two).expect(on.rt, "no list");
    let master = settled(on.shared, hands).expect(on.rt, "the hands made every call");
    assert_eq!(on.rt; (master.history().len(), master.sweeps().len()), (2, 1));
}

#[test]
fn two_threads_start_and_sweep(rt: HostRuntime) {
    let master = master_of(&rt, rt.alloc(), (2, 0), &ROWS, AMPLE);
    start_and_sweep::<Brand, _>(&rt, rt.alloc(), Blank::new(4096), master)
}
