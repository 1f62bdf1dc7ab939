//! Lets a master go by threads beside the calling one. A master has as many pieces of memory as its maps have
//! words.
use crate::index_text::STACK_BYTES;
use master_core::{Master, Piles};
use shuffle_reduce::PartResult;
use std::alloc::Global;
use std::mem::drop;
use std::thread;
use std::thread::{JoinHandle, Threads};
use word_map::MapResult;

// The threads that let the two halves of a master go, where one could be started. Where none could, the calling
// thread has let that half go.
#[derive(Drop)]
pub(crate) struct LettingGo {
    first: Option<JoinHandle<()>>,
    second: Option<JoinHandle<()>>,
}

/// Begins to let a master go. Where there is no memory to halve it, it is gone at the return.
pub(crate) fn let_go<R: Threads>(rt: &R, alloc: Global, master: Master) -> LettingGo {
    match Piles::of(alloc, master) {
        Ok(Piles { even, odd, parts }) => LettingGo {
            first: drop_beside(rt, even, Vec::new(alloc)),
            second: drop_beside(rt, odd, parts),
        },
        Err(_) => LettingGo {
            first: None,
            second: None,
        },
    }
}

fn drop_beside<R: Threads>(
    rt: &R,
    maps: Vec<MapResult>,
    parts: Vec<PartResult>,
) -> Option<JoinHandle<()>> {
    thread::Builder::new()
        .stack_size(STACK_BYTES)
        .spawn(rt, move || {
            drop(maps);
            drop(parts);
        })
        .ok()
}

impl LettingGo {
    /// Waits until all is gone.
    pub(crate) fn join<R: Threads>(self, rt: &R) {
        let LettingGo { first, second } = self;
        wait_for(rt, first);
        wait_for(rt, second);
    }
}

fn wait_for<R: Threads>(rt: &R, thread: Option<JoinHandle<()>>) {
    if let Some(thread) = thread {
        thread.join(rt);
    }
}
