//! What is read of a master all of whose parts are done.
ghost use Rattle.std.specs.Prelude.{◌≡◌, IfOk, IsErr, true};
ghost use Rattle.shuffle_reduce.specs.Merged.{HaveWord};
ghost use Rattle.shuffle_reduce.specs.Indexed.{IsIndexOf};
ghost use Rattle.master_state.specs.Tests.{all_parts_done};

use crate::master::Master;
use shuffle_reduce::{FinishError, Index, finish};
use std::alloc::{AllocError, Global};

/// Whether every part is done.
pub fn are_parts_done(master: &Master) -> bool
    ensures { result ≡ all_parts_done master.now.state }
{
    master.glance().open_parts == 0
}

/// The index of the documents of a master all of whose parts are done, so that each has one result. Where no
/// text has a word it never wants memory.
pub fn index_of(alloc: Global, master: &Master) -> Result<Index, AllocError>
    requires { all_parts_done master.now.state ≡ true }
    ensures index { IfOk result (IsIndexOf master.now.setup.cluster.texts) }
    ensures memory { IsErr result → HaveWord master.now.setup.cluster.texts }
{
    master.is_kept();
    let parts = master.cluster().parts();
    match finish(alloc, parts, master.texts(), master.results()) {
        Ok(index) => Ok(index),
        Err(FinishError::Memory) => Err(AllocError),
        Err(FinishError::DoublePart) => unreachable!(),
        Err(FinishError::MissingPart) => unreachable!(),
    }
}
