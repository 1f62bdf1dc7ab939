ghost use Rattle.std.specs.Prelude.{◌≡◌};
ghost use Rattle.shared_master.specs.Held.{IsShownOf};

use crate::of_job::OfJob;
use master_state::Glance;
use std::marker::{Model, PhantomData};

/// What a master of the job showed at a glance. `SharedMaster::glance` alone makes one.
#[derive(Drop)]
pub struct SharedGlance<L: OfJob> {
    glance: Glance,
    of: PhantomData<L>,
}

impl<L: OfJob> Model for SharedGlance<L> {
    ghost use Rattle.master_state.specs.declared.answers.Glance.{Glance};
    ghost use Rattle.shared_master.specs.Held.{IsShownOf};

    ghost Value = { Glance };

    ghost view = { λ g. g.glance };

    ghost invariant = { λ g. IsShownOf L.setup g.glance };
}

impl<L: OfJob> SharedGlance<L> {
    // The glance that was seen under the lock.
    pub(crate) fn of(glance: Glance) -> SharedGlance<L>
        requires { IsShownOf L.setup glance }
        ensures { result ≡ glance }
    {
        SharedGlance {
            glance,
            of: PhantomData,
        }
    }

    /// What the master showed.
    pub fn shown(&self) -> Glance
        ensures value { result ≡ self.now }
        ensures of_job { IsShownOf L.setup self.now }
    {
        self.glance
    }
}
