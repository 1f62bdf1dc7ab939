ghost use Rattle.master_state.specs.States.{Setup};
ghost use Rattle.shared_master.specs.Held.{nothing};

use std::marker::Brand;

/// Of which job a shared master is: what its master was given. Each run picks it.
pub trait OfJob {
    ghost setup: { Setup };
}

impl OfJob for Brand {
    ghost setup = { nothing };
}
