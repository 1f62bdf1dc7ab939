//! The law that ties a flow over the tree to the network with racks.
ghost use Rattle.wave_planner.specs.Engine.{EngineIsAFlow};

/// What is read off a flow over the tree is read off a least-cost flow of the network with racks.
pub fn engine_is_a_flow()
    ensures { EngineIsAFlow }
{}
