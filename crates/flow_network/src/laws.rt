//! Laws of flows, paths and potentials (Ahuja, Magnanti and Orlin, Network Flows), for the layers above.
ghost use Rattle.flow_network.specs.Laws.{PushKeepsConservation, NoNegativeIsCheapest};
ghost use Rattle.flow_network.specs.Laws.{RoomBelowIsRoomAbove, EnoughWait};
ghost use Rattle.flow_network.specs.Leaving.{ListsHoldEachArc, LooksAreFew};

/// Along a path every node but its ends keeps what it takes in less what it gives out.
pub fn push_keeps_conservation()
    ensures { PushKeepsConservation }
{}

/// A flow under which no residual arc has a negative reduced cost is a cheapest one.
pub fn no_negative_is_cheapest()
    ensures { NoNegativeIsCheapest }
{}

/// Where a node's own arcs have room, the arc that feeds it has room too.
pub fn room_below_is_room_above()
    ensures { RoomBelowIsRoomAbove }
{}

/// Where units are handed on in the order of the arcs, enough of them wait at each arc.
pub fn enough_units_wait()
    ensures { EnoughWait }
{}

/// The list of a node holds the residual arcs that leave it, and no other.
pub fn lists_hold_each_arc()
    ensures { ListsHoldEachArc }
{}

/// The lists of any nodes, each taken once, hold at most two residual arcs for each arc.
pub fn looks_are_few()
    ensures { LooksAreFew }
{}
