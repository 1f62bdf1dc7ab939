//! The laws of the engine.
ghost use Rattle.tree_flow.specs.Moves.{Caps, HandsOver, LetsWait, Lowers, PushesDown, PushesUp, Raises};
ghost use Rattle.tree_flow.specs.Moves.{SearchBackEnds, SearchEnds, SendsOff, Ships, TakesSlot};
ghost use Rattle.tree_flow.specs.Slots.{AddsSlot, Begins, Changes, Deepens, GivesSlot, Joins};
ghost use Rattle.tree_flow.specs.Slots.{RemovesSlot, TakesOff};
ghost use Rattle.tree_flow.specs.Settled.{EngineCertifies, EngineIsBest};
ghost use Rattle.tree_flow.specs.Units.{FollowedDown, UnitGoesOn};

/// The prices read off a state in which all is settled certify the plan that is handed down from it.
pub fn engine_certifies()
    ensures certifies { EngineCertifies }
    ensures best { EngineIsBest }
{}

/// Depths that rise by what is left of a bound keep the state.
pub fn raises()
    ensures rises { Raises }
    ensures ends { SearchEnds }
    ensures capped { Caps }
{}

/// Depths that fall by what is left of a bound keep the state.
pub fn lowers()
    ensures falls { Lowers }
    ensures ends { SearchBackEnds }
{}

/// A hole goes from its end back to its start, and each step that costs nothing keeps the state.
pub fn moves()
    ensures down { PushesDown }
    ensures up { PushesUp }
    ensures over { HandsOver }
    ensures off { SendsOff }
    ensures slot { TakesSlot }
    ensures ships { Ships }
    ensures waits { LetsWait }
{}

/// A slot comes back by a hole that goes to where it is best.
pub fn slots()
    ensures gives { GivesSlot }
    ensures joins { Joins }
    ensures deepens { Deepens }
    ensures adds { AddsSlot }
    ensures off { TakesOff }
    ensures removes { RemovesSlot }
    ensures changes { Changes }
    ensures begins { Begins }
{}

/// A unit at a node above the workers goes on to a node that hangs from it.
pub fn unit_goes_on()
    ensures goes_on { UnitGoesOn }
    ensures down { FollowedDown }
{}
