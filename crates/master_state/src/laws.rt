//! Laws of the machine, each proved once, of its definitions alone.
ghost use Rattle.master_state.specs.Laws.{AheadOntoFreeSlotsIsAWave, AheadsKeep, CallsKeep};
ghost use Rattle.master_state.specs.Laws.{EveryAheadIsOfABestPlan, EveryWaveIsBest, LegalStatesAreTidy, OpeningIsKept};
ghost use Rattle.master_state.specs.Laws.{PartsAsToldAreRight, ResultsAsToldAreRight, SecondResultsAreOld};
ghost use Rattle.master_state.specs.Laws.{TheOtherGoesOn, WavesKeep};
ghost use Rattle.master_state.specs.Headline.{Headline};

/// A state that a legal history leads to keeps its tables in agreement.
pub fn legal_states_are_tidy()
    ensures { LegalStatesAreTidy }
{}

/// What a master keeps holds from its opening on: every change that it accepts preserves it.
pub fn masters_keep()
    ensures opening { OpeningIsKept }
    ensures calls { CallsKeep }
    ensures waves { WavesKeep }
    ensures aheads { AheadsKeep }
{}

/// Each wave of a legal history is best in the state that it changed.
pub fn every_wave_is_best()
    ensures { EveryWaveIsBest }
{}

/// What starts of a plan ahead is of a best plan onto its places, and is a wave where these are the free slots.
pub fn every_ahead_is_of_a_best_plan()
    ensures every { EveryAheadIsOfABestPlan }
    ensures wave { AheadOntoFreeSlotsIsAWave }
{}

/// What is made as the start of its attempt told is never refused for a wrong input.
pub fn results_as_told_are_right()
    ensures splits { ResultsAsToldAreRight }
    ensures parts { PartsAsToldAreRight }
{}

/// Of two attempts of a split the second that is done is an old one.
pub fn second_results_are_old()
    ensures { SecondResultsAreOld }
{}

/// The loss of one of two attempts leaves the other.
pub fn the_other_goes_on()
    ensures { TheOtherGoesOn }
{}

/// The headline. After any list of sweeps, deaths, joins, completions, failures and replica changes, each
/// committed wave starts as many pending splits as any admissible assignment of the state that it changes, at
/// the least byte-distance among those that start as many, which its prices certify; and where the job is
/// done, its index is that of one sequential execution.
pub fn headline()
    ensures { Headline }
{}
