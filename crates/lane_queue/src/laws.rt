//! When the passes at hand are all that were made.
ghost use Rattle.std.specs.Prelude.{ℕ, ◌+◌, ◌++◌, List, [], ◌∷◌};
ghost use Rattle.lane_queue.specs.Lanes.{AreWhole};

/// The first pass of a lane is the whole of it.
pub fn the_first_pass_is_whole()
    ensures { AreWhole (0 ∷ []) }
{}

/// Where one of some passes is shared, these with the new pass are as whole as before.
pub fn sharing_keeps_whole()
    ensures { (before after : List ℕ) (depth : ℕ) → AreWhole (before ++ depth ∷ after)
        → AreWhole (before ++ (depth + 1) ∷ (after ++ (depth + 1) ∷ [])) }
{}
