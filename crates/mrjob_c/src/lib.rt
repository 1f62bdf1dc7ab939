//! Plans and checks of waves for callers in C, and for those who call as C does: `include/mrjob.h`.
//!
//! Each function is called with arrays of numbers that its caller owns, keeps nothing, and writes nothing
//! where it does not answer OK, or of a check REFUSED. No function asks anything of the numbers. Plans,
//! checks and places of unfit rows have a second function each, for wide waves: those number splits in 32
//! bits. Plans and checks of wide waves have a third one, where places have prices. Stands on `wave_arrays`,
//! `wave_planner` and `certificate_checker`.
#![tactic(auto)]

ghost use Rattle.std.specs.Prelude.{◌≡◌};

mod charges;
mod checks;
mod places;
mod plans;
mod status;

/// The version of the interface: another where a program that was built for this one would go wrong.
#[unsafe(no_mangle)]
pub extern "C" fn mrjob_version() -> u32
    ensures { result ≡ 1 }
{
    1
}
