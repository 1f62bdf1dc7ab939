ghost use Rattle.std.specs.Prelude.{◌≡◌, ◌≤◌, count_by, length};
ghost use Rattle.wave_problem.specs.declared.TheConstants.{MAX_SPLITS};
ghost use Rattle.master_state.specs.States.{AreAllowed};
ghost use Rattle.job_play.specs.Rooms.{is_sweep, limits_for, starts_many, starts_one};

use master_state::Limits;
use script_text::Command;

/// The most commands that a script has.
pub const MAX_COMMANDS: usize = 1_048_576;

/// The most attempts that a master has room for.
pub const MAX_ATTEMPTS: usize = 1_000_000;

/// The room that the commands need on so many splits: an event for each, and an attempt for each split at
/// each wave and each plan ahead, for each backup and for each reduce.
pub fn limits_for(splits: usize, commands: &[Command]) -> Limits
    requires splits { splits ≤ MAX_SPLITS }
    requires commands { length commands.now ≤ 1048576 }
    ensures value { result ≡ limits_for splits commands.now }
    ensures small { AreAllowed result }
{
    let attempts = splits * many_starts(commands) + single_starts(commands);
    Limits {
        events: commands.len() as u32,
        attempts: attempts.min(MAX_ATTEMPTS) as u32,
        sweeps: sweeps(commands) as u32,
    }
}

fn many_starts(commands: &[Command]) -> usize
    ensures count { result ≡ count_by starts_many commands.now }
    ensures most { result ≤ length commands.now }
{
    commands
        .iter()
        .filter(|command| starts_many(command))
        .count()
}

fn starts_many(command: &Command) -> bool
    ensures { result ≡ starts_many command.now }
{
    matches!(command, Command::Wave | Command::Ahead(_))
}

fn single_starts(commands: &[Command]) -> usize
    ensures count { result ≡ count_by starts_one commands.now }
    ensures most { result ≤ length commands.now }
{
    commands
        .iter()
        .filter(|command| starts_one(command))
        .count()
}

fn starts_one(command: &Command) -> bool
    ensures { result ≡ starts_one command.now }
{
    matches!(command, Command::Reduce | Command::Backup(_, _))
}

fn sweeps(commands: &[Command]) -> usize
    ensures count { result ≡ count_by is_sweep commands.now }
    ensures most { result ≤ length commands.now }
{
    commands.iter().filter(|command| is_sweep(command)).count()
}

fn is_sweep(command: &Command) -> bool
    ensures { result ≡ is_sweep command.now }
{
    matches!(command, Command::Sweep(_))
}
