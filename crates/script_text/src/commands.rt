ghost use Rattle.std.specs.Prelude.{All, IfOk, map};
ghost use Rattle.line_shapes.specs.Lines.{stated, statement_of};
ghost use Rattle.line_shapes.specs.declared.keyword.Keyword.TheVariants.{Join};
ghost use Rattle.script_text.specs.Commands.{ArePair, SayCommands, SaysCommand};
ghost use Rattle.script_text.specs.Ready.{AreFew, HavePair, HasWords, IsWholeCommand};

use crate::numbers::{attempt_at, numbers_in, split_at, splits_from, worker_at};
use crate::script::{Command, Names};
use line_rules::CommandList;
use line_shapes::{KeyedLine, Keyword};
use node_ids::{SplitNo, WorkerNo};
use std::alloc::{AllocError, Global};

/// The commands that the lines say, with numbers in place of names.
pub fn commands_of(
    alloc: Global,
    names: &Names<'_>,
    lines: &CommandList<'_>,
) -> Result<Vec<Command>, AllocError>
    requires few { AreFew names.now }
    requires ready { All (IsWholeCommand names.now) lines.now }
    ensures { IfOk result (λ commands. SayCommands names.now lines.now commands.items) }
{
    let count = lines.len();
    let mut commands = Vec::with_capacity(alloc, count)?;
    let mut words = Vec::new(alloc);
    for place in 0..count {
        let line = lines.line(place, &mut words)?;
        let command = command_of(alloc, names, &line)?;
        commands.push(command)?;
    }
    Ok(commands)
}

/// The command that a line says.
pub fn command_of(
    alloc: Global,
    names: &Names<'_>,
    line: &KeyedLine<'_, '_>,
) -> Result<Command, AllocError>
    requires few { AreFew names.now }
    requires ready { IsWholeCommand names.now (statement_of line.now) }
    ensures { IfOk result (SaysCommand names.now (statement_of line.now)) }
{
    let words = line.words;
    match line.keyword {
        Keyword::Wave => Ok(Command::Wave),
        Keyword::Ahead => Ok(Command::Ahead(numbers_in(alloc, words)?)),
        Keyword::Done => Ok(Command::Done(attempt_at(words, 0))),
        Keyword::Fail => Ok(Command::Fail(attempt_at(words, 0))),
        Keyword::Withdraw => Ok(Command::Withdraw(attempt_at(words, 0))),
        Keyword::Die => Ok(Command::Die(worker_at(&names.workers, words, 0))),
        Keyword::Join => join_of(alloc, names, words),
        Keyword::Add => {
            let (split, worker) = pair_of(names, words);
            Ok(Command::Add(split, worker))
        }
        Keyword::Lose => {
            let (split, worker) = pair_of(names, words);
            Ok(Command::Lose(split, worker))
        }
        Keyword::Backup => {
            let (split, worker) = pair_of(names, words);
            Ok(Command::Backup(split, worker))
        }
        Keyword::Sweep => Ok(Command::Sweep(numbers_in(alloc, words)?)),
        Keyword::Reduce => Ok(Command::Reduce),
        Keyword::Copies => Ok(Command::Copies),
        Keyword::Problem | Keyword::Script | Keyword::Job | Keyword::Centre => unreachable!(),
        Keyword::Rack | Keyword::Worker | Keyword::Split | Keyword::Barred => unreachable!(),
        Keyword::Dead | Keyword::Busy | Keyword::Parts | Keyword::Target => unreachable!(),
        Keyword::Silence | Keyword::Doc | Keyword::Plan | Keyword::Start => unreachable!(),
        Keyword::Price | Keyword::Begin | Keyword::End | Keyword::Places => unreachable!(),
    }
}

// The split and the worker that the first two words name.
fn pair_of(names: &Names<'_>, words: &[&str]) -> (SplitNo, WorkerNo)
    requires few { AreFew names.now }
    requires pair { HavePair names.now (map (λ w. w.now) words.now) }
    ensures { ArePair names.now (map (λ w. w.now) words.now) result.0 result.1 }
{
    let split = split_at(&names.splits, words, 0);
    (split, worker_at(&names.workers, words, 1))
}

fn join_of(alloc: Global, names: &Names<'_>, words: &[&str]) -> Result<Command, AllocError>
    requires few { AreFew names.now }
    requires words { HasWords names.now Join (map (λ w. w.now) words.now) }
    ensures { IfOk result (SaysCommand names.now (stated Join words.now)) }
{
    let worker = worker_at(&names.workers, words, 0);
    let splits = splits_from(alloc, &names.splits, words, 1)?;
    Ok(Command::Join(worker, splits))
}
