ghost use Rattle.std.specs.Prelude.{◌≡◌, ◌++◌, ◌∷◌, ◌↔◌, ◌<◌, IfOk, IsTrue, List, OnErr, OnOk, [], length, map};
ghost use Rattle.line_shapes.specs.Lines.{Statement, statement_of, words_after};
ghost use Rattle.line_rules.specs.Rows.{IsRowAt, command_in, words_kept};

use line_shapes::{KeyedLine, Keyword, cut_words};
use std::alloc::{AllocError, Global};
use std::marker::Model;

/// Commands, in their order. What follows the keyword of a command of many words is kept as it stands in the
/// text, and is cut into words when the command is asked for: a list of its words would take up to eight times
/// as much memory as its text.
#[derive(Drop)]
pub struct CommandList<'t> {
    commands: Vec<CommandText<'t>>,
}

/// A command's keyword, and its words.
#[derive(Clone, Copy)]
pub struct CommandText<'t> {
    keyword: Keyword,
    words: CommandWords<'t>,
}

/// The words of a command, or what follows the space after its keyword, if it has one.
#[derive(Clone, Copy)]
pub enum CommandWords<'t> {
    Zero,
    One(&'t str),
    Two(&'t str, &'t str),
    Text(Option<&'t str>),
}

impl<'t> Model for CommandList<'t> {
    ghost Value = { List Statement };

    ghost view = { λ l. map command_in l.commands.items };
}

impl<'t> CommandList<'t> {
    /// No commands; nothing is allocated.
    pub fn new(alloc: Global) -> CommandList<'t>
        ensures { result ≡ [] }
    {
        CommandList {
            commands: Vec::new(alloc),
        }
    }

    /// How many commands there are.
    pub fn len(&self) -> usize
        ensures { result ≡ length self.now }
    {
        self.commands.len()
    }

    /// Whether there are none.
    pub fn is_empty(&self) -> bool
        ensures { IsTrue result ↔ (self.now ≡ []) }
    {
        self.commands.is_empty()
    }

    /// A command, counted from 0. Its words replace the words that `words` had.
    pub fn line<'w>(
        &self,
        place: usize,
        words: &'w mut Vec<&'t str>,
    ) -> Result<KeyedLine<'w, 't>, AllocError>
        requires { place < length self.now }
        ensures { IfOk result (λ line. IsRowAt self.now place (statement_of line)) }
    {
        let command = self.commands[place];
        put_words(command, words)?;
        Ok(KeyedLine {
            keyword: command.keyword,
            words: words.as_slice(),
        })
    }

    /// Puts a command behind the others; `rest` is what follows the space after its keyword. After an error it
    /// was not put.
    pub fn push(
        &mut self,
        line: &KeyedLine<'_, 't>,
        rest: Option<&'t str>,
    ) -> Result<(), AllocError>
        requires { (statement_of line.now).words ≡ words_after line.now.keyword rest }
        ensures ok { OnOk result (self.new ≡ self.old ++ statement_of line.now ∷ []) }
        ensures err { OnErr result (self.new ≡ self.old) }
    {
        let words = kept_words(line, rest);
        self.commands.push(CommandText {
            keyword: line.keyword,
            words,
        })?;
        Ok(())
    }
}

// The words of a line as they are kept.
fn kept_words<'t>(line: &KeyedLine<'_, 't>, rest: Option<&'t str>) -> CommandWords<'t>
    requires { (statement_of line.now).words ≡ words_after line.now.keyword rest }
    ensures { words_kept line.now.keyword result ≡ (statement_of line.now).words }
{
    match line.words.len() {
        0 => CommandWords::Zero,
        1 => CommandWords::One(line.words[0]),
        2 => CommandWords::Two(line.words[0], line.words[1]),
        _ => CommandWords::Text(rest),
    }
}

// Puts the words of a command into a list, in place of what the list has.
fn put_words<'t>(command: CommandText<'t>, words: &mut Vec<&'t str>) -> Result<(), AllocError>
    ensures { OnOk result (map (λ w. w.now) words.new.items ≡ (command_in command.entry).words) }
{
    words.clear();
    match command.words {
        CommandWords::Zero => {}
        CommandWords::One(first) => words.push(first)?,
        CommandWords::Two(first, second) => {
            words.push(first)?;
            words.push(second)?;
        }
        CommandWords::Text(rest) => cut_all(command.keyword, rest, words)?,
    }
    Ok(())
}

// Puts all words after a keyword into a list, in place of what the list has.
fn cut_all<'t>(
    keyword: Keyword,
    rest: Option<&'t str>,
    words: &mut Vec<&'t str>,
) -> Result<(), AllocError>
    ensures { OnOk result (map (λ w. w.now) words.new.items ≡ words_after keyword rest.entry) }
{
    match cut_words(keyword, rest, usize::MAX, words)? {
        None => Ok(()),
        // (No list has so many words.)
        Some(_) => unreachable!(),
    }
}
