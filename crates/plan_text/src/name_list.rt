ghost use Rattle.std.specs.Prelude.{◌≡◌, ◌++◌, ◌∷◌, [], IfOk, OnErr, OnOk, length, slice_index_or};

use std::alloc::{AllocError, Global};
use std::marker::Model;

/// The names of the splits or of the workers, numbered from 0. A name is found by its number alone, so none
/// is hashed.
#[derive(Drop)]
pub struct NameList<'t> {
    names: Vec<&'t str>,
}

impl<'t> Model for NameList<'t> {
    ghost use Rattle.std.specs.Prelude.{List, map, ℕ};

    ghost Value = { List (List ℕ) };

    ghost view = { λ l. map (λ name. name.now) l.names.items };
}

impl<'t> NameList<'t> {
    /// No names, with room for so many.
    pub fn with_room(alloc: Global, names: usize) -> Result<NameList<'t>, AllocError>
        ensures { IfOk result (λ list. list ≡ []) }
    {
        Ok(NameList {
            names: Vec::with_capacity(alloc, names)?,
        })
    }

    /// How many names there are.
    pub fn len(&self) -> usize
        ensures { result ≡ length self.now }
    {
        self.names.len()
    }

    /// The name of a number, empty where there is no such number.
    pub fn name_or_empty(&self, number: usize) -> &'t str
        ensures { result.now ≡ slice_index_or self.now number [] }
    {
        match self.names.get(number) {
            Some(name) => name,
            None => "",
        }
    }

    /// Puts a name behind the others.
    pub fn push(&mut self, name: &'t str) -> Result<(), AllocError>
        ensures ok { OnOk result (self.new ≡ self.old ++ name.now ∷ []) }
        ensures err { OnErr result (self.new ≡ self.old) }
    {
        self.names.push(name)?;
        Ok(())
    }
}
