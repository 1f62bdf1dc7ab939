ghost use Rattle.std.specs.Prelude.{◌≡◌, ◌++◌, ◌∷◌, [], ◌↔◌, ◌≤◌, ◌<◌, ℕ, List, Contains, MatchOption, OnErr};
ghost use Rattle.std.specs.Prelude.{IfOk, OnOk, IsSome, IsTrue, length, map, position, slice_index_or};
ghost use Rattle.std.specs.Str.{bytes_eq};

use indexmap::IndexSet;
use std::alloc::{AllocError, Global};
use std::marker::Model;

/// Names, numbered from 0 in the order in which they were declared. A look-up hashes the name once.
#[derive(Drop)]
pub struct NameTable<'t> {
    names: IndexSet<&'t str>,
}

impl<'t> Model for NameTable<'t> {
    ghost Value = { List (List ℕ) };

    ghost view = { λ t. map (λ name. name.now) t.names.keys };
}

impl<'t> NameTable<'t> {
    /// No names; nothing is allocated.
    pub fn new(alloc: Global) -> NameTable<'t>
        ensures { result ≡ [] }
    {
        NameTable {
            names: IndexSet::new(alloc),
        }
    }

    /// No names, with room for so many.
    pub fn with_room(alloc: Global, names: usize) -> Result<NameTable<'t>, AllocError>
        ensures { IfOk result (λ table. table ≡ []) }
    {
        Ok(NameTable {
            names: IndexSet::with_capacity(alloc, names)?,
        })
    }

    /// How many names there are.
    pub fn len(&self) -> usize
        ensures { result ≡ length self.now }
    {
        self.names.len()
    }

    /// Whether there are none.
    pub fn is_empty(&self) -> bool
        ensures { IsTrue result ↔ (self.now ≡ []) }
    {
        self.names.is_empty()
    }

    /// Whether the name was declared.
    pub fn has(&self, name: &str) -> bool
        ensures { IsTrue result ↔ Contains self.now name.now }
    {
        self.names.contains(&name)
    }

    /// The number of a name.
    pub fn number(&self, name: &str) -> Option<usize>
        ensures number { result ≡ position (λ n. bytes_eq name.now n) self.now }
        ensures known { IsSome result ↔ Contains self.now name.now }
    {
        self.names.get_index_of(&name)
    }

    /// The name of a number.
    pub fn name(&self, number: usize) -> Option<&'t str>
        ensures { MatchOption result (length self.now ≤ number)
            (λ name. (number < length self.now) × (name.now ≡ slice_index_or self.now number [])) }
    {
        self.names.get_index(number).copied()
    }

    /// The name of a number, empty where there is no such number.
    pub fn name_or_empty(&self, number: usize) -> &'t str
        ensures { result.now ≡ slice_index_or self.now number [] }
    {
        self.name(number).unwrap_or("")
    }

    /// Declares one name more.
    pub fn declare(&mut self, name: &'t str) -> Result<(), AllocError>
        requires { ¬ Contains self.old name.now }
        ensures ok { OnOk result (self.new ≡ self.old ++ name.now ∷ []) }
        ensures err { OnErr result (self.new ≡ self.old) }
    {
        self.names.insert(name)?;
        Ok(())
    }
}
