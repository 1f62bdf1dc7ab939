ghost use Rattle.std.specs.Prelude.{◌≡◌, [], IfOk, slice_index_or};

use std::alloc::{AllocError, Global};
use std::marker::Model;
use text_lines::NameTable;

/// Names that stand by themselves, by number. A table's names are words of its text.
#[derive(Drop)]
pub(crate) struct OwnNames {
    names: Vec<Vec<u8>>,
}

impl Model for OwnNames {
    ghost use Rattle.std.specs.Prelude.{List, map, ℕ};

    ghost Value = { List (List ℕ) };

    ghost view = { λ own. map (λ name. name.items) own.names.items };
}

impl OwnNames {
    /// No names.
    pub(crate) fn none(alloc: Global) -> OwnNames
        ensures { result ≡ [] }
    {
        OwnNames {
            names: Vec::new(alloc),
        }
    }

    /// The names of a table.
    pub(crate) fn of(alloc: Global, table: &NameTable<'_>) -> Result<OwnNames, AllocError>
        ensures { IfOk result (λ own. own ≡ table.now) }
    {
        let mut names = Vec::with_capacity(alloc, table.len())?;
        for number in 0..table.len() {
            let name = table.name_or_empty(number);
            names.push(Vec::from_slice(alloc, name.as_bytes())?)?;
        }
        Ok(OwnNames { names })
    }

    /// The name of a number, empty where there is no such number.
    pub(crate) fn name_or_empty(&self, number: usize) -> &[u8]
        ensures { result.now ≡ slice_index_or self.now number [] }
    {
        match self.names.get(number) {
            Some(name) => name.as_slice(),
            None => b"",
        }
    }
}
