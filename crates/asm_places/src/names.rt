//! Names and their values.

ghost use Rattle.std.specs.Prelude.{◌≡◌, ◌∷◌, ◌++◌, [], None, length, take, IfOk, OnErr, OnOk, IfSome, false};
ghost use Rattle.asm_places.specs.Names.{value_of, defined, is_defined};
ghost use Rattle.asm_places.specs.Keeping.{IsSmall};

use indexmap::IndexMap;
use std::alloc::{AllocError, Global};
use std::marker::Model;

/// The names of a source with their values, in order of definition. Contracts see the list of the definitions.
#[derive(Drop)]
pub struct Names<'a> {
    map: IndexMap<&'a [u8], i128>,
}

impl<'a> Model for Names<'a> {
    ghost use Rattle.std.specs.Prelude.{List};
    ghost use Rattle.asm_places.specs.Names.{Definition};

    ghost Value = { List Definition };

    ghost use Rattle.asm_places.specs.Keeping.{definitions_of, HasSmall};

    ghost view = { definitions_of };

    ghost invariant = { HasSmall };
}

impl<'a> Names<'a> {
    /// No names. Takes no memory.
    pub(crate) fn new(alloc: Global) -> Names<'a>
        ensures { result ≡ [] }
    {
        Names {
            map: IndexMap::new(alloc),
        }
    }

    /// How many names there are.
    pub fn len(&self) -> usize
        ensures { result ≡ length self.now }
    {
        self.map.len()
    }

    /// The value of a name, where it is one of the first `known`.
    pub fn value(&self, name: &[u8], known: usize) -> Option<i128>
        ensures value { result ≡ value_of (take known self.now) name.now }
        ensures small { IfSome result IsSmall }
    {
        match self.map.get_full(&name) {
            Some((index, _key, value)) => { if index < known { Some(*value) } else { None } }
            None => None,
        }
    }

    /// Defines a name that is not defined.
    pub(crate) fn define(&mut self, name: &'a [u8], value: i128) -> Result<(), AllocError>
        requires new { is_defined self.old name.now ≡ false }
        requires small { IsSmall value }
        ensures { OnOk result (self.new ≡ self.old ++ defined name.now value ∷ []) }
    {
        match self.map.insert(name, value) {
            Ok(_old) => Ok(()),
            Err(_failed) => Err(AllocError),
        }
    }
}
