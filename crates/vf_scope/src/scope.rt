ghost use Rattle.std.specs.Prelude.{◌≡◌, ◌++◌, ◌∷◌, [], IfOk, OnErr, if◌then◌else◌, is_none};
ghost use Rattle.vf_scope.specs.Names.{find};

use indexmap::IndexMap;
use std::alloc::Global;
use std::marker::Model;
use vf_base::{Memory, SigNo};
use vf_fours::Fours;

/// What a name stands for.
#[derive(Clone, Copy, Debug)]
pub enum Entry {
    /// A signal, by its number in the design.
    Signal(SigNo),
    /// A parameter with its value, and with the bounds of its range (clause 12.2).
    Constant { value: Fours, left: i64, right: i64 },
}

/// The names of a module, in the order of their declarations.
#[derive(Drop)]
pub struct Scope {
    entries: IndexMap<Vec<u8>, Entry>,
}

// Clauses see the list of names with what they stand for.
impl Model for Scope {
    ghost use Rattle.vf_scope.specs.Names.{Names};

    ghost Value = { Names };

    ghost use Rattle.vf_scope.specs.Inner.{names_of};

    ghost view = { names_of };
}

impl Scope {
    /// A scope without a name.
    pub fn new(alloc: Global) -> Scope
        ensures { result ≡ [] }
    {
        Scope {
            entries: IndexMap::new(alloc),
        }
    }

    /// Declares a name. The answer is false, and the scope unchanged, exactly where the name is declared already. The only
    /// refusal is that it is out of memory; then too the scope is unchanged.
    pub fn add(&mut self, alloc: Global, name: &[u8], entry: Entry) -> Result<bool, Memory>
        ensures added { IfOk result (λ added. added ≡ is_none (find self.old name.now)) }
        ensures names { IfOk result (λ added. self.new ≡ (if added then self.old ++ (name.now, entry) ∷ [] else self.old)) }
        ensures memory { OnErr result (self.new ≡ self.old) }
    {
        if self.find(name).is_some() {
            return Ok(false);
        }
        let Ok(key) = Vec::from_slice(alloc, name) else {
            return Err(Memory);
        };
        let Ok(_) = self.entries.insert(key, entry) else {
            return Err(Memory);
        };
        Ok(true)
    }

    /// What a name stands for; None exactly where it is not declared.
    pub fn find(&self, name: &[u8]) -> Option<Entry>
        ensures { result ≡ find self.now name.now }
    {
        self.entries.get(name).copied()
    }
}
