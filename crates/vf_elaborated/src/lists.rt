//! A list of numbers for each signal.
ghost use Rattle.std.specs.Prelude.{◌≡◌, ◌<◌, ◌==◌, [], length, replicate, slice_index_or, IfOk, OnOk};
ghost use Rattle.vf_elaborated.specs.Noting.{ends_in, noted};

use sqlite_items::Items;
use std::alloc::Global;
use std::marker::Model;
use vf_base::Memory;

/// Lists of numbers, counted from 0.
#[derive(Debug, Drop)]
pub struct Lists {
    lists: Vec<Items<u32>>,
}

// Clauses see the lists as plain data.
impl Model for Lists {
    ghost use Rattle.std.specs.Prelude.{List, ℕ};
    ghost use Rattle.std.specs.Coded.{coded_list, codes};

    ghost Value = { List (List ℕ) };

    ghost coded = { Prim.hlevel codes };

    ghost view = { λ it. it.lists.items };
}

impl Lists {
    /// So many empty lists.
    pub fn new(alloc: Global, count: usize) -> Result<Lists, Memory>
        ensures { IfOk result (λ lists. lists ≡ replicate count []) }
    {
        let mut lists = Vec::with_capacity(alloc, count)?;
        for _ in 0..count {
            lists.push(Items::new(alloc))?;
        }
        Ok(Lists { lists })
    }

    /// One of them.
    pub fn at(&self, at: usize) -> &[u32]
        requires { at < length self.now }
        ensures { result.now ≡ slice_index_or self.now at [] }
    {
        self.lists[at].as_slice()
    }

    /// Puts a number at the end of a list, where there is such a list and the number does not stand there already.
    pub fn note(&mut self, at: u32, number: u32) -> Result<(), Memory>
        ensures { OnOk result (self.new ≡ noted number (λ n. at == n) self.old) }
    {
        let at = at as usize;
        if self.lists.len() <= at {
            return Ok(());
        }
        if ends_in(number, self.lists[at].as_slice()) {
            return Ok(());
        }
        self.lists[at].push(number)?;
        Ok(())
    }
}

/// Whether a number stands at the end of a list.
#[tactic(auto, unfolding(crate::specs::Noting::ends_in))]
fn ends_in(number: u32, list: &[u32]) -> bool
    ensures { result ≡ ends_in number list.now }
{
    match list.last() {
        Some(last) => *last == number,
        None => false,
    }
}
