ghost use Rattle.std.specs.Prelude.{◌≡◌, ℕ, ◌<◌, [], List, length, slice_index, slice_set, IsOk, OnOk, OnErr};
ghost use Rattle.vf_machine.specs.Writes.{AllInside, IsChange, written};
ghost use Rattle.vf_patch.specs.declared.front.TheConstants.{FRONT_WORDS};

use crate::front::{FRONT_WORDS, tell_all, tell_marked};
use crate::sorted::{put, word_of};
use std::alloc::Global;
use std::marker::Model;
use vf_base::{Memory, Write};
use vf_machine::Words;

/// What a turn has written so far. Contracts see the writes by rising address, one for each address that
/// was written, whether or not its word is equal to that of the state.
///
/// One patch serves a whole run: `clear` keeps its room, so a turn takes memory only where it writes more
/// words than each turn before it.
#[derive(Drop)]
pub struct Patch {
    // Which of the words at the front are written.
    mask: u16,
    // The words written at the front; those that the mask lacks mean nothing.
    front: [u64; 16],
    // The bits that the other writes have by the lowest six bits of their addresses.
    filter: u64,
    // The other writes, by rising address.
    rest: Vec<Write>,
}

impl Model for Patch {
    ghost use Rattle.std.specs.Prelude.{◌≡◌, ◌++◌, List, true};
    ghost use Rattle.vf_base.specs.declared.write.Write.{Write};

    ghost Value = { List Write };

    ghost use Rattle.vf_machine.specs.Writes.{rises_from};
    ghost use Rattle.vf_patch.specs.declared.front.TheConstants.{FRONT_WORDS};
    ghost use Rattle.vf_patch.specs.Patches.{IsFilter, front_writes};

    ghost view = { λ p. front_writes p.mask p.front ++ p.rest.items };

    ghost invariant = { λ p. (rises_from FRONT_WORDS p.rest.items ≡ true) × IsFilter p.filter p.rest.items };
}

impl Patch {
    /// Nothing is written. It is not inlined, so that no other function has room for the words among its
    /// locals.
    #[inline(never)]
    pub fn new(alloc: Global) -> Patch
        ensures { result ≡ [] }
    {
        Patch {
            mask: 0,
            front: [0; 16],
            filter: 0,
            rest: Vec::new(alloc),
        }
    }

    /// Forgets all writes, and keeps the room that they took.
    pub fn clear(&mut self)
        ensures { self.new ≡ [] }
    {
        self.mask = 0;
        self.filter = 0;
        self.rest.clear();
    }

    /// Writes a word. A write past the words of a state changes none of them. Where it is out of memory the
    /// patch is as it was, which never comes at the first `FRONT_WORDS` addresses.
    pub fn set(&mut self, at: u32, word: u64) -> Result<(), Memory>
        ensures word { OnOk result ((base : List ℕ) → written base self.new ≡ slice_set (written base self.old) at word) }
        ensures inside { OnOk result ((count : ℕ) → at < count → AllInside count self.old → AllInside count self.new) }
        ensures err { OnErr result (self.new ≡ self.old) }
        ensures front { at < FRONT_WORDS → IsOk result }
    {
        if at < FRONT_WORDS {
            self.mask |= 1 << at;
            self.front[at as usize] = word;
            return Ok(());
        }
        self.filter |= 1 << (at % 64);
        put(&mut self.rest, at, word)
    }

    /// The word at an address of the words of a state under the patch.
    pub fn read<W: Words>(&self, base: &W, at: u32) -> u64
        requires { at < length (W.contents base.now) }
        ensures { result ≡ slice_index (written (W.contents base.now) self.now) at }
    {
        if at < FRONT_WORDS {
            if (self.mask >> at) & 1 == 1 {
                return self.front[at as usize];
            }
            return base.read(at);
        }
        if (self.filter >> (at % 64)) & 1 == 0 {
            return base.read(at);
        }
        match word_of(&self.rest, at) {
            Some(word) => word,
            None => base.read(at),
        }
    }

    /// Tells the writes that change a word of the state, by rising address, in the place of what `into` had.
    pub fn writes<W: Words>(&self, base: &W, into: &mut Vec<Write>) -> Result<(), Memory>
        requires { AllInside (length (W.contents base.now)) self.now }
        ensures { OnOk result (IsChange (W.contents base.now) (written (W.contents base.now) self.now) into.new.items) }
    {
        into.clear();
        into.reserve(FRONT_WORDS as usize + self.rest.len())?;
        tell_marked(base, self.mask, &self.front, into);
        tell_all(base, &self.rest, into);
        Ok(())
    }
}
