ghost use Rattle.std.specs.Prelude.{◌≡◌, ◌+◌, ◌<◌, ℕ, List, length, slice_index, slice_set, OnOk};
ghost use Rattle.vf_machine.specs.Writes.{written};
ghost use Rattle.vf_elaborated.specs.Addresses as addresses;
ghost use Rattle.vf_elaborated.specs.Addresses.{word_count};
ghost use Rattle.vf_queue.specs.Writing.{item_count, Writes, Leads, FRONT};

use vf_base::Memory;
use vf_elaborated::Design;
use vf_machine::Words;
use vf_patch::Patch;

/// A word of the front of the state.
pub fn front<W: Words>(design: &Design, words: &W, patch: &Patch, at: u32) -> u64
    requires at { at < FRONT }
    requires long { length (W.contents words.now) ≡ word_count design.now }
    ensures { result ≡ slice_index (written (W.contents words.now) patch.now) at }
{
    patch.read(words, at)
}

/// Writes a word of the front of the state.
pub fn put_front(patch: &mut Patch, at: u32, word: u64)
    requires { at < FRONT }
    ensures { (base : List ℕ) → at < length base → Writes base (λ words. slice_set words at word) patch.old patch.new }
{
    let _written = patch.set(at, word);
}

/// The link of an event.
pub fn link<W: Words>(design: &Design, words: &W, patch: &Patch, number: u32) -> u64
    requires number { number < item_count design.now }
    requires long { length (W.contents words.now) ≡ word_count design.now }
    ensures { result ≡ slice_index (written (W.contents words.now) patch.now) (addresses.link_at design.now number) }
{
    patch.read(words, design.link_at(number))
}

/// The time of an event of the future. It stands after the link.
pub fn time<W: Words>(design: &Design, words: &W, patch: &Patch, number: u32) -> u64
    requires number { number < item_count design.now }
    requires long { length (W.contents words.now) ≡ word_count design.now }
    ensures { result ≡ slice_index (written (W.contents words.now) patch.now) (addresses.link_at design.now number + 1) }
{
    // The addresses fit, since a design has few words.
    let _processes = &design.processes;
    patch.read(words, design.link_at(number) + 1)
}

/// Writes a word of the state.
pub fn put(patch: &mut Patch, at: u32, word: u64) -> Result<(), Memory>
    ensures { OnOk result ((base : List ℕ) → at < length base → Writes base (λ words. slice_set words at word) patch.old patch.new) }
{
    patch.set(at, word)
}

/// Writes the link of an event.
pub fn put_link(design: &Design, patch: &mut Patch, number: u32, word: u64) -> Result<(), Memory>
    requires number { number < item_count design.now }
    ensures { OnOk result ((base : List ℕ) → length base ≡ word_count design.now → Writes base (λ words. slice_set words (addresses.link_at design.now number) word) patch.old patch.new) }
{
    put(patch, design.link_at(number), word)
}

/// The number of the event that a word leads to.
pub fn event(design: &Design, word: u64) -> u32
    requires { Leads design.now word }
    ensures { word ≡ result + 1 }
{
    // The numbers of events fit, since a design has few of them.
    let _processes = &design.processes;
    word as u32 - 1
}
