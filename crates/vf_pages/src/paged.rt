ghost use Rattle.std.specs.Prelude.{◌≡◌, ℕ, ◌+◌, ◌<◌, ◌≤◌, [], ◌∷◌, List, length, IfOk, IfErr, OnOk, OnErr, MatchResult};
ghost use Rattle.std.specs.Arc.{arc_value};
ghost use Rattle.vf_frames.specs.declared.holder.Holder.{Holder};
ghost use Rattle.vf_frames.specs.Holders.{Accounts, Keeps, SamePool};

use crate::alone::write_alone;
use crate::base::{are_apart, drop_unchanged, hold_over, share_with_room};
use crate::change::change_pages;
use crate::content::word_in;
use crate::gather::give_up;
use crate::held::{Held, PageNo};
use crate::places::{empty_table, forget_places, note_places, place_in};
use crate::refusal::PageRefusal;
use crate::share::{hold_all, share};
use std::alloc::Global;
use std::marker::Model;
use std::sync::Arc;
use vf_base::{Memory, PAGE_WORDS, Write};
use vf_frames::Frames;

/// The pages of one holder over a pool of frames: what was written since time zero. A page that is not
/// held reads as at time zero. Contracts see the words at time zero, the list of pages by rising number
/// and what the holder's token shows.
#[derive(Drop)]
pub struct Paged<F: Frames> {
    zero: Arc<Vec<u64>>,
    held: Vec<Held>,
    // By the number of a page: its place in `held`, from 1 on, or 0.
    places: Vec<u32>,
    token: F::Token,
}

impl<F: Frames> Model for Paged<F> {
    ghost use Rattle.std.specs.Arc.{arc_value};
    ghost use Rattle.vf_pages.specs.Pages.{Pages, IsSorted, IsHeld};

    ghost Value = { Pages };

    ghost use Rattle.std.specs.Prelude.{◌*◌, ◌≤◌, length};
    ghost use Rattle.vf_base.specs.declared.write.TheConstants.{PAGE_WORDS};
    ghost use Rattle.vf_pages.specs.Views.{pages_of, shown};
    ghost use Rattle.vf_pages.specs.Places.{IsTable};

    ghost view = { λ p. shown (arc_value p.zero).items p.held.items (F.seen p.token) };

    ghost invariant = { λ p. IsSorted (pages_of p.held.items) × IsHeld (pages_of p.held.items) (F.seen p.token).frames
        × IsTable p.places.items (pages_of p.held.items) × (length (arc_value p.zero).items ≤ PAGE_WORDS * length p.places.items) };
}

impl<F: Frames> Paged<F> {
    ghost use Rattle.vf_pages.specs.Pages.{IsHeld, IsSorted, IsPageAt, word_of};
    ghost use Rattle.vf_pages.specs.Writes.{AreWrites};
    ghost use Rattle.vf_pages.specs.Calls.{Wrote, WroteAmong, IsShort, ShortAmong, OnRefusal, IsUnmade, IsAtZero, Forked, ForkedOver, KeptChanged, GivenBack};

    /// A new holder at time zero, with one of the parts of `from`. Where it is out of memory all is as it
    /// was.
    pub fn at_zero(
        alloc: Global,
        pool: &mut F,
        from: &mut F::Token,
        zero: Arc<Vec<u64>>,
    ) -> Result<Paged<F>, Memory>
        requires name { (F.seen from.old).name ≡ F.name pool.old }
        requires parts { 2 ≤ (F.seen from.old).parts }
        ensures ok { IfOk result (λ made. IsAtZero (arc_value zero).items (F.seen from.old) (F.seen from.new) made) }
        ensures err { OnErr result (F.seen from.new ≡ F.seen from.old) }
        ensures kept { MatchResult result
            (λ made. Keeps (F.numbers pool.old) (F.seen from.old ∷ []) (F.numbers pool.new) (F.seen from.new ∷ made.holder ∷ []))
            (λ _. Keeps (F.numbers pool.old) (F.seen from.old ∷ []) (F.numbers pool.new) (F.seen from.new ∷ [])) }
        ensures pool { SamePool (F.name pool.old) (F.numbers pool.old) (F.name pool.new) (F.numbers pool.new) }
    {
        let places = empty_table(alloc, zero.len() / PAGE_WORDS as usize + 1)?;
        let token = pool.open(from, 1)?;
        Ok(Paged {
            zero,
            held: Vec::new(alloc),
            places,
            token,
        })
    }

    /// The word at an address, in a time that does not depend on the number of pages held.
    pub fn read(&self, at: u32) -> u64
        requires { at < length self.now.zero }
        ensures { result ≡ word_of self.now at }
    {
        let Some(place) = place_in(&self.places, at / PAGE_WORDS) else {
            return self.zero[at as usize];
        };
        word_in(self.held[place].content.words(), at)
    }

    /// Writes words at rising addresses. A page that is not held gets a claimed frame, and so does one
    /// whose frame another holder has; any other page keeps its frame and is written where it is. No
    /// page is changed before all contents are made and all frames claimed, so after a refusal words and
    /// pages are as before.
    ///
    /// Memory is taken only for pages that are new or shared, and for contents that another holder still
    /// reads. The stack does not depend on how many pages are written.
    ///
    /// `Short` comes where a claim found no frame. Where the pool accounts for this holder and others it
    /// comes exactly where fewer frames are free than the writes need.
    pub fn write_all(&mut self, pool: &mut F, writes: &[Write]) -> Result<(), PageRefusal>
        requires name { self.old.holder.name ≡ F.name pool.old }
        requires writes { AreWrites (length self.old.zero) writes.now }
        ensures ok { OnOk result (Wrote writes.now self.old self.new) }
        ensures ok_among { OnOk result ((others : List Holder)
            → Accounts (F.numbers pool.old) (self.old.holder ∷ others) → WroteAmong writes.now self.old self.new others) }
        ensures zero { self.new.zero ≡ self.old.zero }
        ensures err { OnErr result (self.new.pages ≡ self.old.pages) }
        ensures refused { IfErr result (λ refusal. OnRefusal refusal
            (λ k. IsShort k writes.now self.old self.new)
            (IsUnmade self.old self.new)) }
        ensures refused_among { IfErr result (λ refusal. (others : List Holder)
            → Accounts (F.numbers pool.old) (self.old.holder ∷ others)
            → OnRefusal refusal (λ k. ShortAmong k writes.now self.old others) (Unit {0})) }
        ensures sorted { IsSorted self.old.pages }
        ensures held { IsHeld self.new.pages self.new.holder.frames }
        ensures kept { Keeps (F.numbers pool.old) (self.old.holder ∷ []) (F.numbers pool.new) (self.new.holder ∷ []) }
        ensures pool { SamePool (F.name pool.old) (F.numbers pool.old) (F.name pool.new) (F.numbers pool.new) }
    {
        if write_alone(
            &mut self.held,
            &self.places,
            pool,
            &mut self.token,
            writes,
            self.zero.len(),
        ) {
            return Ok(());
        }
        change_pages(
            &self.zero,
            &mut self.held,
            &mut self.places,
            pool,
            &mut self.token,
            writes,
        )
    }

    /// How many pages are held: never more than the pool has frames.
    pub fn pages(&self) -> u32
        ensures count { result ≡ length self.now.pages }
        ensures budget { result ≤ self.now.holder.name.frames }
        ensures sorted { IsSorted self.now.pages }
        ensures frames { length self.now.holder.frames ≡ length self.now.pages }
    {
        self.held.len() as u32
    }

    /// The number and the words of a held page, by its place among them. The numbers rise.
    pub fn page(&self, at: u32) -> (PageNo, &[u64; 64])
        requires { at < length self.now.pages }
        ensures { IsPageAt self.now.pages at result.0.0 result.1.now }
    {
        let one = &self.held[at as usize];
        (one.page, one.content.words())
    }

    /// How many claims of this holder found no frame. The number stands still at 2^64 - 1.
    pub fn misses(&self, pool: &F) -> u64
        requires { self.now.holder.name ≡ F.name pool.now }
        ensures { result ≡ self.now.holder.misses }
    {
        pool.misses(&self.token)
    }

    /// Another holder of the same words and frames, with one of the parts of `from`. It takes time
    /// proportional to the number of pages held and to the size of the table, and shares their contents.
    /// Where it is out of memory all is as it was.
    pub fn fork(&self, pool: &mut F, from: &mut F::Token) -> Result<Paged<F>, Memory>
        requires name { self.now.holder.name ≡ F.name pool.old }
        requires from_name { (F.seen from.old).name ≡ F.name pool.old }
        requires parts { 2 ≤ (F.seen from.old).parts }
        ensures ok { IfOk result (λ fork. Forked self.now (F.seen from.old) (F.seen from.new) fork) }
        ensures held { IfOk result (λ fork. IsHeld fork.pages fork.holder.frames) }
        ensures err { OnErr result (F.seen from.new ≡ F.seen from.old) }
        ensures kept { MatchResult result
            (λ fork. Keeps (F.numbers pool.old) (self.now.holder ∷ F.seen from.old ∷ [])
            (F.numbers pool.new) (self.now.holder ∷ F.seen from.new ∷ fork.holder ∷ []))
            (λ _. Keeps (F.numbers pool.old) (F.seen from.old ∷ []) (F.numbers pool.new) (F.seen from.new ∷ [])) }
        ensures pool { SamePool (F.name pool.old) (F.numbers pool.old) (F.name pool.new) (F.numbers pool.new) }
    {
        let zero = Arc::try_clone(&self.zero)?;
        let held = share(*self.held.allocator(), &self.held)?;
        let places = self.places.clone()?;
        let mut token = pool.open(from, 1)?;
        hold_all(pool, &self.token, &mut token, &self.held);
        Ok(Paged {
            zero,
            held,
            places,
            token,
        })
    }

    /// Another holder of these pages and, under them, of those of a base, with one of the parts of `from`.
    /// It takes time proportional to the number of pages of both, and shares their contents. Where both
    /// have a frame in common it answers `Memory`. Where it answers that all is as it was.
    pub fn fork_over(
        &self,
        pool: &mut F,
        from: &mut F::Token,
        base: &Paged<F>,
    ) -> Result<Paged<F>, Memory>
        requires name { self.now.holder.name ≡ F.name pool.old }
        requires base_name { base.now.holder.name ≡ F.name pool.old }
        requires from_name { (F.seen from.old).name ≡ F.name pool.old }
        requires parts { 2 ≤ (F.seen from.old).parts }
        ensures ok { IfOk result (λ fork. ForkedOver self.now base.now (F.seen from.old) (F.seen from.new) fork) }
        ensures err { OnErr result (F.seen from.new ≡ F.seen from.old) }
        ensures kept { MatchResult result
            (λ fork. Keeps (F.numbers pool.old) (self.now.holder ∷ base.now.holder ∷ F.seen from.old ∷ [])
            (F.numbers pool.new) (self.now.holder ∷ base.now.holder ∷ F.seen from.new ∷ fork.holder ∷ []))
            (λ _. Keeps (F.numbers pool.old) (F.seen from.old ∷ []) (F.numbers pool.new) (F.seen from.new ∷ [])) }
        ensures pool { SamePool (F.name pool.old) (F.numbers pool.old) (F.name pool.new) (F.numbers pool.new) }
    {
        let alloc = *self.held.allocator();
        let zero = Arc::try_clone(&self.zero)?;
        let own = share(alloc, &self.held)?;
        let (mut held, spare) = share_with_room(alloc, &base.held, own.len())?;
        if !are_apart(alloc, &own, &held)? {
            return Err(Memory);
        }
        let mut places = empty_table(alloc, self.places.len().max(base.places.len()))?;
        let mut token = pool.open(from, 1)?;
        hold_over(
            pool,
            &self.token,
            &base.token,
            &mut token,
            &mut held,
            own,
            spare,
        );
        note_places(&held, &mut places);
        Ok(Paged {
            zero,
            held,
            places,
            token,
        })
    }

    /// Drops the pages that a base has with the same words, and releases their frames. It takes no
    /// memory.
    pub fn keep_changed(&mut self, pool: &mut F, base: &Paged<F>)
        requires { self.old.holder.name ≡ F.name pool.old }
        ensures changed { KeptChanged base.now self.old self.new }
        ensures kept { Keeps (F.numbers pool.old) (self.old.holder ∷ []) (F.numbers pool.new) (self.new.holder ∷ []) }
        ensures pool { SamePool (F.name pool.old) (F.numbers pool.old) (F.name pool.new) (F.numbers pool.new) }
    {
        drop_unchanged(pool, &mut self.token, &mut self.held, &base.held);
        forget_places(&mut self.places);
        note_places(&self.held, &mut self.places);
    }

    /// Releases every frame and gives the misses and parts to another holder.
    pub fn give_back(self, pool: &mut F, into: &mut F::Token)
        requires name { self.holder.name ≡ F.name pool.old }
        requires into_name { (F.seen into.old).name ≡ F.name pool.old }
        ensures given { GivenBack self (F.seen into.old) (F.seen into.new) }
        ensures kept { Keeps (F.numbers pool.old) (self.holder ∷ F.seen into.old ∷ []) (F.numbers pool.new) (F.seen into.new ∷ []) }
        ensures pool { SamePool (F.name pool.old) (F.numbers pool.old) (F.name pool.new) (F.numbers pool.new) }
    {
        let Paged {
            zero: _,
            held,
            places: _,
            mut token,
        } = self;
        give_up(pool, &mut token, held);
        pool.join(into, token);
    }
}
