ghost use Rattle.std.specs.Prelude.{◌≡◌, ◌<◌, length, OnOk, IfSome};
ghost use Rattle.vf_elaborated.specs.Addresses.{word_count};
ghost use Rattle.vf_scheduler.specs.State.{State};
ghost use Rattle.vf_scheduler.specs.Sound.{IsSound};
ghost use Rattle.vf_queue.specs.Writing.{item_count, Writes};
ghost use Rattle.vf_queue.specs.Holding.{Holds, IsUnderway};
ghost use Rattle.vf_queue.specs.Future.{IsLastUntil, put_in};

use crate::addresses::FUTURE;
use crate::lists::{put_after, put_first};
use crate::writes::{event, front, link, time};
use vf_base::Memory;
use vf_elaborated::Design;
use vf_machine::Words;
use vf_patch::Patch;

/// The number of the last event of the future that is not later than a time.
pub fn last_until<W: Words>(design: &Design, words: &W, patch: &Patch, at: u64) -> Option<u32>
    requires { IsUnderway design.now (W.contents words.now) patch.now }
    ensures { (s : State) → IsSound design.now s → Holds design.now (W.contents words.now) patch.now s → IsLastUntil design.now s at result }
{
    let mut last = None;
    let mut next = front(design, words, patch, FUTURE);
    for _ in 0..event_count(design) {
        if next == 0 {
            return last;
        }
        let number = event(design, next);
        if at < time(design, words, patch, number) {
            return last;
        }
        last = Some(number);
        next = link(design, words, patch, number);
    }
    last
}

/// How many events have a number: the processes and the slots.
pub fn event_count(design: &Design) -> u32
    ensures { result ≡ item_count design.now }
{
    design.processes.len() as u32 + design.slots
}

/// An event joins the future after another one, or as the first.
pub fn put_in<W: Words>(
    design: &Design,
    words: &W,
    patch: &mut Patch,
    last: Option<u32>,
    number: u32,
) -> Result<(), Memory>
    requires long { length (W.contents words.now) ≡ word_count design.now }
    requires last { IfSome last (λ other. other < item_count design.now) }
    requires number { number < item_count design.now }
    ensures { OnOk result (Writes (W.contents words.now) (put_in design.now last number) patch.old patch.new) }
{
    match last {
        None => put_first(design, words, patch, number),
        Some(other) => put_after(design, words, patch, other, number),
    }
}
