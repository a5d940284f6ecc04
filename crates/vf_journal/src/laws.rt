//! The laws of farms and journals, each the contract of a function that does nothing. A type parameter
//! stands for the states of a machine, so each law is of every machine.

ghost use Rattle.vf_journal.specs.Farm.{Farm};
ghost use Rattle.vf_journal.specs.Laws.{
  CoreLaw,
  TellsSolo,
  EndsWhole,
  IsReplayed,
  TurnsAddUp,
};
ghost use Rattle.vf_journal.specs.Holding.{HoldsImages, SomeCanGo};

use vf_jobs::laws::{endings_are_copied, passings_are_copied};
use vf_machine::laws::ending_is_still;

/// Whatever jobs start, whatever images are evicted, and however the turns of jobs interleave: the
/// journal of a farm tells turns, kinds, pages, endings and outcomes of the solo runs; where no job is
/// left, each is over and each test that was not lost has an outcome; each held image is its node's save
/// point, and each running job is at a point of its solo run.
pub fn core_law<S>()
    ensures { (f : Farm S) → CoreLaw f }
{
    ending_is_still::<S>();
    endings_are_copied::<S>();
    passings_are_copied::<S>();
}

/// Each outcome that a journal tells of a job, its own or a copied one, is that of the job's solo run,
/// and each kind that is known is the node's.
pub fn journals_tell_the_solo_runs<S>()
    ensures { (f : Farm S) → TellsSolo f }
{
    endings_are_copied::<S>();
    passings_are_copied::<S>();
}

/// Where no job is ready, running or deferred, each job is over, and each test that was not lost has an
/// outcome.
pub fn farms_end_whole<S>()
    ensures { (f : Farm S) → EndsWhole f }
{
    endings_are_copied::<S>();
    passings_are_copied::<S>();
}

/// The records that a journal comes to are those of its entries, replayed one after another.
pub fn journals_are_replayed<S>()
    ensures { (f : Farm S) → IsReplayed f }
{}

/// Each entry adds the turns of the attempt that it closes, and what follows from it adds none.
pub fn turns_add_up<S>()
    ensures { (f : Farm S) → TurnsAddUp f }
{}

/// The images that a journal comes to are of different nodes of the plan. Each is its node's save point,
/// and has its base, a full image of another node above that is held. The full image that a running job
/// goes back to serves the job, where it is still held.
pub fn images_are_held<S>()
    ensures { (f : Farm S) → HoldsImages f }
{}

/// Where an image is held, some image may be evicted.
pub fn some_image_can_go<S>()
    ensures { (f : Farm S) → SomeCanGo f }
{}
