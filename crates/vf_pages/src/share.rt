ghost use Rattle.std.specs.Prelude.{◌≡◌, [], ◌∷◌, IfOk};
ghost use Rattle.vf_frames.specs.Holders.{Keeps, SamePool};
ghost use Rattle.vf_frames.specs.Calls.{SameRest, NotesGrow, NoWin};
ghost use Rattle.vf_pages.specs.Pages.{Covers, IsApart, Takes};
ghost use Rattle.vf_pages.specs.Views.{pages_of};

use crate::held::Held;
use std::alloc::Global;
use vf_base::Memory;
use vf_frames::Frames;

/// The same pages again, with the contents shared.
pub(crate) fn share(alloc: Global, held: &[Held]) -> Result<Vec<Held>, Memory>
    ensures { IfOk result (λ copy. pages_of copy.items ≡ pages_of held.now) }
{
    let mut copy = Vec::with_capacity(alloc, held.len())?;
    for one in held {
        copy.push_reserved(Held {
            page: one.page,
            frame: one.frame,
            content: one.content.share(alloc)?,
        });
    }
    Ok(copy)
}

/// Lets a holder have the frames of another's pages, of which it has none.
pub(crate) fn hold_all<F: Frames>(
    pool: &mut F,
    from: &F::Token,
    token: &mut F::Token,
    held: &[Held],
)
    requires from_name { (F.seen from.now).name ≡ F.name pool.old }
    requires name { (F.seen token.old).name ≡ F.name pool.old }
    requires covers { Covers (pages_of held.now) (F.seen from.now).frames }
    requires absent { IsApart (pages_of held.now) (F.seen token.old).frames }
    ensures held { Takes (pages_of held.now) (F.seen token.old).frames (F.seen token.new).frames }
    ensures rest { SameRest (F.seen token.old) (F.seen token.new) }
    ensures notes { NotesGrow NoWin (F.seen token.old).notes (F.seen token.new).notes }
    ensures kept { Keeps (F.numbers pool.old) (F.seen from.now ∷ F.seen token.old ∷ [])
        (F.numbers pool.new) (F.seen from.now ∷ F.seen token.new ∷ []) }
    ensures pool { SamePool (F.name pool.old) (F.numbers pool.old) (F.name pool.new) (F.numbers pool.new) }
{
    for one in held {
        pool.hold(from, token, one.frame);
    }
}
