ghost use Rattle.std.specs.Prelude.{◌≡◌, ℕ, ◌<◌, ◌≤◌, ◌↔◌, true, false, List, [], ◌∷◌, Option, None, IsTrue, IfOk, IfSome, IfNone, OnErr, MatchResult};
ghost use Rattle.vf_frames.specs.declared.holder.Name.{Name};
ghost use Rattle.vf_frames.specs.declared.holder.Holder.{Holder};
ghost use Rattle.vf_frames.specs.Numbers.{has, rises};
ghost use Rattle.vf_frames.specs.Holders.{Accounts, Keeps, AllHeld, SamePool, count};
ghost use Rattle.vf_frames.specs.Calls.{Claimed, Missed, Held, Released, Looked, Opened, Joined};

use vf_base::Memory;

/// The number of a frame of a pool, from 0 on.
#[derive(Clone, Copy, Debug, PartialEq, Eq)]
pub struct FrameNo(pub u32);

/// A pool of page frames that holders share. The count of a frame is the number of holders that have
/// it. Each holder has a token, which shows its list of frames, its misses, its parts of the pool, the
/// notes of what its steps saw, where it tells them, and the name of its pool.
///
/// A pool that tells a number for each frame accounts for a list of holders where each number is the
/// count of its frame and the holders have all 2^62 parts. Each call keeps that, with whatever other
/// holders there are. Each call needs a pool and tokens of one name.
pub trait Frames {
    type Token: Drop;

    ghost seen: { Self.Token → Holder };

    ghost name: { Self → Name };

    ghost numbers: { Self → Option (List ℕ) };

    /// A new holder with no frame and with so many of the parts of `from`, which keeps the others.
    /// Where it is out of memory all is as it was.
    fn open(&mut self, from: &mut Self::Token, parts: u64) -> Result<Self::Token, Memory>
        requires name { (seen from.old).name ≡ name self.old }
        requires some { 1 ≤ parts }
        requires fewer { parts < (seen from.old).parts }
        ensures ok { IfOk result (λ token. Opened parts (seen from.old) (seen from.new) (seen token)) }
        ensures err { OnErr result (seen from.new ≡ seen from.old) }
        ensures kept { MatchResult result
            (λ token. Keeps (numbers self.old) (seen from.old ∷ []) (numbers self.new) (seen from.new ∷ seen token ∷ []))
            (λ _. Keeps (numbers self.old) (seen from.old ∷ []) (numbers self.new) (seen from.new ∷ [])) }
        ensures pool { SamePool (name self.old) (numbers self.old) (name self.new) (numbers self.new) };

    /// Takes a frame that nobody had. `None` raises the holder's misses; where the pool accounts for
    /// this holder and others it comes exactly where each frame of the pool is held by one of them.
    fn claim(&mut self, holder: &mut Self::Token) -> Option<FrameNo>
        requires { (seen holder.old).name ≡ name self.old }
        ensures some { IfSome result (λ frame. Claimed frame.0 (seen holder.old) (seen holder.new)) }
        ensures none { IfNone result (Missed (seen holder.old) (seen holder.new)) }
        ensures free { (others : List Holder) → Accounts (numbers self.old) (seen holder.old ∷ others)
            → IfSome result (λ frame. count frame.0 (seen holder.old ∷ others) ≡ 0) }
        ensures full { (others : List Holder) → Accounts (numbers self.old) (seen holder.old ∷ others)
            → (result ≡ None) ↔ AllHeld (name self.old).frames (seen holder.old ∷ others) }
        ensures kept { Keeps (numbers self.old) (seen holder.old ∷ []) (numbers self.new) (seen holder.new ∷ []) }
        ensures pool { SamePool (name self.old) (numbers self.old) (name self.new) (numbers self.new) };

    /// Lets the holder have a frame that another holder has.
    fn hold(&mut self, from: &Self::Token, holder: &mut Self::Token, frame: FrameNo)
        requires from_name { (seen from.now).name ≡ name self.old }
        requires name { (seen holder.old).name ≡ name self.old }
        requires there { has frame.0 (seen from.now).frames ≡ true }
        requires absent { has frame.0 (seen holder.old).frames ≡ false }
        ensures held { Held frame.0 (seen holder.old) (seen holder.new) }
        ensures kept { Keeps (numbers self.old) (seen from.now ∷ seen holder.old ∷ [])
            (numbers self.new) (seen from.now ∷ seen holder.new ∷ []) }
        ensures pool { SamePool (name self.old) (numbers self.old) (name self.new) (numbers self.new) };

    /// Takes a frame out of the holder's list.
    fn release(&mut self, holder: &mut Self::Token, frame: FrameNo)
        requires name { (seen holder.old).name ≡ name self.old }
        requires there { has frame.0 (seen holder.old).frames ≡ true }
        ensures released { Released frame.0 (seen holder.old) (seen holder.new) }
        ensures kept { Keeps (numbers self.old) (seen holder.old ∷ []) (numbers self.new) (seen holder.new ∷ []) }
        ensures pool { SamePool (name self.old) (numbers self.old) (name self.new) (numbers self.new) };

    /// Whether the count of one of the holder's frames is 1, so that no other holder has it.
    fn look(&mut self, holder: &mut Self::Token, frame: FrameNo) -> bool
        requires name { (seen holder.old).name ≡ name self.old }
        requires there { has frame.0 (seen holder.old).frames ≡ true }
        ensures looked { Looked frame.0 result (seen holder.old) (seen holder.new) }
        ensures alone { (others : List Holder) → Accounts (numbers self.old) (seen holder.old ∷ others)
            → IsTrue result ↔ (count frame.0 (seen holder.old ∷ others) ≡ 1) }
        ensures kept { Keeps (numbers self.old) (seen holder.old ∷ []) (numbers self.new) (seen holder.new ∷ []) }
        ensures pool { SamePool (name self.old) (numbers self.old) (name self.new) (numbers self.new) };

    /// Makes one holder of two that have no frame in common.
    fn join(&mut self, into: &mut Self::Token, holder: Self::Token)
        requires name { (seen into.old).name ≡ name self.old }
        requires holder_name { (seen holder).name ≡ name self.old }
        requires disjoint { (f : ℕ) → has f (seen into.old).frames ≡ true → has f (seen holder).frames ≡ false }
        ensures joined { Joined (seen into.old) (seen holder) (seen into.new) }
        ensures kept { Keeps (numbers self.old) (seen into.old ∷ seen holder ∷ []) (numbers self.new) (seen into.new ∷ []) }
        ensures pool { SamePool (name self.old) (numbers self.old) (name self.new) (numbers self.new) };

    /// How many claims of the holder found no frame. The number stands still at 2^64 - 1.
    fn misses(&self, holder: &Self::Token) -> u64
        requires { (seen holder.now).name ≡ name self.now }
        ensures { result ≡ (seen holder.now).misses };

    ghost rising: { (t : Self.Token) → rises 0 (seen t).name.frames (seen t).frames ≡ true };

    ghost has_part: { (t : Self.Token) → 1 ≤ (seen t).parts };
}
