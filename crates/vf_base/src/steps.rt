ghost use Rattle.std.specs.Prelude.{◌≡◌, ◌+◌, ◌^◌, ◌<◌, ◌≤◌};

use std::marker::Model;
use std::sync::ledger::{Ledger, Share};

/// Counts steps; one step is one turn performed. A counter holds parts of a ledger, so that whoever
/// has gathered every part knows that no counter is left elsewhere. Contracts see the parts and the
/// count, which no call but these changes.
#[derive(Drop)]
pub struct Steps<L: Ledger> {
    share: Share<L>,
    count: u64,
}

impl<L: Ledger> Model for Steps<L> {
    ghost use Rattle.vf_base.specs.Count.{Count};

    ghost Value = { Count };

    ghost view = { λ s. record { parts = s.share.parts; count = s.count } };
}

impl<L: Ledger> Steps<L> {
    pub fn new(share: Share<L>) -> Steps<L>
        ensures parts { result.parts ≡ share.parts }
        ensures count { result.count ≡ 0 }
    {
        Steps { share, count: 0 }
    }

    /// Counts one step.
    pub fn tick(&mut self)
        requires { self.old.count + 1 < 2 ^ 64 }
        ensures { self.new ≡ record self.old { count = self.old.count + 1 } }
    {
        self.count += 1;
    }

    /// Gives one part away, to a counter that starts at 0.
    pub fn split(&mut self) -> Steps<L>
        requires { 2 ≤ self.old.parts }
        ensures given { (result.parts ≡ 1) × (result.count ≡ 0) }
        ensures left { self.new.parts + 1 ≡ self.old.parts }
        ensures count { self.new.count ≡ self.old.count }
    {
        Steps {
            share: self.share.split_off(1, 0),
            count: 0,
        }
    }

    /// Takes another counter's parts and count.
    pub fn join(&mut self, other: Steps<L>)
        requires { self.old.count + other.count < 2 ^ 64 }
        ensures parts { self.new.parts ≡ self.old.parts + other.parts }
        ensures count { self.new.count ≡ self.old.count + other.count }
    {
        let Steps { share, count } = other;
        self.share.merge(share);
        self.count += count;
    }
}
