//! Shifts, by an amount of any width.
ghost use Rattle.std.specs.Prelude.{◌≡◌, length, map};
ghost use Rattle.vf_fours.specs.Bits.{settled_bit};
ghost use Rattle.vf_fours.specs.Operators.{bits_moved_up, bits_moved_down, shl_of, shr_of, sar_of, arithmetic_shr_of};

use crate::planes::Planes;
use crate::{Bit, Fours};

impl Fours {
    /// The bits moved up by a number of places, z as x.
    fn moved_up(self, amount: u128) -> Fours
        ensures value { result ≡ record { bits = bits_moved_up (map settled_bit self.bits) amount; signed = self.signed } }
        ensures width { length result.bits ≡ length self.bits }
    {
        let signed = self.is_signed();
        if amount < u128::from(self.width()) {
            let planes = self.planes().settled();
            self.with(signed, planes.above(Planes::known(0), amount as u32))
        } else {
            self.with_number(signed, 0)
        }
    }

    /// The bits moved down by a number of places, z as x, with a fill above them.
    fn moved_down(self, amount: u128, fill: Bit) -> Fours
        ensures value { result ≡ record { bits = bits_moved_down fill (map settled_bit self.bits) amount; signed = self.signed } }
        ensures width { length result.bits ≡ length self.bits }
    {
        let signed = self.is_signed();
        let width = self.width();
        if amount < u128::from(width) {
            let places = amount as u32;
            let planes = self.planes().settled().down(places);
            self.with(signed, planes.filled(width - places, fill))
        } else {
            self.with(signed, Planes::known(0).filled(0, fill))
        }
    }

    /// `a << by` and `a <<< by`, z as x (clause 5.1.12). The amount is read as unsigned, at any width; all x where it has
    /// x or z, and 0 where it is the width or more. The mark stays.
    pub fn shl(self, by: Fours) -> Fours
        ensures value { result ≡ shl_of self by }
        ensures width { length result.bits ≡ length self.bits }
    {
        if !by.is_known() {
            return self.with_x(self.is_signed());
        }
        self.moved_up(by.number())
    }

    /// `a >> by`, z as x, with 0 from above (clause 5.1.12). The amount is as for `shl`. The mark stays.
    pub fn shr(self, by: Fours) -> Fours
        ensures value { result ≡ shr_of self by }
        ensures width { length result.bits ≡ length self.bits }
    {
        if !by.is_known() {
            return self.with_x(self.is_signed());
        }
        self.moved_down(by.number(), Bit::Zero)
    }

    /// The bits moved down, z as x, with the top bit repeated from above, whatever the mark. The amount is as for `shl`.
    /// `>>>` is this where the value is signed, and `shr` where it is not (clause 5.1.12). The mark stays.
    pub fn sar(self, by: Fours) -> Fours
        ensures value { result ≡ sar_of self by }
        ensures width { length result.bits ≡ length self.bits }
    {
        if !by.is_known() {
            return self.with_x(self.is_signed());
        }
        self.moved_down(by.number(), self.top().settled())
    }

    /// `>>>`, which goes by the mark.
    pub(crate) fn arithmetic_shr(self, by: Fours) -> Fours
        ensures value { result ≡ arithmetic_shr_of self by }
        ensures width { length result.bits ≡ length self.bits }
    {
        if self.is_signed() {
            self.sar(by)
        } else {
            self.shr(by)
        }
    }
}
