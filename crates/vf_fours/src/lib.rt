//! Four-state values of 1 to 128 bits, and the operators of IEEE Std 1364-2005 on them, bit-exact.
//!
//! It stands on std alone. It takes no memory and refuses nothing.
//!
//! The layers above see a `Fours` as a list of bits 0, 1, x and z, least first, with a sign mark (`specs/Bits.antt`,
//! `FourState`). Each call equals the operator of `specs/Operators.antt` of its name, which goes bit by bit or over the
//! integers that the bits stand for, modulo 2^w: docs/LANGUAGE.md, "Values". `unary` and `binary` are all operators of the
//! language in one (`specs/Choices.antt`). The code works on two words a value (`specs/Planes.antt`), never on a list.
#![tactic(auto)]

ghost use Rattle.std.specs.Prelude.{◌≡◌, ℕ, ◌+◌, ◌^◌, ◌<◌, ◌≤◌, true, false, length, Some, slice_get, fold, if◌then◌else◌, pos, neg_ℤ, int_lt};
ghost use Rattle.std.specs.List.{list_any};
ghost use Rattle.vf_fours.specs.Bits.{all_x, all_known, top, settled_bit, is_one, is_zero, not_bit, and_bit, or_bit, xor_bit};
ghost use Rattle.vf_fours.specs.Numbers.{integer, digit, digits_of};
ghost use Rattle.vf_fours.specs.Operators.{one_bit, both_signed, both_known, and_of, or_of, xor_of, xnor_of, merge_of, wire_of, not_of, plus_of, eq_of, eqq_of, lt_of, le_of, matches_z, matches_x, concat_of, select_of, resize_of, truth_of, reduce_of};
ghost use Rattle.vf_fours.specs.Choices.{unary_of, binary_of, is_wide, is_narrow, is_free};
ghost use Rattle.vf_fours.specs.Planes.{bits_of, ones_of, unknown_of, Shows};

use planes::{Planes, low_ones};
use std::marker::Model;

mod arithmetic;
mod planes;
mod shifts;

/// The greatest width of a vector, in bits.
pub const WIDEST: u32 = 128;

/// One bit of a value (clause 4.1).
#[derive(Clone, Copy, Debug, PartialEq, Eq)]
pub enum Bit {
    Zero,
    One,
    X,
    Z,
}

/// The operators that stand between all bits of one value: `& ~& | ~| ^ ~^` (clause 5.1.11).
#[derive(Clone, Copy, Debug, PartialEq, Eq)]
pub enum Fold {
    And,
    Nand,
    Or,
    Nor,
    Xor,
    Xnor,
}

/// The unary operators: `+ - ! ~ & ~& | ~| ^ ~^`, where `^~` is `~^`.
#[derive(Clone, Copy, Debug, PartialEq, Eq)]
pub enum UnaryOp {
    Plus,
    Minus,
    LogicalNot,
    BitNot,
    ReduceAnd,
    ReduceNand,
    ReduceOr,
    ReduceNor,
    ReduceXor,
    ReduceXnor,
}

/// The binary operators: `|| && | ^ ~^ & == != === !== < <= > >= << >> <<< >>> + - * / %`, where `^~` is `~^`.
#[derive(Clone, Copy, Debug, PartialEq, Eq)]
pub enum BinaryOp {
    LogicalOr,
    LogicalAnd,
    BitOr,
    BitXor,
    BitXnor,
    BitAnd,
    Equal,
    NotEqual,
    CaseEqual,
    CaseNotEqual,
    Less,
    LessEqual,
    Greater,
    GreaterEqual,
    ShiftLeft,
    ShiftRight,
    ArithmeticShiftLeft,
    ArithmeticShiftRight,
    Add,
    Subtract,
    Multiply,
    Divide,
    Remainder,
}

/// A value: 1 to 128 bits of 0, 1, x and z, and a sign mark.
#[derive(Clone, Copy, Debug)]
pub struct Fours {
    width: u32,
    signed: bool,
    ones: u128,
    unknown: u128,
}

// Clauses see the list of bits, least first, and the mark.
impl Model for Fours {
    ghost use Rattle.vf_fours.specs.Bits.{FourState};

    ghost Value = { FourState };

    ghost use Rattle.vf_fours.specs.Shapes.{view_of, IsShape, back, back_view};

    ghost view = { view_of };

    ghost invariant = { IsShape };

    ghost inverse = { back };

    ghost inverse_ok = { back_view };
}

impl Fours {
    /// A value from its planes: 0 is 0 in both, 1 is set in `ones` alone, z in `unknown` alone, x in both.
    pub fn new(width: u32, signed: bool, ones: u128, unknown: u128) -> Fours
        requires some { 1 ≤ width }
        requires most { width ≤ WIDEST }
        requires ones_fit { ones < 2 ^ width }
        requires unknown_fit { unknown < 2 ^ width }
        ensures { result ≡ record { bits = bits_of width ones unknown; signed = signed } }
    {
        Fours {
            width,
            signed,
            ones,
            unknown,
        }
    }

    /// x at every place: the start of a variable (clause 4.2.2).
    pub fn all_x(width: u32, signed: bool) -> Fours
        requires some { 1 ≤ width }
        requires most { width ≤ WIDEST }
        ensures value { result ≡ record { bits = all_x width; signed = signed } }
        ensures width { length result.bits ≡ width }
    {
        Fours::low_bits(width, signed, Planes::all_x(width))
    }

    /// The low bits of a number.
    pub fn known(width: u32, signed: bool, number: u128) -> Fours
        requires some { 1 ≤ width }
        requires most { width ≤ WIDEST }
        ensures value { result ≡ record { bits = digits_of width number; signed = signed } }
        ensures width { length result.bits ≡ width }
    {
        Fours::low_bits(width, signed, Planes::known(number))
    }

    /// A bit as a value: one bit wide, unsigned.
    pub fn of_bit(bit: Bit) -> Fours
        ensures { result ≡ one_bit bit }
    {
        match bit {
            Bit::Zero => Fours::new(1, false, 0, 0),
            Bit::One => Fours::new(1, false, 1, 0),
            Bit::X => Fours::new(1, false, 1, 1),
            Bit::Z => Fours::new(1, false, 0, 1),
        }
    }

    /// The number of bits, from 1 to `WIDEST`.
    pub fn width(&self) -> u32
        ensures value { result ≡ length self.now.bits }
        ensures some { 1 ≤ result }
        ensures most { result ≤ WIDEST }
    {
        self.width
    }

    /// The sign mark.
    pub fn is_signed(&self) -> bool
        ensures { result ≡ self.now.signed }
    {
        self.signed
    }

    /// The same bits with a mark.
    pub fn marked(self, signed: bool) -> Fours
        ensures { result ≡ record { bits = self.bits; signed = signed } }
    {
        Fours { signed, ..self }
    }

    /// The plane in which 1 and x are set. A known value is the number in it.
    pub fn ones(&self) -> u128
        ensures { result ≡ ones_of self.now.bits }
    {
        self.ones
    }

    /// The plane in which x and z are set: 0 exactly where every bit is known.
    pub fn unknown(&self) -> u128
        ensures { result ≡ unknown_of self.now.bits }
    {
        self.unknown
    }

    /// The bit at a place, counted from the least.
    pub fn bit(&self, at: u32) -> Bit
        requires { at < length self.now.bits }
        ensures { slice_get self.now.bits at ≡ Some result }
    {
        self.planes().bit(at)
    }

    fn planes(&self) -> Planes
        ensures { Shows result self.now.bits }
    {
        Planes {
            ones: self.ones,
            unknown: self.unknown,
        }
    }

    /// The low bits of two planes.
    fn low_bits(width: u32, signed: bool, planes: Planes) -> Fours
        requires some { 1 ≤ width }
        requires most { width ≤ WIDEST }
        ensures value { result ≡ record { bits = bits_of width planes.ones planes.unknown; signed = signed } }
        ensures width { length result.bits ≡ width }
    {
        let mask = low_ones(width);
        Fours::new(width, signed, planes.ones & mask, planes.unknown & mask)
    }

    /// The low bits of two planes, at the width of this value.
    fn with(self, signed: bool, planes: Planes) -> Fours
        ensures value { result ≡ record { bits = bits_of (length self.bits) planes.ones planes.unknown; signed = signed } }
        ensures width { length result.bits ≡ length self.bits }
    {
        Fours::low_bits(self.width(), signed, planes)
    }

    /// The low bits of a number, at the width of this value.
    fn with_number(self, signed: bool, number: u128) -> Fours
        ensures value { result ≡ record { bits = digits_of (length self.bits) number; signed = signed } }
        ensures width { length result.bits ≡ length self.bits }
    {
        Fours::known(self.width(), signed, number)
    }

    /// x at every place, at the width of this value.
    fn with_x(self, signed: bool) -> Fours
        ensures value { result ≡ record { bits = all_x (length self.bits); signed = signed } }
        ensures width { length result.bits ≡ length self.bits }
    {
        Fours::all_x(self.width(), signed)
    }

    fn are_signed(self, other: Fours) -> bool
        ensures { result ≡ both_signed self other }
    {
        self.is_signed() && other.is_signed()
    }

    fn is_known(self) -> bool
        ensures { result ≡ all_known self.bits }
    {
        self.planes().unknown == 0
    }

    fn are_known(self, other: Fours) -> bool
        ensures { result ≡ both_known self other }
    {
        self.is_known() && other.is_known()
    }

    fn has_one(self) -> bool
        ensures { result ≡ list_any is_one self.bits }
    {
        self.planes().known_ones() != 0
    }

    fn has_zero(self) -> bool
        ensures { result ≡ list_any is_zero self.bits }
    {
        self.planes().zeros(self.width()) != 0
    }

    /// `a & b`, bit by bit, z as x (clause 5.1.10). Signed where both are.
    pub fn and(self, other: Fours) -> Fours
        requires { length self.bits ≡ length other.bits }
        ensures value { result ≡ and_of self other }
        ensures width { length result.bits ≡ length self.bits }
    {
        self.with(self.are_signed(other), self.planes().and(other.planes()))
    }

    /// `a | b`, bit by bit, z as x (clause 5.1.10). Signed where both are.
    pub fn or(self, other: Fours) -> Fours
        requires { length self.bits ≡ length other.bits }
        ensures value { result ≡ or_of self other }
        ensures width { length result.bits ≡ length self.bits }
    {
        self.with(self.are_signed(other), self.planes().or(other.planes()))
    }

    /// `a ^ b`, bit by bit, z as x (clause 5.1.10). Signed where both are.
    pub fn xor(self, other: Fours) -> Fours
        requires { length self.bits ≡ length other.bits }
        ensures value { result ≡ xor_of self other }
        ensures width { length result.bits ≡ length self.bits }
    {
        self.with(self.are_signed(other), self.planes().xor(other.planes()))
    }

    /// `a ~^ b`, bit by bit, z as x (clause 5.1.10). Signed where both are.
    pub fn xnor(self, other: Fours) -> Fours
        requires { length self.bits ≡ length other.bits }
        ensures value { result ≡ xnor_of self other }
        ensures width { length result.bits ≡ length self.bits }
    {
        self.with(
            self.are_signed(other),
            self.planes().xor(other.planes()).not(),
        )
    }

    /// Both arms of `?:` where the condition is not known: an equal 0 or 1 stays, any other place is x (clause 5.1.13).
    /// Signed where both are.
    pub fn merge(self, other: Fours) -> Fours
        requires { length self.bits ≡ length other.bits }
        ensures value { result ≡ merge_of self other }
        ensures width { length result.bits ≡ length self.bits }
    {
        self.with(self.are_signed(other), self.planes().merge(other.planes()))
    }

    /// What two drivers make of one wire: z yields, an equal bit stays, any other place is x (clause 4.6.1). The mark is
    /// that of the first.
    pub fn wire(self, other: Fours) -> Fours
        requires { length self.bits ≡ length other.bits }
        ensures value { result ≡ wire_of self other }
        ensures width { length result.bits ≡ length self.bits }
    {
        self.with(self.is_signed(), self.planes().wire(other.planes()))
    }

    /// `~a`, bit by bit, z as x (clause 5.1.10). The mark stays.
    pub fn not(self) -> Fours
        ensures value { result ≡ not_of self }
        ensures width { length result.bits ≡ length self.bits }
    {
        self.with(self.is_signed(), self.planes().not())
    }

    /// Unary `+`.
    fn plus(self) -> Fours
        ensures value { result ≡ plus_of self }
        ensures width { length result.bits ≡ length self.bits }
    {
        self.with(self.is_signed(), self.planes().settled())
    }

    fn top(self) -> Bit
        ensures { result ≡ top self.bits }
    {
        self.planes().bit(self.width() - 1)
    }

    /// `a == b`: 0 where two known bits differ, else x where a bit is x or z, else 1 (clause 5.1.8).
    pub fn eq(self, other: Fours) -> Bit
        requires { length self.bits ≡ length other.bits }
        ensures { result ≡ eq_of self other }
    {
        if self.planes().differing(other.planes()) != 0 {
            return Bit::Zero;
        }
        if self.are_known(other) {
            Bit::One
        } else {
            Bit::X
        }
    }

    /// `a === b`: 1 where all bits are the same, x and z included, else 0 (clause 5.1.8).
    pub fn eqq(self, other: Fours) -> Bit
        requires { length self.bits ≡ length other.bits }
        ensures { result ≡ eqq_of self other }
    {
        Bit::of(self.planes().unequal(other.planes()) == 0)
    }

    fn is_below(self, other: Fours) -> bool
        requires width { length self.bits ≡ length other.bits }
        requires known { both_known self other ≡ true }
        ensures { let signed = both_signed self other in
            result ≡ int_lt (integer signed self.bits) (integer signed other.bits) }
    {
        let signed = self.are_signed(other);
        let negative = self.is_negative(signed);
        if negative != other.is_negative(signed) {
            negative
        } else {
            self.number() < other.number()
        }
    }

    /// `a < b`, signed where both are; x where a bit is x or z (clause 5.1.7).
    pub fn lt(self, other: Fours) -> Bit
        requires { length self.bits ≡ length other.bits }
        ensures { result ≡ lt_of self other }
    {
        if !self.are_known(other) {
            return Bit::X;
        }
        Bit::of(self.is_below(other))
    }

    fn le(self, other: Fours) -> Bit
        requires { length self.bits ≡ length other.bits }
        ensures { result ≡ le_of self other }
    {
        if !self.are_known(other) {
            return Bit::X;
        }
        Bit::of(!other.is_below(self))
    }

    /// Whether `casez` takes the two as equal: places with z on a side are ignored (clause 9.5.1).
    pub fn match_z(self, other: Fours) -> bool
        requires { length self.bits ≡ length other.bits }
        ensures { result ≡ matches_z self other }
    {
        self.planes().unfit_z(other.planes()) == 0
    }

    /// Whether `casex` takes the two as equal: places with x or z on a side are ignored (clause 9.5.1).
    pub fn match_x(self, other: Fours) -> bool
        requires { length self.bits ≡ length other.bits }
        ensures { result ≡ matches_x self other }
    {
        self.planes().differing(other.planes()) == 0
    }

    /// `{a, low}`: this value above the other, unsigned (clause 5.1.14).
    pub fn concat(self, low: Fours) -> Fours
        requires { length self.bits + length low.bits ≤ WIDEST }
        ensures value { result ≡ concat_of self low }
        ensures width { length result.bits ≡ length self.bits + length low.bits }
    {
        let places = low.width();
        let planes = self.planes().above(low.planes(), places);
        Fours::low_bits(self.width() + places, false, planes)
    }

    fn selected_inside(self, low: u32, width: u32) -> Fours
        requires low { low < length self.bits }
        requires some { 1 ≤ width }
        requires most { width ≤ WIDEST }
        ensures value { result ≡ select_of self (pos low) width }
        ensures width { length result.bits ≡ width }
    {
        let planes = self.planes().down(low);
        Fours::low_bits(width, false, planes.filled(self.width() - low, Bit::X))
    }

    fn selected_below(self, below: u32, width: u32) -> Fours
        requires some { 1 ≤ below }
        requires below { below < width }
        requires most { width ≤ WIDEST }
        ensures value { result ≡ select_of self (neg_ℤ (pos below)) width }
        ensures width { length result.bits ≡ width }
    {
        let planes = self.planes().filled(self.width(), Bit::X);
        Fours::low_bits(width, false, planes.above(Planes::all_x(below), below))
    }

    /// `width` bits from place `low` on, counted from the least, unsigned. Places outside are x (clause 5.2.1).
    pub fn select(self, low: i64, width: u32) -> Fours
        requires some { 1 ≤ width }
        requires most { width ≤ WIDEST }
        ensures value { result ≡ select_of self low width }
        ensures width { length result.bits ≡ width }
    {
        if low >= i64::from(self.width()) || low <= -i64::from(width) {
            return Fours::all_x(width, false);
        }
        if low < 0 {
            self.selected_below((-low) as u32, width)
        } else {
            self.selected_inside(low as u32, width)
        }
    }

    /// What an extension repeats above the top bit.
    fn extension(self) -> Bit
        ensures { result ≡ (if self.signed then top self.bits else Bit.Zero) }
    {
        if self.is_signed() {
            self.top()
        } else {
            Bit::Zero
        }
    }

    /// The low bits, or an extension by the top bit where this value is signed and by 0 where it is not (clauses 5.4 and
    /// 5.5). The answer has the mark given.
    pub fn resize(self, width: u32, signed: bool) -> Fours
        requires some { 1 ≤ width }
        requires most { width ≤ WIDEST }
        ensures value { result ≡ resize_of self width signed }
        ensures width { length result.bits ≡ width }
    {
        let planes = self.planes().filled(self.width(), self.extension());
        Fours::low_bits(width, signed, planes)
    }

    /// The logical value: 1 where a bit is 1, 0 where all are 0, else x (clauses 5.1.9 and 9.4).
    pub fn truth(self) -> Bit
        ensures { result ≡ truth_of self.bits }
    {
        if self.has_one() {
            return Bit::One;
        }
        if self.is_known() { Bit::Zero } else { Bit::X }
    }

    fn all_one(self) -> Bit
        ensures { result ≡ fold and_bit Bit.One self.bits }
    {
        if self.has_zero() {
            return Bit::Zero;
        }
        if self.is_known() { Bit::One } else { Bit::X }
    }

    fn parity(self) -> Bit
        ensures { result ≡ fold xor_bit Bit.Zero self.bits }
    {
        if !self.is_known() {
            return Bit::X;
        }
        Bit::of(self.number().count_ones() % 2 == 1)
    }

    /// The operator between all bits, z as x (clause 5.1.11).
    #[tactic(auto, using(crate::proofs::OperatorLemmas::fold_or), unfolding(crate::specs::Operators::reduce_of))]
    pub fn reduce(self, fold: Fold) -> Bit
        ensures { result ≡ reduce_of fold self.bits }
    {
        match fold {
            Fold::And => self.all_one(),
            Fold::Nand => self.all_one().not(),
            Fold::Or => self.truth(),
            Fold::Nor => self.truth().not(),
            Fold::Xor => self.parity(),
            Fold::Xnor => self.parity().not(),
        }
    }

    /// A unary operator. `+`, `-` and `~` keep the width and the mark, the others give one bit, unsigned.
    #[tactic(auto, unfolding(crate::specs::Choices::unary_of))]
    pub fn unary(self, op: UnaryOp) -> Fours
        ensures value { result ≡ unary_of op self }
        ensures width { length result.bits ≡ (if is_wide op then length self.bits else 1) }
    {
        match op {
            UnaryOp::Plus => self.plus(),
            UnaryOp::Minus => self.neg(),
            UnaryOp::LogicalNot => Fours::of_bit(self.truth().not()),
            UnaryOp::BitNot => self.not(),
            UnaryOp::ReduceAnd => Fours::of_bit(self.reduce(Fold::And)),
            UnaryOp::ReduceNand => Fours::of_bit(self.reduce(Fold::Nand)),
            UnaryOp::ReduceOr => Fours::of_bit(self.reduce(Fold::Or)),
            UnaryOp::ReduceNor => Fours::of_bit(self.reduce(Fold::Nor)),
            UnaryOp::ReduceXor => Fours::of_bit(self.reduce(Fold::Xor)),
            UnaryOp::ReduceXnor => Fours::of_bit(self.reduce(Fold::Xnor)),
        }
    }

    /// A binary operator. The operands need one width, except for shifts, `&&` and `||`. Comparisons, `&&` and `||` give
    /// one bit, unsigned, the others the width of `self`. A shift has the mark of `self`, and every other operator of that
    /// width is signed where both operands are. A comparison is signed where both operands are.
    #[tactic(auto, unfolding(crate::specs::Choices::binary_of))]
    pub fn binary(self, op: BinaryOp, other: Fours) -> Fours
        requires { is_free op ≡ false → length self.bits ≡ length other.bits }
        ensures value { result ≡ binary_of op self other }
        ensures width { length result.bits ≡ (if is_narrow op then 1 else length self.bits) }
    {
        match op {
            BinaryOp::LogicalOr => Fours::of_bit(self.truth().or(other.truth())),
            BinaryOp::LogicalAnd => Fours::of_bit(self.truth().and(other.truth())),
            BinaryOp::BitOr => self.or(other),
            BinaryOp::BitXor => self.xor(other),
            BinaryOp::BitXnor => self.xnor(other),
            BinaryOp::BitAnd => self.and(other),
            BinaryOp::Equal => Fours::of_bit(self.eq(other)),
            BinaryOp::NotEqual => Fours::of_bit(self.eq(other).not()),
            BinaryOp::CaseEqual => Fours::of_bit(self.eqq(other)),
            BinaryOp::CaseNotEqual => Fours::of_bit(self.eqq(other).not()),
            BinaryOp::Less => Fours::of_bit(self.lt(other)),
            BinaryOp::LessEqual => Fours::of_bit(self.le(other)),
            BinaryOp::Greater => Fours::of_bit(other.lt(self)),
            BinaryOp::GreaterEqual => Fours::of_bit(other.le(self)),
            BinaryOp::ShiftLeft => self.shl(other),
            BinaryOp::ShiftRight => self.shr(other),
            BinaryOp::ArithmeticShiftLeft => self.shl(other),
            BinaryOp::ArithmeticShiftRight => self.arithmetic_shr(other),
            BinaryOp::Add => self.add(other),
            BinaryOp::Subtract => self.sub(other),
            BinaryOp::Multiply => self.mul(other),
            BinaryOp::Divide => self.div(other),
            BinaryOp::Remainder => self.rem(other),
        }
    }
}

impl Bit {
    /// 1 for true and 0 for false.
    fn of(test: bool) -> Bit
        ensures { result ≡ digit test }
    {
        if test { Bit::One } else { Bit::Zero }
    }

    fn is_one(self) -> bool
        ensures { result ≡ is_one self }
    {
        match self {
            Bit::One => true,
            _ => false,
        }
    }

    /// z counts as x.
    fn settled(self) -> Bit
        ensures { result ≡ settled_bit self }
    {
        match self {
            Bit::Z => Bit::X,
            bit => bit,
        }
    }

    fn not(self) -> Bit
        ensures { result ≡ not_bit self }
    {
        match self {
            Bit::Zero => Bit::One,
            Bit::One => Bit::Zero,
            _ => Bit::X,
        }
    }

    fn and(self, other: Bit) -> Bit
        ensures { result ≡ and_bit self other }
    {
        match (self, other) {
            (Bit::Zero, _) | (_, Bit::Zero) => Bit::Zero,
            (Bit::One, Bit::One) => Bit::One,
            _ => Bit::X,
        }
    }

    fn or(self, other: Bit) -> Bit
        ensures { result ≡ or_bit self other }
    {
        match (self, other) {
            (Bit::One, _) | (_, Bit::One) => Bit::One,
            (Bit::Zero, Bit::Zero) => Bit::Zero,
            _ => Bit::X,
        }
    }
}
