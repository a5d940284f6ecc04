//! What an expression is worth (IEEE Std 1364-2005, clauses 4 and 5).
ghost use Rattle.std.specs.Prelude.{◌≡◌, ◌<◌, true, length, if◌then◌else◌};
ghost use Rattle.vf_fours.specs.Bits.{is_one};
ghost use Rattle.vf_elaborated.specs.Shapes.{is_scale, is_width};
ghost use Rattle.vf_elaborated.specs.WellFormed.{is_expr};
ghost use Rattle.vf_elaborated.specs.Layout.{HoldsValues, scene_at};
ghost use Rattle.vf_elaborated.specs.Values.{worth_of, selected_of, low_of, is_stimulus, past_end_of};
ghost use Rattle.vf_expr.specs.Joins.{IsJoin, join_of};

use crate::places::place;
use crate::read::{value, value_by};
use vf_elaborated::{Design, Expr};
use vf_fours::{Bit, Fours};
use vf_machine::Words;

/// Bits of a value from a place on; x without a place.
fn selected_at(of: Fours, low: Option<i64>, width: u32) -> Fours
    requires width { is_width width ≡ true }
    ensures { result ≡ selected_of of low width }
{
    match low {
        Some(low) => of.select(low, width),
        None => Fours::all_x(width, false),
    }
}

/// Bits of a value, the least of them at `scale * index + shift`; x where the place is unknown or outside (clause 5.2.1).
pub fn selected(of: Fours, index: Fours, scale: i64, shift: i64, width: u32) -> Fours
    requires scale { is_scale scale ≡ true }
    requires width { is_width width ≡ true }
    ensures { result ≡ selected_of of (low_of scale shift index) width }
{
    // A value has at most 128 bits.
    let _width = of.width();
    selected_at(of, place(index, scale, i128::from(shift)), width)
}

/// Whether a file descriptor is that of the stimulus.
#[tactic(auto, unfolding(vf_elaborated::specs::Values::is_stimulus))]
fn is_stimulus(descriptor: Fours) -> bool
    ensures { result ≡ is_stimulus descriptor }
{
    let stimulus = Fours::known(32, false, 1 << 31);
    is_one(descriptor.resize(32, false).eqq(stimulus))
}

fn is_one(bit: Bit) -> bool
    ensures { result ≡ is_one bit }
{
    match bit {
        Bit::One => true,
        _ => false,
    }
}

/// The value of `$feof`.
fn past_end(past_end: bool, descriptor: Fours) -> Fours
    ensures { result ≡ past_end_of past_end descriptor }
{
    Fours::known(32, true, feof(past_end, is_stimulus(descriptor)))
}

/// 0 on the stimulus while no read has gone past its end, else 1.
fn feof(past_end: bool, stimulus: bool) -> u128
    ensures { result ≡ (if stimulus then (if past_end then 1 else 0) else 1) }
{
    if stimulus && !past_end { 0 } else { 1 }
}

/// The parts of a concatenation, the first above the others. There is one, or more.
#[cycle(evaluation)]
fn joined<W: Words>(design: &Design, words: &W, parts: &[Expr]) -> Fours
    requires some { 0 < length parts.now }
    requires formed { IsJoin design.now.signals parts.now }
    requires held { HoldsValues design.now (W.contents words.now) }
    ensures { result ≡ join_of design.now.signals parts.now (scene_at design.now (W.past_end words.now) (W.contents words.now)) }
{
    match parts {
        [] => Fours::all_x(1, false),
        [part] => eval(design, words, part).marked(false),
        [part, rest @ ..] => eval(design, words, part).concat(joined(design, words, rest)),
    }
}

/// What an expression is worth. It is well formed for the design, and each value in the words has its width.
#[cycle(evaluation)]
pub fn eval<W: Words>(design: &Design, words: &W, e: &Expr) -> Fours
    requires formed { is_expr design.now.signals e.now ≡ true }
    requires held { HoldsValues design.now (W.contents words.now) }
    ensures { result ≡ worth_of design.now.signals e.now (scene_at design.now (W.past_end words.now) (W.contents words.now)) }
{
    match e {
        Expr::Const(value) => *value,
        Expr::Read { sig, element } => match element {
            None => value(design, words, *sig, 0),
            Some(element) => {
                let address = eval(design, words, element.get());
                value_by(design, words, *sig, address)
            }
        },
        Expr::Select {
            of,
            low,
            scale,
            shift,
            width,
        } => {
            let of = eval(design, words, of.get());
            let index = eval(design, words, low.get());
            selected(of, index, *scale, *shift, *width)
        }
        Expr::One { op, of, .. } => eval(design, words, of.get()).unary(*op),
        Expr::Two {
            op,
            left,
            right,
            ..
        } => {
            let left = eval(design, words, left.get());
            left.binary(*op, eval(design, words, right.get()))
        }
        Expr::Pick { cond, yes, no, .. } => match eval(design, words, cond.get()).truth() {
            Bit::One => eval(design, words, yes.get()),
            Bit::Zero => eval(design, words, no.get()),
            _ => {
                let yes = eval(design, words, yes.get());
                yes.merge(eval(design, words, no.get()))
            }
        },
        Expr::Join { parts, .. } => joined(design, words, parts.as_slice()),
        Expr::Resize { of, width, signed } => {
            eval(design, words, of.get()).resize(*width, *signed)
        }
        Expr::Now => Fours::known(64, false, u128::from(words.read(0))),
        Expr::PastEnd(of) => past_end(words.past_end(), eval(design, words, of.get())),
    }
}
