ghost use Rattle.std.specs.Prelude.{◌≡◌, ◌≤◌, ◌&&◌};
ghost use Rattle.vf_size.specs.Rules.{bit, common, shape_of_value};

use std::marker::Model;
use vf_fours::Fours;

/// A width from 1 to 128 bits, and a sign mark (clauses 5.4 and 5.5).
#[derive(Clone, Copy, Debug)]
pub struct Shape {
    width: u32,
    signed: bool,
}

// Clauses see both as they are.
impl Model for Shape {
    ghost use Rattle.vf_elaborated.specs.Shapes.{Shape};

    ghost Value = { Shape };

    ghost use Rattle.vf_size.specs.Inner.{view_of, IsShape, back, back_view};

    ghost view = { view_of };

    ghost invariant = { IsShape };

    ghost inverse = { back };

    ghost inverse_ok = { back_view };
}

impl Shape {
    /// A shape of its parts.
    pub fn new(width: u32, signed: bool) -> Shape
        requires some { 1 ≤ width }
        requires most { width ≤ 128 }
        ensures { result ≡ record { width = width; signed = signed } }
    {
        Shape { width, signed }
    }

    /// How many bits there are.
    pub fn width(&self) -> u32
        ensures value { result ≡ self.now.width }
        ensures some { 1 ≤ result }
        ensures most { result ≤ 128 }
    {
        self.width
    }

    /// Whether a value of the shape is signed.
    pub fn is_signed(&self) -> bool
        ensures { result ≡ self.now.signed }
    {
        self.signed
    }

    /// The shape of a value.
    pub fn of(value: Fours) -> Shape
        ensures { result ≡ shape_of_value value }
    {
        Shape::new(value.width(), value.is_signed())
    }

    /// One bit, unsigned.
    pub(crate) fn bit() -> Shape
        ensures { result ≡ bit }
    {
        Shape::new(1, false)
    }

    /// The width of the larger, signed where both are.
    pub(crate) fn common(self, other: Shape) -> Shape
        ensures { result ≡ common self other }
    {
        let width = self.width().max(other.width());
        Shape::new(width, both(self.is_signed(), other.is_signed()))
    }

    /// The same width with a mark.
    pub(crate) fn marked(self, signed: bool) -> Shape
        ensures { result ≡ record { width = self.width; signed = signed } }
    {
        Shape::new(self.width(), signed)
    }
}

fn both(a: bool, b: bool) -> bool
    ensures { result ≡ (a && b) }
{
    a && b
}
