use sqlite_items::{Boxed, Items};
use vf_base::SigNo;
use vf_fours::{BinaryOp, Fours, UnaryOp};

/// An expression whose widths and sign marks are settled (IEEE Std 1364-2005, clauses 5.4 and 5.5). The width and mark that an
/// operator, a choice or a concatenation carries are those of its value. A `Resize` stands wherever the rules for sizes
/// and signs change a width or a mark.
#[derive(Drop)]
pub enum Expr {
    /// A number (clause 3.5).
    Const(Fours),
    /// A signal, or one element of it (clause 5.2). The element is counted by its declared address; the value is x where the
    /// address is unknown or outside the memory.
    Read {
        sig: SigNo,
        element: Option<Boxed<Expr>>,
    },
    /// Bits of a value (clause 5.2.1). The least of them is bit `scale * low + shift`, counted from the least bit of `of`; `scale`
    /// is 1 or -1 by the direction of the declaration. Bits outside, or at an unknown place, are x.
    Select {
        of: Boxed<Expr>,
        low: Boxed<Expr>,
        scale: i64,
        shift: i64,
        width: u32,
    },
    /// A unary operator (clause 5.1).
    One {
        op: UnaryOp,
        of: Boxed<Expr>,
        width: u32,
        signed: bool,
    },
    /// A binary operator (clause 5.1).
    Two {
        op: BinaryOp,
        left: Boxed<Expr>,
        right: Boxed<Expr>,
        width: u32,
        signed: bool,
    },
    /// The conditional operator (clause 5.1.13).
    Pick {
        cond: Boxed<Expr>,
        yes: Boxed<Expr>,
        no: Boxed<Expr>,
        width: u32,
        signed: bool,
    },
    /// A concatenation, the most significant part first; a replication is written out (clause 5.1.14).
    Join {
        parts: Items<Expr>,
        width: u32,
    },
    /// A value extended by its own sign mark, or cut, to a width; then with the mark given (clauses 5.4 and 5.5).
    Resize {
        of: Boxed<Expr>,
        width: u32,
        signed: bool,
    },
    /// `$time`: 64 bits, unsigned (clause 17.7.1).
    Now,
    /// `$feof` of a file descriptor: 32 bits, signed (clause 17.2.9).
    PastEnd(Boxed<Expr>),
}
