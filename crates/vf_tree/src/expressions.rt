use crate::{Name, Number};
use sqlite_items::{Boxed, Items};
use vf_base::Place;
use vf_fours::{BinaryOp, UnaryOp};

/// An expression (clause 4; Annex A.8.3).
#[cycle(expressions)]
#[derive(Drop)]
pub struct TreeExpr {
    pub place: Place,
    pub form: Boxed<ExprForm>,
}

/// What an expression is made of. The tree says how tight its operators bind: there are no parentheses but those that stand in
/// the text.
#[cycle(expressions)]
#[derive(Drop)]
pub enum ExprForm {
    /// A primary without an operator.
    Plain(Primary),
    /// A unary operator and its operand.
    One {
        op: UnaryOp,
        of: TreeExpr,
    },
    /// A binary operator between its operands.
    Two {
        op: BinaryOp,
        left: TreeExpr,
        right: TreeExpr,
    },
    /// The conditional operator: `cond ? yes : no` (clause 5.1.13).
    Pick {
        cond: TreeExpr,
        yes: TreeExpr,
        no: TreeExpr,
    },
}

/// An operand (clause 5.2; Annex A.8.4).
#[cycle(expressions)]
#[derive(Drop)]
pub struct Primary {
    pub place: Place,
    pub form: PrimaryForm,
}

/// What an operand is.
#[cycle(expressions)]
#[derive(Drop)]
pub enum PrimaryForm {
    Number(Number),
    /// A name, with two selects at most.
    Name {
        name: Name,
        selects: Items<Select>,
    },
    /// An expression in parentheses.
    Paren(TreeExpr),
    /// A concatenation of one part or more (clause 5.1.14).
    Concat(Items<TreeExpr>),
    /// A replication: `{count{parts}}` (clause 5.1.14).
    Repeat {
        count: TreeExpr,
        parts: Items<TreeExpr>,
    },
    /// `$time` (clause 17.7.1).
    Time,
    /// `$feof` of a file descriptor (clause 17.2.4).
    Feof(TreeExpr),
    /// `$signed` or `$unsigned` of an expression (clause 5.5).
    Sign {
        call: SignCall,
        of: TreeExpr,
    },
}

/// The functions that set a sign mark (clause 5.5).
#[derive(Clone, Copy, Debug, PartialEq, Eq)]
pub enum SignCall {
    Signed,
    Unsigned,
}

/// An index or a part in brackets after a name (clause 5.2.1).
#[cycle(expressions)]
#[derive(Drop)]
pub struct Select {
    pub place: Place,
    pub form: SelectForm,
}

/// Which bits or element a select takes.
#[cycle(expressions)]
#[derive(Drop)]
pub enum SelectForm {
    /// `[index]`: a bit, or an element of a memory.
    One(TreeExpr),
    /// `[left:right]`.
    Part { left: TreeExpr, right: TreeExpr },
    /// `[base+:width]`.
    Up { base: TreeExpr, width: TreeExpr },
    /// `[base-:width]`.
    Down { base: TreeExpr, width: TreeExpr },
}
