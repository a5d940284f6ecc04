use crate::Expr;
use sqlite_items::Items;
use vf_base::SigNo;

/// Where a part of an assigned value goes: a signal, an element of it, or bits of either (clause 9.2).
#[derive(Drop)]
pub struct TargetPiece {
    pub sig: SigNo,
    /// The declared address of an element. Nothing is assigned where it is unknown or outside the memory.
    pub element: Option<Expr>,
    /// The index of the least bit; `None` is the whole. The least bit is `scale * low + shift`, counted from the least bit of the
    /// signal; bits outside, or at an unknown place, are not assigned.
    pub low: Option<Expr>,
    /// 1 or -1, by the direction of the declaration.
    pub scale: i64,
    pub shift: i64,
    /// How many bits go there, from 1 to 128.
    pub width: u32,
}

/// The left side of an assignment, the most significant piece first.
#[derive(Drop)]
pub struct Target(pub Items<TargetPiece>);

/// Which changes an event control waits for (clause 9.7.1).
#[derive(Clone, Copy, Debug, PartialEq, Eq)]
pub enum Edge {
    /// Every change of a value.
    Any,
    /// `posedge`, of the least bit.
    Pos,
    /// `negedge`, of the least bit.
    Neg,
}

/// An event of an event control: a change of a signal, or of one bit of it counted from the least (clause 9.7).
#[derive(Clone, Copy, Debug, PartialEq, Eq)]
pub struct Event {
    pub edge: Edge,
    pub sig: SigNo,
    pub bit: Option<u32>,
}

/// How a case item is compared (clause 9.5).
#[derive(Clone, Copy, Debug, PartialEq, Eq)]
pub enum MatchKind {
    /// `case`: each bit is the same, x and z too.
    Case,
    /// `casez`: a z on a side matches any bit.
    Casez,
    /// `casex`: an x or z on a side matches any bit.
    Casex,
}

/// The tasks that print (clauses 17.1.1 and 17.1.2).
#[derive(Clone, Copy, Debug, PartialEq, Eq)]
pub enum ShowKind {
    Write,
    Display,
    /// It prints at the end of the time step.
    Strobe,
}

/// One instruction of a process. Places count the instructions of the process from 0; a number of a show counts the design's shows.
#[derive(Drop)]
pub enum Instr {
    /// A blocking assignment (clause 9.2.1).
    Set(Target, Expr),
    /// A blocking assignment of `$fgetc` of a file descriptor (clause 17.2.4.1).
    Getc(Target, Expr),
    /// A nonblocking assignment, with the expression of its delay (clause 9.2.2). Without one the delay is 0.
    Post(Target, Expr, Option<Expr>),
    /// A continuous assignment (clause 6.1).
    Drive(Target, Expr),
    /// Sets the hidden counter of a `repeat` to the number of rounds (clause 9.6).
    Count(SigNo, Expr),
    /// Goes to a place.
    Jump(u32),
    /// Goes on where the condition is true, and to the place otherwise (clause 9.4).
    Unless(Expr, u32),
    /// Goes on where an expression of the list matches the value, and to the place otherwise (clause 9.5).
    Match(MatchKind, Expr, Items<Expr>, u32),
    /// A delay control (clause 9.7).
    Delay(Expr),
    /// An event control (clause 9.7.2).
    Await(Items<Event>),
    /// A `wait` statement (clause 9.7.6).
    Until(Expr),
    /// A task that prints the show of this number.
    Show(ShowKind, u32),
    /// `$monitor` of the show of this number (clause 17.1.3).
    Watch(u32),
    /// `$save` (Annex C.7).
    Save,
    /// `$incsave` (Annex C.7).
    IncSave,
    /// `$finish` with a number (clause 17.4.1).
    Finish(u32),
    /// `$stop` with a number (clause 17.4.2).
    Stop(u32),
    /// Ends the process.
    Halt,
}
