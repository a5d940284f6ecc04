use crate::{Name, Number, Quoted, Select, TreeExpr};
use sqlite_items::{Boxed, Items};
use vf_base::Place;

/// What is assigned to: a variable, a net, or a part of one (Annex A.8.5).
#[cycle(targets)]
#[derive(Drop)]
pub struct Target {
    pub place: Place,
    pub form: TargetForm,
}

/// A name or a concatenation of targets.
#[cycle(targets)]
#[derive(Drop)]
pub enum TargetForm {
    /// A name, with two selects at most.
    Name { name: Name, selects: Items<Select> },
    /// One target or more, the most significant first.
    Concat(Items<Target>),
}

/// A delay: `#` and a number, a name, or an expression in parentheses (clause 9.7.1).
#[derive(Drop)]
pub struct Delay {
    pub place: Place,
    pub form: DelayForm,
}

/// How a delay is written.
#[derive(Drop)]
pub enum DelayForm {
    Number(Number),
    Name(Name),
    Expr(TreeExpr),
}

/// What stands after the `@` of an event control (clause 9.7.2).
#[derive(Drop)]
pub struct Events {
    pub place: Place,
    pub form: EventsForm,
}

/// Which events are waited for.
#[derive(Drop)]
pub enum EventsForm {
    /// `*` (clause 9.7.5).
    Star,
    /// `(*)` (clause 9.7.5).
    StarParen,
    /// A change of the named signal.
    Name(Name),
    /// One event or more in parentheses (clause 9.7.4).
    List {
        first: Event,
        more: Items<NextEvent>,
    },
}

/// A further event of a list, and what joins it to those before.
#[derive(Drop)]
pub struct NextEvent {
    pub join: EventJoin,
    pub event: Event,
}

/// The word or sign between two events; both mean the same (clause 9.7.4).
#[derive(Clone, Copy, Debug, PartialEq, Eq)]
pub enum EventJoin {
    Or,
    Comma,
}

/// A change or an edge of a signal or of one bit of it (clause 9.7.2).
#[derive(Drop)]
pub struct Event {
    pub place: Place,
    pub edge: Option<EdgeWord>,
    pub name: Name,
    pub bit: Option<TreeExpr>,
}

/// An edge (clause 9.7.2).
#[derive(Clone, Copy, Debug, PartialEq, Eq)]
pub enum EdgeWord {
    Posedge,
    Negedge,
}

/// A call of a system task (clause 17; `$save` and `$incsave`: Annex C.8).
#[derive(Drop)]
pub struct Task {
    pub place: Place,
    pub form: TaskForm,
}

/// The system tasks with their arguments.
#[derive(Drop)]
pub enum TaskForm {
    /// A task that prints. Without parentheses there are no arguments; in parentheses there is one or more.
    Show {
        task: ShowWord,
        args: Option<Items<Arg>>,
    },
    /// A task that saves the state under a name.
    Save {
        task: SaveWord,
        name: Quoted,
    },
    /// A task that ends the run. The number is `None` where there are no parentheses.
    End {
        task: EndWord,
        number: Option<TreeExpr>,
    },
}

/// The tasks that print (clause 17.1).
#[derive(Clone, Copy, Debug, PartialEq, Eq)]
pub enum ShowWord {
    Display,
    Write,
    Strobe,
    Monitor,
}

/// The tasks that save the state (Annex C.8).
#[derive(Clone, Copy, Debug, PartialEq, Eq)]
pub enum SaveWord {
    Save,
    IncSave,
}

/// The tasks that end a run (clause 17.4).
#[derive(Clone, Copy, Debug, PartialEq, Eq)]
pub enum EndWord {
    Finish,
    Stop,
}

/// An argument of a task that prints.
#[derive(Drop)]
pub struct Arg {
    pub place: Place,
    pub form: ArgForm,
}

/// A text, which may be a format, or a value.
#[derive(Drop)]
pub enum ArgForm {
    Quoted(Quoted),
    Expr(TreeExpr),
}

/// A statement (clause 9; Annex A.6.4).
#[cycle(statements)]
#[derive(Drop)]
pub struct Stmt {
    pub place: Place,
    pub form: Boxed<StmtForm>,
}

/// What a statement does.
#[cycle(statements)]
#[derive(Drop)]
pub enum StmtForm {
    /// `;` alone.
    Empty,
    /// `begin .. end`, with or without a name (clause 9.8.1).
    Block {
        name: Option<Name>,
        body: Items<Stmt>,
    },
    /// A blocking assignment (clause 9.2.1).
    Assign {
        target: Target,
        value: TreeExpr,
    },
    /// A blocking assignment of the next byte of a file (clause 17.2.4.1).
    Getc {
        target: Target,
        descriptor: TreeExpr,
    },
    /// A nonblocking assignment (clause 9.2.2).
    Post {
        target: Target,
        delay: Option<Delay>,
        value: TreeExpr,
    },
    /// `if`, with or without `else` (clause 9.4).
    If {
        cond: TreeExpr,
        yes: Stmt,
        no: Option<Stmt>,
    },
    /// `case`, `casez` or `casex`, with one item or more, of which one at most is a default (clause 9.5).
    Case {
        word: CaseWord,
        of: TreeExpr,
        items: Items<Citem>,
    },
    /// `while` (clause 9.6).
    While {
        cond: TreeExpr,
        body: Stmt,
    },
    /// `repeat` (clause 9.6).
    Repeat {
        count: TreeExpr,
        body: Stmt,
    },
    /// `forever` (clause 9.6).
    Forever(Stmt),
    /// `for (start = first; cond; step = next) body` (clause 9.6).
    For {
        start: Target,
        first: TreeExpr,
        cond: TreeExpr,
        step: Target,
        next: TreeExpr,
        body: Stmt,
    },
    /// A statement after a delay (clause 9.7.1).
    Delayed {
        delay: Delay,
        body: Stmt,
    },
    /// A statement after an event (clause 9.7.2).
    On {
        events: Events,
        body: Stmt,
    },
    /// A statement after a level (clause 9.7.6).
    Wait {
        cond: TreeExpr,
        body: Stmt,
    },
    /// A call of a system task.
    Task(Task),
}

/// The comparison of a `case` (clause 9.5.1).
#[derive(Clone, Copy, Debug, PartialEq, Eq)]
pub enum CaseWord {
    Case,
    Casez,
    Casex,
}

/// An item of a `case` (clause 9.5).
#[cycle(statements)]
#[derive(Drop)]
pub struct Citem {
    pub place: Place,
    pub form: CitemForm,
}

/// Expressions that choose a statement, or the default.
#[cycle(statements)]
#[derive(Drop)]
pub enum CitemForm {
    /// One expression or more.
    Labels { labels: Items<TreeExpr>, body: Stmt },
    /// The default, with or without its colon.
    Default { colon: bool, body: Stmt },
}
