use crate::{Name, Stmt, Target, TreeExpr};
use sqlite_items::Items;
use vf_base::Place;

/// A design: one module or more (clause 12; Annex A.1.2).
#[derive(Drop)]
pub struct Source {
    pub place: Place,
    pub modules: Items<Module>,
}

/// A module (clause 12.1).
#[derive(Drop)]
pub struct Module {
    pub place: Place,
    pub name: Name,
    /// The parameters of the header, one or more where there is a list.
    pub params: Option<Items<Pparam>>,
    /// The port list: `None` without parentheses, and `Some(None)` where nothing stands between them.
    pub ports: Option<Option<Ports>>,
    pub items: Items<Item>,
}

/// A parameter of a header (clause 4.10.1).
#[derive(Drop)]
pub struct Pparam {
    pub place: Place,
    /// Whether the word `parameter` stands before it.
    pub parameter: bool,
    pub signed: bool,
    pub range: Option<Range>,
    pub name: Name,
    pub value: TreeExpr,
}

/// The ports of a header (clause 12.3).
#[derive(Drop)]
pub struct Ports {
    pub place: Place,
    pub form: PortsForm,
}

/// The two styles of a port list.
#[derive(Drop)]
pub enum PortsForm {
    /// Names alone, whose directions are items of the module (clause 12.3.3).
    Names(Items<Name>),
    /// Declarations of ports (clause 12.3.4).
    Declared { first: Hport, more: Items<Aport> },
}

/// A declaration of a port in a header (clause 12.3.4).
#[derive(Drop)]
pub struct Hport {
    pub place: Place,
    pub dir: Dir,
    pub word: Option<NetOrReg>,
    pub signed: bool,
    pub range: Option<Range>,
    pub name: Name,
}

/// A port after the first one of a header with declarations.
#[derive(Drop)]
pub struct Aport {
    pub place: Place,
    pub form: AportForm,
}

/// A declaration, or a name that repeats the form of the last one.
#[derive(Drop)]
pub enum AportForm {
    Declared(Hport),
    Name(Name),
}

/// A direction (clause 12.3.3).
#[derive(Clone, Copy, Debug, PartialEq, Eq)]
pub struct Dir {
    pub place: Place,
    pub word: DirWord,
}

/// Which direction.
#[derive(Clone, Copy, Debug, PartialEq, Eq)]
pub enum DirWord {
    Input,
    Output,
}

/// What a port is besides its direction.
#[derive(Clone, Copy, Debug, PartialEq, Eq)]
pub enum NetOrReg {
    Wire,
    Reg,
}

/// The range of a vector or of the addresses of a memory: `[left:right]` (clause 4.3.1).
#[derive(Drop)]
pub struct Range {
    pub place: Place,
    pub left: TreeExpr,
    pub right: TreeExpr,
}

/// An item of a module (Annex A.1.4).
#[derive(Drop)]
pub struct Item {
    pub place: Place,
    pub form: ItemForm,
}

/// What an item declares or makes.
#[derive(Drop)]
pub enum ItemForm {
    /// The direction of ports (clause 12.3.3).
    Ports {
        dir: Dir,
        word: Option<NetOrReg>,
        signed: bool,
        range: Option<Range>,
        names: Items<Name>,
    },
    /// Nets (clause 4.2.1).
    Nets {
        word: NetWord,
        signed: bool,
        range: Option<Range>,
        nets: Items<Net>,
    },
    /// Variables (clause 4.2.2).
    Vars {
        of: VarType,
        vars: Items<Var>,
    },
    /// Parameters (clause 4.10).
    Params {
        word: ParamWord,
        signed: bool,
        range: Option<Range>,
        params: Items<ParamPart>,
    },
    /// Continuous assignments (clause 6.1).
    Assign(Items<AssignPart>),
    /// Instances of a module, with the overrides of its parameters (clause 12.1.2).
    Insts {
        module: Name,
        overrides: Option<Conns>,
        insts: Items<Inst>,
    },
    /// A process that runs once (clause 9.9.1).
    Initial(Stmt),
    /// A process that runs again and again (clause 9.9.2).
    Always(Stmt),
}

/// The kinds of nets.
#[derive(Clone, Copy, Debug, PartialEq, Eq)]
pub enum NetWord {
    Wire,
    Tri,
}

/// The type of variables (clause 4.2.2).
#[derive(Drop)]
pub enum VarType {
    Reg { signed: bool, range: Option<Range> },
    Integer,
    Time,
}

/// The kinds of parameters (clause 4.10).
#[derive(Clone, Copy, Debug, PartialEq, Eq)]
pub enum ParamWord {
    Parameter,
    Localparam,
}

/// A net of a declaration, with what drives it where that is given (clause 6.1.1).
#[derive(Drop)]
pub struct Net {
    pub place: Place,
    pub name: Name,
    pub value: Option<TreeExpr>,
}

/// A variable of a declaration.
#[derive(Drop)]
pub struct Var {
    pub place: Place,
    pub form: VarForm,
}

/// A variable or a memory, or a variable with its value at time zero.
#[derive(Drop)]
pub enum VarForm {
    /// With a range it is a memory, and the range is that of its addresses (clause 4.9).
    Plain { name: Name, range: Option<Range> },
    Set { name: Name, value: TreeExpr },
}

/// A parameter of an item and its value.
#[derive(Drop)]
pub struct ParamPart {
    pub name: Name,
    pub value: TreeExpr,
}

/// One assignment of an `assign` (clause 6.1.2).
#[derive(Drop)]
pub struct AssignPart {
    pub target: Target,
    pub value: TreeExpr,
}

/// An instance (clause 12.1.2).
#[derive(Drop)]
pub struct Inst {
    pub place: Place,
    pub name: Name,
    /// The connections: `None` where nothing stands between the parentheses.
    pub conns: Option<Conns>,
}

/// Connections of ports, or overrides of parameters (clauses 12.2.2, 12.3.5 and 12.3.6).
#[derive(Drop)]
pub struct Conns {
    pub place: Place,
    pub form: ConnsForm,
}

/// Connections by place or by name.
#[derive(Drop)]
pub enum ConnsForm {
    /// One by place.
    One(TreeExpr),
    /// Two or more by place, of which each may be left empty.
    Places(Items<Option<TreeExpr>>),
    /// One or more by name.
    Names(Items<NamedConn>),
}

/// A connection by name: `.name(value)`, where the value may be left out.
#[derive(Drop)]
pub struct NamedConn {
    pub name: Name,
    pub value: Option<TreeExpr>,
}
