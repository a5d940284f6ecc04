//! The syntax tree of a design: one type for each rule of the grammar (docs/LANGUAGE.md, "Grammar"), with the rule's parts in
//! order and the [`Place`](vf_base::Place) of its first token.
//!
//! It stands on vf_base (`Place`, `Text`), vf_fours (the values of numbers, the operators) and the kit's `sqlite_items`, whose
//! `Boxed` and `Items` contracts see as what they hold: so a tree is plain data to a contract, and two trees are one where
//! their parts are. The layers above rest on the types alone; nothing here computes.
#![tactic(auto)]

mod expressions;
mod modules;
mod statements;
mod words;

pub use expressions::{ExprForm, Primary, PrimaryForm, Select, SelectForm, SignCall, TreeExpr};
pub use modules::{
    Aport, AportForm, AssignPart, Conns, ConnsForm, Dir, DirWord, Hport, Inst, Item, ItemForm,
    Module, NamedConn, Net, NetOrReg, NetWord, ParamPart, ParamWord, Ports, PortsForm, Pparam,
    Range, Source, Var, VarForm, VarType,
};
pub use statements::{
    Arg, ArgForm, CaseWord, Citem, CitemForm, Delay, DelayForm, EdgeWord, EndWord, Event,
    EventJoin, Events, EventsForm, NextEvent, SaveWord, ShowWord, Stmt, StmtForm, Target,
    TargetForm, Task, TaskForm,
};
pub use words::{Name, Number, Quoted};
