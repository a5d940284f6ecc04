//! Targets, delays, events and tasks as text.

use crate::expressions::{spell_expression, spell_selects};
use crate::spelling::{DEEP, Spelling};
use vf_base::Memory;
use vf_tree::{
    Arg, ArgForm, Delay, DelayForm, EdgeWord, EndWord, Event, EventJoin, Events, EventsForm,
    SaveWord, ShowWord, Target, TargetForm, Task, TaskForm,
};

/// The targets with commas between them.
#[cycle(targets)]
fn spell_targets(depth: u32, targets: &[Target], into: &mut Spelling) -> Result<(), Memory> {
    let mut first = true;
    for target in targets {
        if !first {
            into.text(b",")?;
        }
        first = false;
        spell_target_within(depth, target, into)?;
    }
    Ok(())
}

#[cycle(targets)]
fn spell_target_form(depth: u32, form: &TargetForm, into: &mut Spelling) -> Result<(), Memory> {
    match form {
        TargetForm::Name { name, selects } => {
            into.name(name)?;
            spell_selects(selects.as_slice(), into)
        }
        TargetForm::Concat(targets) => {
            into.text(b"{")?;
            spell_targets(depth, targets.as_slice(), into)?;
            into.text(b"}")
        }
    }
}

/// Writes a target of at most so many levels; what is deeper is left out.
#[cycle(targets)]
fn spell_target_within(depth: u32, target: &Target, into: &mut Spelling) -> Result<(), Memory> {
    if depth == 0 {
        return Ok(());
    }
    into.place(target.place)?;
    spell_target_form(depth - 1, &target.form, into)
}

/// Writes a target.
pub fn spell_target(target: &Target, into: &mut Spelling) -> Result<(), Memory> {
    spell_target_within(DEEP, target, into)
}

/// Writes a delay with its `#`.
pub fn spell_delay(delay: &Delay, into: &mut Spelling) -> Result<(), Memory> {
    into.place(delay.place)?;
    into.text(b"#")?;
    match &delay.form {
        DelayForm::Number(number) => {
            into.place(number.place)?;
            into.number(number.value.ones())
        }
        DelayForm::Name(name) => into.name(name),
        DelayForm::Expr(tree) => {
            into.text(b"(")?;
            spell_expression(tree, into)?;
            into.text(b")")
        }
    }
}

fn edge_text(edge: EdgeWord) -> &'static [u8] {
    match edge {
        EdgeWord::Posedge => b"posedge ",
        EdgeWord::Negedge => b"negedge ",
    }
}

fn spell_event(event: &Event, into: &mut Spelling) -> Result<(), Memory> {
    into.place(event.place)?;
    if let Some(edge) = event.edge {
        into.text(edge_text(edge))?;
    }
    into.name(&event.name)?;
    if let Some(bit) = &event.bit {
        into.text(b"[")?;
        spell_expression(bit, into)?;
        into.text(b"]")?;
    }
    Ok(())
}

fn join_text(join: EventJoin) -> &'static [u8] {
    match join {
        EventJoin::Or => b" or ",
        EventJoin::Comma => b",",
    }
}

/// Writes events without their `@`.
pub fn spell_events(events: &Events, into: &mut Spelling) -> Result<(), Memory> {
    into.place(events.place)?;
    match &events.form {
        EventsForm::Star => into.text(b"*"),
        EventsForm::StarParen => into.text(b"(*)"),
        EventsForm::Name(name) => into.name(name),
        EventsForm::List { first, more } => {
            into.text(b"(")?;
            spell_event(first, into)?;
            for next in more.as_slice() {
                into.text(join_text(next.join))?;
                spell_event(&next.event, into)?;
            }
            into.text(b")")
        }
    }
}

fn spell_arg(arg: &Arg, into: &mut Spelling) -> Result<(), Memory> {
    into.place(arg.place)?;
    match &arg.form {
        ArgForm::Quoted(quoted) => into.quoted(quoted),
        ArgForm::Expr(tree) => spell_expression(tree, into),
    }
}

fn spell_args(args: &[Arg], into: &mut Spelling) -> Result<(), Memory> {
    into.text(b"(")?;
    let mut first = true;
    for arg in args {
        if !first {
            into.text(b",")?;
        }
        first = false;
        spell_arg(arg, into)?;
    }
    into.text(b")")
}

fn show_text(task: ShowWord) -> &'static [u8] {
    match task {
        ShowWord::Display => b"$display",
        ShowWord::Write => b"$write",
        ShowWord::Strobe => b"$strobe",
        ShowWord::Monitor => b"$monitor",
    }
}

fn save_text(task: SaveWord) -> &'static [u8] {
    match task {
        SaveWord::Save => b"$save",
        SaveWord::IncSave => b"$incsave",
    }
}

fn end_text(task: EndWord) -> &'static [u8] {
    match task {
        EndWord::Finish => b"$finish",
        EndWord::Stop => b"$stop",
    }
}

/// Writes a call of a system task without its `;`.
pub fn spell_task(task: &Task, into: &mut Spelling) -> Result<(), Memory> {
    into.place(task.place)?;
    match &task.form {
        TaskForm::Show { task, args } => {
            into.text(show_text(*task))?;
            match args {
                Some(args) => spell_args(args.as_slice(), into),
                None => Ok(()),
            }
        }
        TaskForm::Save { task, name } => {
            into.text(save_text(*task))?;
            into.text(b"(")?;
            into.quoted(name)?;
            into.text(b")")
        }
        TaskForm::End { task, number } => {
            into.text(end_text(*task))?;
            if let Some(number) = number {
                into.text(b"(")?;
                spell_expression(number, into)?;
                into.text(b")")?;
            }
            Ok(())
        }
    }
}
