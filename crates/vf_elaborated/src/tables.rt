//! Which processes wait for each signal, and which drive each net (docs/LANGUAGE.md, "Elaborated designs").
ghost use Rattle.std.specs.Prelude.{◌≡◌, ◌<◌, ◌^◌, length, IfOk, OnOk};
ghost use Rattle.std.specs.List.{list_any};
ghost use Rattle.vf_elaborated.specs.Values.{reads_signal};
ghost use Rattle.vf_elaborated.specs.Tables.{may_wake, may_wait, is_event_on, is_piece_on, names_net, drives, numbers_from};
ghost use Rattle.vf_elaborated.specs.Noting.{noted, tables};

use crate::lists::Lists;
use crate::{Event, Expr, Instr, Process, TargetPiece};
use std::alloc::Global;
use vf_base::Memory;

/// The processes that can wait for each signal.
pub fn watchers(alloc: Global, signals: usize, processes: &[Process]) -> Result<Lists, Memory>
    requires few { length processes.now < 2 ^ 32 }
    ensures { IfOk result (λ lists. lists ≡ tables may_wait processes.now signals) }
{
    let mut lists = Lists::new(alloc, signals)?;
    let mut number = 0;
    for process in processes {
        note_code(&mut lists, number, process.code.as_slice())?;
        number += 1;
    }
    Ok(lists)
}

/// The processes that drive each net.
pub fn drivers_by_net(alloc: Global, signals: usize, processes: &[Process]) -> Result<Lists, Memory>
    requires few { length processes.now < 2 ^ 32 }
    ensures { IfOk result (λ lists. lists ≡ tables drives processes.now signals) }
{
    let mut lists = Lists::new(alloc, signals)?;
    let mut number = 0;
    for process in processes {
        note_drives(&mut lists, number, process)?;
        number += 1;
    }
    Ok(lists)
}

/// Notes a process for each net that it drives.
fn note_drives(lists: &mut Lists, number: u32, process: &Process) -> Result<(), Memory>
    ensures { OnOk result (lists.new ≡ noted number (λ net. drives net process.now) lists.old) }
{
    if process.driver.is_none() {
        return Ok(());
    }
    match process.target() {
        Some(target) => note_pieces(lists, number, target.0.as_slice()),
        None => Ok(()),
    }
}

/// Notes a process for the net of each piece.
fn note_pieces(lists: &mut Lists, number: u32, pieces: &[TargetPiece]) -> Result<(), Memory>
    ensures { OnOk result (lists.new ≡ noted number (λ net. list_any (is_piece_on net) pieces.now) lists.old) }
{
    for piece in pieces {
        note_piece(lists, number, piece)?;
    }
    Ok(())
}

/// Notes a process for the net of a piece.
#[tactic(auto, unfolding(crate::specs::Tables::is_piece_on))]
fn note_piece(lists: &mut Lists, number: u32, piece: &TargetPiece) -> Result<(), Memory>
    ensures { OnOk result (lists.new ≡ noted number (λ net. is_piece_on net piece.now) lists.old) }
{
    lists.note(piece.sig.0, number)
}

/// Notes a process for each signal that its code can wait for.
fn note_code(lists: &mut Lists, number: u32, code: &[Instr]) -> Result<(), Memory>
    ensures { OnOk result (lists.new ≡ noted number (λ sig. list_any (may_wake sig) code.now) lists.old) }
{
    for instr in code {
        note_instr(lists, number, instr)?;
    }
    Ok(())
}

/// Notes a process for each signal whose change may wake it at an instruction.
fn note_instr(lists: &mut Lists, number: u32, instr: &Instr) -> Result<(), Memory>
    ensures { OnOk result (lists.new ≡ noted number (λ sig. may_wake sig instr.now) lists.old) }
{
    match instr {
        Instr::Await(events) => note_events(lists, number, events.as_slice()),
        Instr::Until(e) => note_reads(lists, number, e),
        Instr::Drive(_, e) => note_reads(lists, number, e),
        _ => Ok(()),
    }
}

/// Notes a process for the signal of each event.
fn note_events(lists: &mut Lists, number: u32, events: &[Event]) -> Result<(), Memory>
    ensures { OnOk result (lists.new ≡ noted number (λ sig. list_any (is_event_on sig) events.now) lists.old) }
{
    for event in events {
        note_event(lists, number, event)?;
    }
    Ok(())
}

/// Notes a process for the signal of an event.
#[tactic(auto, unfolding(crate::specs::Tables::is_event_on))]
fn note_event(lists: &mut Lists, number: u32, event: &Event) -> Result<(), Memory>
    ensures { OnOk result (lists.new ≡ noted number (λ sig. is_event_on sig event.now) lists.old) }
{
    lists.note(event.sig.0, number)
}

/// Notes a process for each signal that an expression reads, in its indices too.
fn note_reads(lists: &mut Lists, number: u32, e: &Expr) -> Result<(), Memory>
    ensures { OnOk result (lists.new ≡ noted number (λ sig. reads_signal sig e.now) lists.old) }
{
    match e {
        Expr::Const(_) => Ok(()),
        Expr::Now => Ok(()),
        Expr::Read { sig, element } => {
            lists.note(sig.0, number)?;
            match element {
                None => Ok(()),
                Some(element) => note_reads(lists, number, element.get()),
            }
        }
        Expr::Select { of, low, .. } => {
            note_reads(lists, number, of.get())?;
            note_reads(lists, number, low.get())
        }
        Expr::One { of, .. } => note_reads(lists, number, of.get()),
        Expr::Two { left, right, .. } => {
            note_reads(lists, number, left.get())?;
            note_reads(lists, number, right.get())
        }
        Expr::Pick { cond, yes, no, .. } => {
            note_reads(lists, number, cond.get())?;
            note_reads(lists, number, yes.get())?;
            note_reads(lists, number, no.get())
        }
        Expr::Join { parts, .. } => {
            for part in parts.as_slice() {
                note_reads(lists, number, part)?;
            }
            Ok(())
        }
        Expr::Resize { of, .. } => note_reads(lists, number, of.get()),
        Expr::PastEnd(of) => note_reads(lists, number, of.get()),
    }
}
