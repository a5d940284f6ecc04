ghost use Rattle.std.specs.Prelude.{◌≡◌, ◌-◌, ◌<◌, ◌^◌, length, nat_lt, IfOk};
ghost use Rattle.vf_machine.specs.Run.{turn_of};
ghost use Rattle.vf_design.specs.State as model;
ghost use Rattle.vf_design.specs.State.{IsSound};
ghost use Rattle.vf_design.specs.Words.{words_of, machine_of};
ghost use Rattle.vf_design.specs.Turn.{HoldsState, IsTurn};
ghost use Rattle.vf_kernel.specs.State.{state_of};

use crate::instruction::perform;
use crate::state::{State, Status};
use crate::write::start;
use vf_base::{Ending, Header, Limits, Memory};
use vf_design::{Design, Mark, Turn, Words};

/// Whether the next turn reads the stimulus: a process runs, and its instruction is a `$fgetc` of
/// standard input (IEEE Std 1364-2005, 17.2.4.1). The limit on turns is not looked at.
pub fn reads_next<W: Words>(design: &Design, words: &W) -> bool
    requires { HoldsState design.now (W.contents words.now) }
    ensures { (s : model.State) → IsSound design.now s → words_of design.now s ≡ W.contents words.now
        → result ≡ (machine_of design.now).at_read (W.past_end words.now) s }
{
    State::read(design, words).reads(design)
}

/// Performs one turn on the words of a sound state, and says in `into` what it changes; nothing is
/// changed yet. What `into` held goes, and its lists keep their room. The only refusal is that it is
/// out of memory; then nothing is known of `into`.
pub fn turn<W: Words>(
    design: &Design,
    words: &W,
    header: &Header,
    stim: &[u8],
    limits: &Limits,
    into: &mut Turn,
) -> Result<(), Memory>
    requires state { HoldsState design.now (W.contents words.now) }
    requires reads { header.now.reads < 2 ^ 64 - 1 }
    requires past { W.past_end words.now ≡ nat_lt (length stim.now) header.now.reads }
    ensures { IfOk result (λ _. (s : model.State) → IsSound design.now s → words_of design.now s ≡ W.contents words.now
        → IsTurn design.now s (turn_of (machine_of design.now) stim.now limits.now (record { state = s; header = header.now })) into.new) }
{
    let state = State::read(design, words);
    into.clear();
    if let Status::Halted = state.status {
        return ended(*header, Ending::Drained, into);
    }
    if limits.turns <= header.turns {
        return ended(*header, Ending::Turns, into);
    }
    let counted = Header {
        turns: header.turns + 1,
        ..*header
    };
    // A run that goes on from elsewhere may have written more than these limits allow.
    if limits.output < header.written {
        return ended(counted, Ending::Output, into);
    }
    begin(counted, into);
    match state.status {
        Status::Running => {
            let instr = design.code[state.place as usize];
            perform(instr, state, header, stim, limits, into)
        }
        _ => start(&mut into.writes),
    }
}

/// The turn is one that goes on; what it does is still to be told.
fn begin(counted: Header, into: &mut Turn)
    ensures { into.new ≡ record into.old { header = counted; mark = Mark.Plain } }
{
    into.header = counted;
    into.mark = Mark::Plain;
}

/// The turn ends the run and changes nothing.
fn ended(header: Header, ending: Ending, into: &mut Turn) -> Result<(), Memory>
    ensures { IfOk result (λ _. into.new ≡ record into.old { header = header; mark = Mark.Ended ending }) }
{
    into.header = header;
    into.mark = Mark::Ended(ending);
    Ok(())
}
