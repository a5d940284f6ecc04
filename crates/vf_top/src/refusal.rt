ghost use Rattle.std.specs.Prelude.{◌≡◌, ◌++◌, IfOk, IfSome, OnOk, None};
ghost use Rattle.vf_top.specs.Fault.{fault_text, fault_of, word_text, kind_text, node_text, status_of, limit_of};
ghost use Rattle.vf_top.specs.Steps.{HasMadeLine};

use crate::limits::{LONGEST_DESIGN, LONGEST_PLAN};
use std::alloc::Global;
use thiserror::Error;
use vf_base::{Memory, Text, write_decimal};
use vf_plan::{PlanFault, PlanKind};
use vf_words::WordFault;

/// One of the two files.
#[derive(Clone, Copy, Debug, PartialEq, Eq)]
pub enum What {
    Design,
    Plan,
}

/// Why a command ended without its output. The program prints its fault lines, and never the texts of
/// `Display`.
#[derive(Debug, Drop, Error)]
pub enum Refusal {
    /// The words of the command line are refused.
    #[error("the words are refused: {0:?}")]
    WrongWords(WordFault),
    /// The outside failed to give the file.
    #[error("a file was not read: {0:?}")]
    Failed(What),
    /// The file is longer than its limit.
    #[error("a file is above its limit: {0:?}")]
    TooLong(What),
    /// The bytes of the design are not an early design.
    #[error("the design is not an early design")]
    DesignNotBuilt,
    /// The words name another top module than the design's.
    #[error("the design has no top module of that name")]
    NoTop,
    /// The bytes of the plan are not a plan.
    #[error("the plan is refused: {0:?}")]
    WrongPlan(PlanFault),
    /// Mode solo names no test of the plan.
    #[error("the plan has nothing to run of the name {0:?}")]
    NoTest(Text),
    /// The output took less than the whole text.
    #[error("the output was not written")]
    Write,
    /// Out of memory.
    #[error("out of memory")]
    Memory,
}

impl What {
    /// The most bytes that the file may have.
    pub fn limit(self) -> u64
        ensures { result ≡ limit_of self }
    {
        match self {
            What::Design => LONGEST_DESIGN,
            What::Plan => LONGEST_PLAN,
        }
    }

    /// The fault line of a file that was not given.
    fn failed_line(self) -> &'static [u8]
        ensures { result.now ≡ fault_text (Refusal.Failed self) }
    {
        match self {
            What::Design => b"vfarm: read: design failed\n",
            What::Plan => b"vfarm: read: plan failed\n",
        }
    }

    /// The fault line of a file that is too long, with its limit and one.
    fn long_line(self) -> &'static [u8]
        ensures { result.now ≡ fault_text (Refusal.TooLong self) }
    {
        match self {
            What::Design => b"vfarm: read: design too long 1048577\n",
            What::Plan => b"vfarm: read: plan too long 67108865\n",
        }
    }
}

impl Refusal {
    /// The status that the program ends with.
    pub fn status(&self) -> u8
        ensures { result ≡ status_of self.now }
    {
        match self {
            Refusal::WrongWords(_) => 2,
            Refusal::DesignNotBuilt | Refusal::NoTop => 3,
            Refusal::WrongPlan(_) | Refusal::NoTest(_) => 4,
            Refusal::Failed(_) | Refusal::TooLong(_) => 6,
            Refusal::Write => 7,
            Refusal::Memory => 8,
        }
    }

    /// The fault line, where it is the same for each such refusal; it takes no memory, so that out of
    /// memory can be told. Any other line is made by [`made_line`].
    pub fn line(&self) -> Option<&'static [u8]>
        ensures line { IfSome result (λ line. line.now ≡ fault_text self.now) }
        ensures made { result ≡ None → HasMadeLine self.now }
    {
        match self {
            Refusal::Failed(what) => Some(what.failed_line()),
            Refusal::TooLong(what) => Some(what.long_line()),
            Refusal::DesignNotBuilt => Some(b"vfarm: design: early 1 NotBuilt\n"),
            Refusal::NoTop => Some(b"vfarm: design: elab 1 NoTop at 1:1\n"),
            Refusal::WrongWords(_) | Refusal::WrongPlan(_) | Refusal::NoTest(_) => None,
            Refusal::Write => Some(b"vfarm: write failed\n"),
            Refusal::Memory => Some(memory_line()),
        }
    }
}

/// The fault line of out of memory.
pub fn memory_line() -> &'static [u8]
    ensures { result.now ≡ fault_text Refusal.Memory }
{
    b"vfarm: memory\n"
}

fn kind_text(kind: PlanKind) -> &'static [u8]
    ensures { result.now ≡ kind_text kind }
{
    match kind {
        PlanKind::NotJson => b"1 NotJson",
        PlanKind::Shape => b"2 Shape",
        PlanKind::DuplicateName => b"3 DuplicateName",
        PlanKind::UnknownParent => b"4 UnknownParent",
        PlanKind::TooMany => b"5 TooMany",
        PlanKind::TooLong => b"6 TooLong",
        PlanKind::BadHex => b"7 BadHex",
        PlanKind::NoTest => b"8 NoTest",
        PlanKind::TooDeep => b"9 TooDeep",
        PlanKind::Memory => b"10 Memory",
    }
}

fn push(text: &[u8], into: &mut Vec<u8>) -> Result<(), Memory>
    ensures { OnOk result (into.new.items ≡ into.old.items ++ text.now) }
{
    into.extend_from_slice(text)?;
    Ok(())
}

fn push_text(text: &Text, into: &mut Vec<u8>) -> Result<(), Memory>
    ensures { OnOk result (into.new.items ≡ into.old.items ++ text.now) }
{
    push(text.bytes(), into)
}

/// Tells what is wrong with the words.
fn write_words(fault: &WordFault, into: &mut Vec<u8>) -> Result<(), Memory>
    ensures { OnOk result (into.new.items ≡ into.old.items ++ word_text fault.now) }
{
    match fault {
        WordFault::Refused => into.extend_from_slice(b"1 Refused")?,
        WordFault::Range(option) => {
            into.extend_from_slice(b"2 Range ")?;
            into.extend_from_slice(option.bytes())?;
        }
        WordFault::Files => into.extend_from_slice(b"3 Files")?,
        WordFault::Test => into.extend_from_slice(b"4 Test")?,
        WordFault::Memory => into.extend_from_slice(b"5 Memory")?,
    }
    Ok(())
}

/// Tells the node at fault, where there is one.
fn write_node(node: Option<u32>, into: &mut Vec<u8>) -> Result<(), Memory>
    ensures { OnOk result (into.new.items ≡ into.old.items ++ node_text node) }
{
    let Some(node) = node else {
        return Ok(());
    };
    into.extend_from_slice(b" at node ")?;
    write_decimal(u64::from(node), into)
}

/// Tells a refusal whose line has to be made.
fn write_fault(refusal: &Refusal, into: &mut Vec<u8>) -> Result<(), Memory>
    requires { HasMadeLine refusal.now }
    ensures { OnOk result (into.new.items ≡ into.old.items ++ fault_of refusal.now) }
{
    match refusal {
        Refusal::WrongWords(fault) => {
            into.extend_from_slice(b"words: ")?;
            write_words(fault, into)
        }
        Refusal::WrongPlan(fault) => {
            into.extend_from_slice(b"plan: ")?;
            into.extend_from_slice(kind_text(fault.kind))?;
            write_node(fault.node, into)
        }
        Refusal::NoTest(name) => {
            push(b"plan: no test ", into)?;
            push_text(name, into)
        }
        Refusal::Failed(_)
        | Refusal::TooLong(_)
        | Refusal::DesignNotBuilt
        | Refusal::NoTop
        | Refusal::Write
        | Refusal::Memory => unreachable!(),
    }
}

/// The fault line of a refusal whose line has to be made.
pub fn made_line(alloc: Global, refusal: &Refusal) -> Result<Vec<u8>, Memory>
    requires { HasMadeLine refusal.now }
    ensures { IfOk result (λ line. line.items ≡ fault_text refusal.now) }
{
    let mut line = Vec::from_slice(alloc, b"vfarm: ")?;
    write_fault(refusal, &mut line)?;
    line.extend_from_slice(b"\n")?;
    Ok(line)
}
