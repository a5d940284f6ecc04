//! The line of a design and a plan that are accepted.

ghost use Rattle.std.specs.Prelude.{◌≡◌, ◌++◌, IfOk};
ghost use Rattle.vf_report.specs.Report.{check_text};

use crate::write::{write, write_number};
use std::alloc::Global;
use vf_base::Memory;

/// The sizes of a design and a plan.
#[derive(Clone, Copy, Debug, PartialEq, Eq)]
pub struct Sizes {
    pub processes: u32,
    pub signals: u32,
    /// The words of a state, in whole pages.
    pub words: u32,
    /// The pages of 64 words.
    pub pages: u32,
    pub nodes: u32,
    /// The nodes that are tests.
    pub tests: u32,
}

/// The line of these sizes. The only refusal is out of memory.
pub fn check_line(alloc: Global, sizes: &Sizes) -> Result<Vec<u8>, Memory>
    ensures { IfOk result (λ line. line.items ≡ check_text sizes.now) }
{
    let mut line = Vec::new(alloc);
    write_number(b"ok processes ", u64::from(sizes.processes), &mut line)?;
    write_number(b" signals ", u64::from(sizes.signals), &mut line)?;
    write_number(b" words ", u64::from(sizes.words), &mut line)?;
    write_number(b" pages ", u64::from(sizes.pages), &mut line)?;
    write_number(b" nodes ", u64::from(sizes.nodes), &mut line)?;
    write_number(b" tests ", u64::from(sizes.tests), &mut line)?;
    write(b"\n", &mut line)?;
    Ok(line)
}
