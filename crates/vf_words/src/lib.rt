//! The words of the command line (docs/FORMATS.md, "Command words").
//!
//! It stands on vf_base, vf_plan, vf_jobs, clap and thiserror. The layers above use `read_words`, whose
//! answer is just that of `command_of` in `specs/Words.antt`, the first fault included, with every
//! number in its range; and `help_page` and `version_line`, the texts that `--help` and `--version` ask
//! for.
#![tactic(auto)]

mod command;
mod fault;
mod help;
pub mod limits;
mod options;
mod read;
mod values;

pub use command::{Asked, Command, Mode};
pub use fault::WordFault;
pub use help::{help_page, version_line};
pub use read::read_words;
