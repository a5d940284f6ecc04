//! How values are printed: the texts that the formats of the display tasks write (docs/LANGUAGE.md, "Printed values").
//!
//! It stands on vf_base, vf_fours and itoa. The layers above rest on this: `print` appends exactly the text that
//! `specs/Printed.antt` gives a value, which goes by the list of its bits. It takes memory only where the text that it appends
//! to has no room.
#![tactic(auto)]

mod digits;
mod format;

pub use format::{Form, print};
