use vf_base::{Ending, SaveKind};

/// What a turn tells besides its text.
#[derive(Clone, Copy, Debug, PartialEq, Eq)]
pub enum Mark {
    /// Nothing: the run goes on.
    Plain,
    /// The design asked for a checkpoint of this kind (IEEE Std 1364-2005, Annex C); the run goes on.
    Saved(SaveKind),
    /// The run ended. The turn wrote nothing and changed no word.
    Ended(Ending),
}
