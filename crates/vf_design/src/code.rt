/// A test of the design's variable against a number, by `==` or `!=` (IEEE Std 1364-2005, 5.1.8). Where
/// the variable is unknown neither holds.
#[derive(Clone, Copy, Debug, PartialEq, Eq)]
pub struct Condition {
    /// Whether the test is `==`; it is `!=` otherwise.
    pub equal: bool,
    /// The 32 bits of the number, as an unsigned number.
    pub number: u32,
}

/// One instruction of a process. Places count the instructions of the process from 0.
#[derive(Clone, Copy, Debug, PartialEq, Eq)]
pub enum Instr {
    /// Reads the next byte of the stimulus into the variable, or -1 where none is left (17.2.4.1).
    Getc,
    /// Goes to a place.
    Jump(u32),
    /// Goes on where the condition is true, and to the place otherwise.
    Unless { condition: Condition, to: u32 },
    /// Writes the low eight bits of the variable as one byte; an unknown bit counts as 0 (17.1).
    Show,
    /// Asks for a full checkpoint (Annex C).
    Save,
    /// Asks for an incremental checkpoint (Annex C).
    IncSave,
    /// Ends the run with a number (17.4).
    Finish(u32),
    /// Ends the process.
    Halt,
}
