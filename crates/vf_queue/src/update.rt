use vf_base::SigNo;
use vf_fours::Fours;

/// Bits that a signal's element takes, from a bit on (IEEE Std 1364-2005, 11.2).
#[derive(Clone, Copy)]
pub struct Update {
    pub sig: SigNo,
    /// The number of the element, from 0; 0 where the signal is no memory.
    pub element: u32,
    /// The place of the least bit that it takes, counted from the least bit of the element.
    pub low: u32,
    /// The bits. Their mark means nothing.
    pub value: Fours,
}
