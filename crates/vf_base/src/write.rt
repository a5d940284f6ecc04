/// How many 64-bit words a page has.
pub const PAGE_WORDS: u32 = 64;

/// One word of a state written anew. Words are numbered from 0, and 64 of them are a page.
#[derive(Clone, Copy, Debug, PartialEq, Eq)]
pub struct Write {
    /// The address: the number of the word.
    pub at: u32,
    /// The new word.
    pub word: u64,
}
