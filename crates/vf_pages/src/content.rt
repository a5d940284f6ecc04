ghost use Rattle.std.specs.Prelude.{◌≡◌, ◌%◌, slice_index, true, IfOk, OnOk, MatchBool};
ghost use Rattle.vf_base.specs.declared.write.TheConstants.{PAGE_WORDS};
ghost use Rattle.vf_pages.specs.Pages.{zero_page};
ghost use Rattle.vf_pages.specs.Writes.{after, AllOn};

use std::alloc::Global;
use std::sync::Arc;
use vf_base::{Memory, PAGE_WORDS, Write};

/// The 64 words of a page. They stand in a cell, which the holders that share the page share. To be
/// written they are taken out of it, which only the one owner of a cell can do, and put back afterwards:
/// while they are out, no other holder reads them.
#[derive(Drop)]
pub(crate) struct Content {
    pub(crate) cell: Arc<Option<Box<[u64; 64]>>>,
    pub(crate) taken: Option<Box<[u64; 64]>>,
}

// What an empty cell reads as.
const ZEROS: [u64; 64] = [0; 64];

impl Content {
    ghost use Rattle.vf_pages.specs.Contents.{content_words, is_taken};

    pub(crate) fn new(alloc: Global, words: [u64; 64]) -> Result<Content, Memory>
        ensures { IfOk result (λ content. content_words content ≡ words) }
    {
        let block = Box::new(alloc, words)?;
        let cell = Arc::new(alloc, Some(block))?;
        Ok(Content { cell, taken: None })
    }

    pub(crate) fn words(&self) -> &[u64; 64]
        ensures { result.now ≡ content_words self.now }
    {
        if let Some(words) = &self.taken {
            return words;
        }
        match &*self.cell {
            Some(words) => words,
            None => &ZEROS,
        }
    }

    /// The same words for another holder: the same cell, or a copy of words that are taken out.
    pub(crate) fn share(&self, alloc: Global) -> Result<Content, Memory>
        ensures { IfOk result (λ content. content_words content ≡ content_words self.now) }
    {
        if self.taken.is_some() {
            return self.copied(alloc);
        }
        Ok(Content {
            cell: Arc::try_clone(&self.cell)?,
            taken: None,
        })
    }

    // The same words in a cell of their own. It is not inlined, so that no other function has room for a
    // page among its locals.
    #[inline(never)]
    fn copied(&self, alloc: Global) -> Result<Content, Memory>
        ensures { IfOk result (λ content. content_words content ≡ content_words self.now) }
    {
        Content::new(alloc, *self.words())
    }

    /// Takes the words out, unless another holder has the cell.
    pub(crate) fn take(&mut self) -> bool
        ensures words { content_words self.new ≡ content_words self.old }
        ensures taken { result ≡ is_taken self.new }
    {
        if self.taken.is_some() {
            return true;
        }
        let Some(cell) = Arc::get_mut(&mut self.cell) else {
            return false;
        };
        self.taken = cell.take();
        self.taken.is_some()
    }

    /// Takes the words out, or a copy of them where another holder has the cell.
    pub(crate) fn take_or_copy(&mut self, alloc: Global) -> Result<(), Memory>
        ensures words { content_words self.new ≡ content_words self.old }
        ensures taken { OnOk result (is_taken self.new ≡ true) }
    {
        if self.take() {
            return Ok(());
        }
        self.take_copy(alloc)
    }

    // Takes a copy of the words out.
    #[inline(never)]
    fn take_copy(&mut self, alloc: Global) -> Result<(), Memory>
        ensures words { content_words self.new ≡ content_words self.old }
        ensures taken { OnOk result (is_taken self.new ≡ true) }
    {
        self.taken = Some(Box::new(alloc, *self.words())?);
        Ok(())
    }

    /// Writes words that are taken out, and puts them back.
    pub(crate) fn write(&mut self, page: u32, writes: &[Write])
        requires taken { is_taken self.old ≡ true }
        requires on { AllOn page writes.now }
        ensures { content_words self.new ≡ after writes.now page (content_words self.old) }
    {
        if let Some(words) = &mut self.taken {
            write_words(words, page, writes);
        }
        self.put_back();
    }

    /// Writes the words in their cell, unless another holder has it or they are taken out.
    pub(crate) fn write_cell(&mut self, page: u32, writes: &[Write]) -> bool
        requires { AllOn page writes.now }
        ensures { MatchBool result
            (content_words self.new ≡ after writes.now page (content_words self.old))
            (content_words self.new ≡ content_words self.old) }
    {
        if self.taken.is_some() {
            return false;
        }
        let Some(cell) = Arc::get_mut(&mut self.cell) else {
            return false;
        };
        let Some(words) = cell else {
            return false;
        };
        write_words(words, page, writes);
        true
    }

    // Puts words that are taken out back into their cell, unless another holder has it.
    fn put_back(&mut self)
        ensures { content_words self.new ≡ content_words self.old }
    {
        if self.taken.is_some() {
            if let Some(cell) = Arc::get_mut(&mut self.cell) {
                *cell = self.taken.take();
            }
        }
    }
}

/// The word at an index, 0 past the last.
pub(crate) fn word_or_zero(words: &[u64], at: usize) -> u64
    ensures { result ≡ slice_index words.now at }
{
    if at < words.len() { words[at] } else { 0 }
}

/// The word of a page at an address.
pub(crate) fn word_in(words: &[u64; 64], at: u32) -> u64
    ensures { result ≡ slice_index words.now (at % PAGE_WORDS) }
{
    words[(at % PAGE_WORDS) as usize]
}

/// The 64 words of a page at time zero.
pub(crate) fn zero_words(zero: &[u64], page: u32) -> [u64; 64]
    ensures { result ≡ zero_page zero.now page }
{
    let mut words = [0; 64];
    for i in 0..64 {
        words[i] = word_or_zero(zero, PAGE_WORDS as usize * page as usize + i);
    }
    words
}

/// Writes words of one page in place.
pub(crate) fn write_words(words: &mut [u64; 64], page: u32, writes: &[Write])
    requires { AllOn page writes.now }
    ensures { words.new ≡ after writes.now page words.old }
{
    for write in writes {
        words[(write.at % PAGE_WORDS) as usize] = write.word;
    }
}

/// The words of a page after writes.
pub(crate) fn written_words(words: &[u64; 64], page: u32, writes: &[Write]) -> [u64; 64]
    requires { AllOn page writes.now }
    ensures { result ≡ after writes.now page words.now }
{
    let mut new = *words;
    write_words(&mut new, page, writes);
    new
}
