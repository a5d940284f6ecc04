ghost use Rattle.std.specs.Prelude.{◌≡◌, ◌/◌, ◌<◌, ◌≤◌, take, drop, length, MatchResult};
ghost use Rattle.vf_base.specs.declared.write.TheConstants.{PAGE_WORDS};
ghost use Rattle.vf_pages.specs.Pages.{IsSorted, IsPlace, IsGap, entry, page_limit};
ghost use Rattle.vf_pages.specs.Views.{pages_of};
ghost use Rattle.vf_pages.specs.Writes.{own, beyond, AreWrites, written_pages};
ghost use Rattle.vf_pages.specs.Needs.{is_new, new_pages};

use crate::held::Held;
use vf_base::{PAGE_WORDS, Write};

/// The page of an address.
pub(crate) fn page_of_address(at: u32) -> u32
    ensures page { result ≡ at / PAGE_WORDS }
    ensures limit { result < page_limit }
{
    at / PAGE_WORDS
}

/// Where a page stands, or where it would stand.
pub(crate) fn find(held: &[Held], page: u32) -> Result<usize, usize>
    requires { IsSorted (pages_of held.now) }
    ensures { MatchResult result
        (λ i. IsPlace page (pages_of held.now) i)
        (λ i. IsGap page (pages_of held.now) i) }
{
    let mut low = 0;
    let mut high = held.len();
    while low < high {
        let middle = low + (high - low) / 2;
        let found = held[middle].page.0;
        if found == page {
            return Ok(middle);
        }
        if found < page {
            low = middle + 1;
        } else {
            high = middle;
        }
    }
    Err(low)
}

// How many writes at the front fall on a page.
fn own_count(page: u32, writes: &[Write]) -> usize
    ensures within { result ≤ length writes.now }
    ensures own { take result writes.now ≡ own page writes.now }
    ensures beyond { drop result writes.now ≡ beyond page writes.now }
{
    for i in 0..writes.len() {
        if writes[i].at / PAGE_WORDS != page {
            return i;
        }
    }
    writes.len()
}

/// The writes at the front that fall on a page, and the others.
pub(crate) fn split_page(page: u32, writes: &[Write]) -> (&[Write], &[Write])
    ensures own { result.0.now ≡ own page writes.now }
    ensures beyond { result.1.now ≡ beyond page writes.now }
{
    let count = own_count(page, writes);
    writes.split_at(count)
}

// 1 for a page that is not held.
fn new_count(held: &[Held], page: u32) -> usize
    requires { IsSorted (pages_of held.now) }
    ensures { result ≡ is_new (entry page (pages_of held.now)) }
{
    match find(held, page) {
        Ok(_) => 0,
        Err(_) => 1,
    }
}

/// How many pages writes fall on that are not held.
pub(crate) fn count_new(held: &[Held], writes: &[Write], words: usize) -> usize
    requires sorted { IsSorted (pages_of held.now) }
    requires writes { AreWrites words writes.now }
    ensures count { result ≡ new_pages (pages_of held.now) (written_pages writes.now) }
    ensures limit { result ≤ page_limit }
{
    let mut count = 0;
    let mut rest = writes;
    while let Some(first) = rest.first() {
        let page = page_of_address(first.at);
        count += new_count(held, page);
        let (_, more) = split_page(page, rest);
        rest = more;
    }
    count
}
