ghost use Rattle.std.specs.Prelude.{◌≡◌, ◌<◌, ◌≤◌, ◌^◌, true, false, length, replicate, slice_set, IfOk};
ghost use Rattle.vf_solo.specs.Flags.{flags_set};

use std::alloc::Global;
use std::marker::Model;
use vf_base::Memory;

/// The pages that a run has touched, and how many they are. Contracts see a flag for each page.
#[derive(Drop)]
pub struct Touched {
    flags: Vec<bool>,
    count: u32,
}

impl Model for Touched {
    ghost use Rattle.std.specs.Prelude.{◌≡◌, ◌<◌, ◌^◌, Bool, List, length};
    ghost use Rattle.vf_solo.specs.Flags.{flags_set};

    ghost Value = { List Bool };

    ghost view = { λ t. t.flags.items };

    ghost invariant = { λ t. (t.count ≡ flags_set t.flags.items) × (length t.flags.items < 2 ^ 32) };
}

impl Touched {
    /// No page is touched.
    pub fn new(alloc: Global, pages: u32) -> Result<Touched, Memory>
        ensures { IfOk result (λ touched. touched ≡ replicate pages false) }
    {
        Ok(Touched {
            flags: vec![in alloc; false; pages as usize]?,
            count: 0,
        })
    }

    /// How many pages are touched.
    pub fn count(&self) -> u32
        ensures { result ≡ flags_set self.now }
    {
        self.count
    }

    /// Touches a page.
    pub fn mark(&mut self, page: u32)
        requires { page < length self.old }
        ensures { self.new ≡ slice_set self.old page true }
    {
        let page = page as usize;
        if !self.flags[page] {
            self.flags[page] = true;
            self.count += 1;
        }
    }
}
