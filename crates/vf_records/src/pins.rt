//! How many held images stand on the image of each node.

ghost use Rattle.std.specs.Prelude.{◌≡◌, ℕ, ◌+◌, ◌<◌, ◌≤◌, ◌^◌, length, get_or, option_and_then};
ghost use Rattle.vf_jobs.specs.Jobs.{node_no};
ghost use Rattle.vf_journal.specs.Records.{is_base};
ghost use Rattle.vf_records.specs.Counts.{one};

use crate::counts::more;
use crate::row::HeldImage;
use vf_base::NodeNo;

/// One less, where there is one.
fn less(count: usize) -> usize
    ensures { 0 < count → result + 1 ≡ count }
{
    if count > 0 { count - 1 } else { 0 }
}

/// The base of an image, where there is one.
pub(crate) fn base_of(image: Option<HeldImage>) -> Option<NodeNo>
    ensures { result ≡ option_and_then (λ h. h.base) image }
{
    image?.base
}

/// Counts one image more that stands on a node's, if it stands on one.
pub(crate) fn pin(pins: &mut Vec<usize>, base: Option<NodeNo>)
    ensures counted { (n : ℕ) → n < length pins.old.items → get_or pins.old.items n 0 + 1 < 2 ^ 64
        → get_or pins.new.items n 0 ≡ get_or pins.old.items n 0 + one (is_base (node_no n) base) }
    ensures length { length pins.new.items ≡ length pins.old.items }
{
    if let Some(node) = base {
        let at = node.0 as usize;
        if at < pins.len() {
            pins[at] = more(pins[at]);
        }
    }
}

/// Counts one image less.
pub(crate) fn unpin(pins: &mut Vec<usize>, base: Option<NodeNo>)
    ensures counted { (n : ℕ) → n < length pins.old.items → one (is_base (node_no n) base) ≤ get_or pins.old.items n 0
        → get_or pins.new.items n 0 + one (is_base (node_no n) base) ≡ get_or pins.old.items n 0 }
    ensures length { length pins.new.items ≡ length pins.old.items }
{
    if let Some(node) = base {
        let at = node.0 as usize;
        if at < pins.len() {
            pins[at] = less(pins[at]);
        }
    }
}
