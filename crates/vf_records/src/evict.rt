//! Which image is evicted.

ghost use Rattle.std.specs.Prelude.{◌≡◌, ◌<◌, not, None, Some, length, map, option_map, IfSome};
ghost use Rattle.vf_plan.specs.Paths.{path};
ghost use Rattle.vf_journal.specs.Records.{is_pinned};
ghost use Rattle.vf_journal.specs.Journal.{goes_before, next_evicted};
ghost use Rattle.vf_records.specs.Account.{farm_of, solo_of};
ghost use Rattle.vf_records.specs.Evictions.{much_of, earlier_in};
ghost use Rattle.vf_records.specs.Tables.{held_of, records_of, AreTables, ArePinned};

use crate::row::HeldImage;
use crate::tables::Tables;
use vf_base::NodeNo;
use vf_jobs::{Order, Setup};
use vf_plan::Plan;

/// How many nodes stand on the path of a node.
fn depth(plan: &Plan, node: NodeNo) -> u64
    requires { node.0 < length plan.now }
    ensures { result ≡ length (path plan.now node.0) }
{
    let mut steps = 0;
    let mut at = Some(node);
    'nodes: loop {
        let Some(node) = at else {
            return steps;
        };
        steps += 1;
        at = plan.nodes[node.0 as usize].parent;
    }
}

/// What the order of a setup counts of an image.
fn much(setup: &Setup, image: HeldImage) -> u64
    requires { image.node.0 < length setup.now.plan }
    ensures { result ≡ much_of setup.now.plan setup.now.order (held_of image) }
{
    match setup.order {
        Order::Deepest => depth(&setup.plan, image.node),
        Order::Oldest | Order::Widest => u64::from(image.pages),
    }
}

/// Whether an image has more than another, or as much and a lesser node.
fn goes_before(setup: &Setup, a: HeldImage, b: HeldImage) -> bool
    requires a { a.node.0 < length setup.now.plan }
    requires b { b.node.0 < length setup.now.plan }
    ensures { result ≡ goes_before (much_of setup.now.plan setup.now.order) (held_of a) (held_of b) }
{
    let much_a = much(setup, a);
    let much_b = much(setup, b);
    much_b < much_a || (much_a == much_b && a.node.0 <= b.node.0)
}

/// The one that goes first of an image and the one chosen of those saved after it.
fn earlier(setup: &Setup, image: HeldImage, best: Option<HeldImage>) -> HeldImage
    requires image { image.node.0 < length setup.now.plan }
    requires best { IfSome best (λ b. b.node.0 < length setup.now.plan) }
    ensures is { held_of result ≡ earlier_in setup.now.plan setup.now.order (held_of image) (option_map held_of best) }
    ensures within { result.node.0 < length setup.now.plan }
{
    if matches!(setup.order, Order::Oldest) {
        return image;
    }
    let Some(other) = best else {
        return image;
    };
    if goes_before(setup, image, other) {
        image
    } else {
        other
    }
}

impl Tables {
    /// Whether an incremental image on a node's image is held.
    fn is_pinned(&self, node: NodeNo) -> bool
        requires pinned { ArePinned self.now.held.items self.now.pins.items }
        requires node { node.0 < length self.now.pins.items }
        ensures { result ≡ is_pinned (records_of self.now) node }
    {
        self.pins[node.0 as usize] > 0
    }

    /// The node of the image that the order chooses among those that are not pinned.
    pub(crate) fn chosen(&self, setup: &Setup) -> Option<NodeNo>
        requires { AreTables setup.now.plan (solo_of setup.now).counts self.now }
        ensures { result ≡ option_map (λ h. h.node) (next_evicted (farm_of setup.now) (records_of self.now)) }
    {
        let mut best = None;
        let mut at = self.held.len();
        while at > 0 {
            at -= 1;
            let image = self.held[at];
            if !self.is_pinned(image.node) {
                best = Some(earlier(setup, image, best));
            }
        }
        let best: Option<HeldImage> = best;
        match best {
            Some(image) => Some(image.node),
            None => None,
        }
    }
}
