// A path as it is lent (document 01: "a path is read as a lent buffer with a count beside it"): a view holds the packed buffer and the
// count. A prefix changes the count alone. Each method leaves the work to the plain call on buffers and counts, whose promise it passes
// on.
#![tactic(auto)]

ghost use Rattle.std.specs.Prelude.{◌≡◌};
ghost use Rattle.willow.specs.Answers.{on_path, on_paths, outcome, path_refusal, refusal_of};
ghost use Rattle.reading.specs.Reading.{bytes_or, component_of};
ghost use Rattle.relation.specs.Relation.{order_of, prefix_test_of};
ghost use Rattle.path_view.specs.Views.{prefix_count};

use std::cmp::Ordering;
use willow::{Limits, Refusal};

// A packed path and how many of its components are meant.
#[derive(Clone, Copy)]
pub struct View<'a> {
    pub bytes: &'a [u8],
    pub count: u64,
}

impl<'a> View<'a> {
    // A view of a buffer. Nothing is tested.
    pub fn new(bytes: &'a [u8], count: u64) -> View<'a>
        ensures { (result.bytes ≡ bytes.entry) × (result.count ≡ count) }
    {
        View { bytes, count }
    }

    // How many components a view counts.
    pub fn count(self) -> u64
        ensures { result ≡ self.entry.count }
    {
        self.count
    }

    // The first k components of a view, or all of them where it has no more.
    pub fn prefix(self, k: u64) -> View<'a>
        ensures { (result.bytes ≡ self.entry.bytes) × (result.count ≡ prefix_count k self.entry.count) }
    {
        View {
            count: k.min(self.count),
            ..self
        }
    }

    // The test of a view: 1, then 5.
    pub fn tested(self, limits: Limits) -> Result<(), Refusal>
        ensures { refusal_of result ≡ path_refusal limits self.entry.bytes.now self.entry.count }
    {
        lent_path::test(limits, self.bytes, self.count)
    }

    // Component i as a part of the buffer; an empty part where the view is refused or has no such component.
    pub fn component(self, limits: Limits, i: u64) -> &'a [u8]
        ensures { result.now ≡ bytes_or (on_path limits self.entry.bytes.now self.entry.count (component_of i)) }
    {
        reading::component(limits, self.bytes, self.count, i)
    }

    // The order of two views.
    pub fn compare(self, w: View, limits: Limits) -> Result<Ordering, Refusal>
        ensures { outcome result ≡ on_paths limits self.entry.bytes.now self.entry.count w.entry.bytes.now w.entry.count order_of }
    {
        relation::compare(limits, self.bytes, self.count, w.bytes, w.count)
    }

    // Whether the first view is a prefix of the second.
    pub fn is_prefix_of(self, w: View, limits: Limits) -> Result<bool, Refusal>
        ensures { outcome result ≡ on_paths limits self.entry.bytes.now self.entry.count w.entry.bytes.now w.entry.count prefix_test_of }
    {
        relation::is_prefix_of(limits, self.bytes, self.count, w.bytes, w.count)
    }
}

// The order of two lent paths. Document 01 asks for thin functions over plain slices: the one over views.
pub fn compare_lent(
    limits: Limits,
    a: &[u8],
    ca: u64,
    b: &[u8],
    cb: u64,
) -> Result<Ordering, Refusal>
    ensures { outcome result ≡ on_paths limits a.now ca b.now cb order_of }
{
    View::new(a, ca).compare(View::new(b, cb), limits)
}
