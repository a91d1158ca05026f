//! How the places are reached.
ghost use Rattle.std.specs.Prelude.{◌≡◌, ◌<◌, ◌≤◌, length};
ghost use Rattle.search.specs.Turns.{size_of, improved, recorded, Begun, Reached, Taken};

use super::lists::Mark;
use super::{Frontier, Step};
use charge::Charge;
use walks::Arc;

impl Frontier {
    // Of a graph of so many places, the start alone waits. O(size).
    // Kept: that there are at most 2048 is tested once, in `can_run`; a type for the number would be unwrapped at each use.
    pub(crate) fn begin(&mut self, size: usize, start: u32)
        requires small { size ≤ 2048 }
        requires within { start < size }
        ensures { Begun self.old self.new size start }
    {
        self.places.clear(size);
        self.places.see(start);
        self.start = start;
    }

    // Whether a total is better than what a place has.
    pub(crate) fn improves<C: Charge>(&self, labels: &[C], place: u32, total: C) -> bool
        requires { place < length labels.now }
        ensures { result ≡ improved C.Charge.scale self.now labels.now place total }
    {
        self.places.lists.mark(place) == Mark::Unseen || !labels[place as usize].not_dearer(total)
    }

    // The head of an arc was reached by it.
    fn record_arc(&mut self, arc: Arc)
        requires { arc.head < 2048 }
        ensures { self.new ≡ recorded self.old arc }
    {
        self.steps[arc.head as usize] = Step {
            tail: arc.tail,
            road: arc.road,
        };
    }

    // The head of an arc is seen, and was reached by it.
    pub(crate) fn reach(&mut self, arc: Arc)
        requires { arc.head < size_of self.old }
        ensures reached { Reached self.old self.new arc }
        ensures room { arc.head < length self.old.steps }
    {
        self.places.see(arc.head);
        self.record_arc(arc);
    }

    // Settles a waiting place whose label is not dearer than any waiting one's; none where none waits. O(waiting).
    pub(crate) fn take_least<C: Charge>(&mut self, labels: &[C]) -> Option<u32>
        requires { size_of self.old ≤ length labels.now }
        ensures { Taken C.Charge.scale self.old self.new labels.now result }
    {
        let i = self.places.least(labels)?;
        Some(self.places.take(i))
    }
}
