//! How places come to wait, and are settled.
ghost use Rattle.std.specs.Prelude.{◌≡◌, ℕ, ◌<◌, ◌≤◌, length, MatchOption};
ghost use Rattle.search.specs.declared.frontier.lists.Mark.TheVariants.{Unseen, Settled};
ghost use Rattle.search.specs.Marks.{mark_at, seen_mark};
ghost use Rattle.search.specs.Waiting.{queued, cleared, LeastAt, Marked};

use super::Places;
use crate::frontier::lists::{Lists, Mark};
use charge::Charge;

impl Places {
    pub(in crate::frontier) fn new() -> Places
        ensures { (v : ℕ) → mark_at result.lists v ≡ Unseen }
    {
        Places {
            lists: Lists::new(),
        }
    }

    // Nothing is seen of a graph of so many places. O(size).
    pub(in crate::frontier) fn clear(&mut self, size: usize)
        requires { size ≤ 2048 }
        ensures { self.new.lists ≡ cleared self.old.lists size }
    {
        self.lists.clear(size);
    }

    // An unseen place waits; any other stays as it is.
    pub(in crate::frontier) fn see(&mut self, place: u32)
        requires { place < self.old.lists.size }
        ensures { Marked self.old.lists self.new.lists place (seen_mark (mark_at self.old.lists place)) }
    {
        if self.lists.mark(place) == Mark::Unseen {
            self.lists.push(place);
        }
    }

    // Where in the queue a place waits whose label is least; none where none waits. O(waiting).
    pub(in crate::frontier) fn least<C: Charge>(&self, labels: &[C]) -> Option<usize>
        requires { self.now.lists.size ≤ length labels.now }
        ensures { MatchOption result (self.now.lists.waiting ≡ 0) (LeastAt C.Charge.scale self.now.lists labels.now) }
    {
        (0..self.lists.waiting).reduce(|i, j| self.lists.better_of(labels, i, j))
    }

    // The place that waits at i is settled.
    pub(in crate::frontier) fn take(&mut self, i: usize) -> u32
        requires { i < self.old.lists.waiting }
        ensures which { result ≡ queued self.old.lists i }
        ensures marked { Marked self.old.lists self.new.lists result Settled }
    {
        self.lists.take(i)
    }
}
