//! The marks of the places, and the queue of those that wait, as they are written.
ghost use Rattle.std.specs.Prelude.{◌≡◌, ℕ, ◌<◌, ◌≤◌, length, if◌then◌else◌, slice_index_or};
ghost use Rattle.search.specs.Marks.{mark_at};
ghost use Rattle.search.specs.Waiting.{queued, cleared, pushed, taken};

use charge::Charge;

// How far a search is with a place.
#[derive(Clone, Copy, PartialEq, Eq, Debug)]
pub(super) enum Mark {
    Unseen,
    Waiting,
    Settled,
}

// The marks of so many places, and at the front of the queue those that wait.
// Kept: a rule of the project: a planner keeps 2048 places for its queue inside itself; `Places` keeps the bounds between steps.
#[derive(Drop)]
pub(super) struct Lists {
    size: usize,
    pub(super) waiting: usize,
    marks: [Mark; 2048],
    queue: [u16; 2048],
}

impl Lists {
    pub(super) fn new() -> Lists
        ensures size { result.size ≡ 0 }
        ensures waiting { result.waiting ≡ 0 }
        ensures unseen { (v : ℕ) → mark_at result v ≡ Mark.Unseen }
    {
        Lists {
            size: 0,
            waiting: 0,
            marks: [Mark::Unseen; 2048],
            queue: [0; 2048],
        }
    }

    // The mark of a place; one past the marks is unseen.
    pub(super) fn mark(&self, place: u32) -> Mark
        ensures { result ≡ mark_at self.now place }
    {
        self.marks
            .get(place as usize)
            .copied()
            .unwrap_or(Mark::Unseen)
    }

    // Nothing is seen of a graph of so many places. O(size).
    pub(super) fn clear(&mut self, size: usize)
        requires { size ≤ 2048 }
        ensures { self.new ≡ cleared self.old size }
    {
        self.marks[..size].fill(Mark::Unseen);
        self.size = size;
        self.waiting = 0;
    }

    // An unseen place waits.
    pub(super) fn push(&mut self, place: u32)
        requires place { place < 2048 }
        requires room { self.old.waiting < 2048 }
        ensures { self.new ≡ pushed self.old place }
    {
        self.queue[self.waiting] = place as u16;
        self.waiting += 1;
        self.marks[place as usize] = Mark::Waiting;
    }

    // The place that waits at i is settled, and the last takes its place in the queue.
    pub(super) fn take(&mut self, i: usize) -> u32
        requires within { i < self.old.waiting }
        requires room { self.old.waiting ≤ 2048 }
        requires place { queued self.old i < 2048 }
        ensures which { result ≡ queued self.old i }
        ensures taken { self.new ≡ taken self.old i }
    {
        let place = self.queue[i];
        self.waiting -= 1;
        self.queue[i] = self.queue[self.waiting];
        self.marks[place as usize] = Mark::Settled;
        place as u32
    }

    // Of two places in the queue, one whose label is not dearer.
    pub(super) fn better_of<C: Charge>(&self, labels: &[C], i: usize, j: usize) -> usize
        requires i { queued self.now i < length labels.now }
        requires j { queued self.now j < length labels.now }
        requires small { (i < 2048) × (j < 2048) }
        ensures { result ≡ (if C.Charge.scale.leq (slice_index_or labels.now (queued self.now i) C.Charge.scale.neutral) (slice_index_or labels.now (queued self.now j) C.Charge.scale.neutral) then i else j) }
    {
        if labels[self.queue[i] as usize].not_dearer(labels[self.queue[j] as usize]) {
            i
        } else {
            j
        }
    }
}
