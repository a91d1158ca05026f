//! The places that a search has come to, and how.
ghost use Rattle.std.specs.Prelude.{◌≡◌, ℕ, false};
ghost use Rattle.search.specs.Found.{settled, arc_into};

mod lists;
mod places;
mod reaching;

use lists::Mark;
use places::Places;
use walks::Arc;

// The last step of the way to a place: from where, and by which road.
#[derive(Clone, Copy)]
struct Step {
    tail: u32,
    road: u32,
}

const NO_STEP: Step = Step { tail: 0, road: 0 };

/// What a search keeps of each place: its mark, whether it waits, and the arc by which it was reached.
// Kept: marks and queue keep each other, for which `Places` is there; a step has no part in that, and is none's until a mark says so.
#[derive(Drop)]
pub struct Frontier {
    start: u32,
    places: Places,
    steps: [Step; 2048],
}

impl Frontier {
    /// Room for a search. No place is settled.
    pub fn new() -> Frontier
        ensures { (v : ℕ) → settled result v ≡ false }
    {
        Frontier {
            start: 0,
            places: Places::new(),
            steps: [NO_STEP; 2048],
        }
    }

    /// Whether the search settled a place.
    pub fn reached(&self, place: u32) -> bool
        ensures { result ≡ settled self.now place }
    {
        self.places.lists.mark(place) == Mark::Settled
    }

    /// The arc by which a place was reached.
    pub fn arc_into(&self, place: u32) -> Arc
        ensures { result ≡ arc_into self.now place }
    {
        let step = self.steps.get(place as usize).copied().unwrap_or(NO_STEP);
        Arc {
            tail: step.tail,
            head: place,
            road: step.road,
        }
    }
}
