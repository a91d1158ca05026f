//! Roads by their meaning, and how a call is refused.
#![tactic(auto)]

ghost use Rattle.std.specs.Prelude.{◌≡◌, IfOk};
ghost use Rattle.roads.specs.RoadLists.{front};
ghost use Rattle.roads.specs.Networks.{Network, WellFormed, numbered, is_open, next_leaving};

pub mod facts;
pub mod fault;
mod roads_from;
mod slot;

use facts::Facts;
pub use roads_from::RoadsFrom;
pub use slot::JunctionSlot;
use std::alloc::{AllocError, Global};

/// Junctions from 0 on and roads from 1 on, read by number.
pub trait Roads {
    // The junctions and roads that these are.
    ghost meaning: { Self → Network };

    fn junctions(&self) -> u32
        ensures { result ≡ (meaning self.now).junctions };

    fn roads(&self) -> u32
        ensures { result ≡ (meaning self.now).roads };

    /// What is known of a road; `None` where there is no such road.
    fn facts(&self, road: u32) -> Option<Facts>
        ensures { result ≡ (meaning self.now).facts road };

    // Kept: a list of roads ends with 0 here and in the file, a rule of the project; `RoadsFrom` is the iterator over it.
    /// The first road that leaves a junction; 0 where none does or there is no such junction.
    fn first(&self, junction: u32) -> u32
        ensures { result ≡ front ((meaning self.now).leaving junction) };

    /// The next road that leaves the tail of `road`; 0 where it is the last or no road.
    fn after(&self, road: u32) -> u32
        ensures { result ≡ next_leaving (meaning self.now) road };

    /// Whether there is a road of this number.
    final fn has_road(&self, road: u32) -> bool
        ensures { result ≡ numbered (meaning self.now).roads road }
    {
        is_numbered(self.roads(), road)
    }

    /// Whether a road is open; one that is none is not.
    final fn is_open(&self, road: u32) -> bool
        ensures { result ≡ is_open ((meaning self.now).facts road) }
    {
        self.facts(road).is_some_and(|facts| facts.open)
    }

    ghost sound: { (s : Self) → WellFormed (meaning s) };
}

/// Whether there is a road of this number among so many.
#[inline(always)]
pub fn is_numbered(roads: u32, road: u32) -> bool
    ensures { result ≡ numbered roads road }
{
    (1..=roads).contains(&road)
}

/// The roads that leave a junction, in the order of its leaving list.
pub fn leaving_roads<R: Roads>(
    roads: &R,
    junction: u32,
    heap: Global,
) -> Result<Vec<u32>, AllocError>
    ensures { IfOk result (λ v. v.items ≡ (R.Roads.meaning roads.now).leaving junction) }
{
    RoadsFrom::new(roads, junction).collect(heap)
}
