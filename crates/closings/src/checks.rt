//! Whether there is a road and a test of it holds, for whichever part.
ghost use Rattle.std.specs.Prelude.{◌≡◌};
ghost use Rattle.roads.specs.Faults.{number, reported, unless, or_else};
ghost use Rattle.roads.specs.Networks.{numbered};

use roads::Roads;
use roads::fault::{Fault, Part, Refusal};

/// Refuses what is no road, and then a road of which the test does not hold.
#[inline(always)]
pub fn check_road<R: Roads>(
    roads: &R,
    test: bool,
    refusal: Refusal,
    road: u32,
    part: Part,
) -> Result<(), Fault>
    ensures { reported result ≡ or_else (unless (numbered (R.Roads.meaning roads.now).roads road) 6 road part) (unless test (number refusal) road part) }
{
    let found = if !roads.has_road(road) {
        Refusal::Road
    } else if !test {
        refusal
    } else {
        return Ok(());
    };
    Err(Fault::new(found, road as usize, part))
}
