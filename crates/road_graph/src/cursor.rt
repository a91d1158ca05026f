//! Going through the roads that leave a junction.
ghost use Rattle.std.specs.Prelude.{◌≡◌, [], ◌∷◌, IfSome, IfNone, Some, MatchOption};
ghost use Rattle.cells.specs.RoadGraphs.{arcs_of, road_arc};
ghost use Rattle.road_graph.specs.Cursors.{arcs_from};

use super::choice::RoadTest;
use roads::Roads;
use roads::facts::Facts;

/// A place among the roads that leave a junction; with road 0 it is past the last.
#[derive(Clone, Copy)]
pub struct RoadCursor {
    road: u32,
}

/// A road that passed a test.
#[derive(Clone, Copy)]
pub struct Passing {
    pub road: u32,
    pub facts: Facts,
}

/// A cursor at the first road that leaves a junction.
#[tactic(auto, using(roads::proofs::Leaving::from_first))]
pub fn first_leaving<R: Roads, P: RoadTest>(roads: &R, test: &P, junction: u32) -> RoadCursor
    ensures { arcs_from (R.Roads.meaning roads.now) (P.RoadTest.test test.now) result.road ≡ arcs_of (R.Roads.meaning roads.now) (P.RoadTest.test test.now) ((R.Roads.meaning roads.now).leaving junction) }
{
    RoadCursor {
        road: roads.first(junction),
    }
}

/// The next road at a cursor that passes a test; the cursor goes on past it.
#[tactic(auto, using(crate::proofs::Onward::pass, crate::proofs::Onward::skip, crate::proofs::Onward::fewer, crate::proofs::Onward::from_no_road))]
pub fn next_passing<R: Roads, P: RoadTest>(
    roads: &R,
    test: &P,
    at: &mut RoadCursor,
) -> Option<Passing>
    ensures given { MatchOption result (arcs_from (R.Roads.meaning roads.now) (P.RoadTest.test test.now) at.old.road ≡ []) (λ x. arcs_from (R.Roads.meaning roads.now) (P.RoadTest.test test.now) at.old.road ≡ (road_arc x.road x.facts ∷ arcs_from (R.Roads.meaning roads.now) (P.RoadTest.test test.now) at.new.road)) }
    ensures facts { IfSome result (λ x. (R.Roads.meaning roads.now).facts x.road ≡ Some x.facts) }
    ensures ended { IfNone result (arcs_from (R.Roads.meaning roads.now) (P.RoadTest.test test.now) at.new.road ≡ []) }
{
    while let Some(facts) = roads.facts(at.road) {
        let road = at.road;
        at.road = roads.after(road);
        if test.passes(facts) {
            return Some(Passing { road, facts });
        }
    }
    None
}
