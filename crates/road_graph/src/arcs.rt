//! The arcs of the roads that leave a junction, one by one.
ghost use Rattle.std.specs.Prelude.{◌≡◌};
ghost use Rattle.std.specs.Iterator.{YieldsFirst, item_count};
ghost use Rattle.roads.specs.Networks.{roads_from};
ghost use Rattle.cells.specs.RoadGraphs.{road_arc};
ghost use Rattle.road_graph.specs.Passing.{charged_arcs};

use super::choice::RoadTest;
use super::cursor::{Passing, RoadCursor, first_leaving, next_passing};
use charge::{Charge, Tariff};
use roads::Roads;
use walks::{Arc, ChargedArc};

// The arc of a road that passed.
fn road_arc(passing: Passing) -> Arc
    ensures { result ≡ road_arc passing.road passing.facts }
{
    Arc {
        tail: passing.facts.tail,
        head: passing.facts.head,
        road: passing.road,
    }
}

// The arc of a road that passed, with its charge.
pub(crate) fn charged<F: Tariff>(tariff: &F, passing: Passing) -> ChargedArc<F::Charge>
    ensures { result ≡ record { arc = road_arc passing.road passing.facts; charge = F.Tariff.meaning tariff.now passing.road passing.facts } }
{
    ChargedArc {
        arc: road_arc(passing),
        charge: tariff.charge(passing.road, passing.facts),
    }
}

/// The arcs of the roads that leave a junction and pass a test, one by one, each with its charge.
#[derive(Drop)]
pub struct ArcsWhere<'a, R: Roads, F: Tariff, P: RoadTest> {
    roads: &'a R,
    tariff: &'a F,
    test: &'a P,
    at: RoadCursor,
}

impl<'a, R: Roads, F: Tariff, P: RoadTest> ArcsWhere<'a, R, F, P> {
    // All of a junction's.
    pub(crate) fn new(
        roads: &'a R,
        tariff: &'a F,
        test: &'a P,
        junction: u32,
    ) -> ArcsWhere<'a, R, F, P>
        ensures { charged_arcs F.Charge.Charge.scale (R.Roads.meaning result.roads.now) (F.Tariff.meaning result.tariff.now) (P.RoadTest.test result.test.now) (roads_from (R.Roads.meaning result.roads.now) result.at.road) ≡ charged_arcs F.Charge.Charge.scale (R.Roads.meaning roads.now) (F.Tariff.meaning tariff.now) (P.RoadTest.test test.now) ((R.Roads.meaning roads.now).leaving junction) }
    {
        ArcsWhere {
            roads,
            tariff,
            test,
            at: first_leaving(roads, test, junction),
        }
    }
}

impl<'a, R: Roads, F: Tariff, P: RoadTest> Iterator for ArcsWhere<'a, R, F, P> {
    type Item = ChargedArc<F::Charge>;

    ghost next_gives = { YieldsFirst (λ s. charged_arcs F.Charge.Charge.scale (R.Roads.meaning s.roads.now) (F.Tariff.meaning s.tariff.now) (P.RoadTest.test s.test.now) (roads_from (R.Roads.meaning s.roads.now) s.at.road)) };

    ghost remaining = { item_count (λ s. charged_arcs F.Charge.Charge.scale (R.Roads.meaning s.roads.now) (F.Tariff.meaning s.tariff.now) (P.RoadTest.test s.test.now) (roads_from (R.Roads.meaning s.roads.now) s.at.road)) };

    fn next(&mut self) -> Option<ChargedArc<F::Charge>> {
        let passing = next_passing(self.roads, self.test, &mut self.at)?;
        Some(charged(self.tariff, passing))
    }
}
