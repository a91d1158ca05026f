//! Roads that pass a test, as a graph.
ghost use Rattle.std.specs.Prelude.{◌≡◌};
ghost use Rattle.cells.specs.RoadGraphs.{roads_where};

use super::arcs::ArcsWhere;
use super::choice::RoadTest;
use charge::{Charge, Tariff};
use roads::Roads;
use walks::Graph;

/// The roads that pass a test, with their charges by a tariff.
#[derive(Drop)]
pub struct RoadsWhere<'a, R: Roads, F: Tariff, P: RoadTest> {
    pub roads: &'a R,
    pub tariff: &'a F,
    pub test: &'a P,
}

impl<'a, R: Roads, F: Tariff, P: RoadTest> Graph for RoadsWhere<'a, R, F, P> {
    type Charge = F::Charge;

    type Arcs = ArcsWhere<'a, R, F, P>;

    ghost graph = { λ g. roads_where F.Charge.Charge.scale (R.Roads.meaning g.roads.now) (F.Tariff.meaning g.tariff.now) (P.RoadTest.test g.test.now) };

    fn places(&self) -> u32 {
        self.roads.junctions()
    }

    fn leaving(&self, place: u32) -> ArcsWhere<'a, R, F, P> {
        ArcsWhere::new(self.roads, self.tariff, self.test, place)
    }
}
