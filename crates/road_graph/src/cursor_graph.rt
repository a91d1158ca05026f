//! Roads that pass a test, gone through by a cursor.
ghost use Rattle.std.specs.Prelude.{◌≡◌};
ghost use Rattle.cells.specs.RoadGraphs.{roads_where};
ghost use Rattle.road_graph.specs.Cursors.{arcs_from};

use super::arcs::charged;
use super::choice::RoadTest;
use super::cursor::{RoadCursor, first_leaving, next_passing};
use super::graph::RoadsWhere;
use charge::{Charge, Tariff};
use roads::Roads;
use walks::{ChargedArc, CursorGraph};

impl<'a, R: Roads, F: Tariff, P: RoadTest> CursorGraph for RoadsWhere<'a, R, F, P> {
    type Charge = F::Charge;

    type Cursor = RoadCursor;

    ghost graph = { λ g. roads_where F.Charge.Charge.scale (R.Roads.meaning g.roads.now) (F.Tariff.meaning g.tariff.now) (P.RoadTest.test g.test.now) };

    ghost left = { λ g at. arcs_from (R.Roads.meaning g.roads.now) (P.RoadTest.test g.test.now) at.road };

    fn places(&self) -> u32 {
        self.roads.junctions()
    }

    fn leaving(&self, place: u32) -> RoadCursor {
        first_leaving(self.roads, self.test, place)
    }

    fn next_arc(&self, at: &mut RoadCursor) -> Option<ChargedArc<F::Charge>> {
        let passing = next_passing(self.roads, self.test, at)?;
        Some(charged(self.tariff, passing))
    }
}
