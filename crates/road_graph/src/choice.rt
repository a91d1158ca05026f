//! Which roads of a network belong to a graph.
ghost use Rattle.std.specs.Prelude.{◌≡◌, ◌==◌, Bool, slice_index};
ghost use Rattle.roads.specs.declared.facts.Facts.{Facts};
ghost use Rattle.cells.specs.Cells.{cell};
ghost use Rattle.cells.specs.RoadGraphs.{stays_inside};
ghost use Rattle.road_graph.specs.Surveys.{surveyed};

use cells::cell_of;
use roads::facts::Facts;

/// A test of roads by their facts.
pub trait RoadTest {
    ghost test: { Self → Facts → Bool };

    fn passes(&self, facts: Facts) -> bool
        ensures { result ≡ test self.now facts };
}

/// The open roads.
#[derive(Clone, Copy)]
pub struct Open;

impl RoadTest for Open {
    ghost test = { λ _ f. f.open };

    fn passes(&self, facts: Facts) -> bool {
        facts.open
    }
}

/// The open roads with both ends in a cell.
#[derive(Clone, Copy)]
pub struct Inside<'a> {
    pub codes: &'a [u16],
    pub level: u8,
    pub cell: u16,
}

// The code of a junction; 0 where none is listed.
fn code_at(codes: &[u16], junction: u32) -> u16
    ensures { result ≡ slice_index codes.now junction }
{
    codes.get(junction as usize).copied().unwrap_or(0)
}

impl<'a> Inside<'a> {
    // Whether a junction lies in the cell.
    fn holds(&self, junction: u32) -> bool
        ensures { result ≡ (cell (surveyed 0 self.now.codes.now) self.now.level junction == self.now.cell) }
    {
        cell_of(code_at(self.codes, junction), self.level) == self.cell
    }
}

impl<'a> RoadTest for Inside<'a> {
    ghost test = { λ s. stays_inside (surveyed 0 s.codes.now) s.level s.cell };

    fn passes(&self, facts: Facts) -> bool {
        facts.open && self.holds(facts.tail) && self.holds(facts.head)
    }
}
