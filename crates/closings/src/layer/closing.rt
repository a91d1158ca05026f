ghost use Rattle.std.specs.Prelude.{◌≡◌, ◌<◌, ◌≤◌, false, [], ◌∷◌, ◌++◌, length, filter};
ghost use Rattle.roads.specs.Faults.{reported};
ghost use Rattle.roads.specs.RoadLists.{has};
ghost use Rattle.closings.specs.Closures.{tally, close_fault};
ghost use Rattle.closings.specs.Layers.{layered};
ghost use Rattle.closings.specs.Tables.{other_road};
ghost use Rattle.closings.specs.Coherence.{layered_coherent};

use super::ClosingsLayer;
use crate::table::CAPACITY;
use crate::{Closable, check_road};
use roads::fault::{Fault, Part, Refusal};
use roads::{Roads, is_numbered};

impl<B: Roads> ClosingsLayer<B> {
    // Whether a road is closed by this layer. What is no road costs no look at the table.
    fn closes(&self, road: u32) -> bool
        ensures { result ≡ (layered (B.Roads.meaning self.now.below) self.now.table).own road }
    {
        self.below.has_road(road) && self.table.contains(road)
    }

    // Refuses a road that cannot be closed.
    // Kept: one chain that makes one fault; faults handed on by `?` from check to check cost more than all the rest.
    fn check_close(&self, road: u32) -> Result<(), Fault>
        ensures { let w = B.Roads.meaning self.now.below in reported result ≡ close_fault w.roads (layered w self.now.table) road }
    {
        let m = self.below.roads();
        let refusal = if !is_numbered(m, road) {
            Refusal::Road
        } else if self.table.contains(road) {
            Refusal::Already
        } else if self.table.count_roads(m) >= CAPACITY as u32 {
            Refusal::Full
        } else {
            return Ok(());
        };
        Err(Fault::new(refusal, road as usize, Part::Layer))
    }

    // Takes a road into the table.
    fn add(&mut self, road: u32)
        requires { let w = B.Roads.meaning self.old.below in tally (layered w self.old.table).own w.roads < 32 }
        ensures below { self.new.below ≡ self.old.below }
        ensures table { self.new.table ≡ filter (other_road (B.Roads.meaning self.old.below).roads road) self.old.table ++ (road ∷ []) }
    {
        self.remove(road);
        self.table.push(road);
    }

    // Takes a road out of the table, and whatever is no road.
    fn remove(&mut self, road: u32)
        ensures below { self.new.below ≡ self.old.below }
        ensures table { self.new.table ≡ filter (other_road (B.Roads.meaning self.old.below).roads road) self.old.table }
        ensures gone { has road self.new.table ≡ false }
        ensures few { let w = B.Roads.meaning self.old.below in length self.new.table ≤ tally (layered w self.old.table).own w.roads }
    {
        self.table = self.table.without(road, self.below.roads());
    }
}

impl<B: Roads> Closable for ClosingsLayer<B> {
    ghost closures = { λ s. layered (B.Roads.meaning s.below) s.table };

    ghost coherent = { λ s. layered_coherent (B.Roads.meaning s.below) s.table (B.Roads.sound s.below) };

    fn capacity(&self) -> u32 {
        CAPACITY as u32
    }

    fn closed_count(&self) -> u32 {
        self.table.count_roads(self.below.roads())
    }

    fn is_under_open(&self, road: u32) -> bool {
        self.below.is_open(road)
    }

    fn is_own_closing(&self, road: u32) -> bool {
        self.owns(road)
    }

    fn close(&mut self, road: u32) -> Result<(), Fault> {
        self.check_close(road)?;
        self.add(road);
        Ok(())
    }

    fn reopen(&mut self, road: u32) -> Result<(), Fault> {
        check_road(
            self,
            self.closes(road),
            Refusal::NotClosed,
            road,
            Part::Layer,
        )?;
        self.remove(road);
        Ok(())
    }
}
