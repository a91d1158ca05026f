ghost use Rattle.std.specs.Prelude.{◌≡◌, true, false, is_ok, if◌then◌else◌};
ghost use Rattle.roads.specs.Faults.{reported};
ghost use Rattle.closings.specs.Closures.{close_fault, reopen_fault, Moved};
ghost use Rattle.chained_map.specs.Meaning.{network};
ghost use Rattle.chained_map.specs.Opened.{file};
ghost use Rattle.chained_map.specs.Marks.{with_mark};
ghost use Rattle.chained_map.specs.Closed.{marked};
ghost use Rattle.chained_map.specs.Coherence.{map_coherent};

use super::ChainedMap;
use closings::Closable;
use map_file::road_count;
use roads::Roads;
use roads::fault::{Fault, Part, Refusal};

impl Closable for ChainedMap {
    ghost closures = { λ x. marked (file x) };

    ghost coherent = { λ x. map_coherent (file x) };

    fn capacity(&self) -> u32 {
        road_count(&self.bytes)
    }

    fn closed_count(&self) -> u32 {
        (1..=self.roads())
            .filter(|road| self.is_marked(*road))
            .count() as u32
    }

    fn is_under_open(&self, road: u32) -> bool {
        self.has_road(road)
    }

    fn is_own_closing(&self, road: u32) -> bool {
        self.is_marked(road)
    }

    // Kept: one chain that makes one fault, as in a layer; reopening has another test and another word.
    /// Writes the road's mark; no other byte changes. There is always room.
    #[tactic(auto, using(crate::proofs::Shut::close_checks))]
    fn close(&mut self, road: u32) -> Result<(), Fault>
        ensures told { reported result ≡ close_fault (network (file self.old)).roads (marked (file self.old)) road }
        ensures moved { Moved true road result (network (file self.old)) (marked (file self.old)) (network (file self.new)) (marked (file self.new)) }
        ensures bytes { file self.new ≡ (if is_ok result then with_mark 1 road (file self.old) else file self.old) }
    {
        let refusal = if !self.has_road(road) {
            Refusal::Road
        } else if self.is_marked(road) {
            Refusal::Already
        } else {
            self.write_mark(road, true);
            return Ok(());
        };
        Err(Fault::new(refusal, road as usize, Part::Map))
    }

    /// Clears the road's mark; no other byte changes.
    fn reopen(&mut self, road: u32) -> Result<(), Fault>
        ensures told { reported result ≡ reopen_fault (network (file self.old)).roads (marked (file self.old)) road }
        ensures moved { Moved false road result (network (file self.old)) (marked (file self.old)) (network (file self.new)) (marked (file self.new)) }
        ensures bytes { file self.new ≡ (if is_ok result then with_mark 0 road (file self.old) else file self.old) }
    {
        let refusal = if !self.has_road(road) {
            Refusal::Road
        } else if !self.is_marked(road) {
            Refusal::NotClosed
        } else {
            self.write_mark(road, false);
            return Ok(());
        };
        Err(Fault::new(refusal, road as usize, Part::Map))
    }
}
