ghost use Rattle.std.specs.Prelude.{◌≡◌, IfOk, ◌==◌};
ghost use Rattle.map_file.specs.Layout.{level_count};
ghost use Rattle.map_file.specs.Records.{road_of};
ghost use Rattle.chained_map.specs.Meaning.{network, code_of, codes};
ghost use Rattle.chained_map.specs.Opened.{file};
ghost use Rattle.chained_map.specs.Closed.{marked};
ghost use Rattle.chained_map.specs.Meant.{well_formed};

use super::ChainedMap;
use map_file::{RoadRecord, junction_count, read_byte, read_junction, read_road, road_count};
use roads::Roads;
use roads::facts::Facts;
use std::alloc::{AllocError, Global};

impl ChainedMap {
    /// How many overlay levels the file's codes have.
    pub fn levels(&self) -> u8
        ensures { result ≡ level_count (file self.now) }
    {
        read_byte(&self.bytes, 4)
    }

    /// A junction's code; `None` where there is no such junction.
    pub fn code(&self, junction: u32) -> Option<u16>
        ensures { result ≡ code_of (file self.now) junction }
    {
        read_junction(&self.bytes, junction).map(|record| record.code)
    }

    /// The codes of all junctions, in order.
    pub fn codes(&self, heap: Global) -> Result<Vec<u16>, AllocError>
        ensures { IfOk result (λ v. v.items ≡ codes (file self.now)) }
    {
        (0..self.junctions())
            .filter_map(|junction| self.code(junction))
            .collect(heap)
    }

    // The record of a road; `None` where there is no such road.
    #[inline(always)]
    fn road_record(&self, road: u32) -> Option<RoadRecord>
        ensures { result ≡ road_of (file self.now) road }
    {
        read_road(&self.bytes, road)
    }

    // Whether a road is marked as closed.
    #[inline(always)]
    pub(crate) fn is_marked(&self, road: u32) -> bool
        ensures { result ≡ (marked (file self.now)).own road }
    {
        self.road_record(road)
            .is_some_and(|record| record.mark != 0)
    }
}

// The facts of a road with this tail.
fn facts_of(road: RoadRecord, tail: u16) -> Facts
    ensures { result ≡ record { tail = tail; head = road.head; seconds = road.seconds; metres = road.metres; limit = road.limit; «open» = (road.mark == 0) } }
{
    Facts {
        tail: u32::from(tail),
        head: u32::from(road.head),
        seconds: road.seconds,
        metres: road.metres,
        limit: road.limit,
        open: road.mark == 0,
    }
}

impl Roads for ChainedMap {
    ghost meaning = { λ x. network (file x) };

    ghost sound = { λ s. well_formed (file s) s.sound s.small };

    fn junctions(&self) -> u32 {
        junction_count(&self.bytes)
    }

    fn roads(&self) -> u32 {
        road_count(&self.bytes)
    }

    #[tactic(auto, using(crate::proofs::Readings::read_known, crate::specs::Chained::tail_known, crate::specs::Chained::sound_head, map_file::proofs::Passed::few_roads))]
    fn facts(&self, road: u32) -> Option<Facts> {
        let record = self.road_record(road)?;
        let tail = self.tails[road as usize].junction().unwrap();
        Some(facts_of(record, tail))
    }

    #[tactic(auto, using(crate::proofs::Readings::first_read))]
    fn first(&self, junction: u32) -> u32 {
        read_junction(&self.bytes, junction).map_or(0, |record| u32::from(record.first))
    }

    #[tactic(auto, using(crate::proofs::Readings::next_read))]
    fn after(&self, road: u32) -> u32 {
        self.road_record(road)
            .map_or(0, |record| u32::from(record.next))
    }
}
