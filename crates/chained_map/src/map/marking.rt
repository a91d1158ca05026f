ghost use Rattle.std.specs.Prelude.{◌≡◌, ◌≤◌, true, cond};
ghost use Rattle.roads.specs.Networks.{numbered};
ghost use Rattle.closings.specs.Closures.{opened, with_own};
ghost use Rattle.map_file.specs.Layout.{road_count};
ghost use Rattle.chained_map.specs.Meaning.{network};
ghost use Rattle.chained_map.specs.Opened.{file};
ghost use Rattle.chained_map.specs.Marks.{mark_place, with_mark};
ghost use Rattle.chained_map.specs.Closed.{marked};

use super::ChainedMap;
use map_file::road_place;

// The mark of a road: 1 where it is closed, else 0.
fn mark_of(closed: bool) -> u8
    ensures value { result ≡ cond closed 1 0 }
    ensures low { result ≤ 1 }
{
    u8::from(closed)
}

impl ChainedMap {
    // Where the mark of a road stands.
    fn mark_place(&self, road: u32) -> usize
        requires { numbered (road_count (file self.now)) road ≡ true }
        ensures { result ≡ mark_place (file self.now) road }
    {
        road_place(&self.bytes, road).unwrap() as usize + 10
    }

    // Marks a road as closed, or as not closed.
    pub(crate) fn write_mark(&mut self, road: u32, closed: bool)
        requires { numbered (road_count (file self.old)) road ≡ true }
        ensures bytes { file self.new ≡ with_mark (cond closed 1 0) road (file self.old) }
        ensures closures { marked (file self.new) ≡ with_own closed road (marked (file self.old)) }
        ensures roads { network (file self.new) ≡ opened (network (file self.old)) (marked (file self.new)) }
    {
        let at = self.mark_place(road);
        self.bytes[at] = mark_of(closed);
    }
}
