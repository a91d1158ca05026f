ghost use Rattle.std.specs.Prelude.{◌≡◌, ◌<◌, ◌≤◌, true, false, ◌&&◌, [], ◌∷◌, ◌++◌, length, filter, count_by};
ghost use Rattle.roads.specs.RoadLists.{has, distinct};
ghost use Rattle.roads.specs.Networks.{numbered};
ghost use Rattle.closings.specs.Closures.{tally};
ghost use Rattle.closings.specs.Tables.{other_road};

use super::{CAPACITY, Table};
use roads::is_numbered;

impl Table {
    pub(crate) fn new() -> Table
        ensures { result ≡ [] }
    {
        Table {
            slots: [0; CAPACITY],
            count: 0,
        }
    }

    fn numbers(&self) -> &[u32]
        ensures all { result.now ≡ self.now }
        ensures few { length self.now ≤ CAPACITY }
        ensures once { distinct self.now ≡ true }
    {
        &self.slots[..self.count]
    }

    pub(crate) fn contains(&self, road: u32) -> bool
        ensures { result ≡ has road self.now }
    {
        self.numbers().contains(&road)
    }

    // How many of m roads are among the numbers.
    pub(crate) fn count_roads(&self, m: u32) -> u32
        ensures { result ≡ tally (λ q. has q self.now && numbered m q) m }
    {
        count_numbered(self.numbers(), m) as u32
    }

    pub(crate) fn push(&mut self, road: u32)
        requires new { has road self.old ≡ false }
        requires room { length self.old < CAPACITY }
        ensures { self.new ≡ self.old ++ (road ∷ []) }
    {
        self.slots[self.count] = road;
        self.count += 1;
    }

    // A table of the numbers that are roads, of which there are m, but for one.
    pub(crate) fn without(&self, road: u32, m: u32) -> Table
        ensures rest { result ≡ filter (other_road m road) self.now }
        ensures gone { has road result ≡ false }
        ensures few { length result ≤ tally (λ q. has q self.now && numbered m q) m }
    {
        let mut table = Table::new();
        for x in self.numbers() {
            if is_other_road(m, road, *x) {
                table.push(*x);
            }
        }
        table
    }
}

// How many of some numbers are roads, of which there are m.
// Kept: `filter` and `count` take twice the time, and each closing counts.
fn count_numbered(numbers: &[u32], m: u32) -> usize
    ensures count { result ≡ count_by (numbered m) numbers.now }
    ensures few { result ≤ length numbers.now }
{
    let mut count = 0;
    for x in numbers {
        if is_numbered(m, *x) {
            count += 1;
        }
    }
    count
}

fn is_other_road(m: u32, road: u32, x: u32) -> bool
    ensures { result ≡ other_road m road x }
{
    is_numbered(m, x) && x != road
}
