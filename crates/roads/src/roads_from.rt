//! The roads that leave a junction, one by one.
ghost use Rattle.std.specs.Prelude.{◌≡◌, true, ◌∷◌};
ghost use Rattle.std.specs.Iterator.{YieldsFirst, item_count};
ghost use Rattle.roads.specs.RoadLists.{front};
ghost use Rattle.roads.specs.Networks.{numbered, next_leaving, roads_from, stands};

use crate::Roads;

// Where the leaving list of a junction begins.
fn first_of<R: Roads>(roads: &R, junction: u32) -> u32
    ensures { result ≡ front ((R.Roads.meaning roads.now).leaving junction) }
{
    roads.first(junction)
}

/// The roads that leave a junction, one by one, in the order of its leaving list.
#[derive(Drop)]
pub struct RoadsFrom<'a, R: Roads> {
    roads: &'a R,
    road: u32,
    ghost here: { stands (R.Roads.meaning roads.now) road ≡ true },
}

impl<'a, R: Roads> RoadsFrom<'a, R> {
    pub fn new(roads: &'a R, junction: u32) -> RoadsFrom<'a, R>
        ensures { roads_from (R.Roads.meaning result.roads.now) result.road ≡ (R.Roads.meaning roads.now).leaving junction }
    {
        RoadsFrom {
            roads,
            road: first_of(roads, junction),
        }
    }

    // The road after the one that stands here.
    fn after(&self) -> u32
        ensures { result ≡ next_leaving (R.Roads.meaning self.now.roads.now) self.now.road }
    {
        self.roads.after(self.road)
    }

    // Gives the road that stands here, and goes on to the next.
    fn pass(&mut self) -> u32
        requires { numbered (R.Roads.meaning self.old.roads.now).roads self.old.road ≡ true }
        ensures { roads_from (R.Roads.meaning self.old.roads.now) self.old.road ≡ result ∷ roads_from (R.Roads.meaning self.new.roads.now) self.new.road }
    {
        let road = self.road;
        self.road = self.after();
        road
    }
}

impl<'a, R: Roads> Iterator for RoadsFrom<'a, R> {
    type Item = u32;

    ghost next_gives = { YieldsFirst (λ s. roads_from (R.Roads.meaning s.roads.now) s.road) };

    ghost remaining = { item_count (λ s. roads_from (R.Roads.meaning s.roads.now) s.road) };

    #[tactic(auto, using(crate::proofs::Leaving::from_none, crate::proofs::Leaving::stands_road))]
    fn next(&mut self) -> Option<u32> {
        if self.road == 0 {
            return None;
        }
        Some(self.pass())
    }
}
