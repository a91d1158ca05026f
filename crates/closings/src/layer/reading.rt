ghost use Rattle.std.specs.Prelude.{◌≡◌, ◌&&◌, []};
ghost use Rattle.roads.specs.RoadLists.{has};
ghost use Rattle.roads.specs.Networks.{numbered};
ghost use Rattle.closings.specs.Closures.{opened};
ghost use Rattle.closings.specs.Layers.{layered};
ghost use Rattle.closings.specs.Coherence.{opened_sound};

use super::ClosingsLayer;
use crate::table::Table;
use roads::Roads;
use roads::facts::Facts;

impl<B: Roads> ClosingsLayer<B> {
    /// A layer that closes nothing yet.
    pub fn new(below: B) -> ClosingsLayer<B>
        ensures below { result.below ≡ below }
        ensures empty { result.table ≡ [] }
    {
        ClosingsLayer {
            below,
            table: Table::new(),
        }
    }

    /// The roads below, as they are without this layer.
    pub fn below(&self) -> &B
        ensures { result.now ≡ self.now.below }
    {
        &self.below
    }

    /// Gives the roads below back.
    pub fn into_below(self) -> B
        ensures { result ≡ self.below }
    {
        let ClosingsLayer { below, table: _ } = self;
        below
    }

    // Whether a road is closed by this layer. `facts` asks it of roads, few of which are in the table.
    pub(super) fn owns(&self, road: u32) -> bool
        ensures { result ≡ (has road self.now.table && numbered (B.Roads.meaning self.now.below).roads road) }
    {
        self.table.contains(road) && self.below.has_road(road)
    }
}

impl<B: Roads> Roads for ClosingsLayer<B> {
    ghost meaning = { λ s. opened (B.Roads.meaning s.below) (layered (B.Roads.meaning s.below) s.table) };

    ghost sound = { λ s.
        let w = B.Roads.meaning s.below in
        opened_sound w (layered w s.table) (B.Roads.sound s.below) };

    fn junctions(&self) -> u32 {
        self.below.junctions()
    }

    fn roads(&self) -> u32 {
        self.below.roads()
    }

    fn facts(&self, road: u32) -> Option<Facts> {
        let mut facts = self.below.facts(road)?;
        facts.open = facts.open && !self.owns(road);
        Some(facts)
    }

    fn first(&self, junction: u32) -> u32 {
        self.below.first(junction)
    }

    fn after(&self, road: u32) -> u32 {
        self.below.after(road)
    }
}
