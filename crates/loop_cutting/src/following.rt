//! Following exits, arc by arc.
ghost use Rattle.std.specs.Prelude.{◌≡◌, ◌≤◌, ◌++◌, map, length, drop};
ghost use Rattle.std.specs.Iterator.{YieldsFirst, at_most};
ghost use Rattle.walks.specs.Cutting.{follow};
ghost use Rattle.loop_cutting.specs.Exits.{exit_at};
ghost use Rattle.loop_cutting.specs.Following.{ahead};

use crate::exits::Exits;
use walks::Arc;

/// The arcs from a place by the exits to a goal, at most so many.
#[derive(Drop)]
pub(crate) struct Following<'a> {
    exits: &'a Exits,
    goal: u32,
    // Kept: the exits may lead in a ring, so the iterator says itself how many arcs may come, which a `take` around it would not.
    left: usize,
    here: u32,
}

impl<'a> Following<'a> {
    pub(crate) fn new(exits: &'a Exits, start: u32, goal: u32, most: usize) -> Following<'a>
        ensures arcs { ahead result ≡ follow (exit_at exits.now) goal most start }
        ensures most { result.left ≡ most }
    {
        Following {
            exits,
            goal,
            left: most,
            here: start,
        }
    }

    /// Writes the roads of the arcs ahead into a list that has room for them.
    pub(crate) fn put_roads(self, way: &mut [u32])
        requires { length (ahead self) ≤ length way.old }
        ensures { way.new ≡ map (λ x. x.road) (ahead self.entry) ++ drop (length (ahead self.entry)) way.old }
    {
        for (at, arc) in self.enumerate() {
            way[at] = arc.road;
        }
    }
}

impl<'a> Iterator for Following<'a> {
    type Item = Arc;

    ghost next_gives = { YieldsFirst ahead };

    ghost remaining = { λ s. at_most s.left };

    fn next(&mut self) -> Option<Arc> {
        self.left = self.left.checked_sub(1)?;
        let arc = self.exits.onward(self.here, self.goal)?;
        self.here = arc.head;
        Some(arc)
    }
}
