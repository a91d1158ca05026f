ghost use Rattle.std.specs.Prelude.{◌≡◌, ℕ, ◌++◌, map, length, drop, is_some, if◌then◌else◌, None, nat_eq};
ghost use Rattle.walks.specs.Cutting.{follow};
ghost use Rattle.loop_cutting.specs.Exits.{exit_at, fits, noted, room_for};

use crate::following::Following;
use roads::JunctionSlot;
use walks::Arc;

/// For each of 2,048 places the arc that left it last.
#[derive(Drop)]
pub struct Exits {
    exits: [Exit; 2048],
}

// Where the arc leads that left a place, if one did, and by which road.
#[derive(Clone, Copy)]
struct Exit {
    head: JunctionSlot,
    road: u32,
}

impl Exits {
    pub fn new() -> Exits
        ensures { (u : ℕ) → exit_at result u ≡ None }
    {
        Exits {
            exits: [no_exit(); 2048],
        }
    }

    /// No place has been left.
    pub fn clear(&mut self)
        ensures { (u : ℕ) → exit_at self.new u ≡ None }
    {
        *self = Exits::new();
    }

    /// Notes that an arc is taken; `None` where it is not between places that there is room for.
    pub fn note(&mut self, arc: Arc) -> Option<()>
        ensures fits { is_some result ≡ fits arc }
        ensures exits { (u : ℕ) → exit_at self.new u ≡ (if is_some result then noted (exit_at self.old) arc u else exit_at self.old u) }
    {
        if arc.tail >= 2048 || arc.head >= 2048 {
            return None;
        }
        let u = arc.tail as usize;
        self.exits[u] = Exit {
            head: JunctionSlot::with(arc.head as u16),
            road: arc.road,
        };
        Some(())
    }

    /// Writes the roads from a start by the exits to a goal, at most so many; `None` where the list is too short.
    // Kept: a way is written into a lent list and told by its count, a rule of the project.
    pub fn write_way(&self, start: u32, goal: u32, most: usize, way: &mut [u32]) -> Option<usize>
        ensures count { result ≡ room_for (follow (exit_at self.now) goal most start) (length way.old) }
        ensures written { way.new ≡ (if is_some result then map (λ x. x.road) (follow (exit_at self.now) goal most start) ++ drop (length (follow (exit_at self.now) goal most start)) way.old else way.old) }
    {
        let count = Following::new(self, start, goal, most).count();
        if count > way.len() {
            return None;
        }
        Following::new(self, start, goal, most).put_roads(way);
        Some(count)
    }

    // The arc that left a place last.
    fn exit(&self, place: u32) -> Option<Arc>
        ensures { result ≡ exit_at self.now place }
    {
        let exit = self.exits.get(place as usize)?;
        let head = exit.head.junction()?;
        Some(Arc {
            tail: place,
            head: u32::from(head),
            road: exit.road,
        })
    }

    /// The arc to go on by; none at the goal.
    pub(crate) fn onward(&self, here: u32, goal: u32) -> Option<Arc>
        ensures { result ≡ (if nat_eq here goal then None else exit_at self.now here) }
    {
        if here == goal {
            return None;
        }
        self.exit(here)
    }
}

// No arc left a place.
fn no_exit() -> Exit
    ensures { result.head ≡ None }
{
    Exit {
        head: JunctionSlot::empty(),
        road: 0,
    }
}
