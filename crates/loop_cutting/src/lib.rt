//! Cutting the loops of a walk, by last exits.
#![tactic(auto)]

ghost use Rattle.std.specs.Prelude.{◌≡◌, ℕ, ◌++◌, map, length, drop, is_some, if◌then◌else◌, None, IfSome};
ghost use Rattle.walks.specs.Cutting.{last_exit, cut};
ghost use Rattle.loop_cutting.specs.Exits.{exit_at, all_fit, room_for};

mod exits;
mod following;

pub use exits::Exits;
use walks::Arc;

/// Writes the roads of a walk without its loops; `None` where an arc has no place here or the list is too short.
pub fn cut_loops(
    walk: &[Arc],
    start: u32,
    goal: u32,
    exits: &mut Exits,
    way: &mut [u32],
) -> Option<usize>
    ensures count { result ≡ (if all_fit walk.now then room_for (cut start goal walk.now) (length way.old) else None) }
    ensures written { way.new ≡ (if is_some result then map (λ x. x.road) (cut start goal walk.now) ++ drop (length (cut start goal walk.now)) way.old else way.old) }
{
    exits.clear();
    note_walk(walk, exits)?;
    exits.write_way(start, goal, walk.len(), way)
}

// Notes the arcs of a walk in order, where none is noted yet; `None` at the first that has no place here.
fn note_walk(walk: &[Arc], exits: &mut Exits) -> Option<()>
    requires { (u : ℕ) → exit_at exits.old u ≡ None }
    ensures fits { is_some result ≡ all_fit walk.now }
    ensures last { IfSome result (λ _. exit_at exits.new ≡ last_exit walk.now) }
{
    for arc in walk {
        exits.note(*arc)?;
    }
    Some(())
}
