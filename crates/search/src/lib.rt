//! A search for least totals over any graph, under any lawful charge.
#![tactic(auto)]

ghost use Rattle.std.specs.Prelude.{◌≡◌, ℕ, ◌<◌, min, ◌++◌, length, drop, replicate, is_ok, OnOk, OnErr};
ghost use Rattle.walks.specs.Digraphs.{proper};
ghost use Rattle.search.specs.Found.{can_run, Answered, Asked};

mod frontier;
mod labels;
mod run;
mod steps;

use charge::Charge;
pub use frontier::Frontier;
use run::Run;
use walks::Graph;

/// A search cannot be run: the graph has more than 2048 places, the start is none of them, or too few labels are lent.
#[derive(Clone, Copy, PartialEq, Eq, Debug)]
pub struct CannotRun;

/// Searches from a start, to a goal or to every place that a walk leads to. An error changes nothing.
///
/// It takes O(n) to begin, looks at each arc of a settled place once, and goes through the waiting places to settle one.
pub fn search<G: Graph>(
    graph: &G,
    start: u32,
    goal: Option<u32>,
    frontier: &mut Frontier,
    labels: &mut [G::Charge],
) -> Result<(), CannotRun>
    ensures ran { is_ok result ≡ can_run (G.Graph.graph graph.now).places start (length labels.old) }
    ensures answered { OnOk result ((v : ℕ) → v < (G.Graph.graph graph.now).places → Asked goal v → Answered G.Charge.Charge.scale (proper (G.Graph.graph graph.now)) start frontier.new labels.new v) }
    ensures beyond { drop (G.Graph.graph graph.now).places labels.new ≡ drop (G.Graph.graph graph.now).places labels.old }
    ensures refused { OnErr result ((labels.new ≡ labels.old) × (frontier.new ≡ frontier.old)) }
{
    let size = graph.places();
    if !steps::can_run(size, start, labels.len()) {
        return Err(CannotRun);
    }
    frontier.begin(size as usize, start);
    labels::reset(labels, start as usize);
    let mut run = Run {
        graph,
        frontier,
        labels,
    };
    while run.turn(goal) {}
    Ok(())
}

/// Leaves the first n labels neutral.
#[tactic(auto, using(crate::proofs::Fills::fill_more))]
pub fn wipe<C: Charge>(labels: &mut [C], n: usize)
    ensures { labels.new ≡ replicate (min n (length labels.old)) C.Charge.scale.neutral ++ drop n labels.old }
{
    let count = n.min(labels.len());
    for label in labels[..count].iter_mut() {
        *label = C::neutral();
    }
}
