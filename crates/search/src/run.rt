//! A search as it runs.
ghost use Rattle.std.specs.Prelude.{◌≡◌, ◌≤◌, length};

use crate::frontier::Frontier;
use walks::Graph;

// A search over a graph, with what it keeps of each place and the labels.
#[derive(Drop)]
pub(crate) struct Run<'a, G: Graph> {
    pub(crate) graph: &'a G,
    pub(crate) frontier: &'a mut Frontier,
    pub(crate) labels: &'a mut [G::Charge],
    ghost size: { frontier.now.places.lists.size ≡ (G.Graph.graph graph.now).places },
    ghost room: { (G.Graph.graph graph.now).places ≤ length labels.now },
}
