//! Graphs that are gone through by a cursor.
ghost use Rattle.std.specs.Prelude.{◌≡◌, List, [], ◌∷◌, IfSome, MatchOption};
ghost use Rattle.std.specs.Iterator.{item_count};
ghost use Rattle.walks.specs.declared.arcs.Arc.{Arc};
ghost use Rattle.walks.specs.Digraphs.{Digraph};
ghost use Rattle.walks.specs.Arcs.{GaveFirst};

use super::Graph;
use super::arcs::ChargedArc;
use charge::Charge;

/// A graph whose arcs are gone through by a cursor, which lends nothing of the graph.
pub trait CursorGraph {
    type Charge: Charge;

    type Cursor: Drop;

    ghost graph: { Self → Digraph Self.Charge };

    // The arcs that a cursor has yet to give.
    ghost left: { Self → Self.Cursor → List Arc };

    fn places(&self) -> u32
        ensures { result ≡ (graph self.now).places };

    /// A cursor at the first arc that leaves a place.
    fn leaving(&self, place: u32) -> Self::Cursor
        ensures { left self.now result ≡ (graph self.now).leaving place };

    /// The arc at a cursor, with its charge; the cursor goes on to the next.
    fn next_arc(&self, at: &mut Self::Cursor) -> Option<ChargedArc<Self::Charge>>
        ensures given { MatchOption result (left self.now at.old ≡ []) (λ x. left self.now at.old ≡ (x.arc ∷ left self.now at.new)) }
        ensures charged { IfSome result (λ x. x.charge ≡ (graph self.now).charge x.arc) };
}

/// A graph that is gone through by a cursor, as a graph that can be searched.
#[derive(Drop)]
pub struct ByCursor<'a, G: CursorGraph> {
    pub graph: &'a G,
}

/// The arcs that a cursor has yet to give, one by one.
#[derive(Drop)]
pub struct CursorArcs<'a, G: CursorGraph> {
    graph: &'a G,
    at: G::Cursor,
}

impl<'a, G: CursorGraph> Iterator for CursorArcs<'a, G> {
    type Item = ChargedArc<G::Charge>;

    ghost next_gives = { GaveFirst (λ s. G.CursorGraph.left s.graph.now s.at) (λ s. (G.CursorGraph.graph s.graph.now).charge) };

    ghost remaining = { item_count (λ s. G.CursorGraph.left s.graph.now s.at) };

    fn next(&mut self) -> Option<ChargedArc<G::Charge>> {
        self.graph.next_arc(&mut self.at)
    }
}

impl<'a, G: CursorGraph> Graph for ByCursor<'a, G> {
    type Charge = G::Charge;

    type Arcs = CursorArcs<'a, G>;

    ghost graph = { λ s. G.CursorGraph.graph s.graph.now };

    fn places(&self) -> u32 {
        self.graph.places()
    }

    #[tactic(auto, using(crate::proofs::Coming::gives))]
    fn leaving(&self, place: u32) -> CursorArcs<'a, G> {
        CursorArcs {
            graph: self.graph,
            at: self.graph.leaving(place),
        }
    }
}
