//! Graphs with charged arcs, walks over them, and what a least total is.
#![tactic(auto)]

ghost use Rattle.std.specs.Prelude.{◌≡◌};
ghost use Rattle.std.specs.Iterator.{IsFinite};
ghost use Rattle.walks.specs.Digraphs.{Digraph};
ghost use Rattle.walks.specs.Arcs.{Gives};

mod arcs;
mod cursors;

pub use arcs::{Arc, ChargedArc};
use charge::Charge;
pub use cursors::{ByCursor, CursorArcs, CursorGraph};

/// A graph that can be searched.
pub trait Graph {
    type Charge: Charge;

    type Arcs: Iterator<Item = ChargedArc<Self::Charge>> + Drop;

    ghost graph: { Self → Digraph Self.Charge };

    fn places(&self) -> u32
        ensures { result ≡ (graph self.now).places };

    /// The arcs that leave a place, in order, each with its charge.
    fn leaving(&self, place: u32) -> Self::Arcs
        ensures can { Self.Arcs.can_next result }
        ensures ends { IsFinite (Self.Arcs.remaining result) }
        ensures gives { Gives Self.Arcs.next_gives (graph self.now).charge result ((graph self.now).leaving place) };
}
