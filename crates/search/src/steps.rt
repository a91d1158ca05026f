//! The steps of a search.
ghost use Rattle.std.specs.Prelude.{◌≡◌, ℕ, ◌+◌, ◌<◌, true, false, drop, slice_index_or};
ghost use Rattle.walks.specs.Digraphs.{leads, proper};
ghost use Rattle.search.specs.Found.{can_run, Answered, Asked};
ghost use Rattle.search.specs.Turns.{size_of, is_goal, settled_count, Searching, Scanning, Offered, Kept};
ghost use Rattle.search.specs.Runs.{SameRun};

use crate::labels::total_by;
use crate::run::Run;
use walks::{Arc, ChargedArc, Graph};

// Whether a search can be run, with so many labels lent.
pub(crate) fn can_run(places: u32, start: u32, labels: usize) -> bool
    ensures { result ≡ can_run places start labels }
{
    places <= 2048 && start < places && places as usize <= labels
}

fn is_goal(goal: Option<u32>, place: u32) -> bool
    ensures { result ≡ is_goal goal place }
{
    goal == Some(place)
}

// Whether an arc leads from a place to a place, as every arc of a sound graph does.
fn leads<G: Graph>(graph: &G, place: u32, arc: Arc) -> bool
    ensures { result ≡ leads (G.Graph.graph graph.now).places place arc }
{
    arc.tail == place && arc.head < graph.places()
}

impl<'a, G: Graph> Run<'a, G> {
    // Offers the head of an arc the total by way of its tail.
    fn relax(&mut self, by: ChargedArc<G::Charge>)
        requires tail { by.arc.tail < size_of self.old.frontier.now }
        requires head { by.arc.head < size_of self.old.frontier.now }
        ensures same { SameRun self.old self.new }
        ensures offered { Offered G.Charge.Charge.scale self.old.frontier.now self.old.labels.now self.new.frontier.now self.new.labels.now by.arc (G.Charge.Charge.scale.joined (slice_index_or self.old.labels.now by.arc.tail G.Charge.Charge.scale.neutral) by.charge) }
    {
        let frontier = &mut *self.frontier;
        let labels = &mut *self.labels;
        let total = total_by(labels, by);
        if frontier.improves(labels, by.arc.head, total) {
            frontier.reach(by.arc);
            labels[by.arc.head as usize] = total;
        }
    }

    // Deals with each arc of the place that was settled last, once.
    fn scan(&mut self, place: u32)
        requires { Scanning G.Charge.Charge.scale (proper (G.Graph.graph self.old.graph.now)) self.old.frontier.now self.old.labels.now place ((proper (G.Graph.graph self.old.graph.now)).leaving place) }
        ensures same { SameRun self.old self.new }
        ensures turned { Searching G.Charge.Charge.scale (proper (G.Graph.graph self.old.graph.now)) self.new.frontier.now self.new.labels.now }
        ensures kept { Kept (G.Graph.graph self.old.graph.now).places self.old.frontier.now self.old.labels.now self.new.frontier.now self.new.labels.now }
    {
        let graph = self.graph;
        for by in graph.leaving(place) {
            if leads(graph, place, by.arc) {
                self.relax(by);
            }
        }
    }

    // Settles a waiting place and, unless it is the goal, deals with its arcs. Whether the search goes on.
    // Kept: a loop's condition is a bool; an answer that breaks it off would be turned into one.
    pub(crate) fn turn(&mut self, goal: Option<u32>) -> bool
        requires { Searching G.Charge.Charge.scale (proper (G.Graph.graph self.old.graph.now)) self.old.frontier.now self.old.labels.now }
        ensures same { SameRun self.old self.new }
        ensures start { self.new.frontier.now.start ≡ self.old.frontier.now.start }
        ensures beyond { drop (G.Graph.graph self.old.graph.now).places self.new.labels.now ≡ drop (G.Graph.graph self.old.graph.now).places self.old.labels.now }
        ensures on { result ≡ true → Searching G.Charge.Charge.scale (proper (G.Graph.graph self.old.graph.now)) self.new.frontier.now self.new.labels.now }
        ensures more { result ≡ true → settled_count self.new.frontier.now (G.Graph.graph self.old.graph.now).places ≡ settled_count self.old.frontier.now (G.Graph.graph self.old.graph.now).places + 1 }
        ensures over { result ≡ false → (v : ℕ) → v < (G.Graph.graph self.old.graph.now).places → Asked goal v → Answered G.Charge.Charge.scale (proper (G.Graph.graph self.old.graph.now)) self.old.frontier.now.start self.new.frontier.now self.new.labels.now v }
    {
        let frontier = &mut *self.frontier;
        let labels = &mut *self.labels;
        let Some(place) = frontier.take_least(labels) else {
            return false;
        };
        if is_goal(goal, place) {
            return false;
        }
        self.scan(place);
        true
    }
}
