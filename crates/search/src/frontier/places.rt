//! The places of a graph, of which the queue holds those that wait, each once.
ghost use Rattle.search.specs.Waiting.{Bag};

mod waiting;

use super::lists::Lists;

// The lists of a search. Its steps keep the queue as it has to be.
#[derive(Drop)]
pub(super) struct Places {
    pub(super) lists: Lists,
    ghost bag: { Bag lists },
}
