//! The roads of a district under a tariff, as graphs that can be searched.
#![tactic(auto)]

mod arcs;
mod choice;
mod cursor;
mod cursor_graph;
mod graph;

pub use arcs::ArcsWhere;
pub use choice::{Inside, Open, RoadTest};
pub use cursor::{Passing, RoadCursor, first_leaving, next_passing};
pub use graph::RoadsWhere;
