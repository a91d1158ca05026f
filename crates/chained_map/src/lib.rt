//! A map file as roads, read where it lies.
#![tactic(auto)]

mod map;

pub use map::{ChainedMap, RefusedMap};
