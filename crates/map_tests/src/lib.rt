//! Tests of map files: each check of opening at its edges, and what an open map reads.
#![tactic(auto)]

#[cfg(test)]
mod closing;
#[cfg(test)]
mod opening;
#[cfg(test)]
mod reading;
#[cfg(test)]
mod samples;
