//! What a road costs, and what a list of roads costs together.
#![tactic(auto)]

mod blends;
mod charges;
mod extras;
mod loads;
mod tariffs;
mod totals;

pub use charges::Charge;
pub use extras::Extra;
pub use tariffs::{BlendTariff, LoadTariff, Tariff};
pub use totals::total_along;
