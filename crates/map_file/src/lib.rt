//! The map file: its fields and records, and what is checked before it is read.
#![tactic(auto)]

ghost use Rattle.std.specs.Prelude.{◌≡◌, IfOk};
ghost use Rattle.roads.specs.Faults.{reported};
ghost use Rattle.map_file.specs.Chains.{Tails, open_fault};

mod chains;
mod fields;
mod header;
mod records;
mod tails;

pub use fields::{junction_count, read_byte, read_field, road_count};
use header::check_head;
pub use records::{JunctionRecord, RoadRecord, read_junction, read_road, road_place};
use roads::fault::Fault;
pub use tails::TailTable;
use tails::blank;

/// Checks a map file, and finds the tail of each of its roads: the junction whose chain has it.
#[tactic(auto, unfolding(crate::specs::Chains::open_fault))]
pub fn check_map(bytes: &[u8]) -> Result<TailTable, Fault>
    ensures told { reported result ≡ open_fault bytes.now }
    ensures tails { IfOk result (Tails bytes.now) }
{
    let records = check_head(bytes)?.check_fields()?;
    let mut tails = blank();
    records.check_chains(&mut tails)?;
    Ok(tails)
}
