//! The chains of roads, followed junction by junction.
ghost use Rattle.std.specs.Prelude.{◌≡◌, ◌+◌, ◌<◌, ◌≤◌, [], None, Some, OnOk, is_ok, is_none, position, replicate, slice_index_or, slice_set, if◌then◌else◌};
ghost use Rattle.roads.specs.declared.fault.Part.TheVariants.{Map};
ghost use Rattle.roads.specs.Faults.{reported, unless, first_below};
ghost use Rattle.map_file.specs.Layout.{junction_count, road_count, first_at, next_at};
ghost use Rattle.map_file.specs.Chains.{again, met, met_again, unmet_fault, TailsBelow, Tails, chain_fault};

use super::fields::read_field;
use super::header::Records;
use super::records::{read_junction, read_road};
use super::tails::TailTable;
use roads::JunctionSlot;
use roads::fault::{Fault, Part, Refusal};

// Gives a road its tail; refused where it has one.
fn give_tail(tails: &mut TailTable, road: u16, tail: u16) -> Result<(), Fault>
    requires road { road < 4097 }
    requires tail { tail < 65535 }
    ensures told { reported result ≡ unless (is_none (slice_index_or tails.old road None)) 4 road Map }
    ensures given { tails.new ≡ (if is_ok result then slice_set tails.old road (Some tail) else tails.old) }
{
    if tails[usize::from(road)].junction().is_some() {
        return Err(Fault::new(Refusal::Chain, usize::from(road), Part::Map));
    }
    tails[usize::from(road)] = JunctionSlot::with(tail);
    Ok(())
}

// Where the first road without a tail stands in a list.
fn first_unmet(tails: &[JunctionSlot]) -> Option<usize>
    ensures { result ≡ position is_none tails.now }
{
    tails.iter().position(|tail| tail.junction().is_none())
}

impl Records<'_> {
    // The first road of a junction's chain, or 0.
    fn first(&self, junction: u16) -> u16
        requires { junction < junction_count self.now.bytes.now }
        ensures { result ≡ first_at self.now.bytes.now junction }
    {
        read_junction(self.bytes, u32::from(junction)).map_or(0, |record| record.first)
    }

    // The next road of a road's chain, or 0.
    fn next(&self, road: u16) -> u16
        requires some { 0 < road }
        requires known { road ≤ road_count self.now.bytes.now }
        ensures { result ≡ next_at self.now.bytes.now road }
    {
        read_road(self.bytes, u32::from(road)).map_or(0, |record| record.next)
    }

    // Gives each road on a junction's chain the junction for its tail; refused at the first road that has a tail.
    #[tactic(auto, using(crate::proofs::Walks::walk_tails))]
    fn follow_chain(&self, tails: &mut TailTable, junction: u16) -> Result<(), Fault>
        requires junction { junction < junction_count self.now.bytes.now }
        requires tails { TailsBelow self.now.bytes.now junction tails.old }
        requires fresh { again [] (met self.now.bytes.now junction) ≡ None }
        ensures told { reported result ≡ met_again (again [] (met self.now.bytes.now (junction + 1))) }
        ensures tails { OnOk result (TailsBelow self.now.bytes.now (junction + 1) tails.new) }
    {
        let mut road = self.first(junction);
        // Kept: 0 ends a chain in the file, a rule of its format, and no index is counted.
        while road != 0 {
            give_tail(tails, road, junction)?;
            road = self.next(road);
        }
        Ok(())
    }

    // Gives each road its tail, where none has one yet; refused at the first road that is met again.
    #[tactic(auto, using(crate::proofs::Walks::fault_later))]
    fn find_tails(&self, tails: &mut TailTable) -> Result<(), Fault>
        requires { tails.old ≡ replicate 4097 None }
        ensures told { reported result ≡ met_again (again [] (met self.now.bytes.now (junction_count self.now.bytes.now))) }
        ensures tails { OnOk result (Tails self.now.bytes.now tails.new) }
    {
        for junction in 0..read_field(self.bytes, 0) {
            self.follow_chain(tails, junction)?;
        }
        Ok(())
    }

    // Refused at the lowest road that has no tail.
    fn check_met(&self, tails: &TailTable) -> Result<(), Fault>
        requires { Tails self.now.bytes.now tails.now }
        ensures { reported result ≡ first_below (unmet_fault (met self.now.bytes.now (junction_count self.now.bytes.now))) (road_count self.now.bytes.now) }
    {
        let m = usize::from(read_field(self.bytes, 2));
        let all = &tails[..];
        match first_unmet(&all[1..m + 1]) {
            Some(i) => Err(Fault::new(Refusal::Chain, i + 1, Part::Map)),
            None => Ok(()),
        }
    }

    // Every road is on one chain, once: the table, blank before, then has the tail of each.
    #[tactic(auto, unfolding(crate::specs::Chains::chain_fault))]
    pub(crate) fn check_chains(&self, tails: &mut TailTable) -> Result<(), Fault>
        requires { tails.old ≡ replicate 4097 None }
        ensures told { reported result ≡ chain_fault self.now.bytes.now }
        ensures tails { OnOk result (Tails self.now.bytes.now tails.new) }
    {
        self.find_tails(tails)?;
        self.check_met(tails)
    }
}
