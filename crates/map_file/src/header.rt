//! The checks of the header and the records, in the order of the file.
ghost use Rattle.std.specs.Prelude.{◌≡◌, ◌^◌, ◌<◌, None, IfOk};
ghost use Rattle.roads.specs.Faults.{reported, first_below};
ghost use Rattle.map_file.specs.Layout.{junction_count, road_count, level_count};
ghost use Rattle.map_file.specs.Checks.{head_fault, junction_fault, road_fault, field_fault};

use super::fields::{junction_count, road_count};
use super::records::{junction_at, road_at};
use roads::fault::{Fault, Part, Refusal};

/// A file whose header passes its checks.
#[derive(Clone, Copy)]
pub(crate) struct Header<'a> {
    pub(crate) bytes: &'a [u8],
    ghost sound: { head_fault bytes.now ≡ None },
}

/// A file whose header and records pass their checks.
#[derive(Clone, Copy)]
pub(crate) struct Records<'a> {
    pub(crate) bytes: &'a [u8],
    ghost head: { head_fault bytes.now ≡ None },
    ghost sound: { field_fault bytes.now ≡ None },
}

pub(crate) fn check_head(bytes: &[u8]) -> Result<Header<'_>, Fault>
    ensures told { reported result ≡ head_fault bytes.now }
    ensures same { IfOk result (λ header. header.bytes.now ≡ bytes.now) }
{
    if bytes.len() < 6 {
        return Err(Fault::new(Refusal::Length, 0, Part::Map));
    }
    let n = junction_count(bytes) as usize;
    let m = road_count(bytes) as usize;
    if n > 2048 || m > 4096 || bytes[4] > 4 || bytes[5] != 0 {
        return Err(Fault::new(Refusal::Limits, 0, Part::Map));
    }
    if bytes.len() != 6 + 4 * n + 12 * m {
        return Err(Fault::new(Refusal::Length, 0, Part::Map));
    }
    Ok(Header { bytes })
}

// A field that is out of its bounds.
fn bad_field(at: u32) -> Fault
    ensures { result ≡ record { refusal = Refusal.Field; place = at; part = Part.Map } }
{
    Fault::new(Refusal::Field, at as usize, Part::Map)
}

impl<'a> Header<'a> {
    pub(crate) fn junctions(&self) -> u32
        ensures { result ≡ junction_count self.now.bytes.now }
    {
        junction_count(self.bytes)
    }

    pub(crate) fn roads(&self) -> u32
        ensures { result ≡ road_count self.now.bytes.now }
    {
        road_count(self.bytes)
    }

    // How many codes there are: one hexadecimal digit a level.
    #[tactic(auto, using(crate::proofs::Passed::codes_fit, crate::proofs::Passed::few_levels))]
    fn code_count(&self) -> u32
        ensures { result ≡ 16 ^ level_count self.now.bytes.now }
    {
        16u32.pow(u32::from(self.bytes[4]))
    }

    // Kept: that there is such a junction is a bound on its number; a type for it would be unwrapped in each function.
    fn check_junction(&self, junction: u32, codes: u32) -> Result<(), Fault>
        requires known { junction < junction_count self.now.bytes.now }
        requires codes { codes ≡ 16 ^ level_count self.now.bytes.now }
        ensures { reported result ≡ junction_fault self.now.bytes.now junction }
    {
        let at = 6 + 4 * junction;
        let record = junction_at(self.bytes, at);
        if u32::from(record.code) >= codes {
            return Err(bad_field(at));
        }
        if u32::from(record.first) > self.roads() {
            return Err(bad_field(at + 2));
        }
        Ok(())
    }

    // Of the road i + 1.
    fn check_road(&self, i: u32) -> Result<(), Fault>
        requires { i < road_count self.now.bytes.now }
        ensures { reported result ≡ road_fault self.now.bytes.now i }
    {
        let at = 6 + 4 * self.junctions() + 12 * i;
        let record = road_at(self.bytes, at);
        if u32::from(record.head) >= self.junctions() {
            return Err(bad_field(at));
        }
        if u32::from(record.next) > self.roads() {
            return Err(bad_field(at + 2));
        }
        if record.mark > 1 {
            return Err(bad_field(at + 10));
        }
        Ok(())
    }

    #[tactic(auto, using(roads::proofs::Firsts::none_more, roads::proofs::Firsts::first_is))]
    fn check_junctions(&self) -> Result<(), Fault>
        ensures { reported result ≡ first_below (junction_fault self.now.bytes.now) (junction_count self.now.bytes.now) }
    {
        let codes = self.code_count();
        for junction in 0..self.junctions() {
            self.check_junction(junction, codes)?;
        }
        Ok(())
    }

    // Kept: a function for both would take the count and the check, and is no shorter than these two loops.
    #[tactic(auto, using(roads::proofs::Firsts::none_more, roads::proofs::Firsts::first_is))]
    fn check_roads(&self) -> Result<(), Fault>
        ensures { reported result ≡ first_below (road_fault self.now.bytes.now) (road_count self.now.bytes.now) }
    {
        for i in 0..self.roads() {
            self.check_road(i)?;
        }
        Ok(())
    }

    #[tactic(auto, unfolding(crate::specs::Checks::field_fault))]
    pub(crate) fn check_fields(&self) -> Result<Records<'a>, Fault>
        ensures told { reported result ≡ field_fault self.now.bytes.now }
        ensures same { IfOk result (λ records. records.bytes.now ≡ self.now.bytes.now) }
    {
        self.check_junctions()?;
        self.check_roads()?;
        Ok(Records { bytes: self.bytes })
    }
}
