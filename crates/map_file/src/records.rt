//! The records of junctions and roads.
ghost use Rattle.std.specs.Prelude.{◌≡◌, ◌+◌, ◌<◌};
ghost use Rattle.map_file.specs.Layout.{field};
ghost use Rattle.map_file.specs.Records.{junction_of, place_of, road_of};

use super::fields::{junction_count, read_field, road_count};
use roads::is_numbered;

/// A junction as a file has it: its code, and the first road of its chain or 0.
// Kept: the fields as they are in the file, where 0 ends a chain.
#[derive(Clone, Copy, PartialEq, Eq, Debug)]
pub struct JunctionRecord {
    pub code: u16,
    pub first: u16,
}

/// A road as a file has it: its head, the next road of its chain or 0, its measures, and its mark.
// Kept: the fields as they are in the file, read before the mark is known to be 0 or 1.
#[derive(Clone, Copy, PartialEq, Eq, Debug)]
pub struct RoadRecord {
    pub head: u16,
    pub next: u16,
    pub seconds: u16,
    pub metres: u16,
    pub limit: u16,
    pub mark: u16,
}

// The record of a junction that begins at an offset.
#[inline(always)]
pub(crate) fn junction_at(bytes: &[u8], at: u32) -> JunctionRecord
    requires { at < 2000000 }
    ensures { result ≡ record { code = field bytes.now at; first = field bytes.now (at + 2) } }
{
    JunctionRecord {
        code: read_field(bytes, at),
        first: read_field(bytes, at + 2),
    }
}

// The record of a road that begins at an offset.
#[inline(always)]
pub(crate) fn road_at(bytes: &[u8], at: u32) -> RoadRecord
    requires { at < 2000000 }
    ensures { result ≡ record { head = field bytes.now at; next = field bytes.now (at + 2); seconds = field bytes.now (at + 4); metres = field bytes.now (at + 6); limit = field bytes.now (at + 8); mark = field bytes.now (at + 10) } }
{
    RoadRecord {
        head: read_field(bytes, at),
        next: read_field(bytes, at + 2),
        seconds: read_field(bytes, at + 4),
        metres: read_field(bytes, at + 6),
        limit: read_field(bytes, at + 8),
        mark: read_field(bytes, at + 10),
    }
}

/// The record of a junction; `None` where there is no such junction.
#[inline(always)]
pub fn read_junction(bytes: &[u8], junction: u32) -> Option<JunctionRecord>
    ensures { result ≡ junction_of bytes.now junction }
{
    if junction >= junction_count(bytes) {
        return None;
    }
    Some(junction_at(bytes, 6 + 4 * junction))
}

/// Where the record of a road begins; `None` where there is no such road.
#[inline(always)]
pub fn road_place(bytes: &[u8], road: u32) -> Option<u32>
    ensures { result ≡ place_of bytes.now road }
{
    if !is_numbered(road_count(bytes), road) {
        return None;
    }
    Some(6 + 4 * junction_count(bytes) + 12 * (road - 1))
}

/// The record of a road; `None` where there is no such road.
#[inline(always)]
pub fn read_road(bytes: &[u8], road: u32) -> Option<RoadRecord>
    ensures { result ≡ road_of bytes.now road }
{
    let at = road_place(bytes, road)?;
    Some(road_at(bytes, at))
}
