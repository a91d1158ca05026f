//! Map files made for the tests, and checks of what opening says of them.
use chained_map::{ChainedMap, RefusedMap};
use map_file::{JunctionRecord, RoadRecord};
use roads::fault::{Fault, Part, Report};
use std::alloc::{AllocError, Global};
use std::fmt::Debug;
use std::test::Fail;

// The worked map has one level. Its junctions 0 to 3 have the chains 1 and 3, 2, 4, and 5.
const JUNCTIONS: [JunctionRecord; 4] = [
    JunctionRecord { code: 0, first: 1 },
    JunctionRecord { code: 0, first: 2 },
    JunctionRecord { code: 1, first: 4 },
    JunctionRecord { code: 1, first: 5 },
];

const ROADS: [RoadRecord; 5] = [
    RoadRecord {
        head: 1,
        next: 3,
        seconds: 10,
        metres: 35,
        limit: 180,
        mark: 0,
    },
    RoadRecord {
        head: 2,
        next: 0,
        seconds: 20,
        metres: 20,
        limit: 75,
        mark: 0,
    },
    RoadRecord {
        head: 2,
        next: 0,
        seconds: 100,
        metres: 50,
        limit: 400,
        mark: 0,
    },
    RoadRecord {
        head: 3,
        next: 0,
        seconds: 0,
        metres: 25,
        limit: 260,
        mark: 0,
    },
    RoadRecord {
        head: 2,
        next: 0,
        seconds: 10,
        metres: 10,
        limit: 260,
        mark: 0,
    },
];

fn push_fields(file: &mut Vec<u8>, fields: &[u16]) -> Result<(), AllocError> {
    for field in fields {
        file.extend_from_slice(&field.to_le_bytes())?;
    }
    Ok(())
}

/// The map file of some junctions and roads.
pub(crate) fn map_bytes(
    heap: Global,
    levels: u8,
    junctions: &[JunctionRecord],
    roads: &[RoadRecord],
) -> Result<Vec<u8>, AllocError> {
    let n = u16::try_from(junctions.len()).unwrap_or(u16::MAX);
    let m = u16::try_from(roads.len()).unwrap_or(u16::MAX);
    let mut file = Vec::new(heap);
    push_fields(&mut file, &[n, m, u16::from(levels)])?;
    for j in junctions {
        push_fields(&mut file, &[j.code, j.first])?;
    }
    for r in roads {
        push_fields(
            &mut file,
            &[r.head, r.next, r.seconds, r.metres, r.limit, r.mark],
        )?;
    }
    Ok(file)
}

/// A map of n junctions and m roads, at least one of each. All roads are in the chain of junction 0, and lead back to it.
pub(crate) fn crowded(heap: Global, n: u16, m: u16) -> Result<Vec<u8>, AllocError> {
    let mut file = Vec::new(heap);
    push_fields(&mut file, &[n, m, 0, 0, 1])?;
    file.resize(6 + 4 * n as usize, 0)?;
    for road in 1..m {
        push_fields(&mut file, &[0, road + 1, 0, 0, 0, 0])?;
    }
    file.resize(6 + 4 * n as usize + 12 * m as usize, 0)?;
    Ok(file)
}

/// A field of the header, or by its number of a junction or of a road. `Levels` has the last byte of the header too.
#[derive(Clone, Copy)]
pub enum Field {
    Junctions,
    Roads,
    Levels,
    Code(u8),
    First(u8),
    Head(u8),
    Next(u8),
    Mark(u8),
}

// Where a field of the worked map stands.
fn offset(field: Field) -> u16 {
    match field {
        Field::Junctions => 0,
        Field::Roads => 2,
        Field::Levels => 4,
        Field::Code(junction) => 6 + 4 * u16::from(junction),
        Field::First(junction) => 8 + 4 * u16::from(junction),
        Field::Head(road) => 10 + 12 * u16::from(road),
        Field::Next(road) => 12 + 12 * u16::from(road),
        Field::Mark(road) => 20 + 12 * u16::from(road),
    }
}

/// The worked map with some fields written anew.
pub(crate) fn worked(heap: Global, changes: &[(Field, u16)]) -> Result<Vec<u8>, Fail> {
    let mut file = map_bytes(heap, 1, &JUNCTIONS, &ROADS)?;
    for (field, value) in changes {
        let at = offset(*field) as usize;
        if at + 2 > file.len() {
            return Err(Fail::new("no such field"));
        }
        file[at..at + 2].copy_from_slice(&value.to_le_bytes());
    }
    Ok(file)
}

/// The map of a file that has to be accepted.
pub(crate) fn accepts(file: Vec<u8>) -> Result<ChainedMap, Fail> {
    ChainedMap::open(file).map_err(|refused| Fail::new(Report::from(refused.fault)))
}

/// Checks the number, the place and the part of a fault.
pub(crate) fn tells(fault: Fault, number: u8, place: usize, part: Part) -> Result<(), Fail> {
    check_eq(
        Report::from(fault),
        Report {
            number,
            place,
            part,
        },
    )
}

/// Checks that opening refuses a file by this number and place, and hands its bytes back as they were.
pub(crate) fn refuses(file: Vec<u8>, number: u8, place: usize) -> Result<(), Fail> {
    let copy = file.clone()?;
    let Err(RefusedMap { fault, bytes }) = ChainedMap::open(file) else {
        return Err(Fail::new("accepted"));
    };
    tells(fault, number, place, Part::Map)?;
    check_eq(bytes, copy)
}

/// Fails where what is found is not what is wanted.
// Kept: the library's assertion needs a handle that lets a function abort; the helpers take none, and answer with a Fail.
pub(crate) fn check_eq<T: PartialEq + Debug + Drop>(found: T, wanted: T) -> Result<(), Fail> {
    if found == wanted {
        return Ok(());
    }
    Err(Fail::new(format_args!("found {found:?}, wanted {wanted:?}")))
}
