//! Each check of opening at its edges, in the order of the checks.
use super::samples::*;
use roads::Roads;
use std::alloc::Global;
use std::test::Fail;

// The worked map with some fields written anew is refused.
fn worked_refuses(
    heap: Global,
    changes: &[(Field, u16)],
    number: u8,
    place: usize,
) -> Result<(), Fail> {
    refuses(worked(heap, changes)?, number, place)
}

// The worked map has 82 bytes.
#[test]
fn wrong_lengths(rt: HostRuntime) -> Result<(), Fail> {
    for length in [0, 5, 81, 83] {
        let mut file = worked(rt.alloc(), &[])?;
        file.resize(length, 0)?;
        refuses(file, 1, 0)?;
    }
    Ok(())
}

// The first four have a wrong length, which is told only within the limits.
#[test]
fn limits_before_length(rt: HostRuntime) -> Result<(), Fail> {
    let cases = [
        (Field::Junctions, 2048, 1),
        (Field::Junctions, 2049, 2),
        (Field::Roads, 4096, 1),
        (Field::Roads, 4097, 2),
        (Field::Levels, 5, 2),
        // one level, and a last byte 1
        (Field::Levels, 257, 2),
    ];
    for (field, value, number) in cases {
        worked_refuses(rt.alloc(), &[(field, value)], number, 0)?;
    }
    Ok(())
}

// A file is accepted, with so many junctions and roads.
fn has_counts(file: Vec<u8>, junctions: u32, roads: u32) -> Result<(), Fail> {
    let map = accepts(file)?;
    check_eq([map.junctions(), map.roads()], [junctions, roads])
}

// The length is right in each.
#[test]
fn least_and_most(rt: HostRuntime) -> Result<(), Fail> {
    let heap = rt.alloc();
    has_counts([0; 6].to_vec(heap)?, 0, 0)?;
    has_counts(crowded(heap, 2048, 4096)?, 2048, 4096)?;
    refuses(crowded(heap, 2049, 4096)?, 2, 0)?;
    refuses(crowded(heap, 2048, 4097)?, 2, 0)
}

// The worked map with so many levels, and a code of junction 3.
fn coded(heap: Global, levels: u16, code: u16) -> Result<Vec<u8>, Fail> {
    worked(
        heap,
        &[
            (Field::Levels, levels),
            (Field::Code(2), 0),
            (Field::Code(3), code),
        ],
    )
}

#[test]
fn codes_by_level(rt: HostRuntime) -> Result<(), Fail> {
    let heap = rt.alloc();
    for (levels, most) in [(0, 0), (1, 15), (2, 255), (3, 4095), (4, 65535)] {
        check_eq(accepts(coded(heap, levels, most)?)?.code(3), Some(most))?;
    }
    for (levels, code) in [(0, 1), (1, 16), (2, 256), (3, 4096)] {
        refuses(coded(heap, levels, code)?, 3, 18)?;
    }
    Ok(())
}

// Each time a bad field fewer, and the first of those left is told, not the chain that loops.
#[test]
fn first_bad_field(rt: HostRuntime) -> Result<(), Fail> {
    let places = [6, 8, 18, 20, 22, 24, 32, 70, 72, 80];
    let changes = [
        (Field::Code(0), 16),
        (Field::First(0), 6),
        (Field::Code(3), 16),
        (Field::First(3), 6),
        (Field::Head(1), 4),
        (Field::Next(1), 6),
        (Field::Mark(1), 256),
        (Field::Head(5), 4),
        (Field::Next(5), 6),
        (Field::Mark(5), 2),
        (Field::Next(4), 4),
    ];
    // Kept: the i-th place goes with all changes from the i-th on, so the two lists are no pairs.
    for (i, place) in places.iter().enumerate() {
        worked_refuses(rt.alloc(), &changes[i..], 3, *place)?;
    }
    Ok(())
}

#[test]
fn broken_chains(rt: HostRuntime) -> Result<(), Fail> {
    let heap = rt.alloc();
    // loops
    worked_refuses(heap, &[(Field::Next(1), 1)], 4, 1)?;
    worked_refuses(heap, &[(Field::Next(3), 1)], 4, 1)?;
    // chains that meet, at 3 before they meet at 1
    worked_refuses(heap, &[(Field::Next(2), 3)], 4, 3)?;
    worked_refuses(heap, &[(Field::Next(2), 3), (Field::First(3), 1)], 4, 3)?;
    // 3 is met again, and 1 never
    worked_refuses(heap, &[(Field::First(0), 3), (Field::Next(4), 3)], 4, 3)?;
    // 5 is on no chain, and then 3 neither
    worked_refuses(heap, &[(Field::First(3), 0)], 4, 5)?;
    worked_refuses(heap, &[(Field::First(3), 0), (Field::Next(1), 0)], 4, 3)
}
