//! What an open map reads, and the numbers of the refusals.
use super::samples::*;
use chained_map::ChainedMap;
use roads::facts::Facts;
use roads::fault::Refusal;
use roads::{Roads, leaving_roads};
use std::alloc::Global;
use std::test::Fail;

// Checks the code of a junction, its first road, and its chain.
fn has_junction(
    map: &ChainedMap,
    heap: Global,
    junction: u32,
    code: Option<u16>,
    first: u32,
    chain: &[u32],
) -> Result<(), Fail> {
    check_eq(map.code(junction), code)?;
    check_eq(map.first(junction), first)?;
    check_eq(leaving_roads(map, junction, heap)?.as_slice(), chain)
}

// Checks the facts of a road, and the road after it.
fn has_road(map: &ChainedMap, road: u32, facts: Option<Facts>, after: u32) -> Result<(), Fail> {
    check_eq(map.facts(road), facts)?;
    check_eq(map.after(road), after)
}

fn has_worked_junctions(map: &ChainedMap, heap: Global) -> Result<(), Fail> {
    has_junction(map, heap, 0, Some(0), 1, &[1, 3])?;
    has_junction(map, heap, 1, Some(0), 2, &[2])?;
    has_junction(map, heap, 2, Some(1), 4, &[4])?;
    has_junction(map, heap, 3, Some(1), 5, &[5])?;
    has_junction(map, heap, 4, None, 0, &[])?;
    check_eq(map.codes(heap)?.as_slice(), &[0, 0, 1, 1])
}

// The facts of an open road.
fn open_road(tail: u32, head: u32, seconds: u16, metres: u16, limit: u16) -> Facts {
    Facts {
        tail,
        head,
        seconds,
        metres,
        limit,
        open: true,
    }
}

fn has_worked_roads(map: &ChainedMap) -> Result<(), Fail> {
    has_road(map, 0, None, 0)?;
    has_road(map, 1, Some(open_road(0, 1, 10, 35, 180)), 3)?;
    has_road(map, 2, Some(open_road(1, 2, 20, 20, 75)), 0)?;
    has_road(map, 3, Some(open_road(0, 2, 100, 50, 400)), 0)?;
    has_road(map, 4, Some(open_road(2, 3, 0, 25, 260)), 0)?;
    has_road(map, 5, Some(open_road(3, 2, 10, 10, 260)), 0)?;
    has_road(map, 6, None, 0)
}

#[test]
fn worked_map(rt: HostRuntime) -> Result<(), Fail> {
    let heap = rt.alloc();
    let map = accepts(worked(heap, &[])?)?;
    check_eq(
        [u32::from(map.levels()), map.junctions(), map.roads()],
        [1, 4, 5],
    )?;
    has_worked_junctions(&map, heap)?;
    has_worked_roads(&map)?;
    check_eq(map.into_bytes(), worked(heap, &[])?)
}

// The worked map has a first road m and a head n - 1 already.
#[test]
fn greatest_fields(rt: HostRuntime) -> Result<(), Fail> {
    let heap = rt.alloc();
    let map = accepts(worked(
        heap,
        &[
            (Field::Next(4), 5),
            (Field::First(3), 0),
            (Field::Mark(2), 1),
        ],
    )?)?;
    has_junction(&map, heap, 2, Some(1), 4, &[4, 5])?;
    has_junction(&map, heap, 3, Some(1), 0, &[])?;
    let closed = Facts {
        open: false,
        ..open_road(1, 2, 20, 20, 75)
    };
    has_road(&map, 2, Some(closed), 0)?;
    has_road(&map, 5, Some(open_road(2, 2, 10, 10, 260)), 0)
}

#[test]
fn refusal_numbers() -> Result<(), Fail> {
    let refusals = [
        (Refusal::Length, 1),
        (Refusal::Limits, 2),
        (Refusal::Field, 3),
        (Refusal::Chain, 4),
        (Refusal::Junction, 5),
        (Refusal::Road, 6),
        (Refusal::Already, 7),
        (Refusal::NotClosed, 8),
        (Refusal::Full, 9),
        (Refusal::NotReady, 10),
        (Refusal::Short, 11),
        (Refusal::NoWay, 12),
        (Refusal::FalseSheet, 13),
        (Refusal::Line, 14),
    ];
    for (refusal, number) in refusals {
        check_eq(u8::from(refusal), number)?;
    }
    Ok(())
}
