//! Closing and reopening, on a map and on layers over it.
use super::samples::*;
use chained_map::ChainedMap;
use closings::{Closable, ClosingsLayer, close_and_reopen};
use roads::Roads;
use roads::fault::{Fault, Part};
use std::test::Fail;

fn says(answer: Result<(), Fault>, number: u8, place: usize, part: Part) -> Result<(), Fail> {
    let Err(fault) = answer else {
        return Err(Fail::new("accepted"));
    };
    tells(fault, number, place, part)
}

fn shows<R: Roads>(roads: &R, open: [bool; 5]) -> Result<(), Fail> {
    for (road, is_open) in (1..).zip(open) {
        let facts = roads.facts(road).ok_or_else(|| Fail::new("no road"))?;
        check_eq(facts.open, is_open)?;
    }
    Ok(())
}

#[test]
fn room_for_thirty_two(rt: HostRuntime) -> Result<(), Fail> {
    let mut layer = ClosingsLayer::new(accepts(crowded(rt.alloc(), 1, 33)?)?);
    for road in 1..33 {
        layer.close(road)?;
    }
    check_eq([layer.closed_count(), layer.capacity()], [32, 32])?;
    says(layer.close(33), 9, 33, Part::Layer)?;
    says(layer.close(5), 7, 5, Part::Layer)?;
    says(layer.close(0), 6, 0, Part::Layer)?;
    says(layer.close(34), 6, 34, Part::Layer)?;
    says(layer.reopen(34), 6, 34, Part::Layer)?;
    layer.reopen(5)?;
    says(layer.reopen(5), 8, 5, Part::Layer)?;
    layer.close(33)?;
    check_eq(
        [
            layer.is_own_closing(33),
            layer.is_own_closing(5),
            layer.is_own_closing(34),
        ],
        [true, false, false],
    )
}

#[test]
fn the_mark_alone_moves(rt: HostRuntime) -> Result<(), Fail> {
    let heap = rt.alloc();
    let mut map = accepts(worked(heap, &[])?)?;
    map.close(2)?;
    says(map.close(2), 7, 2, Part::Map)?;
    says(map.reopen(3), 8, 3, Part::Map)?;
    says(map.close(6), 6, 6, Part::Map)?;
    check_eq([map.closed_count(), map.capacity()], [1, 5])?;
    shows(&map, [true, false, true, true, true])?;
    close_and_reopen(&mut map, 4)?;
    check_eq(&map.into_bytes(), &worked(heap, &[(Field::Mark(2), 1)])?)?;
    let mut marked = accepts(worked(heap, &[(Field::Mark(2), 1)])?)?;
    marked.reopen(2)?;
    check_eq(&marked.into_bytes(), &worked(heap, &[])?)
}

// A map with road 1 marked, a layer that closes road 2, and a layer on that which closes road 3.
#[test]
fn three_piled(rt: HostRuntime) -> Result<(), Fail> {
    let mut map = accepts(worked(rt.alloc(), &[])?)?;
    map.close(1)?;
    let mut lower = ClosingsLayer::new(map);
    lower.close(2)?;
    let mut upper = ClosingsLayer::new(lower);
    upper.close(3)?;
    shows(&upper, [false, false, false, true, true])?;
    says(upper.reopen(1), 8, 1, Part::Layer)?;
    says(upper.reopen(2), 8, 2, Part::Layer)?;
    check_eq(
        [
            upper.is_under_open(1),
            upper.is_under_open(2),
            upper.is_under_open(3),
        ],
        [false, false, true],
    )?;
    upper.close(1)?;
    upper.reopen(1)?;
    upper.reopen(3)?;
    shows(&upper, [false, false, true, true, true])?;
    let mut lower = upper.into_below();
    shows(&lower, [false, false, true, true, true])?;
    lower.reopen(2)?;
    shows(lower.below(), [false, true, true, true, true])
}
