//! The board of a map: its junctions, and the roads that leave each.
#![tactic(auto)]

mod changes;
mod rows;

use book_lines::Lines;
use chained_map::ChainedMap;
use changes::apply_line;
use closings::ClosingsLayer;
use roads::fault::Report;
use roads::{Roads, RoadsFrom};
use rows::{count_open, row_of};
use std::io::{ErrorKind, Read};
use std::{env, fs, io};

// The bytes of a file; an absent one is empty.
fn read_file(rt: &HostRuntime, path: &str) -> io::Result<Vec<u8>> {
    match fs::read(rt, path) {
        Err(e) if e.kind() == ErrorKind::NotFound => Ok(Vec::new(rt.alloc())),
        read => read,
    }
}

// The roads that leave a junction, a line each.
fn print_leaving<R: Roads>(rt: &HostRuntime, roads: &R, junction: u32) -> io::Result<()> {
    for road in RoadsFrom::new(roads, junction) {
        if let Some(row) = row_of(roads, road) {
            println!(rt; "  {row}")?;
        }
    }
    Ok(())
}

fn print_board(rt: &HostRuntime, layer: &ClosingsLayer<ChainedMap>) -> io::Result<()> {
    let n = layer.junctions();
    let m = layer.roads();
    let levels = layer.below().levels();
    println!(rt; "junctions {n} roads {m} levels {levels}")?;
    for junction in 0..n {
        let code = layer.below().code(junction).unwrap_or(0);
        println!(rt; "junction {junction} code {code}")?;
        print_leaving(rt, layer, junction)?;
    }
    println!(rt; "listed {m} roads: {}", count_open(layer))
}

// Tries each line on a layer, and says what came of it.
fn apply_lines(
    rt: &HostRuntime,
    layer: &mut ClosingsLayer<ChainedMap>,
    text: &[u8],
) -> io::Result<()> {
    for (line, number) in Lines::new(text).zip(1..) {
        match apply_line(layer, line, number) {
            Ok(change) => println!(rt; "{number} {change}")?,
            Err(fault) => println!(rt; "{number} refused {}", Report::from(fault))?,
        }
    }
    Ok(())
}

fn show(rt: &HostRuntime, path: &str, text: &[u8]) -> io::Result<()> {
    match ChainedMap::open(read_file(rt, path)?) {
        Ok(map) => {
            let mut layer = ClosingsLayer::new(map);
            apply_lines(rt, &mut layer, text)?;
            print_board(rt, &layer)
        }
        Err(refused) => println!(rt; "refused {}", Report::from(refused.fault)),
    }
}

// Shows the maps that are named, or district.map, each with the lines of the standard input tried on it.
fn main(rt: HostRuntime) -> io::Result<()> {
    let mut text = Vec::new(rt.alloc());
    rt.stdin().read_to_end(&mut text)?;
    let mut paths = env::args(&rt)?.skip(1).peekable();
    if paths.peek().is_none() {
        return show(&rt, "district.map", text.as_slice());
    }
    for path in paths {
        show(&rt, path.as_str(), text.as_slice())?;
    }
    Ok(())
}
