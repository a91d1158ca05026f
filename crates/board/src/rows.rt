//! What the board says of a road, and how many roads are open.
ghost use Rattle.std.specs.Prelude.{◌≡◌, ◌≤◌, Some};
ghost use Rattle.std.specs.Option.{option_map};
ghost use Rattle.board.specs.Rows.{row_for, row_text, open_count, tallied, tally_text};

use charge::{BlendTariff, Tariff};
use roads::Roads;
use std::fmt;

/// A road on the board.
#[derive(Clone, Copy)]
pub struct Row {
    pub road: u32,
    pub head: u32,
    pub blend: u32,
    pub limit: u16,
    pub open: bool,
}

/// How many roads are open, and how many closed.
#[derive(Clone, Copy)]
pub struct Tally {
    pub open: u32,
    pub closed: u32,
}

/// The row of a road; `None` where there is no such road.
pub fn row_of<R: Roads>(roads: &R, road: u32) -> Option<Row>
    ensures { result ≡ option_map (row_for road) ((R.Roads.meaning roads.now).facts road) }
{
    let facts = roads.facts(road)?;
    Some(Row {
        road,
        head: facts.head,
        blend: BlendTariff.charge(road, facts),
        limit: facts.limit,
        open: facts.open,
    })
}

// How many roads are open.
fn open_roads<R: Roads>(roads: &R) -> u32
    ensures counted { result ≡ open_count (R.Roads.meaning roads.now) }
    ensures few { result ≤ (R.Roads.meaning roads.now).roads }
{
    (1..=roads.roads())
        .filter(|road| roads.is_open(*road))
        .count() as u32
}

/// Counts the open and the closed roads.
pub fn count_open<R: Roads>(roads: &R) -> Tally
    ensures { result ≡ tallied (R.Roads.meaning roads.now) }
{
    let open = open_roads(roads);
    Tally {
        open,
        closed: roads.roads() - open,
    }
}

impl fmt::Display for Row {
    ghost output = { λ x. Some (row_text x) };

    fn fmt<W: fmt::Write>(&self, f: &mut fmt::Formatter<W>) -> fmt::Result {
        let state = if self.open { "open" } else { "closed" };
        write!(
            f,
            "road {} to {} blend {} limit {} {state}",
            self.road, self.head, self.blend, self.limit
        )
    }
}

impl fmt::Display for Tally {
    ghost output = { λ x. Some (tally_text x) };

    fn fmt<W: fmt::Write>(&self, f: &mut fmt::Formatter<W>) -> fmt::Result {
        write!(f, "{} open, {} closed", self.open, self.closed)
    }
}
