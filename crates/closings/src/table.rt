// Up to 32 road numbers, none of them twice.
use std::marker::Model;

// The most numbers that a table holds.
pub(crate) const CAPACITY: usize = 32;

#[derive(Drop)]
pub(crate) struct Table {
    // Kept: fixed memory, a layer holds a plain table of 32 numbers.
    slots: [u32; CAPACITY],
    count: usize,
}

// A table is seen as the list of its numbers, in the order in which they came.
impl Model for Table {
    ghost use Rattle.std.specs.Prelude.{List, ℕ, take};
    ghost use Rattle.closings.specs.Tables.{IsTable};

    ghost Value = { List ℕ };

    ghost view = { λ t. take t.count t.slots };

    ghost invariant = { λ t. IsTable t.slots t.count };
}

mod edits;
