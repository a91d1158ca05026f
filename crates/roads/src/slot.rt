//! A junction that a table keeps, or none.
use std::marker::Model;

/// A place for a junction in a table, which may be empty. It takes 16 bits.
#[derive(Clone, Copy, PartialEq, Eq, Debug)]
pub struct JunctionSlot {
    // One more than the junction; 0 where there is none.
    more: u16,
}

// A slot is seen as the junction that it may hold.
impl Model for JunctionSlot {
    ghost use Rattle.std.specs.Prelude.{ℕ, Option};
    ghost use Rattle.std.proofs.Common.{ap};
    ghost use Rattle.roads.specs.Slots.{below, above, above_below};

    ghost Value = { Option ℕ };

    ghost view = { λ t. below t.more };

    ghost inverse = { λ o. record { more = above o } };

    ghost inverse_ok = { λ t h. ap (λ n. record { more = n }) (above_below t.more) };
}

mod filling;
