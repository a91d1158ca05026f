//! The tails of the roads.
ghost use Rattle.std.specs.Prelude.{◌≡◌, None, replicate};

use roads::JunctionSlot;

/// The tail of each road at its number, where one is known. Entry 0 is no road's.
// Kept: that a table is that of some bytes is the promise of the checks; table and bytes are one struct as `ChainedMap`.
pub type TailTable = [JunctionSlot; 4097];

// A table in which no tail is known.
#[inline(always)]
pub(crate) fn blank() -> TailTable
    ensures { result ≡ replicate 4097 None }
{
    [JunctionSlot::empty(); 4097]
}
