ghost use Rattle.std.specs.Prelude.{◌≡◌, ℕ, ◌<◌, false, is_some, slice_index};
ghost use Rattle.map_file.specs.Chains.{Tails, open_fault};

use map_file::TailTable;
use roads::fault::Fault;

/// A map: its bytes, and the tail of each road, which the file has only by its chains.
#[derive(Drop)]
pub struct ChainedMap {
    bytes: Vec<u8>,
    tails: TailTable,
    // Kept: a law takes the numbers of a struct for any, and the widths of seconds, metres and limit rest on this.
    ghost small: { (i : ℕ) → slice_index bytes.items i < 256 },
    ghost sound: { is_some (open_fault bytes.items) ≡ false },
    ghost held: { Tails bytes.items tails },
}

/// A file that is no map, and why.
#[derive(Drop)]
pub struct RefusedMap {
    pub fault: Fault,
    pub bytes: Vec<u8>,
}

mod closing;
mod marking;
mod opening;
mod reading;
