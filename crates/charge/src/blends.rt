//! The blend: charges that add up, and stop at the largest number of 32 bits.
ghost use Rattle.std.specs.Prelude.{◌≡◌, ◌+◌, min, nat_le};
ghost use Rattle.charge.specs.Blends.{blend};
ghost use Rattle.charge.specs.StoppedSums.{stopped_assoc};
ghost use Rattle.std.proofs.Common.{rules};

use crate::charges::Charge;

impl Charge for u32 {
    ghost scale = { blend };

    ghost associative = { record { regroup = stopped_assoc } };

    ghost unit = { Prim.search rules };

    ghost order = { Prim.search rules };

    ghost monotone = { Prim.search rules };

    ghost growing = { Prim.search rules };

    fn neutral() -> u32
        ensures scaled { result ≡ blend.neutral }
        ensures plain { result ≡ 0 }
    {
        0
    }

    fn join(self, other: u32) -> u32
        ensures scaled { result ≡ blend.joined self other }
        ensures plain { result ≡ min (self + other) 4294967295 }
    {
        self.saturating_add(other)
    }

    fn not_dearer(self, other: u32) -> bool
        ensures scaled { result ≡ blend.leq self other }
        ensures plain { result ≡ nat_le self other }
    {
        self <= other
    }
}
