//! The load: the smallest limit on the way counts, and the larger load is the cheaper.
ghost use Rattle.std.specs.Prelude.{◌≡◌, min, nat_le};
ghost use Rattle.charge.specs.Loads.{load};
ghost use Rattle.std.proofs.Common.{rules};

use crate::charges::Charge;

impl Charge for u16 {
    ghost scale = { load };

    ghost associative = { Prim.search rules };

    ghost unit = { Prim.search rules };

    ghost order = { Prim.search rules };

    ghost monotone = { Prim.search rules };

    ghost growing = { Prim.search rules };

    fn neutral() -> u16
        ensures scaled { result ≡ load.neutral }
        ensures plain { result ≡ 65535 }
    {
        65535
    }

    fn join(self, other: u16) -> u16
        ensures scaled { result ≡ load.joined self other }
        ensures plain { result ≡ min self other }
    {
        self.min(other)
    }

    fn not_dearer(self, other: u16) -> bool
        ensures scaled { result ≡ load.leq self other }
        ensures plain { result ≡ nat_le other self }
    {
        self >= other
    }
}
