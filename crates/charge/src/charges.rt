//! Charges: what is joined along a way, and compared.
ghost use Rattle.std.specs.Prelude.{◌≡◌};
ghost use Rattle.charge.specs.Scales.{Scale, Associative, Neutral, Ordered, Monotone, Growing};

/// What a road or a list of roads costs.
// Kept: plain numbers are charges, since figures are lent lists of them, and a larger load is cheaper, so no derived order serves
pub trait Charge: Copy {
    // How charges are joined and compared.
    ghost scale: { Scale Self };

    /// The charge of no road.
    fn neutral() -> Self
        ensures { result ≡ scale.neutral };

    /// This charge, and then the other.
    fn join(self, other: Self) -> Self
        ensures { result ≡ scale.joined self other };

    /// Whether this charge is not dearer than the other.
    fn not_dearer(self, other: Self) -> bool
        ensures { result ≡ scale.leq self other };

    ghost associative: { Associative scale };

    ghost unit: { Neutral scale };

    ghost order: { Ordered scale };

    ghost monotone: { Monotone scale };

    ghost growing: { Growing scale };
}
