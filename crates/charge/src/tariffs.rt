//! Tariffs: what each road costs.
ghost use Rattle.std.specs.Prelude.{◌≡◌, ℕ};
ghost use Rattle.roads.specs.declared.facts.Facts.{Facts};
ghost use Rattle.charge.specs.Tariffs.{blend_of, load_of};

use crate::charges::Charge;
use roads::facts::Facts;

/// What a road costs, by its number and its facts.
pub trait Tariff {
    type Charge: Charge;

    ghost meaning: { Self → ℕ → Facts → Self.Charge };

    fn charge(&self, road: u32, facts: Facts) -> Self::Charge
        ensures { result ≡ meaning self.now road facts };
}

/// Three for each second and two for each metre.
#[derive(Clone, Copy)]
pub struct BlendTariff;

impl Tariff for BlendTariff {
    type Charge = u32;

    ghost meaning = { λ _ _ facts. blend_of facts };

    fn charge(&self, road: u32, facts: Facts) -> u32 {
        3 * u32::from(facts.seconds) + 2 * u32::from(facts.metres)
    }
}

/// The limit as it is, 0 included.
#[derive(Clone, Copy)]
pub struct LoadTariff;

impl Tariff for LoadTariff {
    type Charge = u16;

    ghost meaning = { λ _ _ facts. load_of facts };

    fn charge(&self, road: u32, facts: Facts) -> u16 {
        facts.limit
    }
}
