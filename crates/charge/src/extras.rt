//! A tariff above another: one road has an extra.
ghost use Rattle.charge.specs.Tariffs.{with_extra};

use crate::charges::Charge;
use crate::tariffs::Tariff;
use roads::facts::Facts;

/// The tariff below, with an extra joined after its charge of one road.
#[derive(Drop)]
pub struct Extra<F: Tariff> {
    pub below: F,
    pub extra: F::Charge,
    pub road: u32,
}

impl<F: Tariff> Tariff for Extra<F> {
    type Charge = F::Charge;

    ghost meaning = { λ t. with_extra F.Charge.Charge.scale t.road t.extra (F.Tariff.meaning t.below) };

    fn charge(&self, road: u32, facts: Facts) -> F::Charge {
        let below = self.below.charge(road, facts);
        if road == self.road {
            below.join(self.extra)
        } else {
            below
        }
    }
}
