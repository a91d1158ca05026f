//! What a list of roads costs together.
ghost use Rattle.std.specs.Prelude.{◌≡◌, Some};
ghost use Rattle.charge.specs.Totals.{charge_of, both, total_along};

use crate::charges::Charge;
use crate::tariffs::Tariff;
use roads::Roads;

/// The total of a list of roads, joined in the list's order; `None` where one of the numbers is no road.
pub fn total_along<R: Roads, F: Tariff>(roads: &R, tariff: &F, list: &[u32]) -> Option<F::Charge>
    ensures { result ≡ total_along F.Charge.Charge.scale (R.Roads.meaning roads.now).facts (F.Tariff.meaning tariff.now) list.now }
{
    let mut total = F::Charge::neutral();
    for road in list {
        total = with_road(roads, tariff, total, *road)?;
    }
    Some(total)
}

// A total with one road more; `None` where there is no such road.
#[inline(always)]
fn with_road<R: Roads, F: Tariff>(
    roads: &R,
    tariff: &F,
    total: F::Charge,
    road: u32,
) -> Option<F::Charge>
    ensures { result ≡ both F.Charge.Charge.scale.joined (Some total) (charge_of (R.Roads.meaning roads.now).facts (F.Tariff.meaning tariff.now) road) }
{
    let facts = roads.facts(road)?;
    Some(total.join(tariff.charge(road, facts)))
}
