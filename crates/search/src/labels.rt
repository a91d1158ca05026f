//! The labels: for each place the total by which it was reached.
ghost use Rattle.std.specs.Prelude.{◌≡◌, ◌<◌, length, slice_index_or, slice_set};

use charge::Charge;
use walks::ChargedArc;

// Kept: labels are lent lists, a rule of the project; that there is one for each place is kept by `Run`, and handed down from it.

// One label is neutral.
pub(crate) fn reset<C: Charge>(labels: &mut [C], i: usize)
    requires { i < length labels.old }
    ensures { labels.new ≡ slice_set labels.old i C.Charge.scale.neutral }
{
    labels[i] = C::neutral();
}

// The total by way of an arc: the label of its tail, and then its charge.
pub(crate) fn total_by<C: Charge>(labels: &[C], by: ChargedArc<C>) -> C
    requires { by.arc.tail < length labels.now }
    ensures { result ≡ C.Charge.scale.joined (slice_index_or labels.now by.arc.tail C.Charge.scale.neutral) by.charge }
{
    labels[by.arc.tail as usize].join(by.charge)
}
