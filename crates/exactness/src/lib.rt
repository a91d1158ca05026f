//! The search graph over cells gives the least totals of the roads, under any lawful charge.
#![tactic(auto)]

ghost use Rattle.exactness.specs.Exact.{Exact, Opens, OverlaySound};
ghost use Rattle.exactness.specs.Steps.{CostsJoin, Searched, OverlayTails, OverlayHeads};

use charge::Charge;

// Each theorem calls those that it rests on, and its proof has their promises from the calls alone.

// Two lists of arcs, one after the other, cost what they cost joined.
fn costs_join<C: Charge>()
    ensures { CostsJoin C.scale }
{}

// With a right sheet, each open walk has a walk of the search graph that is not dearer.
fn open_walks_are_searched<C: Charge>()
    ensures { Searched C.scale }
{}

// What leaves a place in the search graph has it for its tail.
fn arcs_leave_their_place<C: Charge>()
    ensures { OverlayTails C.scale }
{}

// And leads to a junction.
fn arcs_lead_to_junctions<C: Charge>()
    ensures { OverlayHeads C.scale }
{}

/// With a right sheet, the least total over the search graph is the least total over all open walks.
#[tactic(auto, using(crate::proofs::SearchToRoads::exact))]
pub fn overlay_is_exact<C: Charge>()
    ensures { Exact C.scale }
{
    overlay_walks_open::<C>();
    open_walks_are_searched::<C>();
}

/// With a right sheet, every walk of the search graph opens into an open walk of the same total.
#[tactic(auto, using(crate::proofs::SearchToRoads::opens))]
pub fn overlay_walks_open<C: Charge>()
    ensures { Opens C.scale }
{
    costs_join::<C>();
}

/// Whatever the sheet says, the search graph leads from junctions to junctions.
#[tactic(auto, using(crate::proofs::SearchToRoads::sound))]
pub fn overlay_is_sound<C: Charge>()
    ensures { OverlaySound C.scale }
{
    arcs_leave_their_place::<C>();
    arcs_lead_to_junctions::<C>();
}
