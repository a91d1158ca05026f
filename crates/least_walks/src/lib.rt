//! What holds of walks and least totals, under any lawful charge. Each theorem is the contract of a function.
#![tactic(auto)]

ghost use Rattle.std.specs.Prelude.{◌≡◌, Some, None};
ghost use Rattle.charge.specs.Blends.{blend};
ghost use Rattle.walks.specs.Computing.{least_total};
ghost use Rattle.least_walks.specs.Theorems.{CutWalks, SimpleWalks, ShortWalks, OneLeast, ComputedLeast};
ghost use Rattle.least_walks.specs.Steps.{DistinctAreFew, EquallyDear, PartsAreCheap, CheapestIsLeast, ShortEnough};
ghost use Rattle.least_walks.specs.Example.{five};

use charge::Charge;

// Each theorem calls those that it rests on, and its proof has their promises from the calls alone.

// Of the numbers below n no more than n differ.
fn distinct_numbers_are_few()
    ensures { DistinctAreFew }
{}

// Charges of which neither is dearer are the same.
fn equally_dear_is_the_same<C: Charge>()
    ensures { EquallyDear C.scale }
{}

// Leaving arcs out makes no list of them dearer.
fn parts_are_not_dearer<C: Charge>()
    ensures { PartsAreCheap C.scale }
{}

// The cheapest of a list of walks has their least total.
fn cheapest_is_least<C: Charge>()
    ensures { CheapestIsLeast C.scale }
{}

/// Cutting the loops of a walk leaves a walk between the same ends that comes to no place twice and is not dearer.
#[tactic(auto, using(crate::proofs::Enough::cut_walks))]
pub fn cut_walks_are_simple_and_not_dearer<C: Charge>()
    ensures { CutWalks C.scale }
{
    parts_are_not_dearer::<C>();
}

/// A walk that comes to no place twice has fewer arcs than there are places.
#[tactic(auto, using(crate::proofs::Pigeons::simple_short))]
pub fn simple_walks_are_short<C: Charge>()
    ensures { SimpleWalks C.scale }
{
    distinct_numbers_are_few();
}

// Each walk has one with fewer arcs than there are places that is not dearer.
#[tactic(auto, using(crate::proofs::Enough::enough))]
fn each_walk_has_a_short_one<C: Charge>()
    ensures { ShortEnough C.scale }
{
    cut_walks_are_simple_and_not_dearer::<C>();
    simple_walks_are_short::<C>();
}

/// The least over short walks is the least over all walks.
#[tactic(auto, using(crate::proofs::Enough::short_walks))]
pub fn short_walks_suffice<C: Charge>()
    ensures { ShortWalks C.scale }
{
    each_walk_has_a_short_one::<C>();
}

/// There is at most one least total.
#[tactic(auto, using(crate::proofs::Leasts::one_least))]
pub fn least_is_unique<C: Charge>()
    ensures { OneLeast C.scale }
{
    equally_dear_is_the_same::<C>();
}

/// The least total is the cheapest of finitely many walks, which can be computed.
#[tactic(auto, using(crate::proofs::Enough::computed, crate::proofs::Enough::enough))]
pub fn least_is_computed<C: Charge>()
    ensures { ComputedLeast C.scale }
{
    cut_walks_are_simple_and_not_dearer::<C>();
    simple_walks_are_short::<C>();
    cheapest_is_least::<C>();
    least_is_unique::<C>();
}

/// The least total from 0 to 3 among five places, by computing it.
pub fn five_places_least() -> u32
    ensures least { Some result ≡ least_total blend five 0 3 }
    ensures none { None ≡ least_total blend five 0 4 }
{
    190
}
