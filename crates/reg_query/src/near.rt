// A query at a snapshot.
ghost use Rattle.std.specs.Prelude.{◌≡◌, ◌≤◌, ℕ, [], length, IfOk, IfErr, OnOk, Some};
ghost use Rattle.mih_plan.specs.Buckets.{plan};
ghost use Rattle.reg_model.specs.declared.TheConstants.{RADIUS_MOST};
ghost use Rattle.reg_rule.specs.Rounds.{IsWordsPass};
ghost use Rattle.reg_query.specs.Snapshots.{IsOpen};
ghost use Rattle.reg_query.specs.Queries.{Answered, Interrupted};
ghost use Rattle.reg_query.specs.inner.Walks.{IsAskedAt, Walked, PlanListed};

use crate::looks::{Listing, walk_bucket};
use crate::query::Query;
use iscc_header::{NoMemory, Unit64};
use mih_plan::Probes;
use reg_model::Hits;
use reg_rule::{Pass, Told, Words, store_pin};
use std::alloc::{AllocError, Global};

/// The hits of a query, and how many looks it made: loads of the code or the stamp of an entry.
#[derive(Debug, Drop)]
pub struct NearAnswer {
    pub hits: Hits,
    pub looked: u64,
}

/// The declarations live at the open snapshot that are of the unit's kind and differ from it in at most `radius` bits, by
/// body and then by id.
///
/// The buckets of the plan are walked one by one (multi-index hashing, after Norouzi, Punjani and Fleet 2012). A body stands
/// in several of them; it is listed in the first. All memory is taken before the last step, which makes the row. Where memory
/// is wanting no row is made, and the snapshot stays open.
pub fn near_at(
    words: &Words,
    pass: &mut Pass,
    alloc: Global,
    unit: Unit64,
    radius: u32,
) -> Result<NearAnswer, NoMemory>
    requires own { IsWordsPass words.now pass.old }
    requires opens { IsOpen pass.old.1 }
    requires radius { radius ≤ RADIUS_MOST }
    ensures own { IsWordsPass words.now pass.new }
    ensures answered { IfOk result (λ answer. (k : ℕ) → pass.old.1.snapshot ≡ Some k → Answered pass.old.1 k unit radius answer.hits answer.looked pass.new.1) }
    ensures wanting { IfErr result (λ _. Interrupted pass.old.1 unit radius pass.new.1) }
{
    let asked = unit;
    let query = query_at(words, pass, unit, radius);
    let mut listing = Listing {
        hits: Vec::new(alloc),
        looked: 0,
    };
    walk_plan(words, pass, &query, &mut listing)?;
    let Listing { mut hits, looked } = listing;
    hits.sort_by_key(|hit| (hit.body, hit.id))?;
    let pin = pass.pin();
    store_pin(
        words,
        pass,
        pin,
        Told::Hits {
            unit: asked,
            radius,
            looked,
        },
    );
    Ok(NearAnswer {
        hits: Hits::from_vec(hits),
        looked,
    })
}

// The query, at the open snapshot.
fn query_at(words: &Words, pass: &Pass, unit: Unit64, radius: u32) -> Query
    requires own { IsWordsPass words.now pass.now }
    requires opens { IsOpen pass.now.1 }
    requires radius { radius ≤ RADIUS_MOST }
    ensures asked { IsAskedAt result pass.now.1 }
    ensures unit { result.unit ≡ unit }
    ensures radius { result.radius ≡ radius }
{
    let carried = words.carried();
    // Read for their contracts: what is carried has ids below the base, and sizes are in their ranges.
    let _list = carried.list();
    let _entries = words.sizes().entries();
    let base = carried.base();
    let ids = pass.snapshot().unwrap_or(base);
    Query {
        unit,
        radius,
        bits: words.sizes().bits(),
        places: ids - base,
        ids,
    }
}

// Walks the buckets of the plan.
fn walk_plan(
    words: &Words,
    pass: &mut Pass,
    query: &Query,
    listing: &mut Listing,
) -> Result<(), AllocError>
    requires own { IsWordsPass words.now pass.old }
    requires asked { IsAskedAt query.now pass.old.1 }
    requires none { listing.old.hits.items ≡ [] }
    requires first { listing.old.looked ≡ 0 }
    ensures own { IsWordsPass words.now pass.new }
    ensures walked { (heads : ℕ) × Walked pass.old.1 listing.new.looked heads pass.new.1 × (heads ≤ length (plan query.now.unit.body query.now.radius query.now.bits)) }
    ensures ok { OnOk result (PlanListed query.now pass.old.1 listing.new.hits.items listing.new.looked pass.new.1) }
{
    let mut probes = Probes::of(query.unit.body, query.radius, query.bits);
    let mut told = Told::Begins;
    while let Some(probe) = probes.next_probe() {
        walk_bucket(words, pass, query, &probe, told, listing)?;
        told = Told::Nothing;
    }
    Ok(())
}
