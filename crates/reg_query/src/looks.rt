// The walk of a query through a bucket, and its looks at an entry.
ghost use Rattle.std.specs.Prelude.{◌≡◌, ◌+◌, ◌*◌, ◌^◌, ◌<◌, ◌≤◌, ◌⊎◌, ℕ, OnOk, Option, Some};
ghost use Rattle.reg_model.specs.declared.reply.Hit.{Hit as AHit};
ghost use Rattle.reg_rule.specs.declared.told.Told.TheVariants.{Nothing, Begins};
ghost use Rattle.reg_rule.specs.Rounds.{IsWordsPass};
ghost use Rattle.reg_query.specs.inner.Listing.{with_hit};
ghost use Rattle.reg_query.specs.inner.Walks.{IsAskedAt, Looked, Walked, BucketListed, cursor_at};

use crate::query::Query;
use mih_chain::{first, next};
use mih_plan::Probe;
use reg_model::Hit;
use reg_rule::{Pass, Told, Words, load_code, load_stamp};
use std::alloc::AllocError;

/// What a query has found so far, and the looks that it made.
#[derive(Debug, Drop)]
pub(crate) struct Listing {
    pub(crate) hits: Vec<Hit>,
    pub(crate) looked: u64,
}

// Walks the bucket of a probe. What it lists is behind what was listed before.
pub(crate) fn walk_bucket(
    words: &Words,
    pass: &mut Pass,
    query: &Query,
    probe: &Probe,
    told: Told,
    listing: &mut Listing,
) -> Result<(), AllocError>
    requires own { IsWordsPass words.now pass.old }
    requires asked { IsAskedAt query.now pass.old.1 }
    requires table { probe.now.table < 4 }
    requires bucket { probe.now.bucket < 2 ^ query.now.bits }
    requires telling { (told ≡ Begins) ⊎ (told ≡ Nothing) }
    requires room { listing.old.looked + 2 * pass.old.1.key.entries < 2 ^ 64 }
    ensures own { IsWordsPass words.now pass.new }
    ensures walked { (looks : ℕ) × (listing.new.looked ≡ listing.old.looked + looks) × Walked pass.old.1 looks 1 pass.new.1 × OnOk result (BucketListed query.now probe.now told pass.old.1 listing.old.hits.items listing.new.hits.items looks pass.new.1) }
{
    let mut at = first(words, pass, probe.table, probe.bucket, told);
    while let Some(entry) = at {
        visit(words, pass, query, probe, entry, listing)?;
        at = next(words, pass, probe.table, entry);
    }
    Ok(())
}

// Lists the hit that is found in an entry, if there is one.
fn visit(
    words: &Words,
    pass: &mut Pass,
    query: &Query,
    probe: &Probe,
    entry: u32,
    listing: &mut Listing,
) -> Result<(), AllocError>
    requires own { IsWordsPass words.now pass.old }
    requires asked { IsAskedAt query.now pass.old.1 }
    requires table { probe.now.table < 4 }
    requires cursor { pass.old.1.cursor ≡ Some (cursor_at probe.now entry) }
    requires inside { entry < pass.old.1.key.entries }
    requires room { listing.old.looked + 2 < 2 ^ 64 }
    ensures own { IsWordsPass words.now pass.new }
    ensures looked { (hit : Option AHit) × (looks : ℕ) × (listing.new.looked ≡ listing.old.looked + looks) × Looked query.now probe.now entry pass.old.1 hit looks pass.new.1 × OnOk result (listing.new.hits.items ≡ with_hit hit listing.old.hits.items) }
{
    if let Some(hit) = look(words, pass, query, probe, entry, &mut listing.looked) {
        listing.hits.push(hit)?;
    }
    Ok(())
}

// Looks at an entry, and counts: at its stamp, and at its code where the stamp shows a declaration that may be near.
fn look(
    words: &Words,
    pass: &mut Pass,
    query: &Query,
    probe: &Probe,
    entry: u32,
    looked: &mut u64,
) -> Option<Hit>
    requires own { IsWordsPass words.now pass.old }
    requires asked { IsAskedAt query.now pass.old.1 }
    requires table { probe.now.table < 4 }
    requires cursor { pass.old.1.cursor ≡ Some (cursor_at probe.now entry) }
    requires inside { entry < pass.old.1.key.entries }
    requires room { looked.old + 2 < 2 ^ 64 }
    ensures own { IsWordsPass words.now pass.new }
    ensures looked { (looks : ℕ) × (looked.new ≡ looked.old + looks) × Looked query.now probe.now entry pass.old.1 result looks pass.new.1 }
{
    *looked += 1;
    let id = query.live_id(load_stamp(words, pass, entry, Told::Nothing))?;
    *looked += 1;
    let body = load_code(words, pass, entry, Told::Nothing);
    query.hit(probe, id, body)
}
