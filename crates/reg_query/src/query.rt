// What a query asks of a stamp's word and of a body.
ghost use Rattle.std.specs.Prelude.{◌≡◌, ◌+◌, ◌<◌, ◌≤◌, ℕ, ◌↔◌, IsTrue, IfSome, IfNone};
ghost use Rattle.iscc_header.specs.Bits.{distance as hamming};
ghost use Rattle.mih_plan.specs.Buckets.{bucket_of, is_probe};
ghost use Rattle.reg_words.specs.declared.word.StampWord.{StampWord};
ghost use Rattle.reg_words.specs.Packing.{stamp_word};
ghost use Rattle.reg_rule.specs.Steps.{FitsBits};
ghost use Rattle.reg_query.specs.inner.Listing.{ListsBody};
ghost use Rattle.reg_query.specs.inner.Walks.{shown_id};

use iscc_header::{Unit64, distance};
use mih_plan::{Probe, bucket_of};
use reg_model::Hit;

/// A query at a snapshot.
#[derive(Debug, Drop)]
pub(crate) struct Query {
    pub(crate) unit: Unit64,
    pub(crate) radius: u32,
    /// The bits of a bucket.
    pub(crate) bits: u32,
    /// How many places are below the snapshot, and the number above the ids that were given there.
    pub(crate) places: u64,
    pub(crate) ids: u64,
}

impl Query {
    // The id of the declaration of the asked kind that the word of a stamp shows live, if it shows one. The fields are
    // tested as they are packed: the place of the death and one more, the kind, and the id and one more.
    #[inline]
    pub(crate) fn live_id(&self, stamp: u64) -> Option<u64>
        ensures { (s : StampWord) → FitsBits s → stamp ≡ stamp_word s → result ≡ shown_id self.now s }
    {
        if (stamp >> 25) % 16 != self.unit.kind.number() as u64 {
            return None;
        }
        let id = stamp >> 29;
        if id == 0 {
            return None;
        }
        if id > self.ids {
            return None;
        }
        if is_dead(stamp % (1 << 25), self.places) {
            return None;
        }
        Some(id - 1)
    }

    // The hit that this body is, if it is near enough and this probe is the one that lists it.
    #[inline]
    pub(crate) fn hit(&self, probe: &Probe, id: u64, body: u64) -> Option<Hit>
        requires table { probe.now.table < 4 }
        requires least { 4 ≤ self.now.bits }
        requires most { self.now.bits ≤ 16 }
        ensures some { IfSome result (λ hit. (hit ≡ record { id = id; body = body; distance = hamming self.now.unit.body body }) × (hit.distance ≤ self.now.radius) × ListsBody self.now probe.now body) }
        ensures none { IfNone result (hamming self.now.unit.body body ≤ self.now.radius → ListsBody self.now probe.now body → ⊥) }
    {
        let away = distance(self.unit.body, body);
        if away > self.radius || !self.lists(probe, body) {
            return None;
        }
        Some(Hit {
            id,
            body,
            distance: away,
        })
    }

    // Whether the probe is the first of the plan that has the body's bucket: several may, and one is to list it.
    fn lists(&self, probe: &Probe, body: u64) -> bool
        requires table { probe.now.table < 4 }
        requires least { 4 ≤ self.now.bits }
        requires most { self.now.bits ≤ 16 }
        ensures { IsTrue result ↔ ListsBody self.now probe.now body }
    {
        if bucket_of(body, probe.table, self.bits) != probe.bucket {
            return false;
        }
        for table in 0..probe.table {
            if self.probes(table, body) {
                return false;
            }
        }
        true
    }

    // Whether a probe of the table has the body's bucket.
    fn probes(&self, table: u32, body: u64) -> bool
        requires table { table < 4 }
        requires least { 4 ≤ self.now.bits }
        requires most { self.now.bits ≤ 16 }
        ensures { result ≡ is_probe self.now.unit.body self.now.radius self.now.bits table (bucket_of body table self.now.bits) }
    {
        let own = bucket_of(self.unit.body, table, self.bits);
        let apart = distance(bucket_of(body, table, self.bits) as u64, own as u64);
        let quarter = self.radius / 4;
        if table <= self.radius % 4 {
            apart <= quarter
        } else {
            apart < quarter
        }
    }
}

// Whether a death, told by its place and one more, stands below so many places. It is 0 of what is live.
#[inline]
fn is_dead(death: u64, places: u64) -> bool
    ensures { IsTrue result ↔ ((0 < death) × (death ≤ places)) }
{
    death > 0 && death <= places
}
