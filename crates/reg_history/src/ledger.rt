ghost use Rattle.std.specs.Prelude.{◌≡◌, ◌+◌, ◌<◌, ◌≤◌, ◌^◌, ◌↔◌, ℕ, [], ◌∷◌, ◌++◌, All, IfOk, OnOk, IsTrue, length, map};
ghost use Rattle.iscc_header.specs.declared.unit.Unit64.{Unit64 as AUnit64};
ghost use Rattle.reg_model.specs.declared.call.Call.TheVariants as calls;
ghost use Rattle.reg_model.specs.declared.reply.Reply.TheVariants as replies;
ghost use Rattle.reg_model.specs.Calls.{IsRequest};
ghost use Rattle.reg_model.specs.Live.{live, opening_after, IsLive};
ghost use Rattle.reg_model.specs.Opening.{IsOpening, opening_of};
ghost use Rattle.reg_model.specs.Registry.{Registry};
ghost use Rattle.reg_model.specs.Replies.{AllEntriesHeld, Replies};
ghost use Rattle.reg_history.specs.declared.lines.told.ToldReply.TheVariants as told_replies;
ghost use Rattle.reg_history.specs.declared.lines.told.ToldHit.{ToldHit as AToldHit};
ghost use Rattle.reg_history.specs.lines.HistoryLines.{hit_in, reply_in, IsToldReplyValue};
ghost use Rattle.reg_history.specs.check.Checking.{HasKind};
ghost use Rattle.reg_history.specs.inner.Ledgers.{Keeps, MayAdd, point_of};

pub(crate) mod kind_list;
pub(crate) mod live;

use crate::ledger::live::LiveSet;
use crate::lines::told::{ToldHit, ToldReply};
use iscc_header::{NoMemory, Unit64};
use reg_model::{Call, Declared, FullCause, Hit, Reply, Sizes, Update};
use std::alloc::Global;
use std::marker::Model;

/// What the replies of a round depend on, without its log: sizes, base, counts, and what is live.
///
/// Contracts see these parts; `Keeps` says that they are those of a registry.
#[derive(Debug, Drop)]
pub(crate) struct Ledger {
    sizes: Sizes,
    base: u64,
    // How many declarations the round began with.
    carried: u64,
    declared: u64,
    withdrawn: u64,
    live: LiveSet,
}

impl Model for Ledger {
    ghost use Rattle.reg_history.specs.inner.Ledgers.{LedgerParts, IsLedger};

    ghost Value = { LedgerParts };

    ghost view = { λ l. record {
      limits = l.sizes;
      base = l.base;
      carried = l.carried;
      declared = l.declared;
      withdrawn = l.withdrawn;
      kinds = l.live;
    } };

    ghost invariant = { λ l. IsLedger
        (record {
          limits = l.sizes;
          base = l.base;
          carried = l.carried;
          declared = l.declared;
          withdrawn = l.withdrawn;
          kinds = l.live;
        }) };
}

impl Ledger {
    /// The ledger of a round that begins with these declarations.
    pub(crate) fn open(
        alloc: Global,
        sizes: Sizes,
        base: u64,
        carried: &[Declared],
    ) -> Result<Ledger, NoMemory>
        requires opens { IsOpening (opening_of base carried.now) }
        requires room { length carried.now ≤ sizes.entries }
        requires ids { base + sizes.log ≤ 2 ^ 34 }
        ensures { IfOk result (λ ledger. Keeps ledger (record { limits = sizes; opening = opening_of base carried.now; log = [] })) }
    {
        let live = LiveSet::of(alloc, carried)?;
        Ok(Ledger {
            sizes,
            base,
            carried: carried.len() as u64,
            declared: 0,
            withdrawn: 0,
            live,
        })
    }

    /// Begins the next round, with what is live.
    pub(crate) fn reopen(&mut self, sizes: Sizes)
        requires { point_of self.old + sizes.log ≤ 2 ^ 34 }
        ensures { (r : Registry) → Keeps self.old r → length (live r.opening r.log) ≤ sizes.entries
            → Keeps self.new (record { limits = sizes; opening = opening_after r.opening r.log; log = [] }) }
    {
        self.base = self.point();
        self.carried = self.live.len();
        self.declared = 0;
        self.withdrawn = 0;
        self.sizes = sizes;
    }

    pub(crate) fn sizes(&self) -> Sizes
        ensures value { result ≡ self.now.limits }
        ensures registry { (r : Registry) → Keeps self.now r → result ≡ r.limits }
    {
        self.sizes
    }

    /// The base and the number of updates.
    pub(crate) fn point(&self) -> u64
        ensures value { result ≡ point_of self.now }
        ensures most { result ≤ 2 ^ 34 }
        ensures registry { (r : Registry) → Keeps self.now r → result ≡ r.opening.base + length r.log }
    {
        self.base + self.declared + self.withdrawn
    }

    /// The greatest point, where the log is full.
    pub(crate) fn end(&self) -> u64
        ensures value { result ≡ self.now.base + self.now.limits.log }
        ensures registry { (r : Registry) → Keeps self.now r → result ≡ r.opening.base + r.limits.log }
    {
        self.base + self.sizes.log() as u64
    }

    /// How many declarations are live.
    pub(crate) fn live_count(&self) -> u64
        ensures { (r : Registry) → Keeps self.now r → result ≡ length (live r.opening r.log) }
    {
        self.live.len()
    }

    /// Adds an update of the round.
    pub(crate) fn add(&mut self, update: Update) -> Result<(), NoMemory>
        requires { self.old.declared + self.old.withdrawn < self.old.limits.log }
        ensures { OnOk result ((r : Registry) → Keeps self.old r → MayAdd r update → Keeps self.new (record r { log = r.log ++ update ∷ [] })) }
    {
        match update {
            Update::Decl(unit) => {
                let id = self.point();
                self.live.push(Declared { id, unit })?;
                self.declared += 1;
            }
            Update::Wd(id) => {
                let _ = self.live.withdraw(id);
                self.withdrawn += 1;
            }
        }
        Ok(())
    }

    /// Whether the call may have this reply as the next row.
    pub(crate) fn reply_stands(
        &self,
        alloc: Global,
        call: &Call,
        reply: &ToldReply,
    ) -> Result<bool, NoMemory>
        ensures { IfOk result (λ stands. (r : Registry) → Keeps self.now r → IsRequest call.now → IsToldReplyValue reply.now
            → IsTrue stands ↔ (Replies r.limits r.opening r.log call.now (reply_in reply.now) × HasKind call.now reply.now)) }
    {
        match reply {
            ToldReply::Hits(hits) => self.hits_stand(alloc, call, hits.as_slice()),
            ToldReply::Plain(reply) => Ok(self.plain_stands(call, reply)),
        }
    }

    // Whether the call is a query with these hits.
    fn hits_stand(&self, alloc: Global, call: &Call, told: &[ToldHit]) -> Result<bool, NoMemory>
        ensures { IfOk result (λ stands. (r : Registry) → Keeps self.now r → IsRequest call.now
            → IsTrue stands ↔ (Replies r.limits r.opening r.log call.now (replies.Hits (map hit_in told.now)) × HasKind call.now (told_replies.Hits told.now))) }
    {
        let Call::Near(unit, radius) = *call else {
            return Ok(false);
        };
        let asked = unit;
        let hits = self.live.near(alloc, unit, radius)?;
        Ok(are_told(hits.as_slice(), told, &asked))
    }

    // Whether the call may have this reply, other than hits.
    fn plain_stands(&self, call: &Call, reply: &Reply) -> bool
        ensures { (r : Registry) → Keeps self.now r → IsToldReplyValue (told_replies.Plain reply.now)
            → IsTrue result ↔ Replies r.limits r.opening r.log call.now reply.now }
    {
        match *call {
            Call::Declare(_) => self.declare_stands(reply),
            Call::Withdraw(id) => self.withdraw_stands(id, reply),
            Call::Near(_, _) => false,
            Call::Show(id) => self.show_stands(id, reply),
            Call::Count => self.count_stands(reply),
            Call::After(point) => self.after_stands(point, reply),
        }
    }

    // The reply to a declaration doesn't depend on its unit.
    fn declare_stands(&self, reply: &Reply) -> bool
        ensures { (r : Registry) (unit : AUnit64) → Keeps self.now r → IsTrue result ↔ Replies r.limits r.opening r.log (calls.Declare unit) reply.now }
    {
        match *reply {
            Reply::Id(id) => id == self.point() && self.live_count() < self.sizes.entries() as u64,
            Reply::Full(FullCause::Log) => self.is_log_full(),
            Reply::Full(FullCause::Entries { given }) => self.are_entries_held(given),
            _ => false,
        }
    }

    fn withdraw_stands(&self, id: u64, reply: &Reply) -> bool
        ensures { (r : Registry) → Keeps self.now r → IsTrue result ↔ Replies r.limits r.opening r.log (calls.Withdraw id) reply.now }
    {
        match *reply {
            Reply::Withdrawn(other) => other == id && self.is_live(id),
            Reply::Absent(other) => other == id && !self.is_live(id),
            Reply::Full(FullCause::Log) => self.is_log_full() && self.is_live(id),
            _ => false,
        }
    }

    fn show_stands(&self, id: u64, reply: &Reply) -> bool
        ensures { (r : Registry) → Keeps self.now r → IsTrue result ↔ Replies r.limits r.opening r.log (calls.Show id) reply.now }
    {
        match (self.live.unit_of(id), reply) {
            (Some(unit), Reply::Live(told)) => *told == unit,
            (None, Reply::Absent(told)) => *told == id,
            _ => false,
        }
    }

    fn count_stands(&self, reply: &Reply) -> bool
        ensures { (r : Registry) → Keeps self.now r → IsTrue result ↔ Replies r.limits r.opening r.log calls.Count reply.now }
    {
        match *reply {
            Reply::Count(count) => count == self.live_count(),
            _ => false,
        }
    }

    fn after_stands(&self, point: u64, reply: &Reply) -> bool
        ensures { (r : Registry) → Keeps self.now r → IsTrue result ↔ Replies r.limits r.opening r.log (calls.After point) reply.now }
    {
        match *reply {
            Reply::Reached => point <= self.point(),
            Reply::Ahead => self.point() < point,
            _ => false,
        }
    }

    // Whether a live declaration has this id.
    fn is_live(&self, id: u64) -> bool
        ensures { (r : Registry) → Keeps self.now r → IsTrue result ↔ IsLive r.opening r.log id }
    {
        self.live.unit_of(id).is_some()
    }

    // Whether every place of the log is taken.
    fn is_log_full(&self) -> bool
        ensures { (r : Registry) → Keeps self.now r → IsTrue result ↔ (length r.log ≡ r.limits.log) }
    {
        self.declared + self.withdrawn == self.sizes.log() as u64
    }

    // Whether every entry may be held after so many were given back.
    fn are_entries_held(&self, given: u64) -> bool
        ensures { (r : Registry) → Keeps self.now r → IsTrue result ↔ AllEntriesHeld r.limits r.opening r.log given }
    {
        if given > self.withdrawn {
            return false;
        }
        let taken = self.carried + self.declared;
        let held = self.sizes.entries() as u64 + given;
        let callers = self.sizes.callers() as u64;
        taken <= held && held < taken + callers && (callers != 1 || given == self.withdrawn)
    }
}

// Whether these hits are told, each with a unit of the asked kind.
fn are_told(hits: &[Hit], told: &[ToldHit], asked: &Unit64) -> bool
    ensures { IsTrue result ↔ ((map hit_in told.now ≡ hits.now) × All (λ (hit : AToldHit). hit.unit.kind ≡ asked.now.kind) told.now) }
{
    if hits.len() != told.len() {
        return false;
    }
    for (hit, told) in hits.iter().zip(told) {
        if !is_told(hit, told, asked) {
            return false;
        }
    }
    true
}

// Whether the hit is told, with a unit of the asked kind.
fn is_told(hit: &Hit, told: &ToldHit, asked: &Unit64) -> bool
    ensures { IsTrue result ↔ ((hit_in told.now ≡ hit.now) × (told.now.unit.kind ≡ asked.now.kind)) }
{
    told.id == hit.id
        && told.distance == u64::from(hit.distance)
        && told.unit.body == hit.body
        && told.unit.kind == asked.kind
}
