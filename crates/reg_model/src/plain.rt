ghost use Rattle.std.specs.Prelude.{◌≡◌, ◌≤◌, ◌⊎◌, ◌<◌, ◌+◌, [], ◌∷◌, ◌++◌, MatchResult, IfOk, IfSome, IfNone, IsSomeAnd, Some, None, length, map, filter, find, ◌==◌, slice_get, vec_capacity, vec_len};
ghost use Rattle.reg_model.specs.declared.call.Call.{Call};
ghost use Rattle.reg_model.specs.Live.{opening_after};
ghost use Rattle.reg_model.specs.Opening.{IsRising};
ghost use Rattle.reg_model.specs.Replies.{AreHits, hit_of, is_near};
ghost use Rattle.reg_model.specs.Registry.{Serves, declare_reply, withdraw_reply, start_refusal};

use crate::RADIUS_MOST;
use crate::carried::Carried;
use crate::lists::{Hits, Updates};
use crate::reply::{Answer, FullCause, Hit, Reply};
use crate::sizes::Sizes;
use crate::start::{StartFault, start_fault};
use crate::update::{Declared, Update};
use iscc_header::{Items, NoMemory, Unit64, distance};
use std::alloc::{AllocError, Global};
use std::marker::Model;

/// The slow registry: a log, and the list of the live declarations by id, served one call at a time.
///
/// A query looks at every live declaration. Contracts see the sizes, what the round began with, and the log.
#[derive(Debug, Drop)]
pub struct Plain {
    sizes: Sizes,
    base: u64,
    carried: Vec<Declared>,
    log: Vec<Update>,
    live: Vec<Declared>,
    // How many of the updates are withdrawals.
    withdrawn: u64,
}

impl Model for Plain {
    ghost use Rattle.std.specs.Prelude.{◌≤◌, vec_capacity};
    ghost use Rattle.reg_model.specs.Registry.{Registry};
    ghost use Rattle.reg_model.specs.Opening.{opening_of};
    ghost use Rattle.reg_model.specs.inner.Current.{IsCurrent};

    ghost Value = { Registry };

    ghost view = { λ p. record {
      limits = p.sizes;
      opening = opening_of p.base p.carried.items;
      log = p.log.items;
    } };

    ghost invariant = { λ p. IsCurrent
        (record {
          limits = p.sizes;
          opening = opening_of p.base p.carried.items;
          log = p.log.items;
        })
        p.live.items
        p.withdrawn
        × (p.sizes.log ≤ vec_capacity p.log)
        × (p.sizes.entries ≤ vec_capacity p.live) };
}

impl Plain {
    /// A registry with this opening and no updates. Takes all memory that updates need.
    ///
    /// The faults are asked in the order of `StartFault`.
    pub fn start(alloc: Global, sizes: &Sizes, carried: &Carried) -> Result<Plain, StartFault>
        ensures start { IfOk result (λ plain. plain ≡ record { limits = sizes.now; opening = carried.now; log = [] }) }
        ensures cause { MatchResult result
            (λ _. start_refusal sizes.now carried.now ≡ None)
            (λ fault. (start_refusal sizes.now carried.now ≡ Some fault) ⊎ ((fault ≡ StartFault.NoMemory) × (start_refusal sizes.now carried.now ≡ None))) }
    {
        if let Some(fault) = start_fault(sizes, carried) {
            return Err(fault);
        }
        let list = carried.list();
        let base = carried.base();
        let log = Vec::with_capacity(alloc, sizes.log() as usize)?;
        let live = with_room(alloc, list, sizes.entries() as usize)?;
        let carried = Vec::from_slice(alloc, list)?;
        Ok(Plain {
            sizes: *sizes,
            base,
            carried,
            log,
            live,
            withdrawn: 0,
        })
    }

    /// Declares a unit: an id of its own, or that the log or else the entries are full. Takes no memory.
    pub fn declare(&mut self, unit: Unit64) -> Answer
        ensures serves { Serves self.old (Call.Declare unit) result self.new }
        ensures reply { result.reply ≡ declare_reply self.old }
    {
        let id = self.point();
        if self.log.len() == self.sizes.log() as usize {
            return self.answer(Reply::Full(FullCause::Log));
        }
        if self.live.len() == self.sizes.entries() as usize {
            return self.answer(Reply::Full(FullCause::Entries {
                given: self.withdrawn,
            }));
        }
        let copy = unit;
        push_within(&mut self.live, Declared { id, unit });
        push_within(&mut self.log, Update::Decl(copy));
        self.answer(Reply::Id(id))
    }

    /// Ends the live declaration with this id, or says that none has it, or that the log is full. Takes no memory.
    pub fn withdraw(&mut self, id: u64) -> Answer
        ensures serves { Serves self.old (Call.Withdraw id) result self.new }
        ensures reply { result.reply ≡ withdraw_reply self.old id }
    {
        let Some(place) = place_of(&self.live, id) else {
            return self.answer(Reply::Absent(id));
        };
        if self.log.len() == self.sizes.log() as usize {
            return self.answer(Reply::Full(FullCause::Log));
        }
        let _ = self.live.remove(place);
        push_within(&mut self.log, Update::Wd(id));
        self.withdrawn += 1;
        self.answer(Reply::Withdrawn(id))
    }

    /// The unit of the live declaration with this id, or that none has it. Takes no memory.
    pub fn show(&self, id: u64) -> Answer
        ensures { Serves self.now (Call.Show id) result self.now }
    {
        match place_of(&self.live, id) {
            Some(place) => self.answer(Reply::Live(self.live[place].unit)),
            None => self.answer(Reply::Absent(id)),
        }
    }

    /// How many declarations are live. Takes no memory.
    pub fn count(&self) -> Answer
        ensures { Serves self.now Call.Count result self.now }
    {
        self.answer(Reply::Count(self.live.len() as u64))
    }

    /// Whether the registry has come to this point. Takes no memory.
    pub fn after(&self, point: u64) -> Answer
        ensures { Serves self.now (Call.After point) result self.now }
    {
        if point <= self.point() {
            self.answer(Reply::Reached)
        } else {
            self.answer(Reply::Ahead)
        }
    }

    /// The live declarations of the unit's kind whose bodies differ from its own in at most `radius` bits, by body and
    /// then by id.
    pub fn near(&self, alloc: Global, unit: Unit64, radius: u32) -> Result<Answer, NoMemory>
        requires { radius ≤ RADIUS_MOST }
        ensures { IfOk result (λ answer. Serves self.now (Call.Near unit radius) answer self.now) }
    {
        let hits = near_hits(alloc, &self.live, unit, radius)?;
        Ok(self.answer(Reply::Hits(hits)))
    }

    /// Lends the updates of the round, in order.
    pub fn updates(&self) -> &[Update]
        ensures { result.now ≡ self.now.log }
    {
        self.log.as_slice()
    }

    /// What the next round begins with: the base after the updates, and the live declarations.
    pub fn carry(&self, alloc: Global) -> Result<Carried, NoMemory>
        ensures { IfOk result (λ carried. carried ≡ opening_after self.now.opening self.now.log) }
    {
        let list = Vec::from_slice(alloc, &self.live)?;
        Ok(Carried::from_list(self.point(), Items::from_vec(list)))
    }

    /// Ends the registry, and gives its updates and what the next round begins with. Takes no memory.
    pub fn into_parts(self) -> (Updates, Carried)
        ensures updates { result.0 ≡ self.log }
        ensures carried { result.1 ≡ opening_after self.opening self.log }
    {
        let base = self.point();
        let carried = Carried::from_list(base, Items::from_vec(self.live));
        (Items::from_vec(self.log), carried)
    }

    // A reply at the end of the log.
    fn answer(&self, reply: Reply) -> Answer
        ensures reply { result.reply ≡ reply }
        ensures point { result.point ≡ self.now.opening.base + length self.now.log }
        ensures within { length self.now.log ≤ self.now.limits.log }
    {
        Answer {
            point: self.point(),
            reply,
        }
    }

    // The base of the round and the number of its updates.
    fn point(&self) -> u64
        ensures value { result ≡ self.now.opening.base + length self.now.log }
        ensures within { length self.now.log ≤ self.now.limits.log }
    {
        self.base + self.log.len() as u64
    }
}

// Where the declaration with this id stands in a list by id.
pub(crate) fn place_of(list: &[Declared], id: u64) -> Option<usize>
    requires { IsRising list.now }
    ensures found { IfSome result (λ place. IsSomeAnd (slice_get list.now place) (λ declared. declared.id ≡ id)) }
    ensures none { IfNone result (find (λ declared. declared.id == id) list.now ≡ None) }
{
    list.binary_search_by_key(&id, |declared| declared.id).ok()
}

// Pushes where there is room, so that no memory is taken.
pub(crate) fn push_within<T: Drop>(items: &mut Vec<T>, item: T)
    requires { vec_len items.old < vec_capacity items.old }
    ensures items { items.new.items ≡ items.old.items ++ item ∷ [] }
    ensures capacity { vec_capacity items.old ≤ vec_capacity items.new }
{
    let _ = items.push(item);
}

// A copy of a list, with room for so many items in all.
fn with_room(alloc: Global, list: &[Declared], room: usize) -> Result<Vec<Declared>, AllocError>
    ensures items { IfOk result (λ copy. copy.items ≡ list.now) }
    ensures room { IfOk result (λ copy. room ≤ vec_capacity copy) }
{
    let mut copy = Vec::with_capacity(alloc, room)?;
    copy.extend_from_slice(list)?;
    Ok(copy)
}

// The hits in their order.
fn near_hits(alloc: Global, list: &[Declared], unit: Unit64, radius: u32) -> Result<Hits, NoMemory>
    ensures { IfOk result (λ hits. AreHits list.now unit radius hits) }
{
    let mut hits = unsorted_hits(alloc, list, unit, radius)?;
    hits.sort_by_key(|hit| (hit.body, hit.id))?;
    Ok(Hits::from_vec(hits))
}

// The hits in the order of the list.
fn unsorted_hits(
    alloc: Global,
    list: &[Declared],
    unit: Unit64,
    radius: u32,
) -> Result<Vec<Hit>, AllocError>
    ensures { IfOk result (λ hits. hits.items ≡ map (hit_of unit) (filter (is_near unit radius) list.now)) }
{
    let mut hits = Vec::new(alloc);
    for declared in list {
        let away = distance(unit.body, declared.unit.body);
        if declared.unit.kind == unit.kind && away <= radius {
            hits.push(Hit {
                id: declared.id,
                body: declared.unit.body,
                distance: away,
            })?;
        }
    }
    Ok(hits)
}
