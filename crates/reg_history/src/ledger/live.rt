ghost use Rattle.std.specs.Prelude.{◌≡◌, ◌<◌, ◌++◌, ◌∷◌, [], List, ℕ, All, IfOk, IfSome, IfNone, OnOk, OnErr, Some, None, is_some, find, filter, map, length, not, ◌==◌, slice_get, sum_by};
ghost use Rattle.std.specs.List.{list_any};
ghost use Rattle.reg_model.specs.declared.update.Declared.{Declared as ADeclared};
ghost use Rattle.reg_model.specs.Opening.{IsRising};
ghost use Rattle.reg_model.specs.Replies.{AreHits};
ghost use Rattle.reg_history.specs.inner.LiveSets.{AreByKind};

use crate::ledger::kind_list::KindList;
use iscc_header::{NoMemory, Unit64};
use reg_model::{Declared, Hits};
use std::alloc::Global;
use std::marker::Model;

/// How many kinds of units there are.
const KINDS: usize = 13;

/// The live declarations of a round, each kind in a list of its own. Contracts see these lists, by the kind's number.
///
/// A query goes through the bodies of one kind; a look-up and a withdrawal by id search each list.
#[derive(Debug, Drop)]
pub(crate) struct LiveSet {
    kinds: Vec<KindList>,
}

impl Model for LiveSet {
    ghost use Rattle.std.specs.Prelude.{◌≡◌, List, length};
    ghost use Rattle.reg_model.specs.declared.update.Declared.{Declared as ADeclared};

    ghost Value = { List (List ADeclared) };

    ghost view = { λ set. set.kinds.items };

    ghost invariant = { λ set. length set.kinds.items ≡ 13 };
}

impl LiveSet {
    /// The declarations of a list.
    pub(crate) fn of(alloc: Global, list: &[Declared]) -> Result<LiveSet, NoMemory>
        requires { IsRising list.now }
        ensures { IfOk result (λ set. AreByKind set list.now) }
    {
        let mut set = LiveSet::empty(alloc)?;
        for declared in list {
            set.push(*declared)?;
        }
        Ok(set)
    }

    fn empty(alloc: Global) -> Result<LiveSet, NoMemory>
        ensures { IfOk result (λ set. AreByKind set []) }
    {
        let mut kinds = Vec::with_capacity(alloc, KINDS)?;
        for _ in 0..KINDS {
            kinds.push(KindList::new(alloc))?;
        }
        Ok(LiveSet { kinds })
    }

    /// How many declarations are live.
    pub(crate) fn len(&self) -> u64
        ensures { (live : List ADeclared) → AreByKind self.now live → result ≡ length live }
    {
        total(&self.kinds)
    }

    /// The unit of the live declaration with this id.
    pub(crate) fn unit_of(&self, id: u64) -> Option<Unit64>
        ensures found { (live : List ADeclared) → AreByKind self.now live → IsRising live → IfSome result (λ unit. find (λ d. d.id == id) live ≡ Some (record { id = id; unit = unit })) }
        ensures none { (live : List ADeclared) → AreByKind self.now live → IsRising live → IfNone result (find (λ d. d.id == id) live ≡ None) }
    {
        for list in &self.kinds {
            if let Some(unit) = list.unit_of(id) {
                return Some(unit);
            }
        }
        None
    }

    /// Adds a declaration whose id is above those of its kind. After a refusal the set is as it was.
    pub(crate) fn push(&mut self, declared: Declared) -> Result<(), NoMemory>
        requires ids { IfSome (slice_get self.old declared.unit.kind) (All (λ (e : ADeclared). e.id < declared.id)) }
        requires kinds { IfSome (slice_get self.old declared.unit.kind) (All (λ (e : ADeclared). e.unit.kind ≡ declared.unit.kind)) }
        ensures ok { OnOk result ((live : List ADeclared) → AreByKind self.old live → AreByKind self.new (live ++ declared ∷ [])) }
        ensures err { OnErr result (self.new ≡ self.old) }
    {
        let unit = declared.unit;
        let kind = unit.kind.number();
        self.kinds[kind as usize].push(declared)
    }

    /// Ends the live declaration with this id, or says that none has it.
    pub(crate) fn withdraw(&mut self, id: u64) -> bool
        ensures was { (live : List ADeclared) → AreByKind self.old live → result ≡ is_some (find (λ d. d.id == id) live) }
        ensures left { (live : List ADeclared) → AreByKind self.old live → IsRising live → AreByKind self.new (filter (λ d. not (d.id == id)) live) }
    {
        withdraw_each(&mut self.kinds, id)
    }

    /// The live declarations of the unit's kind whose bodies differ from its own in at most `radius` bits, by body and
    /// then by id.
    pub(crate) fn near(&self, alloc: Global, unit: Unit64, radius: u32) -> Result<Hits, NoMemory>
        ensures { IfOk result (λ hits. (live : List ADeclared) → AreByKind self.now live → AreHits live unit radius hits) }
    {
        let kind = unit.kind.number();
        self.kinds[kind as usize].near(alloc, unit, radius)
    }
}

// How many declarations the lists have in all.
fn total(lists: &[KindList]) -> u64
    requires { length lists.now ≡ 13 }
    ensures { result ≡ sum_by length lists.now }
{
    let mut total = 0;
    for list in lists {
        total += list.len();
    }
    total
}

// Ends the declarations with this id in each list, and says whether there was one.
fn withdraw_each(lists: &mut [KindList], id: u64) -> bool
    ensures was { result ≡ list_any (λ (list : List ADeclared). is_some (find (λ d. d.id == id) list)) lists.old }
    ensures left { lists.new ≡ map (filter (λ d. not (d.id == id))) lists.old }
{
    let mut was = false;
    for list in lists.iter_mut() {
        was |= list.withdraw(id);
    }
    was
}
