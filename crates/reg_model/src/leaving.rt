// What a round leaves: the declarations that its log doesn't withdraw.
ghost use Rattle.std.specs.Prelude.{◌≡◌, ◌≤◌, ◌<◌, ◌+◌, ◌^◌, [], ◌∷◌, ◌++◌, List, IfOk, length, filter, not, vec_capacity};
ghost use Rattle.std.specs.List.{range_with_len};
ghost use Rattle.reg_model.specs.declared.update.Update.{Update as AnUpdate};
ghost use Rattle.reg_model.specs.Leaving.{leaving_room};
ghost use Rattle.reg_model.specs.Live.{declared_from, is_withdrawn, live, opening_after};
ghost use Rattle.reg_model.specs.Opening.{IsOpening, opening_of};
ghost use Rattle.reg_model.specs.inner.Marks.{ids_of, marks, unmarked};

use crate::carried::Carried;
use crate::plain::{place_of, push_within};
use crate::sizes::Sizes;
use crate::update::{Declared, Update};
use iscc_header::{Items, NoMemory};
use std::alloc::Global;
use std::marker::Model;

/// Memory for what a round leaves, so that none is taken when it ends. Contracts see what there is room for.
#[derive(Debug, Drop)]
pub struct Leaving {
    // A mark for each declaration that was carried into the round, and one for each place of its log.
    of_carried: Vec<bool>,
    of_places: Vec<bool>,
    list: Vec<Declared>,
    // How many declarations the list has room for.
    live: u32,
}

impl Model for Leaving {
    ghost use Rattle.std.specs.Prelude.{◌≡◌, ◌≤◌, [], false, replicate, length, vec_capacity};
    ghost use Rattle.reg_model.specs.Leaving.{LeavingRoom, leaving_room};

    ghost Value = { LeavingRoom };

    ghost view = { λ l. leaving_room (length l.of_carried.items) (length l.of_places.items) l.live };

    ghost invariant = { λ l. (l.of_carried.items ≡ replicate (length l.of_carried.items) false)
        × (l.of_places.items ≡ replicate (length l.of_places.items) false)
        × (l.list.items ≡ [])
        × (l.live ≤ vec_capacity l.list) };
}

impl Leaving {
    /// Takes all memory that the end of a round of these sizes needs.
    pub fn reserve(alloc: Global, sizes: &Sizes, carried: &Carried) -> Result<Leaving, NoMemory>
        ensures { IfOk result (λ room. room ≡ leaving_room (length carried.now.list) sizes.now.log sizes.now.entries) }
    {
        let live = sizes.entries();
        Ok(Leaving {
            of_carried: vec![in alloc; false; carried.list().len()]?,
            of_places: vec![in alloc; false; sizes.log() as usize]?,
            list: Vec::with_capacity(alloc, live as usize)?,
            live,
        })
    }

    /// What the next round begins with, after these updates. Takes no memory.
    pub fn finish(self, carried: &Carried, updates: &[Update]) -> Carried
        requires carried { length carried.now.list ≡ self.carried }
        requires updates { length updates.now ≤ self.updates }
        requires live { length (live carried.now updates.now) ≤ self.live }
        requires ids { carried.now.base + length updates.now ≤ 2 ^ 34 }
        ensures { result ≡ opening_after carried.now updates.now }
    {
        let Leaving {
            mut of_carried,
            mut of_places,
            mut list,
            live: _,
        } = self;
        let base = carried.base();
        let before = carried.list();
        let of_carried = of_carried.as_mut_slice();
        let of_places = of_places.as_mut_slice();
        mark_each(of_carried, of_places, before, base, updates);
        keep_carried(&mut list, before, of_carried);
        keep_declared(&mut list, base, updates, of_places);
        Carried::from_list(base + updates.len() as u64, Items::from_vec(list))
    }
}

// Marks the declarations that the updates withdraw.
fn mark_each(
    of_carried: &mut [bool],
    of_places: &mut [bool],
    carried: &[Declared],
    base: u64,
    updates: &[Update],
)
    requires opening { IsOpening (opening_of base carried.now) }
    requires of_carried { of_carried.old ≡ marks [] (ids_of carried.now) }
    requires of_places { of_places.old ≡ marks [] (range_with_len base (length of_places.old)) }
    ensures of_carried { of_carried.new ≡ marks updates.now (ids_of carried.now) }
    ensures of_places { of_places.new ≡ marks updates.now (range_with_len base (length of_places.old)) }
{
    for update in updates {
        mark(of_carried, of_places, carried, base, update);
    }
}

// Marks the declaration that the update withdraws, if it is a withdrawal. An id that none has is passed over.
fn mark(
    of_carried: &mut [bool],
    of_places: &mut [bool],
    carried: &[Declared],
    base: u64,
    update: &Update,
)
    requires opening { IsOpening (opening_of base carried.now) }
    requires long { length of_carried.old ≡ length carried.now }
    ensures of_carried { (log : List AnUpdate) → of_carried.old ≡ marks log (ids_of carried.now) → of_carried.new ≡ marks (log ++ update.now ∷ []) (ids_of carried.now) }
    ensures of_places { (log : List AnUpdate) → of_places.old ≡ marks log (range_with_len base (length of_places.old)) → of_places.new ≡ marks (log ++ update.now ∷ []) (range_with_len base (length of_places.old)) }
{
    let Update::Wd(id) = *update else {
        return;
    };
    if id >= base {
        mark_place(of_places, base, id);
    } else if let Some(place) = place_of(carried, id) {
        of_carried[place] = true;
    }
}

// Marks the place with this id, if there is one.
fn mark_place(of_places: &mut [bool], base: u64, id: u64)
    requires { base ≤ id }
    ensures { (log : List AnUpdate) → of_places.old ≡ marks log (range_with_len base (length of_places.old)) → of_places.new ≡ marks (log ++ AnUpdate.Wd id ∷ []) (range_with_len base (length of_places.old)) }
{
    let place = id - base;
    if place < of_places.len() as u64 {
        of_places[place as usize] = true;
    }
}

// Adds the carried declarations that are not marked.
fn keep_carried(list: &mut Vec<Declared>, carried: &[Declared], withdrawn: &[bool])
    requires long { length withdrawn.now ≡ length carried.now }
    requires room { length list.old.items + length (unmarked carried.now withdrawn.now) ≤ vec_capacity list.old }
    ensures list { list.new.items ≡ list.old.items ++ unmarked carried.now withdrawn.now }
    ensures capacity { vec_capacity list.old ≤ vec_capacity list.new }
{
    for (place, declared) in carried.iter().enumerate() {
        if !withdrawn[place] {
            push_within(list, *declared);
        }
    }
}

// Adds the declarations of the updates that are not marked.
fn keep_declared(list: &mut Vec<Declared>, base: u64, updates: &[Update], withdrawn: &[bool])
    requires marks { withdrawn.now ≡ marks updates.now (range_with_len base (length withdrawn.now)) }
    requires long { length updates.now ≤ length withdrawn.now }
    requires ids { base + length updates.now ≤ 2 ^ 34 }
    requires room { length list.old.items + length (filter (λ d. not (is_withdrawn updates.now d.id)) (declared_from base updates.now)) ≤ vec_capacity list.old }
    ensures { list.new.items ≡ list.old.items ++ filter (λ d. not (is_withdrawn updates.now d.id)) (declared_from base updates.now) }
{
    for (place, update) in updates.iter().enumerate() {
        if !withdrawn[place] {
            keep(list, base + place as u64, update);
        }
    }
}

// Adds the declaration of the update, if it is one.
fn keep(list: &mut Vec<Declared>, id: u64, update: &Update)
    requires { length list.old.items + length (declared_from id (update.now ∷ [])) ≤ vec_capacity list.old }
    ensures list { list.new.items ≡ list.old.items ++ declared_from id (update.now ∷ []) }
    ensures capacity { vec_capacity list.old ≤ vec_capacity list.new }
{
    if let Update::Decl(unit) = *update {
        push_within(list, Declared { id, unit });
    }
}
