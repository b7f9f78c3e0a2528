// The start of a round: what is carried gets the first entries and is linked in the chains, and the ring has the others.
ghost use Rattle.std.specs.Prelude.{◌≡◌, ◌⊎◌, ◌≤◌, ◌<◌, ◌+◌, ◌*◌, ◌^◌, [], length, map, All, IfOk, MatchResult, Some, None};
ghost use Rattle.reg_model.specs.Desks.{new_passes};
ghost use Rattle.reg_model.specs.Registry.{start_refusal};
ghost use Rattle.reg_words.specs.Memory.{areas_of};
ghost use Rattle.reg_words.specs.Packing.{stamp_word};
ghost use Rattle.reg_words.specs.declared.word.StampWord.TheVariants.{Live};
ghost use Rattle.reg_rule.specs.Fresh.{fresh};
ghost use Rattle.reg_rule.specs.Rounds.{AllFresh, IsWordsPass, key_of};
ghost use Rattle.reg_rule.specs.Passes.{pass_view};
ghost use Rattle.reg_rule.specs.inner.Rule.{sizes};
ghost use Rattle.reg_rule.specs.inner.Opening.{CanBegin, Filling};

use crate::rule::Splitting;
use crate::view::{Key, View};
use crate::words::{Pass, Words};
use atomic_table::{Seat, Table};
use mih_plan::bucket_of;
use reg_model::{Carried, Declared, Sizes, StartFault, start_fault};
use reg_words::{Areas, StampWord};
use std::alloc::{AllocError, Global};

// How many heads there are, for so many bits of a bucket.
fn heads_of(bits: u32) -> usize
    requires { bits ≤ 16 }
    ensures value { result ≡ 4 * 2 ^ bits }
    ensures most { result ≤ 262144 }
{
    4 * 2usize.pow(bits)
}

// Cuts a seat into one for each session.
fn deal(
    words: &Words,
    mut seat: Seat<(), View>,
    callers: u32,
    base: u64,
    mut passes: Vec<Pass>,
) -> Result<Vec<Pass>, AllocError>
    requires seat { (seat.table_id ≡ words.now.0) × (seat.me ≡ (fresh words.now.1 0 callers, [])) }
    requires callers { (0 < callers) × (callers ≡ words.now.1.sizes.callers) }
    requires base { (base ≡ words.now.1.carried.base) × (base ≤ 2 ^ 34) }
    requires none { passes.items ≡ [] }
    ensures { IfOk result (λ v. (length v.items ≡ callers) × AllFresh words.now v.items) }
{
    let mut left = callers;
    while left > 1 {
        let rest = words.table.shared.split_seat::<Splitting>(&mut seat);
        passes.push(Pass::new(seat, callers - left, base))?;
        seat = rest;
        left -= 1;
    }
    passes.push(Pass::new(seat, callers - left, base))?;
    Ok(passes)
}

// The words with the free entries in the ring, and nothing carried yet.
fn free_words(alloc: Global, key: &Key, areas: &Areas) -> Result<Vec<u64>, AllocError>
    requires room { CanBegin key.now }
    requires areas { areas.now ≡ areas_of (sizes key.now) }
    ensures { IfOk result (λ v. Filling key.now v.items 0 0 0) }
{
    let carried = key.carried.list().len();
    let entries = key.sizes.entries() as usize;
    let mut words = vec![in alloc; 0u64; areas.total as usize]?;
    words[areas.put as usize] = (entries - carried) as u64;
    for i in 0..entries - carried {
        words[areas.give as usize + i] = (carried + i) as u64;
    }
    Ok(words)
}

// The stamp of a carried declaration.
fn stamp_of(declared: &Declared) -> u64
    requires { declared.now.id + 1 < 2 ^ 35 }
    ensures stamp { result ≡ stamp_word (Live declared.now.unit.kind declared.now.id) }
    ensures kind { declared.now.unit.kind < 13 }
{
    let kind = declared.unit.kind;
    let _number = kind.number();
    StampWord::Live {
        kind,
        id: declared.id,
    }
    .pack()
}

// The code and the stamp of the next carried declaration.
fn write_entry(words: &mut [u64], key: &Key, areas: &Areas, entry: usize)
    requires room { CanBegin key.now }
    requires areas { areas.now ≡ areas_of (sizes key.now) }
    requires entry { entry < length key.now.carried.list }
    requires filling { Filling key.now words.old entry 0 0 }
    ensures { Filling key.now words.new (entry + 1) 0 0 }
{
    let declared = &key.carried.list()[entry];
    words[areas.code as usize + entry] = declared.unit.body;
    words[areas.stamp as usize + entry] = stamp_of(declared);
}

// The codes and the stamps of all that is carried.
fn write_carried(words: &mut [u64], key: &Key, areas: &Areas)
    requires room { CanBegin key.now }
    requires areas { areas.now ≡ areas_of (sizes key.now) }
    requires filling { Filling key.now words.old 0 0 0 }
    ensures { Filling key.now words.new (length key.now.carried.list) 0 0 }
{
    for entry in 0..key.carried.list().len() {
        write_entry(words, key, areas, entry);
    }
}

// A push of a carried entry in front of the chain of its bucket.
fn push(words: &mut [u64], key: &Key, areas: &Areas, table: u32, entry: usize)
    requires room { CanBegin key.now }
    requires areas { areas.now ≡ areas_of (sizes key.now) }
    requires at { (table < 4) × (entry < length key.now.carried.list) }
    requires filling { Filling key.now words.old (length key.now.carried.list) table entry }
    ensures { Filling key.now words.new (length key.now.carried.list) table (entry + 1) }
{
    let entries = key.sizes.entries() as usize;
    let bits = key.sizes.bits();
    let bucket = bucket_of(key.carried.list()[entry].unit.body, table, bits) as usize;
    let head = areas.head as usize + table as usize * 2usize.pow(bits) + bucket;
    let next = areas.next as usize + table as usize * entries + entry;
    words[next] = words[head];
    words[head] = entry as u64 + 1;
}

// Pushes all that is carried, in one table.
fn link_table(words: &mut [u64], key: &Key, areas: &Areas, table: u32)
    requires room { CanBegin key.now }
    requires areas { areas.now ≡ areas_of (sizes key.now) }
    requires table { table < 4 }
    requires filling { Filling key.now words.old (length key.now.carried.list) table 0 }
    ensures { Filling key.now words.new (length key.now.carried.list) (table + 1) 0 }
{
    for entry in 0..key.carried.list().len() {
        push(words, key, areas, table, entry);
    }
}

// Pushes all that is carried, table by table: the heads of one table stay near.
fn link_carried(words: &mut [u64], key: &Key, areas: &Areas)
    requires room { CanBegin key.now }
    requires areas { areas.now ≡ areas_of (sizes key.now) }
    requires filling { Filling key.now words.old (length key.now.carried.list) 0 0 }
    ensures { Filling key.now words.new (length key.now.carried.list) 4 0 }
{
    for table in 0..4 {
        link_table(words, key, areas, table);
    }
}

// The words that a round begins with.
fn opening_words(alloc: Global, key: &Key) -> Result<Vec<u64>, AllocError>
    requires { CanBegin key.now }
    ensures { IfOk result (λ v. Filling key.now v.items (length key.now.carried.list) 4 0) }
{
    let areas = Areas::of(
        key.sizes.entries(),
        key.sizes.log(),
        key.sizes.bits(),
        key.sizes.callers(),
    );
    let mut words = free_words(alloc, key, &areas)?;
    write_carried(words.as_mut_slice(), key, &areas);
    link_carried(words.as_mut_slice(), key, &areas);
    Ok(words)
}

// What the words are made for.
fn key_of(alloc: Global, sizes: &Sizes, carried: &Carried) -> Result<Key, AllocError>
    ensures { IfOk result (λ key. key ≡ key_of sizes.now carried.now) }
{
    let Ok(carried) = carried.try_clone(alloc) else {
        return Err(AllocError);
    };
    Ok(Key {
        sizes: *sizes,
        carried,
        entries: sizes.entries(),
    })
}

impl Words {
    /// Makes the words of a round, and a pass for each caller. The faults are asked in the order of `StartFault`.
    pub fn start(
        alloc: Global,
        sizes: &Sizes,
        carried: &Carried,
    ) -> Result<(Words, Vec<Pass>), StartFault>
        ensures words { IfOk result (λ made. made.0.1 ≡ key_of sizes.now carried.now) }
        ensures count { IfOk result (λ made. length made.1.items ≡ sizes.now.callers) }
        ensures fresh { IfOk result (λ made. AllFresh made.0 made.1.items) }
        ensures own { IfOk result (λ made. All (IsWordsPass made.0) made.1.items) }
        ensures views { IfOk result (λ made. map (λ pass. pass_view pass.1) made.1.items ≡ new_passes carried.now.base sizes.now.callers) }
        ensures cause { MatchResult result
            (λ _. start_refusal sizes.now carried.now ≡ None)
            (λ fault. (start_refusal sizes.now carried.now ≡ Some fault) ⊎ ((fault ≡ StartFault.NoMemory) × (start_refusal sizes.now carried.now ≡ None))) }
    {
        if let Some(fault) = start_fault(sizes, carried) {
            return Err(fault);
        }
        let key = key_of(alloc, sizes, carried)?;
        let opening = opening_words(alloc, &key)?;
        let (table, seat) = Table::of_words(alloc, opening.as_slice(), &key)?;
        let base = key.carried.base();
        let Key {
            sizes,
            carried,
            entries: _,
        } = key;
        let words = Words {
            table,
            sizes,
            carried,
            heads: heads_of(sizes.bits()),
        };
        let passes = deal(&words, seat, sizes.callers(), base, Vec::new(alloc))?;
        Ok((words, passes))
    }
}
