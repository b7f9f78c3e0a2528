ghost use Rattle.std.specs.Prelude.{◌≡◌, ◌<◌, ◌≤◌, ◌^◌, ℕ, List, [], ◌∷◌, ◌++◌, All, count_by, OnOk, OnErr, IfOk, IfSome, IfNone, Some, None, is_some, find, filter, map, length, take, not, true, ◌==◌, nat_le, IsPermutation, IsSorted};
ghost use Rattle.iscc_header.specs.Bits.{distance as hamming};
ghost use Rattle.reg_model.specs.declared.update.Declared.{Declared as ADeclared};
ghost use Rattle.reg_model.specs.Replies.{hit_of, code_cmp};
ghost use Rattle.reg_history.specs.inner.LiveSets.{live_in, live_bodies, near_hit, near_hits, is_within, is_live, Rises, AllBelow, IsLiveAt, IsNowhere, AreEntries};

use iscc_header::{Kind, NoMemory, Unit64, distance};
use reg_model::{Declared, Hit, Hits};
use std::alloc::Global;
use std::marker::Model;

/// A list with this many dead entries or fewer isn't gone through to drop them when one more is withdrawn.
const DEAD_MOST: usize = 64;

/// So many bodies are compared before it's asked whether one of them was near.
const BLOCK: usize = 64;

/// The id of a declaration, and whether it is live still.
#[derive(Clone, Copy, Debug, PartialEq, Eq)]
pub(crate) struct Mark {
    id: u64,
    live: bool,
}

/// The live declarations of one kind, by rising id. Contracts see that list.
///
/// The bodies stand by themselves, 8 bytes each, since a query compares every one of them and looks at few marks. A
/// withdrawn declaration stays as a dead entry until most entries are dead.
#[derive(Debug, Drop)]
pub(crate) struct KindList {
    // The kind of the last declaration, and so of all that are live.
    kind: Kind,
    bodies: Vec<u64>,
    // The mark of each body.
    marks: Vec<Mark>,
    // How many of the entries are dead.
    dead: usize,
}

impl Model for KindList {
    ghost use Rattle.std.specs.Prelude.{List};
    ghost use Rattle.reg_model.specs.declared.update.Declared.{Declared as ADeclared};
    ghost use Rattle.reg_history.specs.inner.LiveSets.{live_in, AreEntries};

    ghost Value = { List ADeclared };

    ghost view = { λ list. live_in list.kind list.marks.items list.bodies.items };

    ghost invariant = { λ list. AreEntries list.marks.items list.bodies.items list.dead };
}

impl KindList {
    /// Nothing is live.
    pub(crate) fn new(alloc: Global) -> KindList
        ensures { result ≡ [] }
    {
        KindList {
            kind: Kind::default(),
            bodies: Vec::new(alloc),
            marks: Vec::new(alloc),
            dead: 0,
        }
    }

    pub(crate) fn len(&self) -> u64
        ensures value { result ≡ length self.now }
        ensures most { result < 2 ^ 59 }
    {
        (self.marks.as_slice().len() - self.dead) as u64
    }

    /// The unit of the live declaration with this id.
    pub(crate) fn unit_of(&self, id: u64) -> Option<Unit64>
        ensures found { IfSome result (λ unit. find (λ d. d.id == id) self.now ≡ Some (record { id = id; unit = unit })) }
        ensures none { IfNone result (find (λ d. d.id == id) self.now ≡ None) }
    {
        let place = place_of(&self.marks, id)?;
        Some(Unit64 {
            kind: self.kind,
            body: self.bodies[place],
        })
    }

    /// Adds a declaration of the same kind with a higher id at the end. After a refusal the list is as it was.
    pub(crate) fn push(&mut self, declared: Declared) -> Result<(), NoMemory>
        requires ids { All (λ (e : ADeclared). e.id < declared.id) self.old }
        requires kinds { All (λ (e : ADeclared). e.unit.kind ≡ declared.unit.kind) self.old }
        ensures ok { OnOk result (self.new ≡ self.old ++ declared ∷ []) }
        ensures err { OnErr result (self.new ≡ self.old) }
    {
        let Declared { id, unit } = declared;
        self.dead = keep_below(&mut self.bodies, &mut self.marks, self.dead, id);
        push_entry(&mut self.bodies, &mut self.marks, unit.body, id)?;
        self.kind = unit.kind;
        Ok(())
    }

    /// Ends the live declaration with this id, or says that none has it.
    pub(crate) fn withdraw(&mut self, id: u64) -> bool
        ensures was { result ≡ is_some (find (λ d. d.id == id) self.old) }
        ensures left { self.new ≡ filter (λ d. not (d.id == id)) self.old }
    {
        let Some(place) = place_of(&self.marks, id) else {
            return false;
        };
        self.marks[place].live = false;
        self.dead += 1;
        self.drop_many_dead();
        true
    }

    // Drops the dead entries if they are most of the list.
    fn drop_many_dead(&mut self)
        ensures { self.new ≡ self.old }
    {
        if self.dead > DEAD_MOST && self.dead > self.marks.len() / 2 {
            drop_dead(&mut self.bodies, &mut self.marks);
            self.dead = 0;
        }
    }

    /// The live declarations whose bodies differ from the unit's in at most `radius` bits, by body and then by id.
    pub(crate) fn near(&self, alloc: Global, unit: Unit64, radius: u32) -> Result<Hits, NoMemory>
        ensures exactly { IfOk result (λ hits. IsPermutation (map (hit_of unit) (filter (is_within unit radius) self.now)) hits) }
        ensures order { IfOk result (λ hits. IsSorted code_cmp hits) }
    {
        let mut hits = unsorted_hits(alloc, &self.bodies, &self.marks, &unit, radius)?;
        hits.sort_by_key(|hit| (hit.body, hit.id))?;
        Ok(Hits::from_vec(hits))
    }
}

// Where the live entry with this id stands.
fn place_of(marks: &[Mark], id: u64) -> Option<usize>
    requires { Rises 0 marks.now }
    ensures found { IfSome result (λ place. IsLiveAt id place marks.now) }
    ensures none { IfNone result (IsNowhere id marks.now) }
{
    let place = marks.binary_search_by_key(&id, |mark| mark.id).ok()?;
    if marks[place].live { Some(place) } else { None }
}

// Whether the id is above those of all entries.
fn is_above(marks: &[Mark], id: u64) -> bool
    requires { Rises 0 marks.now }
    ensures { result ≡ true → AllBelow id marks.now }
{
    match marks.last() {
        Some(mark) => mark.id < id,
        None => true,
    }
}

// Drops the dead entries where one has an id that isn't below this one, and says how many are left.
fn keep_below(bodies: &mut Vec<u64>, marks: &mut Vec<Mark>, dead: usize, id: u64) -> usize
    requires { AreEntries marks.old.items bodies.old.items dead }
    ensures entries { AreEntries marks.new.items bodies.new.items result }
    ensures below { (kind : ℕ) → All (λ (e : ADeclared). e.id < id) (live_in kind marks.old.items bodies.old.items) → AllBelow id marks.new.items }
    ensures live { (kind : ℕ) → live_in kind marks.new.items bodies.new.items ≡ live_in kind marks.old.items bodies.old.items }
{
    if is_above(marks, id) {
        return dead;
    }
    drop_dead(bodies, marks);
    0
}

// Adds a live entry at the end, or leaves both lists as they were.
fn push_entry(
    bodies: &mut Vec<u64>,
    marks: &mut Vec<Mark>,
    body: u64,
    id: u64,
) -> Result<(), NoMemory>
    ensures bodies { OnOk result (bodies.new.items ≡ bodies.old.items ++ body ∷ []) }
    ensures marks { OnOk result (marks.new.items ≡ marks.old.items ++ record { id = id; live = true } ∷ []) }
    ensures same_bodies { OnErr result (bodies.new.items ≡ bodies.old.items) }
    ensures same_marks { OnErr result (marks.new.items ≡ marks.old.items) }
{
    bodies.push(body)?;
    let live = true;
    if marks.push(Mark { id, live }).is_err() {
        let _ = bodies.pop();
        return Err(NoMemory);
    }
    Ok(())
}

// Leaves the live entries.
fn drop_dead(bodies: &mut Vec<u64>, marks: &mut Vec<Mark>)
    requires { length marks.old.items ≡ length bodies.old.items }
    ensures bodies { bodies.new.items ≡ live_bodies marks.old.items bodies.old.items }
    ensures marks { marks.new.items ≡ filter is_live marks.old.items }
{
    let kept = pack_live(bodies, marks);
    bodies.truncate(kept);
    marks.retain(|mark| mark.live);
}

// Moves the live bodies to the front, and says how many they are.
fn pack_live(bodies: &mut [u64], marks: &[Mark]) -> usize
    requires { length marks.now ≡ length bodies.old }
    ensures within { result ≤ length bodies.old }
    ensures front { take result bodies.new ≡ live_bodies marks.now bodies.old }
{
    let mut kept = 0;
    for (place, mark) in marks.iter().enumerate() {
        if mark.live {
            bodies[kept] = bodies[place];
            kept += 1;
        }
    }
    kept
}

// The hits in the order of the list.
fn unsorted_hits(
    alloc: Global,
    bodies: &[u64],
    marks: &[Mark],
    unit: &Unit64,
    radius: u32,
) -> Result<Vec<Hit>, NoMemory>
    requires { length marks.now ≡ length bodies.now }
    ensures { IfOk result (λ hits. hits.items ≡ near_hits unit.now radius marks.now bodies.now) }
{
    let mut hits = Vec::new(alloc);
    let mut rest = bodies;
    let mut of_rest = marks;
    while !rest.is_empty() {
        let len = rest.len().min(BLOCK);
        let (block, behind) = rest.split_at(len);
        let (of_block, of_behind) = of_rest.split_at(len);
        push_block(block, of_block, unit, radius, &mut hits)?;
        rest = behind;
        of_rest = of_behind;
    }
    Ok(hits)
}

// Adds the hits of a block. Most blocks have none, and their marks aren't looked at.
fn push_block(
    bodies: &[u64],
    marks: &[Mark],
    unit: &Unit64,
    radius: u32,
    hits: &mut Vec<Hit>,
) -> Result<(), NoMemory>
    requires { length marks.now ≡ length bodies.now }
    ensures { OnOk result (hits.new.items ≡ hits.old.items ++ near_hits unit.now radius marks.now bodies.now) }
{
    if count_near(bodies, unit.body, radius) == 0 {
        return Ok(());
    }
    push_each(bodies, marks, unit, radius, hits)
}

// How many of the bodies are near. They are counted with no branch, which is what makes a query fast.
fn count_near(bodies: &[u64], body: u64, radius: u32) -> usize
    ensures { result ≡ count_by (λ other. nat_le (hamming body other) radius) bodies.now }
{
    let mut near = 0;
    for other in bodies {
        near += (distance(body, *other) <= radius) as usize;
    }
    near
}

fn push_each(
    bodies: &[u64],
    marks: &[Mark],
    unit: &Unit64,
    radius: u32,
    hits: &mut Vec<Hit>,
) -> Result<(), NoMemory>
    requires { length marks.now ≡ length bodies.now }
    ensures { OnOk result (hits.new.items ≡ hits.old.items ++ near_hits unit.now radius marks.now bodies.now) }
{
    for (place, body) in bodies.iter().enumerate() {
        push_near(*body, &marks[place], unit, radius, hits)?;
    }
    Ok(())
}

// Adds the hit of one entry, if it is live and near.
fn push_near(
    body: u64,
    mark: &Mark,
    unit: &Unit64,
    radius: u32,
    hits: &mut Vec<Hit>,
) -> Result<(), NoMemory>
    ensures { OnOk result (hits.new.items ≡ hits.old.items ++ near_hit unit.now radius mark.now body) }
{
    let away = distance(unit.body, body);
    if away <= radius && mark.live {
        hits.push(Hit {
            id: mark.id,
            body,
            distance: away,
        })?;
    }
    Ok(())
}
