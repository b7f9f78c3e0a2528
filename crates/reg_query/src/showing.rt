// The declaration with an id, at a snapshot.
ghost use Rattle.std.specs.Prelude.{◌≡◌, ◌+◌, ◌^◌, ◌<◌, ◌≤◌, ◌⊎◌, ℕ, length, IfSome, IfNone, Some};
ghost use Rattle.iscc_header.specs.declared.unit.Unit64.{Unit64};
ghost use Rattle.reg_model.specs.Opening.{IsOpening};
ghost use Rattle.reg_words.specs.declared.word.LogWord.{LogWord};
ghost use Rattle.reg_words.specs.declared.word.StampWord.{StampWord};
ghost use Rattle.reg_words.specs.Packing.{FitsLog, log_word, stamp_word};
ghost use Rattle.reg_rule.specs.Log.{At};
ghost use Rattle.reg_rule.specs.Steps.{FitsBits};
ghost use Rattle.reg_model.specs.declared.call.Call.TheVariants.{Show};
ghost use Rattle.reg_rule.specs.declared.told.Told.TheVariants.{Nothing, Row};
ghost use Rattle.reg_rule.specs.Rounds.{IsWordsPass};
ghost use Rattle.reg_query.specs.Snapshots.{declared_entry, IsOpen, IsOpenAt, ShownAt};
ghost use Rattle.reg_query.specs.inner.Showing.{Sought, LookedFor, IsDeclaredIn, IsLiveKind, kind_shown};

use iscc_header::{Kind, Unit64};
use reg_rule::{Pass, Told, Words, load_code, load_log, load_stamp};
use reg_words::{LogWord, StampWord};

/// The unit of the declaration with this id that is live at the open snapshot, if there is one. Told `Told::Row` of showing
/// this id, it makes that row.
pub fn show_at(words: &Words, pass: &mut Pass, id: u64, told: Told) -> Option<Unit64>
    requires own { IsWordsPass words.now pass.old }
    requires opens { IsOpen pass.old.1 }
    requires telling { (told ≡ Nothing) ⊎ (told ≡ Row (Show id)) }
    ensures own { IsWordsPass words.now pass.new }
    ensures shown { (k : ℕ) → pass.old.1.snapshot ≡ Some k → ShownAt told pass.old.1 k id result pass.new.1 }
{
    let place = snapshot_place(words, pass);
    let entry = declared_in(words, pass, place, id, &told)?;
    let kind = live_kind(words, pass, place, entry, id, &told)?;
    let body = load_code(words, pass, entry, told);
    Some(Unit64 { kind, body })
}

// How many places are below the open snapshot.
fn snapshot_place(words: &Words, pass: &Pass) -> u32
    requires own { IsWordsPass words.now pass.now }
    requires opens { IsOpen pass.now.1 }
    ensures place { pass.now.1.snapshot ≡ Some result }
    ensures opening { IsOpening pass.now.1.key.carried }
    ensures room { pass.now.1.key.carried.base + pass.now.1.key.sizes.log ≤ 2 ^ 34 }
    ensures log { 0 < pass.now.1.key.sizes.log }
{
    let carried = words.carried();
    // Read for their contracts: what is carried has ids below the base, a log has places, and these are numbered.
    let _list = carried.list();
    let _entries = words.sizes().entries();
    let _seen = pass.places_seen();
    let base = carried.base();
    (pass.snapshot().unwrap_or(base) - base) as u32
}

// The entry of the declaration with this id, if it was declared below the snapshot. The log is loaded in any case, and
// decides where it wasn't.
fn declared_in(words: &Words, pass: &mut Pass, place: u32, id: u64, told: &Told) -> Option<u32>
    requires own { IsWordsPass words.now pass.old }
    requires opens { IsOpenAt pass.old.1 place }
    requires opening { IsOpening pass.old.1.key.carried }
    requires log { 0 < pass.old.1.key.sizes.log }
    requires telling { (told.now ≡ Nothing) ⊎ (told.now ≡ Row (Show id)) }
    ensures own { IsWordsPass words.now pass.new }
    ensures moved { Sought told.now pass.old.1 place id pass.new.1 }
    ensures entry { IsDeclaredIn pass.old.1 place id result }
    ensures inside { IfSome result (λ entry. entry < pass.old.1.key.entries) }
{
    let base = words.carried().base();
    if id >= base && id < base + place as u64 {
        return record_entry(load_log(words, pass, (id - base) as u32, *told));
    }
    load_log(words, pass, 0, *told);
    carried_entry(words, id)
}

/// The entry of a declaration, by the word of its record.
pub fn record_entry(word: u64) -> Option<u32>
    ensures { (w : LogWord) → FitsLog w → log_word w ≡ word → result ≡ declared_entry w }
{
    match LogWord::unpack(word)? {
        LogWord::Decl { entry, .. } => Some(entry),
        LogWord::Wd { .. } => None,
    }
}

/// The entry of the carried declaration with this id, if there is one: its place in the list.
pub fn carried_entry(words: &Words, id: u64) -> Option<u32>
    ensures found { IfSome result (λ entry. (unit : Unit64) × At words.now.1.carried.list entry (record { id = id; unit = unit })) }
    ensures none { IfNone result ((unit : Unit64) (entry : ℕ) → At words.now.1.carried.list entry (record { id = id; unit = unit }) → ⊥) }
{
    // Read for its contract: an entry is a number of 20 bits.
    let _entries = words.sizes().entries();
    let list = words.carried().list();
    let place = list.binary_search_by_key(&id, |declared| declared.id).ok()?;
    Some(place as u32)
}

// The kind of the declaration with this id, if the stamp of its entry shows it live at the snapshot.
fn live_kind(
    words: &Words,
    pass: &mut Pass,
    place: u32,
    entry: u32,
    id: u64,
    told: &Told,
) -> Option<Kind>
    requires own { IsWordsPass words.now pass.old }
    requires opens { IsOpenAt pass.old.1 place }
    requires opening { IsOpening pass.old.1.key.carried }
    requires entry { entry < pass.old.1.key.entries }
    requires declared { id < pass.old.1.key.carried.base + place }
    requires telling { (told.now ≡ Nothing) ⊎ (told.now ≡ Row (Show id)) }
    ensures own { IsWordsPass words.now pass.new }
    ensures moved { LookedFor told.now pass.old.1 place id pass.new.1 }
    ensures kind { IsLiveKind pass.old.1 place id entry result }
{
    shown_kind(load_stamp(words, pass, entry, *told), place, id)
}

// The kind that the word of a stamp shows, if it shows the id live at the place.
fn shown_kind(stamp: u64, place: u32, id: u64) -> Option<Kind>
    ensures { (s : StampWord) → FitsBits s → stamp ≡ stamp_word s → result ≡ kind_shown place id s }
{
    match StampWord::unpack(stamp)? {
        StampWord::Live { kind, id: found } if found == id => Some(kind),
        StampWord::Dead {
            kind,
            id: found,
            death,
        } if found == id && death >= place => Some(kind),
        _ => None,
    }
}
