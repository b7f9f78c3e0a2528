// Completing a record.
ghost use Rattle.std.specs.Prelude.{◌≡◌, ℕ, ◌+◌, ◌<◌, ◌≤◌, ◌^◌, length, IfSome};
ghost use Rattle.iscc_header.specs.declared.unit.Unit64.{Unit64};
ghost use Rattle.reg_words.specs.declared.word.LogWord.TheVariants.{Decl};
ghost use Rattle.reg_words.specs.declared.word.StampWord.TheVariants.{Live};
ghost use Rattle.reg_words.specs.Packing.{FitsLog, FitsStamp, log_word};
ghost use Rattle.reg_rule.specs.declared.view.Place.{Place};
ghost use Rattle.reg_rule.specs.Log.{At, IsDecl, IsWd, Declares};
ghost use Rattle.reg_rule.specs.Helping.{MayHelp};
ghost use Rattle.reg_rule.specs.Moves.{with_step, noted, helped};
ghost use Rattle.reg_rule.specs.Steps.{SeenFits};
ghost use Rattle.reg_rule.specs.Rounds.{IsWordsPass};
ghost use Rattle.reg_commit.specs.Helps.{completed};
ghost use Rattle.reg_commit.specs.inner.Kinds.{kind_sought};

use iscc_header::Kind;
use reg_model::Declared;
use reg_rule::{Pass, Told, Words, load_code, load_log, store_note, swap_birth, swap_death};
use reg_words::{LogWord, StampWord};

/// Completes the record of the last place that the pass has seen: the note and the birth of a declaration, the death of a
/// withdrawn one. Others may do so too, or have done so.
pub fn help(words: &Words, pass: &mut Pass, place: u32)
    requires own { IsWordsPass words.now pass.old }
    requires pinned { 0 < pass.old.1.pin }
    requires helps { MayHelp pass.old.1 place }
    requires inside { place < pass.old.1.key.sizes.log }
    ensures helped { (p : Place) × At pass.old.1.log place p × (pass.new ≡ (words.now.0, completed pass.old.1 place p)) }
{
    let Some(record) = LogWord::unpack(load_log(words, pass, place, Told::Nothing)) else {
        // Never: a place that was seen has a record.
        return;
    };
    match record {
        LogWord::Decl { kind, entry, id } => help_birth(words, pass, place, kind, entry, id),
        LogWord::Wd { entry, id } => help_death(words, pass, place, entry, id),
    }
}

// What the place declares is noted, and born in its entry.
fn help_birth(words: &Words, pass: &mut Pass, place: u32, kind: Kind, entry: u32, id: u64)
    requires own { IsWordsPass words.now pass.old }
    requires pinned { 0 < pass.old.1.pin }
    requires helps { MayHelp pass.old.1 place }
    requires seen { SeenFits pass.old.1.key pass.old.1.log }
    requires declares { (unit : Unit64) × IsDecl pass.old.1.log place unit entry × (kind ≡ unit.kind) × (id ≡ pass.old.1.key.carried.base + place) }
    ensures { pass.new ≡ (words.now.0, helped (noted (with_step pass.old.1 3) place) 5) }
{
    // Read for its contract: the ids that are carried are others.
    let _carried = words.carried().list();
    let body = load_code(words, pass, entry, Told::Nothing);
    store_note(words, pass, place, body);
    swap_birth(words, pass, entry, 0, StampWord::Live { kind, id }.pack());
}

// What the place withdraws is dead in its entry.
fn help_death(words: &Words, pass: &mut Pass, place: u32, entry: u32, id: u64)
    requires own { IsWordsPass words.now pass.old }
    requires helps { MayHelp pass.old.1 place }
    requires seen { SeenFits pass.old.1.key pass.old.1.log }
    requires withdraws { IsWd pass.old.1.log place id entry }
    ensures { pass.new ≡ (words.now.0, helped (kind_sought id pass.old.1) 6) }
{
    // Read for its contract: a place is a number of 22 bits.
    let _range = words.sizes().callers();
    let Some(kind) = kind_of(words, pass, entry, id) else {
        // Never: what is withdrawn was declared.
        return;
    };
    let live = StampWord::Live { kind, id };
    let dead = StampWord::Dead {
        kind,
        id,
        death: place,
    };
    swap_death(words, pass, entry, live.pack(), dead.pack());
}

// The kind of the unit that was declared with this id, in this entry: what was carried is listed by its entries, and the
// record of any other declaration says it.
fn kind_of(words: &Words, pass: &mut Pass, entry: u32, id: u64) -> Option<Kind>
    requires own { IsWordsPass words.now pass.old }
    requires seen { SeenFits pass.old.1.key pass.old.1.log }
    requires room { length pass.old.1.log ≤ 2 ^ 32 }
    requires declared { (unit : Unit64) × Declares pass.old.1.key.carried pass.old.1.log id unit entry }
    ensures kind { (unit : Unit64) → Declares pass.old.1.key.carried pass.old.1.log id unit entry → result ≡ Some unit.kind }
    ensures fits { IfSome result (λ kind. FitsStamp (Live kind id)) }
    ensures view { pass.new ≡ (words.now.0, kind_sought id pass.old.1) }
{
    let carried = words.carried();
    let list = carried.list();
    let base = carried.base();
    if id < base {
        return Some(list_kind(&list[entry as usize]));
    }
    let place = (id - base) as u32;
    record_kind(load_log(words, pass, place, Told::Nothing))
}

// The kind of a carried unit.
fn list_kind(declared: &Declared) -> Kind
    ensures kind { result ≡ declared.now.unit.kind }
    ensures fits { result < 13 }
{
    let kind = declared.unit.kind;
    // Read for its contract: there are 13 kinds.
    let _number = kind.number();
    kind
}

// The kind that the word of a declaration says.
fn record_kind(word: u64) -> Option<Kind>
    ensures kind { (kind entry id : ℕ) → FitsLog (Decl kind entry id) → word ≡ log_word (Decl kind entry id) → result ≡ Some kind }
    ensures fits { IfSome result (λ kind. kind < 13) }
{
    match LogWord::unpack(word)? {
        LogWord::Decl { kind, .. } => Some(kind),
        LogWord::Wd { .. } => None,
    }
}
