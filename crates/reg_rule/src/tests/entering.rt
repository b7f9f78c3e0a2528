// Two passes take entries by the ring, declare in them, and help each other.
ghost use Rattle.std.specs.Prelude.{◌≡◌, ℕ, ◌+◌, ◌<◌, [], ◌∷◌, length, None, IfOk, OnOk};
ghost use Rattle.reg_words.specs.declared.word.LogWord.TheVariants.{Decl};
ghost use Rattle.reg_words.specs.declared.word.StampWord.TheVariants.{Live};
ghost use Rattle.reg_words.specs.Packing.{log_word, stamp_word};
ghost use Rattle.reg_rule.specs.declared.told.Told.TheVariants.{Nothing};
ghost use Rattle.reg_rule.specs.Log.{At};
ghost use Rattle.reg_rule.specs.Fresh.{fresh};
ghost use Rattle.reg_rule.specs.Helping.{HasHelped, MayHelp};
ghost use Rattle.reg_rule.specs.Moves.{new_hand, took, committed, noted, helped, looked};
ghost use Rattle.reg_rule.specs.Rounds.{IsWordsPass};
ghost use Rattle.reg_rule.specs.inner.Trials.{two_callers, all_counted, meta_place, written_hand, wrote, linked_once, entered, declaring, ready, late, met, first_ends, second_ends};

use super::*;
use iscc_header::{Kind, Unit64};
use mih_plan::bucket_of;
use reg_model::{Closed, Update};
use reg_words::{LogWord, StampWord};

// The entry of this number is taken under the same count.
fn takes_entry(words: &Words, pass: &mut Pass, entry: u32) -> Result<(), Fail>
    requires own { IsWordsPass words.now pass.old }
    requires inside { entry < pass.old.1.key.entries }
    requires none { pass.old.1.hands ≡ [] }
    ensures { OnOk result (pass.new ≡ (words.now.0, took (all_counted pass.old.1 (9 ∷ 10 ∷ 11 ∷ [])) entry)) }
{
    let count = entry as u64;
    if load_take(words, pass) != count {
        return Err("another count".into());
    }
    if load_put(words, pass, Told::Nothing) == count {
        return Err("the ring is empty".into());
    }
    if load_give(words, pass, entry) != count {
        return Err("another entry".into());
    }
    if swap_take(words, pass, count, count + 1, count) != count {
        return Err("it was taken before".into());
    }
    Ok(())
}

// The entry is unborn, and has this code.
fn writes(words: &Words, pass: &mut Pass, entry: u32, code: u64)
    requires own { IsWordsPass words.now pass.old }
    requires inside { entry < pass.old.1.key.entries }
    requires hand { pass.old.1.hands ≡ new_hand entry ∷ [] }
    ensures { pass.new ≡ (words.now.0, wrote pass.old.1 entry code) }
{
    store_held(words, pass, None);
    store_held(words, pass, Some(code));
}

// The entry is pushed into its chain in this table, after those before.
fn links(words: &Words, pass: &mut Pass, entry: u32, code: u64, table: u32) -> Result<(), Fail>
    requires own { IsWordsPass words.now pass.old }
    requires inside { entry < pass.old.1.key.entries }
    requires bits { pass.old.1.key.sizes.bits ≡ 4 }
    requires table { table < 4 }
    requires hand { pass.old.1.hands ≡ written_hand entry code table ∷ [] }
    ensures { OnOk result (pass.new ≡ (words.now.0, linked_once pass.old.1 entry code table)) }
{
    let bucket = bucket_of(code, table, 4);
    let first = load_head(words, pass, table, bucket, Told::Links);
    store_next(words, pass, table, first);
    if swap_head(words, pass, table, bucket, first, entry as u64 + 1) != first {
        return Err("another push came between".into());
    }
    Ok(())
}

// The entry is taken, written and linked in all four tables.
fn enters(words: &Words, pass: &mut Pass, entry: u32) -> Result<(), Fail>
    requires own { IsWordsPass words.now pass.old }
    requires inside { entry < pass.old.1.key.entries }
    requires bits { pass.old.1.key.sizes.bits ≡ 4 }
    requires none { pass.old.1.hands ≡ [] }
    ensures { OnOk result (pass.new ≡ (words.now.0, entered pass.old.1 entry 0)) }
{
    takes_entry(words, pass, entry)?;
    writes(words, pass, entry, 0);
    links(words, pass, entry, 0, 0)?;
    links(words, pass, entry, 0, 1)?;
    links(words, pass, entry, 0, 2)?;
    links(words, pass, entry, 0, 3)
}

// The kind META.
pub(super) fn meta() -> Result<Kind, Fail>
    ensures { IfOk result (λ kind. kind ≡ 0) }
{
    Ok(Kind::new(0).ok_or("no kind")?)
}

// The word of a declaration of the kind META.
fn meta_word(entry: u32, id: u64) -> Result<u64, Fail>
    requires entry { entry < 4 }
    requires id { id < 4 }
    ensures { IfOk result (λ word. word ≡ log_word (Decl 0 entry id)) }
{
    let kind = meta()?;
    Ok(LogWord::Decl { kind, entry, id }.pack())
}

// The next place declares the body 0, in the entry in hand. Its word is this.
pub(super) fn commits(
    words: &Words,
    pass: &mut Pass,
    place: u32,
    entry: u32,
    word: u64,
) -> Result<(), Fail>
    requires own { IsWordsPass words.now pass.old }
    requires base { pass.old.1.key.carried.base ≡ 0 }
    requires pinned { 0 < pass.old.1.pin }
    requires unopened { pass.old.1.snapshot ≡ None }
    requires next { place ≡ length pass.old.1.log }
    requires inside { place < pass.old.1.key.sizes.log }
    requires helped { HasHelped pass.old.1 place }
    requires hand { pass.old.1.hands ≡ written_hand entry 0 4 ∷ [] }
    requires small { (entry < 4) × (place < 4) }
    ensures { OnOk result (pass.new ≡ (words.now.0, committed pass.old.1 (meta_place 0 entry))) }
{
    let update = Update::Decl(Unit64 {
        kind: meta()?,
        body: 0,
    });
    if meta_word(entry, place as u64)? != word {
        return Err("another word".into());
    }
    if swap_log(words, pass, place, 0, word, &update, entry) != 0 {
        return Err("the place is filled".into());
    }
    Ok(())
}

// The stamp word of a live declaration of the kind META.
pub(super) fn birth_word(id: u64) -> Result<u64, Fail>
    requires { id < 4 }
    ensures { IfOk result (λ word. word ≡ stamp_word (Live 0 id)) }
{
    let kind = meta()?;
    Ok(StampWord::Live { kind, id }.pack())
}

// The last place seen declares the body 0 in this entry, and is helped.
pub(super) fn helps(words: &Words, pass: &mut Pass, place: u32, entry: u32) -> Result<(), Fail>
    requires own { IsWordsPass words.now pass.old }
    requires base { pass.old.1.key.carried.base ≡ 0 }
    requires inside { (place < pass.old.1.key.sizes.log) × (entry < pass.old.1.key.entries) }
    requires helps { MayHelp pass.old.1 place }
    requires declares { At pass.old.1.log place (meta_place 0 entry) }
    requires small { place < 4 }
    ensures { OnOk result (pass.new ≡ (words.now.0, helped (noted pass.old.1 place) 5)) }
{
    let birth = birth_word(place as u64)?;
    store_note(words, pass, place, 0);
    swap_birth(words, pass, entry, 0, birth);
    Ok(())
}

// The stamp of the entry is this word, of a live declaration of the kind META.
pub(super) fn finds_birth(
    words: &Words,
    pass: &mut Pass,
    entry: u32,
    id: u64,
    word: u64,
) -> Result<(), Fail>
    requires own { IsWordsPass words.now pass.old }
    requires inside { entry < pass.old.1.key.entries }
    requires pinned { 0 < pass.old.1.pin }
    requires small { id < 4 }
    ensures { OnOk result (pass.new ≡ (words.now.0, looked Nothing entry (Live 0 id) pass.old.1)) }
{
    if birth_word(id)? != word {
        return Err("another word".into());
    }
    if load_stamp(words, pass, entry, Told::Nothing) != word {
        return Err("another stamp".into());
    }
    Ok(())
}

// The pass finds the front 0, enters an entry, and is pinned.
pub(super) fn prepares(words: &Words, pass: &mut Pass, seat: u32, log: u32) -> Result<(), Fail>
    requires words { words.now.1 ≡ two_callers 4 log }
    requires seat { seat < 2 }
    requires log { 0 < log }
    requires new { pass.old ≡ (words.now.0, fresh (two_callers 4 log) seat 1) }
    ensures { OnOk result (pass.new ≡ (words.now.0, ready log seat)) }
{
    finds_front(words, pass, 0, Told::Nothing)?;
    enters(words, pass, seat)?;
    pins(words, pass);
    Ok(())
}

// The second pass finds the first place filled: with the word 1, which is META, entry 0, id 0.
fn is_late(words: &Words, pass: &mut Pass) -> Result<(), Fail>
    requires words { words.now.1 ≡ declaring }
    requires ready { pass.old ≡ (words.now.0, ready 2 1) }
    ensures { OnOk result ((body : ℕ) × (pass.new ≡ (words.now.0, late body))) }
{
    let update = Update::Decl(Unit64 {
        kind: meta()?,
        body: 0,
    });
    if swap_log(words, pass, 0, 0, meta_word(1, 0)?, &update, 1) != 1 {
        return Err("another word".into());
    }
    Ok(())
}

// It finds the front behind the first place, and the body that is declared there.
fn meets(words: &Words, pass: &mut Pass) -> Result<(), Fail>
    requires words { words.now.1 ≡ declaring }
    requires late { (body : ℕ) × (pass.old ≡ (words.now.0, late body)) }
    ensures { OnOk result (pass.new ≡ (words.now.0, met)) }
{
    finds_front(words, pass, 1, Told::Nothing)?;
    if load_code(words, pass, 0, Told::Nothing) != 0 {
        return Err("another body".into());
    }
    Ok(())
}

// The first pass completes its place.
fn ends_first(words: &Words, pass: &mut Pass) -> Result<(), Fail>
    requires words { words.now.1 ≡ declaring }
    requires done { pass.old ≡ (words.now.0, committed (ready 2 0) (meta_place 0 0)) }
    ensures { OnOk result (pass.new ≡ (words.now.0, first_ends)) }
{
    helps(words, pass, 0, 0)?;
    finds_birth(words, pass, 0, 0, 536_870_912)?;
    unpins(words, pass);
    Ok(())
}

// The second pass completes the first place, and then its own.
fn ends_second(words: &Words, pass: &mut Pass) -> Result<(), Fail>
    requires words { words.now.1 ≡ declaring }
    requires met { pass.old ≡ (words.now.0, met) }
    ensures { OnOk result (pass.new ≡ (words.now.0, second_ends)) }
{
    helps(words, pass, 0, 0)?;
    commits(words, pass, 1, 1, 67_108_929)?;
    helps(words, pass, 1, 1)?;
    finds_again(words, pass, 1, 67_108_929)?;
    unpins(words, pass);
    Ok(())
}

// The round ends, with the passes in the other order.
fn ends_round(alloc: Global, words: Words, first: Pass, second: Pass) -> Result<Closed, Fail>
    requires words { words.1 ≡ declaring }
    requires first { first ≡ (words.0, first_ends) }
    requires second { second ≡ (words.0, second_ends) }
{
    let passes = both(alloc, second, first)?;
    let Ok((closed, _seal)) = words.finish(alloc, passes) else {
        return Err("not ended".into());
    };
    Ok(closed)
}

#[test]
fn two_passes_declare_and_help_each_other(rt: HostRuntime) -> Result<(), Fail> {
    let (words, mut first, mut second) = begins(rt.alloc(), 4, 2)?;
    prepares(&words, &mut first, 0, 2)?;
    prepares(&words, &mut second, 1, 2)?;
    commits(&words, &mut first, 0, 0, 1)?;
    is_late(&words, &mut second)?;
    ends_first(&words, &mut first)?;
    meets(&words, &mut second)?;
    ends_second(&words, &mut second)?;
    let closed = ends_round(rt.alloc(), words, first, second)?;
    let update = Update::Decl(Unit64 {
        kind: meta()?,
        body: 0,
    });
    assert_eq!(rt; closed.log.as_slice(), [update, update].as_slice());
    assert_eq!(rt; closed.carried.base(), 2);
    assert_eq!(rt; closed.carried.list().len(), 2);
    Ok(())
}
