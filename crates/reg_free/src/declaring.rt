// A declaration.
ghost use Rattle.std.specs.Prelude.{◌≡◌, ◌≢◌, ◌+◌, ◌<◌, ◌≤◌, ℕ, [], ◌∷◌, length, IfOk, IfErr, IfSome, IfNone, None};
ghost use Rattle.reg_model.specs.declared.call.Call.{Call as ACall};
ghost use Rattle.reg_model.specs.declared.reply.Reply.{Reply as AReply};
ghost use Rattle.reg_model.specs.declared.reply.FullCause.TheVariants.{Entries, Log};
ghost use Rattle.reg_model.specs.Desks.{HasNoSnapshot, row_of, Answered};
ghost use Rattle.reg_model.specs.Rows.{AsksLogFirst};
ghost use Rattle.reg_rule.specs.Helping.{HasHelped};
ghost use Rattle.reg_rule.specs.Moves.{new_hand};
ghost use Rattle.reg_rule.specs.Passes.{pass_view, point_of};
ghost use Rattle.reg_rule.specs.Rounds.{IsWordsPass};
ghost use Rattle.reg_rule.specs.Steps.{SeenFits};
ghost use Rattle.reg_free.specs.Fit.{IsFit};
ghost use Rattle.reg_free.specs.inner.Between.{Rests, HasEntry, HasNoEntry, IsLinked, IsRefused};
ghost use Rattle.reg_free.specs.inner.Publications.{IsAtFront, HasHelpedBelow, IsPublished, HasLost};
ghost use Rattle.reg_free.specs.inner.Refusals.{HasRefused};

use iscc_header::Unit64;
use mih_chain::link;
use reg_commit::{Empty, commit, front, help, pin, take, unpin};
use reg_model::{Answer, Call, FullCause, Reply, Update};
use reg_rule::{Pass, Told, Words, load_log, store_held};
use reg_sweep::sweep;
use std::sync::Wait;

/// Declares the unit: in an entry out of the ring, which is linked before it is known, under the next place of the log.
pub(crate) fn declare<R: Wait>(rt: &R, words: &Words, pass: &mut Pass, unit: Unit64) -> Answer
    requires fit { IsFit words.now pass.old }
    requires free { HasNoSnapshot (pass_view pass.old.1) }
    ensures answered { Answered words.now.1.sizes words.now.1.carried (pass_view pass.old.1) (pass_view pass.new.1) (ACall.Declare unit) result }
    ensures fit { IsFit words.now pass.new }
    ensures asks { words.now.1.sizes.callers ≡ 1 → AsksLogFirst words.now.1.sizes words.now.1.carried (row_of (pass_view pass.old.1) (ACall.Declare unit) result) }
{
    let asked = unit;
    let place = front(words, pass, Told::Row(Call::Declare(asked)));
    if place == words.sizes().log() {
        return full_log(words);
    }
    match entry_for(words, pass) {
        Ok(entry) => enter(rt, words, pass, &unit, entry),
        Err(empty) => refuse(words, pass, &unit, empty.taken),
    }
}

// An entry out of the ring, behind a sweep of the whole log where the ring is empty.
#[tactic(auto, using(crate::proofs::Emptied::empty_again, crate::proofs::Emptied::none_again))]
fn entry_for(words: &Words, pass: &mut Pass) -> Result<u32, Empty>
    requires own { IsWordsPass words.now pass.old }
    requires unheld { pass.old.1.holding ≡ None }
    requires unopened { pass.old.1.snapshot ≡ None }
    requires free { pass.old.1.pin ≡ 0 }
    requires none { pass.old.1.hands ≡ [] }
    requires seen { SeenFits pass.old.1.key pass.old.1.log }
    requires alone { pass.old.1.key.sizes.callers ≡ 1 → HasHelped pass.old.1 (length pass.old.1.log) }
    ensures own { IsWordsPass words.now pass.new }
    ensures entry { IfOk result (λ entry. HasEntry pass.old.1 entry pass.new.1) }
    ensures none { IfErr result (λ empty. HasNoEntry pass.old.1 empty.taken pass.new.1) }
{
    if let Ok(entry) = take(words, pass) {
        return Ok(entry);
    }
    // Read for their contracts: the log has a place, and the number is below that of the callers.
    let _range = words.sizes().callers();
    let _number = pass.number();
    sweep(words, pass, words.sizes().log());
    take(words, pass)
}

// Nothing more goes into the log.
fn full_log(words: &Words) -> Answer
    ensures { result ≡ record { point = words.now.1.carried.base + words.now.1.sizes.log; reply = AReply.Full Log } }
{
    Answer {
        point: words.carried().base() + words.sizes().log() as u64,
        reply: Reply::Full(FullCause::Log),
    }
}

// Writes the entry in hand and links it in each table, and then enters it into the log.
fn enter<R: Wait>(rt: &R, words: &Words, pass: &mut Pass, unit: &Unit64, entry: u32) -> Answer
    requires rests { Rests words.now pass.old }
    requires hand { (entry < pass.old.1.key.entries) × (pass.old.1.hands ≡ new_hand entry ∷ []) }
    ensures answered { Answered words.now.1.sizes words.now.1.carried (pass_view pass.old.1) (pass_view pass.new.1) (ACall.Declare unit.now) result }
    ensures fit { IsFit words.now pass.new }
    ensures other { (given : ℕ) → result.reply ≢ AReply.Full (Entries given) }
{
    let body = unit.body;
    pin(words, pass);
    store_held(words, pass, None);
    store_held(words, pass, Some(body));
    link(rt, words, pass, 0, entry, body);
    link(rt, words, pass, 1, entry, body);
    link(rt, words, pass, 2, entry, body);
    link(rt, words, pass, 3, entry, body);
    publish(words, pass, unit, entry)
}

// Puts the declaration of the linked entry into the next place of the log that is empty.
fn publish(words: &Words, pass: &mut Pass, unit: &Unit64, entry: u32) -> Answer
    requires linked { IsLinked words.now unit.now entry pass.old }
    ensures answered { Answered words.now.1.sizes words.now.1.carried (pass_view pass.old.1) (pass_view pass.new.1) (ACall.Declare unit.now) result }
    ensures fit { IsFit words.now pass.new }
    ensures other { (given : ℕ) → result.reply ≢ AReply.Full (Entries given) }
{
    loop {
        if let Some(answer) = try_publish(words, pass, unit, entry) {
            return answer;
        }
    }
}

// One exchange. None where another record took the place.
fn try_publish(words: &Words, pass: &mut Pass, unit: &Unit64, entry: u32) -> Option<Answer>
    requires linked { IsLinked words.now unit.now entry pass.old }
    ensures answered { IfSome result (λ answer. IsPublished words.now unit.now pass.old pass.new answer) }
    ensures lost { IfNone result (HasLost words.now unit.now entry pass.old pass.new) }
{
    let place = front(words, pass, Told::Row(Call::Declare(*unit)));
    if place == words.sizes().log() {
        unpin(words, pass);
        return Some(full_log(words));
    }
    help_below(words, pass, place);
    // Read for their contracts: an entry has 20 bits, and there are 13 kinds.
    let _range = words.sizes().entries();
    let _number = unit.kind.number();
    let id = words.carried().base() + place as u64;
    if commit(words, pass, place, &Update::Decl(*unit), entry).is_err() {
        return None;
    }
    help(words, pass, place);
    unpin(words, pass);
    Some(Answer {
        point: id + 1,
        reply: Reply::Id(id),
    })
}

// Completes the record of the last place below the front, if there is one.
fn help_below(words: &Words, pass: &mut Pass, place: u32)
    requires own { IsWordsPass words.now pass.old }
    requires front { IsAtFront pass.old.1 place }
    ensures own { IsWordsPass words.now pass.new }
    ensures helped { HasHelpedBelow pass.old.1 place pass.new.1 }
{
    if place > 0 {
        help(words, pass, place - 1);
    }
}

// Every entry is held: the row stands at the front, or before the declaration that shows that an entry was taken for it
// after the ring was found empty.
fn refuse(words: &Words, pass: &mut Pass, unit: &Unit64, taken: u32) -> Answer
    requires rests { Rests words.now pass.old }
    requires none { pass.old.1.hands ≡ [] }
    requires empty { IsRefused taken pass.old.1 }
    ensures answered { Answered words.now.1.sizes words.now.1.carried (pass_view pass.old.1) (pass_view pass.new.1) (ACall.Declare unit.now) result }
    ensures fit { IsFit words.now pass.new }
    ensures alone { words.now.1.sizes.callers ≡ 1 → result.point ≡ point_of pass.old.1 (length pass.old.1.log) }
{
    let places = words.sizes().log();
    let place = refused_at(words, pass, unit, taken, places);
    let carried = words.carried();
    let given = taken as u64 + carried.list().len() as u64 - words.sizes().entries() as u64;
    Answer {
        point: carried.base() + place as u64,
        reply: Reply::Full(FullCause::Entries { given }),
    }
}

// Walks on to where the refusal stands.
fn refused_at(words: &Words, pass: &mut Pass, unit: &Unit64, taken: u32, places: u32) -> u32
    requires rests { Rests words.now pass.old }
    requires empty { IsRefused taken pass.old.1 }
    requires places { places ≡ pass.old.1.key.sizes.log }
    ensures own { IsWordsPass words.now pass.new }
    ensures refused { HasRefused unit.now pass.old.1 result pass.new.1 }
{
    // Read for its contract: the log has a place.
    let _range = words.sizes().callers();
    while pass.places_seen() < places {
        let place = pass.places_seen();
        if load_log(words, pass, place, Told::Refuses(*unit)) == 0 || pass.decls() > taken {
            return place;
        }
        if place + 1 == places {
            return places;
        }
    }
    load_log(words, pass, places - 1, Told::Refuses(*unit));
    places
}
