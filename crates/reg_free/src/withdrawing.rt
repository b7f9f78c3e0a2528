// A withdrawal.
ghost use Rattle.std.specs.Prelude.{◌≡◌, ◌<◌, length, Some};
ghost use Rattle.reg_model.specs.declared.call.Call.{Call as ACall};
ghost use Rattle.reg_model.specs.declared.update.Update.TheVariants.{Wd};
ghost use Rattle.reg_model.specs.Desks.{HasNoSnapshot, Answered};
ghost use Rattle.reg_model.specs.Live.{IsLive};
ghost use Rattle.reg_words.specs.declared.word.StampWord.{StampWord};
ghost use Rattle.reg_words.specs.Packing.{stamp_word};
ghost use Rattle.reg_rule.specs.Conditions.{MayCommit};
ghost use Rattle.reg_rule.specs.Helping.{HasHelped};
ghost use Rattle.reg_rule.specs.Moves.{log_at};
ghost use Rattle.reg_rule.specs.Passes.{pass_view};
ghost use Rattle.reg_rule.specs.Steps.{FitsBits};
ghost use Rattle.reg_free.specs.Fit.{IsFit};
ghost use Rattle.reg_free.specs.inner.Withdrawals.{IsEnding, IsAtFront, FoundFront, IsDeclaredIn, IsLiveThere, HasLooked, HasTurned, shows_live};

use reg_commit::{commit, front, help, pin, unpin};
use reg_model::{Answer, Call, FullCause, Reply, Update};
use reg_query::{carried_entry, record_entry};
use reg_rule::{Pass, Told, Words, load_log, load_stamp};
use reg_words::StampWord;

/// Ends the live declaration with this id, under the next place of the log.
pub(crate) fn withdraw(words: &Words, pass: &mut Pass, id: u64) -> Answer
    requires fit { IsFit words.now pass.old }
    requires free { HasNoSnapshot (pass_view pass.old.1) }
    ensures answered { Answered words.now.1.sizes words.now.1.carried (pass_view pass.old.1) (pass_view pass.new.1) (ACall.Withdraw id) result }
    ensures fit { IsFit words.now pass.new }
{
    pin(words, pass);
    let answer = ending(words, pass, id);
    unpin(words, pass);
    answer
}

// What one turn came to: the call is answered, or another record took the place.
#[derive(Drop)]
enum Turn {
    Answered(Answer),
    Lost,
}

// Turn after turn, until the call is answered.
fn ending(words: &Words, pass: &mut Pass, id: u64) -> Answer
    requires ready { IsEnding words.now pass.old }
    ensures ready { IsEnding words.now pass.new }
    ensures complete { HasHelped pass.new.1 (length pass.new.1.log) }
    ensures answered { Answered words.now.1.sizes words.now.1.carried (pass_view pass.old.1) (pass_view pass.new.1) (ACall.Withdraw id) result }
{
    loop {
        match try_once(words, pass, id) {
            Turn::Answered(answer) => return answer,
            Turn::Lost => {}
        }
    }
}

// At the front: the id isn't live there, or the log is full, or the withdrawal goes into the next place.
fn try_once(words: &Words, pass: &mut Pass, id: u64) -> Turn
    requires ready { IsEnding words.now pass.old }
    ensures ready { IsEnding words.now pass.new }
    ensures turn { HasTurned words.now.1 id pass.old.1 pass.new.1 result }
{
    let place = find_front(words, pass, id);
    let here = words.carried().base() + place as u64;
    let Some(entry) = declared_in(words, pass, place, id) else {
        return Turn::Answered(Answer {
            point: here,
            reply: Reply::Absent(id),
        });
    };
    if !live_in(words, pass, place, entry, id) {
        return Turn::Answered(Answer {
            point: here,
            reply: Reply::Absent(id),
        });
    }
    if place == words.sizes().log() {
        return Turn::Answered(Answer {
            point: here,
            reply: Reply::Full(FullCause::Log),
        });
    }
    enter(words, pass, place, entry, id)
}

// Finds the front, and completes the record before it, so that each stamp shows what is live there.
fn find_front(words: &Words, pass: &mut Pass, id: u64) -> u32
    requires ready { IsEnding words.now pass.old }
    ensures at { IsAtFront words.now result pass.new }
    ensures found { FoundFront id pass.old.1 result pass.new.1 }
{
    // Read for its contract: what is carried has ids below the base.
    let _list = words.carried().list();
    let place = front(words, pass, Told::Row(Call::Withdraw(id)));
    if place > 0 {
        help(words, pass, place - 1);
    }
    place
}

// The entry of the declaration with this id, if it was declared below the front.
fn declared_in(words: &Words, pass: &mut Pass, place: u32, id: u64) -> Option<u32>
    requires at { IsAtFront words.now place pass.old }
    ensures view { pass.new ≡ (words.now.0, record pass.old.1 { made = pass.new.1.made }) }
    ensures entry { IsDeclaredIn pass.old.1 place id result }
{
    let base = words.carried().base();
    if id < base {
        return carried_entry(words, id);
    }
    if id - base >= place as u64 {
        return None;
    }
    record_entry(load_log(words, pass, (id - base) as u32, Told::Nothing))
}

// Whether the declaration with this id, which is in this entry, is live at the front.
fn live_in(words: &Words, pass: &mut Pass, place: u32, entry: u32, id: u64) -> bool
    requires at { IsAtFront words.now place pass.old }
    requires entry { IsDeclaredIn pass.old.1 place id (Some entry) }
    ensures at { IsAtFront words.now place pass.new }
    ensures looked { HasLooked id place pass.old.1 pass.new.1 }
    ensures live { IsLiveThere pass.old.1 place id entry pass.new.1 result }
{
    is_live(
        load_stamp(words, pass, entry, Told::Row(Call::Withdraw(id))),
        place,
        id,
    )
}

// The stamp shows the id live at the front: it names it, and no death below.
fn is_live(stamp: u64, place: u32, id: u64) -> bool
    ensures { (s : StampWord) → FitsBits s → stamp ≡ stamp_word s → result ≡ shows_live place id s }
{
    match StampWord::unpack(stamp) {
        Some(StampWord::Live { id: found, .. }) => found == id,
        Some(
            StampWord::Dead {
                id: found,
                death,
                ..
            },
        ) => found == id && death >= place,
        _ => false,
    }
}

// Puts the withdrawal into the next place.
fn enter(words: &Words, pass: &mut Pass, place: u32, entry: u32, id: u64) -> Turn
    requires at { IsAtFront words.now place pass.old }
    requires entry { IsDeclaredIn pass.old.1 place id (Some entry) }
    requires room { place < pass.old.1.key.sizes.log }
    requires live { IsLive pass.old.1.key.carried (log_at pass.old.1 place) id }
    requires found { MayCommit pass.old.1 (Wd id) entry }
    ensures ready { IsEnding words.now pass.new }
    ensures turn { HasTurned words.now.1 id pass.old.1 pass.new.1 result }
{
    // Read for its contract: an entry is a number of 20 bits.
    let _entries = words.sizes().entries();
    let Ok(()) = commit(words, pass, place, &Update::Wd(id), entry) else {
        return Turn::Lost;
    };
    help(words, pass, place);
    Turn::Answered(Answer {
        point: words.carried().base() + place as u64 + 1,
        reply: Reply::Withdrawn(id),
    })
}
