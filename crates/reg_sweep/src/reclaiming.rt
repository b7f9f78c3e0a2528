// One place: a declaration is passed, and the entry of what is withdrawn is unlinked and given back.
ghost use Rattle.std.specs.Prelude.{◌≡◌, ℕ, ◌≤◌, length, IfNone, IfSome};
ghost use Rattle.reg_words.specs.declared.word.StampWord.{StampWord as Stamp};
ghost use Rattle.reg_words.specs.Packing.{stamp_word};
ghost use Rattle.reg_rule.specs.Log.{IsWd};
ghost use Rattle.reg_rule.specs.Moves.{is_dead};
ghost use Rattle.reg_rule.specs.Steps.{SeenFits, FitsBits};
ghost use Rattle.reg_rule.specs.Rounds.{IsWordsPass};
ghost use Rattle.reg_sweep.specs.declared.reclaiming.Turn.TheVariants.{Stopped};
ghost use Rattle.reg_sweep.specs.inner.Holders.{IsAt, IsExamining, IsWaiting, resting as at_rest, in_limbo as waiting};
ghost use Rattle.reg_sweep.specs.inner.Turns.{HasTurned, IsStopped, UnlinkedAll, gave_back};

use crate::scanning::scan;
use mih_chain::unlink;
use mih_plan::bucket_of;
use reg_commit::front;
use reg_rule::{
    Pass, Told, Words, load_code, load_log, load_put, load_stamp, store_give, store_put,
    store_sweep,
};
use reg_words::{LogWord, SweepWord, Why};

/// What became of a place: it declares, and was passed; it withdraws, and the entry was given back; or the sweep goes no
/// further than the place of this word.
pub(crate) enum Turn {
    Declared,
    GaveBack,
    Stopped { rest: SweepWord, why: Why },
}

/// Passes the place, or tells why not.
pub(crate) fn pass_place(words: &Words, pass: &mut Pass, place: u32) -> Turn
    requires own { IsWordsPass words.now pass.old }
    requires at { IsAt place pass.old.1 }
    requires seen { SeenFits pass.old.1.key pass.old.1.log }
    ensures own { IsWordsPass words.now pass.new }
    ensures turned { HasTurned result place pass.old.1 pass.new.1 }
{
    // Read for its contract: a place is a number of 22 bits.
    let _range = words.sizes().callers();
    if place == pass.places_seen() {
        return stop(place, Why::Front);
    }
    match LogWord::unpack(load_log(words, pass, place, Told::Nothing)) {
        Some(LogWord::Wd { entry, .. }) => reclaim(words, pass, place, entry),
        Some(LogWord::Decl { .. }) => Turn::Declared,
        // Never: the place is filled.
        None => Turn::Declared,
    }
}

// Nothing is in limbo.
fn stop(place: u32, why: Why) -> Turn
    ensures { result ≡ Stopped (at_rest place) why }
{
    Turn::Stopped {
        rest: resting(place, false),
        why,
    }
}

/// The word of a place with nothing in limbo.
pub(crate) fn resting(place: u32, held: bool) -> SweepWord
    ensures { result ≡ record (at_rest place) { held = held } }
{
    SweepWord {
        held,
        limbo: false,
        place,
        mark: 0,
    }
}

/// The word of a place whose entry is in limbo.
pub(crate) fn in_limbo(place: u32, mark: u32, held: bool) -> SweepWord
    ensures { result ≡ record (waiting place mark) { held = held } }
{
    SweepWord {
        held,
        limbo: true,
        place,
        mark,
    }
}

// The entry that is withdrawn at the place is unlinked and given back.
fn reclaim(words: &Words, pass: &mut Pass, place: u32, entry: u32) -> Turn
    requires own { IsWordsPass words.now pass.old }
    requires at { IsAt place pass.old.1 }
    requires seen { SeenFits pass.old.1.key pass.old.1.log }
    requires withdraws { (id : ℕ) × IsWd pass.old.1.log place id entry }
    ensures own { IsWordsPass words.now pass.new }
    ensures turned { HasTurned result place pass.old.1 pass.new.1 }
{
    // Read for its contract: a place is a number of 22 bits.
    let _range = words.sizes().callers();
    if !is_death(load_stamp(words, pass, entry, Told::Examines(place))) {
        return stop(place, Why::Front);
    }
    if let Some(why) = scan(words, pass, place) {
        return stop(place, why);
    }
    unlink_all(words, pass, place, entry);
    let mark = front(words, pass, Told::Nothing);
    let waits = in_limbo(place, mark, true);
    store_sweep(words, pass, waits.pack(), &waits, Told::Nothing);
    match give_back(words, pass, place, mark, entry) {
        None => Turn::GaveBack,
        Some(why) => Turn::Stopped {
            rest: in_limbo(place, mark, false),
            why,
        },
    }
}

// The stamp has the place of a death: its low bits aren't 0.
fn is_death(word: u64) -> bool
    ensures { (stamp : Stamp) → FitsBits stamp → word ≡ stamp_word stamp → result ≡ is_dead stamp }
{
    word % (1 << 25) != 0
}

// The entry is cut from its chain in each table.
fn unlink_all(words: &Words, pass: &mut Pass, place: u32, entry: u32)
    requires own { IsWordsPass words.now pass.old }
    requires may { (id : ℕ) × IsExamining place id entry pass.old.1.key.sizes.callers pass.old.1 }
    requires seen { SeenFits pass.old.1.key pass.old.1.log }
    ensures own { IsWordsPass words.now pass.new }
    ensures unlinked { UnlinkedAll pass.old.1 pass.new.1 }
{
    // Read for its contract: a bucket has 4 to 16 bits.
    let _range = words.sizes().callers();
    let bits = words.sizes().bits();
    let code = load_code(words, pass, entry, Told::Nothing);
    unlink(words, pass, 0, bucket_of(code, 0, bits), entry);
    unlink(words, pass, 1, bucket_of(code, 1, bits), entry);
    unlink(words, pass, 2, bucket_of(code, 2, bits), entry);
    unlink(words, pass, 3, bucket_of(code, 3, bits), entry);
}

/// The entry in limbo goes into the ring, and the place is passed, unless a pin is in the way of the mark.
pub(crate) fn give_back(
    words: &Words,
    pass: &mut Pass,
    place: u32,
    mark: u32,
    entry: u32,
) -> Option<Why>
    requires own { IsWordsPass words.now pass.old }
    requires waits { (id : ℕ) × IsWaiting place mark id entry pass.old.1 }
    requires room { length pass.old.1.log ≤ pass.old.1.key.sizes.log }
    ensures own { IsWordsPass words.now pass.new }
    ensures given { IfNone result (pass.new.1 ≡ gave_back place pass.old.1) }
    ensures stopped { IfSome result (λ why. IsStopped mark pass.old.1 why pass.new.1) }
{
    if let Some(why) = scan(words, pass, mark) {
        return Some(why);
    }
    let put = load_put(words, pass, Told::Sweeps);
    let at = (put % words.sizes().entries() as u64) as u32;
    store_give(words, pass, at, entry as u64);
    store_put(words, pass, put + 1);
    let next = resting(place + 1, true);
    store_sweep(words, pass, next.pack(), &next, Told::Nothing);
    None
}
