// A sweep, from place to place.
ghost use Rattle.std.specs.Prelude.{◌≡◌, ◌≢◌, ◌≤◌, ◌+◌, ℕ, None, Some, IfNone, IfSome};
ghost use Rattle.reg_model.specs.Live.{withdrawals};
ghost use Rattle.reg_words.specs.declared.sweeping.Why.TheVariants.{Held};
ghost use Rattle.reg_words.specs.Packing.{FitsSweep};
ghost use Rattle.reg_rule.specs.declared.told.Told.TheVariants.{Ends};
ghost use Rattle.reg_rule.specs.declared.view.Holding.{Holding};
ghost use Rattle.reg_rule.specs.Conditions.{IsNextWord};
ghost use Rattle.reg_rule.specs.Moves.{swept_to};
ghost use Rattle.reg_rule.specs.Steps.{SeenFits};
ghost use Rattle.reg_rule.specs.Rounds.{IsWordsPass};
ghost use Rattle.reg_sweep.specs.declared.reclaiming.Turn.TheVariants.{GaveBack};
ghost use Rattle.reg_sweep.specs.Sweeping.{WasHeld, HasSwept, IsFresh, passed_from};
ghost use Rattle.reg_sweep.specs.inner.Holders.{IsAt, IsWaiting, in_limbo as waiting};
ghost use Rattle.reg_sweep.specs.inner.Turns.{HasTurned, Stops, HasLeft};

use crate::reclaiming::{Turn, give_back, in_limbo, pass_place, resting};
use crate::seizing::{HELD, seize};
use reg_commit::front;
use reg_rule::{Pass, Told, Words, load_log, store_sweep};
use reg_words::{LogWord, SweepWord, Swept, Why};

/// Passes at most so many places of the log, from where the last sweep stopped, and gives back the entries of what is
/// withdrawn there. Others may go on meanwhile; only one caller sweeps at a time.
pub fn sweep(words: &Words, pass: &mut Pass, limit: u32) -> Swept
    requires own { IsWordsPass words.now pass.old }
    requires limit { 1 ≤ limit }
    requires free { pass.old.1.holding ≡ None }
    ensures own { IsWordsPass words.now pass.new }
    ensures held { result.why ≡ Held → WasHeld pass.old.1 result pass.new.1 }
    ensures swept { result.why ≢ Held → HasSwept limit pass.old.1 result pass.new.1 }
{
    let Some(word) = seize(words, pass) else {
        return HELD;
    };
    front(words, pass, Told::Nothing);
    if !word.limbo {
        return go_on(words, pass, word.place, 0, limit);
    }
    match resume(words, pass, &word) {
        None => go_on(words, pass, word.place, 1, limit),
        Some(why) => {
            let rest = in_limbo(word.place, word.mark, false);
            leave(words, pass, &rest, 0, 0, why)
        }
    }
}

// What was in limbo when the sweep was taken is given back, unless a pin is in the way.
fn resume(words: &Words, pass: &mut Pass, word: &SweepWord) -> Option<Why>
    requires own { IsWordsPass words.now pass.old }
    requires waits { (id : ℕ) × (entry : ℕ) × IsWaiting word.now.place word.now.mark id entry pass.old.1 }
    requires seen { SeenFits pass.old.1.key pass.old.1.log }
    ensures own { IsWordsPass words.now pass.new }
    ensures given { IfNone result (HasTurned GaveBack word.now.place pass.old.1 pass.new.1) }
    ensures stopped { IfSome result (λ why. Stops word.now.place pass.old.1 (waiting word.now.place word.now.mark) why pass.new.1) }
{
    match LogWord::unpack(load_log(words, pass, word.place, Told::Nothing)) {
        Some(LogWord::Wd { entry, .. }) => give_back(words, pass, word.place, word.mark, entry),
        // Never: what is in limbo was withdrawn.
        _ => None,
    }
}

// Passes place after place, of which the first so many are passed and given back already, and gives the sweep back.
fn go_on(words: &Words, pass: &mut Pass, from: u32, begun: u32, limit: u32) -> Swept
    requires own { IsWordsPass words.now pass.old }
    requires at { IsAt (from + begun) pass.old.1 }
    requires given { begun ≡ withdrawals (passed_from pass.old.1.log from begun) }
    requires limit { begun ≤ limit }
    requires seen { SeenFits pass.old.1.key pass.old.1.log }
    requires fresh { IsFresh pass.old.1 }
    ensures own { IsWordsPass words.now pass.new }
    ensures left { HasLeft limit from begun pass.old.1 result pass.new.1 }
{
    // Read for its contract: a place is a number of 22 bits.
    let _range = words.sizes().callers();
    let mut places = begun;
    let mut given = begun;
    while places < limit {
        match pass_place(words, pass, from + places) {
            Turn::Declared => {}
            Turn::GaveBack => given += 1,
            Turn::Stopped { rest, why } => return leave(words, pass, &rest, places, given, why),
        }
        places += 1;
    }
    let rest = resting(from + places, false);
    leave(words, pass, &rest, places, given, Why::Limit)
}

// Gives the sweep back, with this word.
fn leave(
    words: &Words,
    pass: &mut Pass,
    rest: &SweepWord,
    places: u32,
    given: u32,
    why: Why,
) -> Swept
    requires own { IsWordsPass words.now pass.old }
    requires next { (h : Holding) × (pass.old.1.holding ≡ Some h) × IsNextWord pass.old.1 h rest.now }
    requires fits { FitsSweep rest.now }
    ensures own { IsWordsPass words.now pass.new }
    ensures swept { result ≡ record { places = places; given = given; why = why } }
    ensures view { pass.new.1 ≡ swept_to (Ends result) pass.old.1 rest.now }
{
    let swept = Swept { places, given, why };
    store_sweep(words, pass, rest.pack(), rest, Told::Ends(swept));
    swept
}
