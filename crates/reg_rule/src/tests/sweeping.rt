// The sweep is taken by one, refused to another, and given back.
ghost use Rattle.std.specs.Prelude.{◌≡◌, None, Some, OnOk};
ghost use Rattle.reg_words.specs.Packing.{FitsSweep};
ghost use Rattle.reg_rule.specs.Moves.{seized, found_held, holding_of, swept_to};
ghost use Rattle.reg_rule.specs.Rounds.{IsWordsPass};

use super::*;
use reg_words::{SweepWord, Swept, Why};

pub(super) const UNSWEPT: SweepWord = SweepWord {
    held: false,
    limbo: false,
    place: 0,
    mark: 0,
};

// The sweep is taken from this word.
pub(super) fn takes_sweep(
    words: &Words,
    pass: &mut Pass,
    word: SweepWord,
    number: u64,
) -> Result<(), Fail>
    requires own { IsWordsPass words.now pass.old }
    requires fits { FitsSweep word }
    requires free { pass.old.1.holding ≡ None }
    requires last { pass.old.1.last_word ≡ word }
    ensures { OnOk result (pass.new ≡ (words.now.0, seized pass.old.1)) }
{
    let new = SweepWord { held: true, ..word };
    if word.pack() != number {
        return Err("another word".into());
    }
    if swap_sweep(words, pass, word.pack(), new.pack(), Told::Nothing) != number {
        return Err("the sweep isn't free".into());
    }
    Ok(())
}

// The sweep is found held, and not taken.
fn finds_held(words: &Words, pass: &mut Pass, told: Told) -> Result<(), Fail>
    requires own { IsWordsPass words.now pass.old }
    requires free { pass.old.1.holding ≡ None }
    requires last { pass.old.1.last_word ≡ UNSWEPT }
    ensures { OnOk result (pass.new ≡ (words.now.0, found_held told pass.old.1)) }
{
    let held = SweepWord {
        held: true,
        ..UNSWEPT
    };
    if swap_sweep(words, pass, UNSWEPT.pack(), held.pack(), told) != 1 {
        return Err("the sweep isn't held".into());
    }
    Ok(())
}

// The sweep is given back as it was taken.
fn gives_back(words: &Words, pass: &mut Pass, told: Told)
    requires own { IsWordsPass words.now pass.old }
    requires holding { pass.old.1.holding ≡ Some (holding_of UNSWEPT) }
    ensures { pass.new ≡ (words.now.0, swept_to told pass.old.1 UNSWEPT) }
{
    store_sweep(words, pass, UNSWEPT.pack(), &UNSWEPT, told);
}

#[test]
fn a_held_sweep_is_refused(rt: HostRuntime) -> Result<(), Fail> {
    let (words, mut first, mut second) = begins(rt.alloc(), 1, 8)?;
    takes_sweep(&words, &mut first, UNSWEPT, 0)?;
    let refused = Swept {
        places: 0,
        given: 0,
        why: Why::Held,
    };
    finds_held(&words, &mut second, Told::Ends(refused))?;
    gives_back(&words, &mut first, Told::Nothing);
    takes_sweep(&words, &mut second, UNSWEPT, 0)?;
    finds_front(&words, &mut second, 0, Told::Nothing)?;
    let stopped = Swept {
        places: 0,
        given: 0,
        why: Why::Front,
    };
    gives_back(&words, &mut second, Told::Ends(stopped));
    Ok(())
}
