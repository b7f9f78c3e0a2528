// Whole sweeps: one that another holds, and those over a withdrawal, past pins.
ghost use Rattle.std.specs.Prelude.{◌≡◌, ◌≤◌, None};
ghost use Rattle.reg_rule.specs.Rounds.{IsWordsPass};
ghost use Rattle.reg_sweep.specs.inner.Trials.{IsKept};

use super::*;
use reg_rule::{Pass, Words};
use reg_words::{Swept, Why};

mod holding;
mod limbo;
mod withdrawing;

// A sweep, which leaves the pass its entry in hand, its pin and its snapshot.
fn sweeps(words: &Words, pass: &mut Pass, limit: u32) -> Swept
    requires own { IsWordsPass words.now pass.old }
    requires limit { 1 ≤ limit }
    requires free { pass.old.1.holding ≡ None }
    ensures own { IsWordsPass words.now pass.new }
    ensures kept { IsKept pass.old.1 pass.new.1 }
{
    sweep(words, pass, limit)
}

// No place was passed.
fn stays(why: Why) -> Swept {
    Swept {
        places: 0,
        given: 0,
        why,
    }
}

// One place was passed, and its entry given back.
fn gives(why: Why) -> Swept {
    Swept {
        places: 1,
        given: 1,
        why,
    }
}
