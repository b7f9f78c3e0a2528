// The looks at the pins.
ghost use Rattle.std.specs.Prelude.{◌≡◌, ◌<◌, ◌^◌, IfNone, IfSome};
ghost use Rattle.reg_rule.specs.Moves.{is_free};
ghost use Rattle.reg_rule.specs.Rounds.{IsWordsPass};
ghost use Rattle.reg_sweep.specs.inner.Holders.{MayScan, found_free};
ghost use Rattle.reg_sweep.specs.inner.Turns.{IsStopped};

use reg_rule::{Pass, Words, load_pin};
use reg_words::Why;

/// Looks at each pin, in rising order, up to the first that is in the way: it isn't 0, and its caller had seen no more
/// places than this one.
pub(crate) fn scan(words: &Words, pass: &mut Pass, hazard: u32) -> Option<Why>
    requires own { IsWordsPass words.now pass.old }
    requires may { MayScan hazard pass.old.1 }
    requires room { hazard < 2 ^ 25 }
    ensures own { IsWordsPass words.now pass.new }
    ensures free { IfNone result (pass.new.1 ≡ found_free pass.old.1.key.sizes.callers pass.old.1.key.sizes.callers pass.old.1) }
    ensures stopped { IfSome result (λ why. IsStopped hazard pass.old.1 why pass.new.1) }
{
    let callers = words.sizes().callers();
    for seat in 0..callers {
        let pin = load_pin(words, pass, seat);
        if !lets_go(pin, hazard) {
            return Some(Why::Pinned {
                seat,
                pin: pin as u32,
            });
        }
    }
    None
}

// The pin is free of the place.
fn lets_go(pin: u64, place: u32) -> bool
    ensures { result ≡ is_free pin place }
{
    pin == 0 || pin > place as u64 + 1
}
