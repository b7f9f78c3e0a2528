// Opening a snapshot, and closing it.
ghost use Rattle.std.specs.Prelude.{◌≡◌, ◌+◌, ◌<◌, ◌≤◌, ℕ, length, None, Some};
ghost use Rattle.reg_rule.specs.declared.told.Told.TheVariants.{Closes};
ghost use Rattle.reg_rule.specs.Moves.{unpinned};
ghost use Rattle.reg_rule.specs.Passes.{point_of};
ghost use Rattle.reg_rule.specs.Rounds.{IsWordsPass};
ghost use Rattle.reg_query.specs.Snapshots.{Begun, IsCompleted, IsOpen};

use reg_commit::{front, help, pin};
use reg_rule::{Pass, Told, Words, store_pin};

/// Opens a snapshot at the front, and gives its point. The record before the front is completed first, so that every stamp
/// shows what is live there.
pub fn begin(words: &Words, pass: &mut Pass) -> u64
    requires own { IsWordsPass words.now pass.old }
    requires free { pass.old.1.pin ≡ 0 }
    requires unopened { pass.old.1.snapshot ≡ None }
    ensures own { IsWordsPass words.now pass.new }
    ensures begun { (k : ℕ) × (result ≡ point_of pass.old.1 k) × Begun pass.old.1 k pass.new.1 }
{
    pin(words, pass);
    let place = front(words, pass, Told::Opens);
    complete(words, pass, place);
    words.carried().base() + place as u64
}

// Completes the record before the front, if there is one.
fn complete(words: &Words, pass: &mut Pass, place: u32)
    requires own { IsWordsPass words.now pass.old }
    requires pinned { 0 < pass.old.1.pin }
    requires front { pass.old.1.front ≡ Some place }
    requires seen { length pass.old.1.log ≡ place }
    requires room { place ≤ pass.old.1.key.sizes.log }
    ensures own { IsWordsPass words.now pass.new }
    ensures completed { IsCompleted place pass.old.1 pass.new.1 }
{
    if place > 0 {
        help(words, pass, place - 1);
    }
}

/// Closes the open snapshot.
pub fn end(words: &Words, pass: &mut Pass)
    requires own { IsWordsPass words.now pass.old }
    requires opens { IsOpen pass.old.1 }
    ensures closed { pass.new ≡ (words.now.0, unpinned Closes pass.old.1) }
{
    store_pin(words, pass, 0, Told::Closes);
}
