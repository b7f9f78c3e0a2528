// An entry for a declaration, out of the ring.
ghost use Rattle.std.specs.Prelude.{◌≡◌, ◌≤◌, ℕ, List, [], length, IfOk, IfErr};
ghost use Rattle.reg_model.specs.Live.{declarations};
ghost use Rattle.reg_rule.specs.Log.{updates};
ghost use Rattle.reg_rule.specs.Rounds.{IsWordsPass};
ghost use Rattle.reg_rule.specs.declared.view.Taking.TheVariants.{Begun};
ghost use Rattle.reg_commit.specs.Takes.{Took, FoundEmpty};
ghost use Rattle.reg_commit.specs.inner.Turns.{most_taken, HasTried};

use reg_rule::{Pass, Told, Words, load_give, load_put, load_take, swap_take};

/// The ring was empty: just so many entries had been taken, and so many put.
#[derive(Clone, Copy, Debug, PartialEq, Eq)]
pub struct Empty {
    pub taken: u32,
}

/// Takes an entry out of the ring into the hand of the pass, which has none.
pub fn take(words: &Words, pass: &mut Pass) -> Result<u32, Empty>
    requires own { IsWordsPass words.now pass.old }
    requires none { pass.old.1.hands ≡ [] }
    ensures own { IsWordsPass words.now pass.new }
    ensures took { IfOk result (λ entry. Took pass.old.1 entry pass.new.1) }
    ensures empty { IfErr result (λ empty. FoundEmpty pass.old.1 empty.taken pass.new.1) }
{
    let mut taken = load_take(words, pass);
    loop {
        match try_take(words, pass, taken) {
            Try::Took(entry) => return Ok(entry),
            Try::Empty(empty) => return Err(empty),
            Try::Lost(found) => taken = found,
        }
    }
}

// How one turn ended: the entry was taken; there is none; so many were taken when the exchange was made.
enum Try {
    Took(u32),
    Empty(Empty),
    Lost(u64),
}

// One turn: PUT is loaded, and the entry under this count, and then the count is raised.
fn try_take(words: &Words, pass: &mut Pass, taken: u64) -> Try
    requires own { IsWordsPass words.now pass.old }
    requires none { pass.old.1.hands ≡ [] }
    requires begun { pass.old.1.taking ≡ Begun taken }
    requires most { taken ≤ most_taken pass.old.1.key }
    ensures own { IsWordsPass words.now pass.new }
    ensures tried { HasTried result taken pass.old.1 pass.new.1 }
{
    let entries = words.sizes().entries();
    if load_put(words, pass, Told::Nothing) == taken {
        return Try::Empty(Empty {
            taken: taken as u32,
        });
    }
    let at = (taken % entries as u64) as u32;
    let entry = load_give(words, pass, at);
    let found = swap_take(words, pass, taken, taken + 1, entry);
    if found != taken {
        return Try::Lost(found);
    }
    Try::Took(entry as u32)
}
