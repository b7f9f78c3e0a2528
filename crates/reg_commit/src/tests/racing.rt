// Another pass takes the entry between the loads of a pass and its exchange.
ghost use Rattle.std.specs.Prelude.{◌≡◌, ℕ, ◌<◌, [], OnOk};
ghost use Rattle.reg_rule.specs.declared.view.Taking.TheVariants.{Named};
ghost use Rattle.reg_rule.specs.Rounds.{IsWordsPass};

use super::declaring::takes;
use super::*;
use reg_rule::{Told, load_give, load_put, load_take, swap_take};

// The entry 0 is found as the first that may be taken.
fn loads(words: &Words, pass: &mut Pass) -> Result<(), Fail>
    requires own { IsWordsPass words.now pass.old }
    requires some { 0 < pass.old.1.key.entries }
    requires none { pass.old.1.hands ≡ [] }
    ensures own { OnOk result (IsWordsPass words.now pass.new) }
    ensures none { OnOk result (pass.new.1.hands ≡ []) }
    ensures named { OnOk result ((put : ℕ) × (pass.new.1.taking ≡ Named 0 put 0)) }
{
    if load_take(words, pass) != 0 {
        return Err("another count".into());
    }
    if load_put(words, pass, Told::Nothing) == 0 {
        return Err("the ring is empty".into());
    }
    if load_give(words, pass, 0) != 0 {
        return Err("another entry".into());
    }
    Ok(())
}

// The exchange finds that one was taken since.
fn is_late(words: &Words, pass: &mut Pass) -> Result<(), Fail>
    requires own { IsWordsPass words.now pass.old }
    requires none { pass.old.1.hands ≡ [] }
    requires named { (put : ℕ) × (pass.old.1.taking ≡ Named 0 put 0) }
    ensures own { OnOk result (IsWordsPass words.now pass.new) }
    ensures none { OnOk result (pass.new.1.hands ≡ []) }
{
    if swap_take(words, pass, 0, 1, 0) != 1 {
        return Err("another count".into());
    }
    Ok(())
}

#[test]
fn an_entry_that_another_took_is_not_taken(rt: HostRuntime) -> Result<(), Fail> {
    let (words, mut first, mut second) = begins(rt.alloc(), 4, 64)?;
    loads(&words, &mut first)?;
    takes(&words, &mut second, 0)?;
    is_late(&words, &mut first)?;
    assert_eq!(rt; first.hand(), None);
    takes(&words, &mut first, 1)?;
    assert_eq!(rt; first.hand(), Some(1));
    assert_eq!(rt; second.hand(), Some(0));
    Ok(())
}
