// An entry waits in limbo for a pass that was pinned between the unlinking and the giving back, and a sweep resumes there.
ghost use Rattle.std.specs.Prelude.{◌≡◌, ◌+◌, ◌<◌, None, OnOk};
ghost use Rattle.mih_plan.specs.Buckets.{bucket_of};
ghost use Rattle.reg_rule.specs.Rounds.{IsWordsPass};
ghost use Rattle.reg_sweep.specs.inner.Trials.{one_entry, HasWithdrawn, IsCutting, IsMarked};

use super::holding::takes_sweep;
use super::withdrawing::{buries, carries};
use super::*;
use crate::scanning::scan;
use mih_chain::unlink;
use reg_commit::{Empty, front, pin, take, unpin};
use reg_rule::{Told, load_stamp, store_sweep};
use reg_words::SweepWord;
use std::test::Fail;

const LIMBO: SweepWord = SweepWord {
    held: false,
    limbo: true,
    place: 0,
    mark: 1,
};

// The sweep is taken, and the withdrawal at the place 0 is found stamped and free of pins.
fn examines(words: &Words, pass: &mut Pass) -> Result<(), Fail>
    requires words { words.now.1 ≡ one_entry }
    requires own { IsWordsPass words.now pass.old }
    requires withdrew { HasWithdrawn pass.old.1 }
    ensures own { OnOk result (IsWordsPass words.now pass.new) }
    ensures cutting { OnOk result (IsCutting 0 pass.new.1) }
{
    takes_sweep(words, pass)?;
    if load_stamp(words, pass, 0, Told::Examines(0)) != 4_294_967_297 {
        return Err("another stamp".into());
    }
    let None = scan(words, pass, 0) else {
        return Err("a pin is in the way".into());
    };
    Ok(())
}

// The entry 0, whose body is 1, is unlinked in this table.
fn cuts(words: &Words, pass: &mut Pass, table: u32, bucket: u32)
    requires own { IsWordsPass words.now pass.old }
    requires table { table < 4 }
    requires bucket { bucket ≡ bucket_of 1 table 4 }
    requires cutting { IsCutting table pass.old.1 }
    ensures own { IsWordsPass words.now pass.new }
    ensures cutting { IsCutting (table + 1) pass.new.1 }
{
    unlink(words, pass, table, bucket, 0);
}

// It is unlinked in all tables, and the mark is the front 1.
fn marks(words: &Words, pass: &mut Pass) -> Result<(), Fail>
    requires own { IsWordsPass words.now pass.old }
    requires cutting { IsCutting 0 pass.old.1 }
    ensures own { OnOk result (IsWordsPass words.now pass.new) }
    ensures marked { OnOk result (IsMarked pass.new.1) }
{
    cuts(words, pass, 0, 0);
    cuts(words, pass, 1, 0);
    cuts(words, pass, 2, 0);
    cuts(words, pass, 3, 1);
    if front(words, pass, Told::Nothing) != 1 {
        return Err("another front".into());
    }
    Ok(())
}

// The entry goes into limbo, and the sweep is given back.
fn leaves(words: &Words, pass: &mut Pass)
    requires own { IsWordsPass words.now pass.old }
    requires marked { IsMarked pass.old.1 }
    ensures own { IsWordsPass words.now pass.new }
    ensures free { pass.new.1.holding ≡ None }
{
    store_sweep(words, pass, LIMBO.pack(), &LIMBO, Told::Nothing);
}

#[test]
fn an_entry_in_limbo_waits_for_a_later_pin(rt: HostRuntime) -> Result<(), Fail> {
    let (words, mut first, mut second) = carries(rt.alloc())?;
    buries(&words, &mut first)?;
    examines(&words, &mut first)?;
    marks(&words, &mut first)?;
    pin(&words, &mut second);
    leaves(&words, &mut first);
    assert_eq!(rt;
        sweeps(&words, &mut first, 16),
        stays(Why::Pinned { seat: 1, pin: 1 })
    );
    unpin(&words, &mut second);
    assert_eq!(rt; take(&words, &mut second), Err(Empty { taken: 0 }));
    assert_eq!(rt; sweeps(&words, &mut first, 16), gives(Why::Front));
    assert_eq!(rt; sweeps(&words, &mut first, 16), stays(Why::Front));
    assert_eq!(rt; take(&words, &mut second), Ok(0));
    Ok(())
}
