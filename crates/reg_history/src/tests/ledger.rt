use crate::ledger::Ledger;
use crate::lines::told::{ToldHit, ToldHits, ToldReply};
use iscc_header::{Kind, Unit64};
use reg_model::{Call, Declared, FullCause, Reply, Sizes, Update};
use std::alloc::Global;
use std::test::Fail;

fn unit(kind: u8, body: u64) -> Result<Unit64, Fail> {
    let kind = Kind::new(kind).ok_or("no kind")?;
    Ok(Unit64 { kind, body })
}

// A round for one caller, with the ids from 4 on: declarations 0 and 1, three entries and a log of two updates.
fn opened(alloc: Global) -> Result<Ledger, Fail> {
    let sizes = Sizes::new(3, 2, 12, 1).ok_or("no sizes")?;
    let carried = [
        Declared {
            id: 0,
            unit: unit(0, 5)?,
        },
        Declared {
            id: 1,
            unit: unit(12, 6)?,
        },
    ];
    Ok(Ledger::open(alloc, sizes, 4, &carried)?)
}

fn add(ledger: &mut Ledger, update: Update) -> Result<(), Fail> {
    if ledger.point() >= ledger.end() {
        return Err("the log is full".into());
    }
    Ok(ledger.add(update)?)
}

fn reopen(ledger: &mut Ledger, sizes: Sizes) -> Result<(), Fail> {
    if ledger.point() > (1 << 34) - u64::from(sizes.log()) {
        return Err("the ids are spent".into());
    }
    ledger.reopen(sizes);
    Ok(())
}

fn stands(alloc: Global, ledger: &Ledger, call: Call, reply: Reply) -> Result<bool, Fail> {
    Ok(ledger.reply_stands(alloc, &call, &ToldReply::Plain(reply))?)
}

#[test]
fn a_declaration_gets_its_id_or_the_cause(rt: HostRuntime) -> Result<(), Fail> {
    let alloc = rt.alloc();
    let declare = Call::Declare(unit(3, 9)?);
    let entries = |given| Reply::Full(FullCause::Entries { given });
    let mut ledger = opened(alloc)?;
    assert!(rt; stands(alloc, &ledger, declare, Reply::Id(4))?);
    assert!(rt; !stands(alloc, &ledger, declare, Reply::Id(5))?);
    assert!(rt; !stands(alloc, &ledger, declare, entries(0))?);
    add(&mut ledger, Update::Decl(unit(3, 9)?))?;
    assert!(rt; !stands(alloc, &ledger, declare, Reply::Id(5))?);
    assert!(rt; stands(alloc, &ledger, declare, entries(0))?);
    assert!(rt; !stands(alloc, &ledger, declare, entries(1))?);
    assert!(rt; !stands(alloc, &ledger, declare, Reply::Full(FullCause::Log))?);
    add(&mut ledger, Update::Wd(0))?;
    assert!(rt; stands(alloc, &ledger, declare, Reply::Full(FullCause::Log))?);
    assert_eq!(rt; ledger.live_count(), 2);
    Ok(())
}

#[test]
fn a_withdrawn_declaration_is_absent(rt: HostRuntime) -> Result<(), Fail> {
    let alloc = rt.alloc();
    let mut ledger = opened(alloc)?;
    assert!(rt; stands(alloc, &ledger, Call::Withdraw(1), Reply::Withdrawn(1))?);
    assert!(rt; !stands(alloc, &ledger, Call::Withdraw(1), Reply::Absent(1))?);
    assert!(rt; stands(alloc, &ledger, Call::Show(1), Reply::Live(unit(12, 6)?))?);
    add(&mut ledger, Update::Wd(1))?;
    assert!(rt; !stands(alloc, &ledger, Call::Withdraw(1), Reply::Withdrawn(1))?);
    assert!(rt; stands(alloc, &ledger, Call::Withdraw(1), Reply::Absent(1))?);
    assert!(rt; stands(alloc, &ledger, Call::Show(1), Reply::Absent(1))?);
    assert!(rt; stands(alloc, &ledger, Call::Count, Reply::Count(1))?);
    assert!(rt; stands(alloc, &ledger, Call::After(5), Reply::Reached)?);
    assert!(rt; stands(alloc, &ledger, Call::After(6), Reply::Ahead)?);
    Ok(())
}

#[test]
fn hits_are_told_whole_and_in_order(rt: HostRuntime) -> Result<(), Fail> {
    let alloc = rt.alloc();
    let mut ledger = opened(alloc)?;
    add(&mut ledger, Update::Decl(unit(0, 4)?))?;
    let first = ToldHit {
        id: 4,
        distance: 0,
        unit: unit(0, 4)?,
    };
    let second = ToldHit {
        id: 0,
        distance: 1,
        unit: unit(0, 5)?,
    };
    let strange = ToldHit {
        unit: unit(1, 5)?,
        ..second
    };
    let near = Call::Near(unit(0, 4)?, 1);
    for (told, want) in [
        (vec![in alloc; first, second]?, true),
        (vec![in alloc; second, first]?, false),
        (vec![in alloc; first]?, false),
        (vec![in alloc; first, strange]?, false),
    ] {
        let reply = ToldReply::Hits(ToldHits::from_vec(told));
        assert_eq!(rt; ledger.reply_stands(alloc, &near, &reply)?, want);
    }
    Ok(())
}

#[test]
fn the_next_round_begins_with_what_is_live(rt: HostRuntime) -> Result<(), Fail> {
    let alloc = rt.alloc();
    let mut ledger = opened(alloc)?;
    add(&mut ledger, Update::Decl(unit(3, 9)?))?;
    add(&mut ledger, Update::Wd(0))?;
    let sizes = Sizes::new(2, 3, 12, 2).ok_or("no sizes")?;
    reopen(&mut ledger, sizes)?;
    assert_eq!(rt; ledger.point(), 6);
    assert_eq!(rt; ledger.end(), 9);
    assert!(rt; stands(alloc, &ledger, Call::Show(4), Reply::Live(unit(3, 9)?))?);
    assert!(rt; stands(alloc, &ledger, Call::Show(0), Reply::Absent(0))?);
    assert!(rt; !stands(alloc, &ledger, Call::Declare(unit(3, 9)?), Reply::Id(6))?);
    Ok(())
}
