ghost use Rattle.std.specs.Prelude.{◌≡◌, ◌≤◌, ◌+◌, IfOk, length};
ghost use Rattle.reg_model.specs.declared.reply.Row.{Row as ARow};
ghost use Rattle.reg_model.specs.Merge.{AreAccounts};

use super::*;
use iscc_header::{Items, Kind, MainType, NoMemory, Unit64};
use std::alloc::Global;
use std::test::Fail;

fn meta(body: u64) -> Result<Unit64, Fail> {
    let kind = Kind::of(MainType::Meta, 0).ok_or("no kind")?;
    Ok(Unit64 { kind, body })
}

fn content(body: u64) -> Result<Unit64, Fail> {
    let kind = Kind::of(MainType::Content, 0).ok_or("no kind")?;
    Ok(Unit64 { kind, body })
}

// A registry in which nothing is carried.
fn plain(alloc: Global, entries: u32, log: u32) -> Result<Plain, Fail> {
    let sizes = Sizes::new(entries, log, 12, 1).ok_or("sizes")?;
    Ok(Plain::start(alloc, &sizes, &Carried::new(alloc, 0))?)
}

fn at(point: u64, reply: Reply) -> Answer {
    Answer { point, reply }
}

#[test]
fn equal_units_get_ids_of_their_own(rt: HostRuntime) -> Result<(), Fail> {
    let mut plain = plain(rt.alloc(), 4, 64)?;
    let first = plain.declare(meta(0)?);
    let second = plain.declare(meta(0)?);
    assert_eq!(rt; first, at(1, Reply::Id(0)));
    assert_eq!(rt; second, at(2, Reply::Id(1)));
    Ok(())
}

#[test]
fn hits_are_of_the_kind_in_range_and_by_body(rt: HostRuntime) -> Result<(), Fail> {
    let mut plain = plain(rt.alloc(), 8, 64)?;
    let _ = plain.declare(meta(3)?);
    let _ = plain.declare(meta(1)?);
    let _ = plain.declare(content(0)?);
    let _ = plain.declare(meta(7)?);
    let _ = plain.declare(meta(1)?);
    let answer = plain.near(rt.alloc(), meta(0)?, 2)?;
    let mut want = Hits::new(rt.alloc());
    want.push(Hit {
        id: 1,
        body: 1,
        distance: 1,
    })?;
    want.push(Hit {
        id: 4,
        body: 1,
        distance: 1,
    })?;
    want.push(Hit {
        id: 0,
        body: 3,
        distance: 2,
    })?;
    assert_eq!(rt; answer, at(5, Reply::Hits(want)));
    Ok(())
}

#[test]
fn the_log_is_full_before_the_entries_are(rt: HostRuntime) -> Result<(), Fail> {
    let mut both = plain(rt.alloc(), 1, 1)?;
    let _ = both.declare(meta(0)?);
    assert_eq!(rt; both.declare(meta(0)?), at(1, Reply::Full(FullCause::Log)));
    let mut entries = plain(rt.alloc(), 1, 2)?;
    let _ = entries.declare(meta(0)?);
    assert_eq!(rt;
        entries.declare(meta(0)?),
        at(1, Reply::Full(FullCause::Entries { given: 0 }))
    );
    Ok(())
}

#[test]
fn a_withdrawn_declaration_is_gone_and_its_id_is_used_up(rt: HostRuntime) -> Result<(), Fail> {
    let mut plain = plain(rt.alloc(), 2, 64)?;
    let _ = plain.declare(meta(5)?);
    let _ = plain.declare(meta(6)?);
    assert_eq!(rt; plain.show(0), at(2, Reply::Live(meta(5)?)));
    assert_eq!(rt; plain.withdraw(0), at(3, Reply::Withdrawn(0)));
    assert_eq!(rt; plain.withdraw(0), at(3, Reply::Absent(0)));
    assert_eq!(rt; plain.show(0), at(3, Reply::Absent(0)));
    assert_eq!(rt; plain.show(1), at(3, Reply::Live(meta(6)?)));
    assert_eq!(rt; plain.count(), at(3, Reply::Count(1)));
    assert_eq!(rt; plain.declare(meta(5)?), at(4, Reply::Id(3)));
    assert_eq!(rt; plain.show(2), at(4, Reply::Absent(2)));
    let answer = plain.near(rt.alloc(), meta(5)?, 0)?;
    let mut want = Hits::new(rt.alloc());
    want.push(Hit {
        id: 3,
        body: 5,
        distance: 0,
    })?;
    assert_eq!(rt; answer, at(4, Reply::Hits(want)));
    Ok(())
}

#[test]
fn each_withdrawal_gives_an_entry_back(rt: HostRuntime) -> Result<(), Fail> {
    let mut plain = plain(rt.alloc(), 1, 64)?;
    let _ = plain.declare(meta(0)?);
    let _ = plain.withdraw(0);
    assert_eq!(rt; plain.declare(meta(0)?), at(3, Reply::Id(2)));
    assert_eq!(rt;
        plain.declare(meta(0)?),
        at(3, Reply::Full(FullCause::Entries { given: 1 }))
    );
    Ok(())
}

#[test]
fn a_full_log_refuses_the_withdrawal_of_a_live_id_alone(rt: HostRuntime) -> Result<(), Fail> {
    let mut plain = plain(rt.alloc(), 4, 1)?;
    let _ = plain.declare(meta(0)?);
    assert_eq!(rt; plain.withdraw(0), at(1, Reply::Full(FullCause::Log)));
    assert_eq!(rt; plain.withdraw(1), at(1, Reply::Absent(1)));
    assert_eq!(rt; plain.withdraw(u64::MAX), at(1, Reply::Absent(u64::MAX)));
    assert_eq!(rt; plain.count(), at(1, Reply::Count(1)));
    Ok(())
}

#[test]
fn a_point_is_reached_with_its_update(rt: HostRuntime) -> Result<(), Fail> {
    let mut plain = plain(rt.alloc(), 4, 64)?;
    assert_eq!(rt; plain.after(0), at(0, Reply::Reached));
    assert_eq!(rt; plain.after(1), at(0, Reply::Ahead));
    let _ = plain.declare(meta(0)?);
    assert_eq!(rt; plain.after(1), at(1, Reply::Reached));
    assert_eq!(rt; plain.after(u64::MAX), at(1, Reply::Ahead));
    Ok(())
}

#[test]
fn the_next_round_begins_with_the_live_declarations(rt: HostRuntime) -> Result<(), Fail> {
    let mut plain = plain(rt.alloc(), 4, 64)?;
    let _ = plain.declare(meta(7)?);
    let _ = plain.declare(content(8)?);
    let _ = plain.withdraw(0);
    let updates = [
        Update::Decl(meta(7)?),
        Update::Decl(content(8)?),
        Update::Wd(0),
    ];
    assert_eq!(rt; plain.updates(), updates.as_slice());
    let carried = plain.carry(rt.alloc())?;
    let kept = Declared {
        id: 1,
        unit: content(8)?,
    };
    assert_eq!(rt; carried.base(), 3);
    assert_eq!(rt; carried.list(), [kept].as_slice());
    let sizes = Sizes::new(1, 64, 12, 1).ok_or("sizes")?;
    let mut next = Plain::start(rt.alloc(), &sizes, &carried)?;
    assert_eq!(rt; next.show(1), at(3, Reply::Live(content(8)?)));
    assert_eq!(rt;
        next.declare(meta(0)?),
        at(3, Reply::Full(FullCause::Entries { given: 0 }))
    );
    assert_eq!(rt; next.withdraw(1), at(4, Reply::Withdrawn(1)));
    assert_eq!(rt; next.declare(meta(0)?), at(5, Reply::Id(4)));
    Ok(())
}

#[test]
fn carried_declarations_are_pushed_by_id(rt: HostRuntime) -> Result<(), Fail> {
    let mut carried = Carried::new(rt.alloc(), 9);
    carried.push(Declared {
        id: 2,
        unit: meta(2)?,
    })?;
    carried.push(Declared {
        id: 8,
        unit: meta(8)?,
    })?;
    let sizes = Sizes::new(1, 64, 12, 1).ok_or("sizes")?;
    assert_eq!(rt;
        Plain::start(rt.alloc(), &sizes, &carried).err(),
        Some(StartFault::TooSmall {
            live: 2,
            entries: 1
        })
    );
    let sizes = Sizes::new(2, 64, 12, 1).ok_or("sizes")?;
    let plain = Plain::start(rt.alloc(), &sizes, &carried)?;
    assert_eq!(rt; plain.show(8), at(9, Reply::Live(meta(8)?)));
    assert_eq!(rt; plain.show(5), at(9, Reply::Absent(5)));
    assert_eq!(rt; plain.count(), at(9, Reply::Count(2)));
    Ok(())
}

#[test]
fn an_ended_registry_gives_its_updates_and_what_is_carried(rt: HostRuntime) -> Result<(), Fail> {
    let mut plain = plain(rt.alloc(), 4, 64)?;
    let _ = plain.declare(meta(7)?);
    let _ = plain.declare(meta(8)?);
    let _ = plain.withdraw(0);
    let (updates, carried) = plain.into_parts();
    assert_eq!(rt; updates.into_vec().len(), 3);
    assert_eq!(rt; carried.base(), 3);
    let copy = carried.try_clone(rt.alloc())?;
    assert_eq!(rt; copy.base(), 3);
    assert_eq!(rt; copy.list(), carried.list());
    assert_eq!(rt; copy.list().len(), 1);
    Ok(())
}

#[test]
fn a_list_by_rising_id_is_carried(rt: HostRuntime) -> Result<(), Fail> {
    let carried = Carried::from_list(1 << 34, Items::new(rt.alloc()));
    assert_eq!(rt; carried.base(), 1 << 34);
    assert_eq!(rt; carried.list().len(), 0);
    Ok(())
}

// Nine ids were given, and two of them are live.
fn two_carried(alloc: Global) -> Result<Carried, Fail>
    ensures base { IfOk result (λ carried. carried.base ≡ 9) }
    ensures two { IfOk result (λ carried. length carried.list ≡ 2) }
{
    let mut carried = Carried::new(alloc, 9);
    carried.push(Declared {
        id: 2,
        unit: meta(2)?,
    })?;
    carried.push(Declared {
        id: 7,
        unit: meta(7)?,
    })?;
    Ok(carried)
}

// What a round of eight entries leaves.
#[tactic(auto, using(crate::proofs::LiveSteps::live_few))]
fn leave(alloc: Global, carried: &Carried, updates: &[Update]) -> Result<Carried, Fail>
    requires few { length carried.now.list + length updates.now ≤ 8 }
    requires ids { carried.now.base ≤ 9 }
{
    let sizes = Sizes::new(8, 64, 4, 1).ok_or("sizes")?;
    let room = Leaving::reserve(alloc, &sizes, carried)?;
    Ok(room.finish(carried, updates))
}

#[test]
fn a_round_leaves_what_its_log_does_not_withdraw(rt: HostRuntime) -> Result<(), Fail> {
    let carried = two_carried(rt.alloc())?;
    let updates = [
        Update::Decl(meta(9)?),
        Update::Wd(2),
        Update::Decl(content(11)?),
        Update::Wd(9),
    ];
    let left = leave(rt.alloc(), &carried, &updates)?;
    let seven = Declared {
        id: 7,
        unit: meta(7)?,
    };
    let eleven = Declared {
        id: 11,
        unit: content(11)?,
    };
    assert_eq!(rt; left.base(), 13);
    assert_eq!(rt; left.list(), [seven, eleven].as_slice());
    Ok(())
}

#[test]
fn a_round_may_leave_all_or_nothing(rt: HostRuntime) -> Result<(), Fail> {
    let carried = two_carried(rt.alloc())?;
    let all = leave(rt.alloc(), &carried, &[])?;
    assert_eq!(rt; all.base(), 9);
    assert_eq!(rt; all.list(), carried.list());
    let none = leave(rt.alloc(), &carried, &[Update::Wd(7), Update::Wd(2)])?;
    assert_eq!(rt; none.base(), 11);
    assert_eq!(rt; none.list().len(), 0);
    Ok(())
}

#[test]
fn sizes_out_of_range_are_none(rt: HostRuntime) {
    let cases = [
        (0, 1, 4, 1),
        (1_048_577, 1, 4, 1),
        (1, 0, 4, 1),
        (1, 4_194_305, 4, 1),
        (1, 1, 3, 1),
        (1, 1, 17, 1),
        (1, 1, 4, 0),
        (1, 1, 4, 17),
    ];
    for (entries, log, bits, callers) in cases {
        assert!(rt;
            Sizes::new(entries, log, bits, callers).is_none(),
            "{entries} {log} {bits} {callers}"
        );
    }
    let most = Sizes::new(1_048_576, 4_194_304, 16, 16);
    assert!(rt;
        most.is_some_and(|sizes| sizes.entries() == 1_048_576
            && sizes.log() == 4_194_304
            && sizes.bits() == 16
            && sizes.callers() == 16)
    );
}

#[test]
fn a_round_whose_ids_would_end_past_the_greatest_has_no_start(rt: HostRuntime) -> Result<(), Fail> {
    let sizes = Sizes::new(1, 64, 12, 1).ok_or("sizes")?;
    let most = 1 << 34;
    let spent = Plain::start(rt.alloc(), &sizes, &Carried::new(rt.alloc(), most - 63));
    assert_eq!(rt;
        spent.err(),
        Some(StartFault::IdsSpent {
            base: most - 63,
            log: 64
        })
    );
    let carried = Carried::new(rt.alloc(), most - 64);
    assert_eq!(rt; carried.base(), most - 64);
    assert_eq!(rt; carried.list().len(), 0);
    assert!(rt; Plain::start(rt.alloc(), &sizes, &carried).is_ok());
    Ok(())
}

fn row(session: u32, number: u32, point: u64, call: Call, reply: Reply) -> Row
    ensures session { result.session ≡ session }
    ensures number { result.number ≡ number }
{
    Row {
        session,
        number,
        call,
        point,
        reply,
    }
}

// Two sessions in turn: the first declares, counts and withdraws, and the second declares and is refused.
fn two_accounts(alloc: Global) -> Result<Accounts, Fail>
    ensures { IfOk result (λ accounts. AreAccounts accounts) }
{
    let full = Reply::Full(FullCause::Entries { given: 0 });
    let mut first = Rows::new(alloc);
    first.push(row(0, 0, 1, Call::Declare(meta(0)?), Reply::Id(0)))?;
    first.push(row(0, 1, 2, Call::Count, Reply::Count(2)))?;
    first.push(row(0, 2, 3, Call::Withdraw(0), Reply::Withdrawn(0)))?;
    let mut second = Rows::new(alloc);
    second.push(row(1, 0, 2, Call::Declare(meta(1)?), Reply::Id(1)))?;
    second.push(row(1, 1, 2, Call::Declare(meta(0)?), full))?;
    second.push(row(1, 2, 3, Call::Withdraw(0), Reply::Absent(0)))?;
    second.push(row(1, 3, 3, Call::Count, Reply::Count(1)))?;
    let mut accounts = Accounts::new(alloc);
    accounts.push(first)?;
    accounts.push(second)?;
    Ok(accounts)
}

#[test]
fn rows_merge_by_point_then_accepted_then_session_then_number(rt: HostRuntime) -> Result<(), Fail> {
    let accounts = two_accounts(rt.alloc())?;
    let order = merge(rt.alloc(), &accounts)?;
    let want = [(0, 0), (1, 0), (0, 1), (1, 1), (0, 2), (1, 2), (1, 3)];
    let mut places = Order::new(rt.alloc());
    for (session, number) in want {
        places.push(Place { session, number })?;
    }
    assert_eq!(rt; order, places);
    Ok(())
}

#[test]
fn no_accounts_and_empty_accounts_merge_to_nothing(rt: HostRuntime) -> Result<(), Fail> {
    let mut accounts = Accounts::new(rt.alloc());
    assert_eq!(rt; merge(rt.alloc(), &accounts)?.as_slice().len(), 0);
    accounts.push(Rows::new(rt.alloc()))?;
    accounts.push(Rows::new(rt.alloc()))?;
    assert_eq!(rt; merge(rt.alloc(), &accounts)?.as_slice().len(), 0);
    Ok(())
}
