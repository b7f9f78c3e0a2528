ghost use Rattle.std.specs.Prelude.{IfOk};
ghost use Rattle.reg_model.specs.Opening.{IsRising};

use crate::ledger::live::LiveSet;
use iscc_header::{Kind, Unit64};
use reg_model::{Declared, Hit};
use std::alloc::Global;
use std::test::Fail;

fn unit(kind: u8, body: u64) -> Result<Unit64, Fail> {
    let kind = Kind::new(kind).ok_or("no kind")?;
    Ok(Unit64 { kind, body })
}

// Declarations of these kinds and bodies, by id from 0 on.
fn listed(alloc: Global, units: &[(u8, u64)]) -> Result<Vec<Declared>, Fail>
    ensures { IfOk result (λ list. IsRising list.items) }
{
    let mut list = Vec::new(alloc);
    for (id, (kind, body)) in units.iter().enumerate() {
        list.push(Declared {
            id: id as u64,
            unit: unit(*kind, *body)?,
        })?;
    }
    Ok(list)
}

// So many units of two kinds in turn, with the bodies 0, 1, 2 ..
fn many(alloc: Global, count: u64) -> Result<Vec<(u8, u64)>, Fail> {
    let mut units = Vec::new(alloc);
    for body in 0..count {
        units.push(((body % 2) as u8, body))?;
    }
    Ok(units)
}

#[test]
fn a_declaration_is_found_until_it_is_withdrawn(rt: HostRuntime) -> Result<(), Fail> {
    let list = listed(rt.alloc(), &[(0, 5), (12, 6), (0, 5), (6, 7)])?;
    let mut set = LiveSet::of(rt.alloc(), &list)?;
    assert_eq!(rt; set.len(), 4);
    assert_eq!(rt; set.unit_of(1), Some(unit(12, 6)?));
    assert!(rt; set.withdraw(1));
    assert!(rt; !set.withdraw(1));
    assert!(rt; !set.withdraw(4));
    assert_eq!(rt; set.unit_of(1), None);
    assert_eq!(rt; set.unit_of(2), Some(unit(0, 5)?));
    assert_eq!(rt; set.unit_of(3), Some(unit(6, 7)?));
    assert_eq!(rt; set.len(), 3);
    Ok(())
}

#[test]
fn hits_are_live_and_of_the_kind_by_body(rt: HostRuntime) -> Result<(), Fail> {
    let list = listed(
        rt.alloc(),
        &[(0, 3), (0, 1), (6, 0), (0, 7), (0, 0), (0, 1)],
    )?;
    let mut set = LiveSet::of(rt.alloc(), &list)?;
    assert!(rt; set.withdraw(4));
    let hits = set.near(rt.alloc(), unit(0, 0)?, 2)?;
    let want = [
        Hit {
            id: 1,
            body: 1,
            distance: 1,
        },
        Hit {
            id: 5,
            body: 1,
            distance: 1,
        },
        Hit {
            id: 0,
            body: 3,
            distance: 2,
        },
    ];
    assert_eq!(rt; hits.as_slice(), want.as_slice());
    Ok(())
}

#[test]
fn a_long_list_is_searched_after_most_are_withdrawn(rt: HostRuntime) -> Result<(), Fail> {
    let units = many(rt.alloc(), 400)?;
    let list = listed(rt.alloc(), &units)?;
    let mut set = LiveSet::of(rt.alloc(), &list)?;
    for id in 0..390 {
        assert!(rt; set.withdraw(id), "{id}");
    }
    for id in 0..400 {
        assert_eq!(rt; set.unit_of(id).is_some(), id >= 390, "{id}");
        assert_eq!(rt; set.withdraw(id), id >= 390, "{id}");
    }
    assert_eq!(rt; set.len(), 0);
    Ok(())
}
