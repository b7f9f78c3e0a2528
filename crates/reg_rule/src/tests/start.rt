ghost use Rattle.std.specs.Prelude.{◌≡◌, ◌≤◌, ◌^◌, IfOk};
ghost use Rattle.reg_rule.specs.Fresh.{fresh};

use crate::*;
use iscc_header::{Kind, MainType, Unit64};
use reg_model::{Carried, Declared, Sizes, StartFault};
use std::alloc::Global;
use std::test::Fail;

fn declared(id: u64) -> Result<Declared, Fail>
    ensures { IfOk result (λ made. made.id ≡ id) }
{
    let kind = Kind::of(MainType::Meta, 0).ok_or("no kind")?;
    Ok(Declared {
        id,
        unit: Unit64 { kind, body: id },
    })
}

// What is carried: two declarations below the base.
fn two_carried(alloc: Global, base: u64) -> Result<Carried, Fail>
    requires { (2 ≤ base) × (base ≤ 2 ^ 34) }
{
    let mut carried = Carried::new(alloc, base);
    carried.push(declared(0)?)?;
    carried.push(declared(1)?)?;
    Ok(carried)
}

// Why a round with two carried declarations doesn't start, if it doesn't.
fn refusal(alloc: Global, entries: u32, log: u32, base: u64) -> Result<Option<StartFault>, Fail>
    requires { (2 ≤ base) × (base ≤ 2 ^ 34) }
{
    let sizes = Sizes::new(entries, log, 4, 1).ok_or("sizes")?;
    let carried = two_carried(alloc, base)?;
    Ok(Words::start(alloc, &sizes, &carried).err())
}

#[test]
fn a_round_is_refused_for_its_first_cause(rt: HostRuntime) -> Result<(), Fail> {
    let small = StartFault::TooSmall {
        live: 2,
        entries: 1,
    };
    let spent = StartFault::IdsSpent {
        base: (1 << 34) - 63,
        log: 64,
    };
    let base = (1 << 34) - 64;
    assert_eq!(rt; refusal(rt.alloc(), 1, 64, 2)?, Some(small));
    assert_eq!(rt; refusal(rt.alloc(), 2, 64, base + 1)?, Some(spent));
    assert_eq!(rt; refusal(rt.alloc(), 1, 64, base + 1)?, Some(small));
    assert_eq!(rt; refusal(rt.alloc(), 2, 64, base)?, None);
    Ok(())
}

// The words of a round with one caller, and its pass.
fn lone(alloc: Global, sizes: &Sizes, carried: &Carried) -> Result<(Words, Pass), Fail>
    ensures { IfOk result (λ made. made.1 ≡ (made.0.0, fresh made.0.1 0 1)) }
{
    let (words, mut passes) = Words::start(alloc, sizes, carried)?;
    if passes.is_empty() {
        return Err("no pass".into());
    }
    Ok((words, passes.remove(0)))
}

#[test]
fn the_ring_has_the_entries_of_what_is_not_carried(rt: HostRuntime) -> Result<(), Fail> {
    let sizes = Sizes::new(5, 64, 4, 1).ok_or("sizes")?;
    let carried = two_carried(rt.alloc(), 9)?;
    let (words, mut pass) = lone(rt.alloc(), &sizes, &carried)?;
    assert_eq!(rt; words.sizes().entries(), 5);
    assert_eq!(rt; words.carried().list(), carried.list());
    assert_eq!(rt; pass.places_seen(), 0);
    assert_eq!(rt; pass.hand(), None);
    assert_eq!(rt; load_take(&words, &mut pass), 0);
    assert_eq!(rt; load_put(&words, &mut pass, Told::Nothing), 3);
    Ok(())
}

#[test]
fn a_round_of_the_greatest_sizes_starts(rt: HostRuntime) -> Result<(), Fail> {
    let sizes = Sizes::new(1 << 20, 1 << 22, 16, 16).ok_or("sizes")?;
    let carried = two_carried(rt.alloc(), (1 << 34) - (1 << 22))?;
    let (_words, passes) = Words::start(rt.alloc(), &sizes, &carried)?;
    assert_eq!(rt; passes.len(), 16);
    Ok(())
}
