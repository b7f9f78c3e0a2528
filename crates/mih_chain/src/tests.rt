// What is carried into a round is linked in all four tables: its buckets are walked.
ghost use Rattle.std.specs.Prelude.{◌≡◌, ◌<◌, IfOk};
ghost use Rattle.reg_rule.specs.Rounds.{IsWordsPass};

use super::*;
use iscc_header::{Kind, Unit64};
use mih_plan::bucket_of;
use reg_model::{Carried, Declared, Sizes};
use reg_rule::{Pass, Told, Words, store_pin};
use std::alloc::Global;
use std::test::Fail;

mod pushing;

// A declaration of this body.
fn declared(id: u64, body: u64) -> Result<Declared, Fail>
    ensures { IfOk result (λ declared. declared.id ≡ id) }
{
    let kind = Kind::new(0).ok_or("no kind")?;
    Ok(Declared {
        id,
        unit: Unit64 { kind, body },
    })
}

// Two declarations of one body, in the entries 0 and 1.
fn twice(alloc: Global, body: u64) -> Result<Carried, Fail> {
    let mut carried = Carried::new(alloc, 9);
    carried.push(declared(3, body)?)?;
    carried.push(declared(7, body)?)?;
    Ok(carried)
}

// A round of one session, whose pass is pinned.
fn begins(alloc: Global, carried: &Carried) -> Result<(Words, Pass), Fail>
    ensures own { IfOk result (λ r. IsWordsPass r.0 r.1) }
    ensures pinned { IfOk result (λ r. 0 < r.1.1.pin) }
    ensures bits { IfOk result (λ r. r.1.1.key.sizes.bits ≡ 4) }
{
    let sizes = Sizes::new(4, 8, 4, 1).ok_or("sizes")?;
    let (words, mut passes) = Words::start(alloc, &sizes, carried)?;
    let Some(mut pass) = passes.pop() else {
        return Err("no pass".into());
    };
    store_pin(&words, &mut pass, 1, Told::Nothing);
    Ok((words, pass))
}

#[test]
fn a_bucket_is_walked_from_its_newest_entry_on(rt: HostRuntime) -> Result<(), Fail> {
    let body = 0x0123_4567_89ab_cdef;
    let (words, mut pass) = begins(rt.alloc(), &twice(rt.alloc(), body)?)?;
    let bucket = bucket_of(body, 2, 4);
    let Some(newest) = first(&words, &mut pass, 2, bucket, Told::Begins) else {
        return Err("no entry".into());
    };
    assert_eq!(rt; newest, 1);
    let Some(oldest) = next(&words, &mut pass, 2, newest) else {
        return Err("no entry behind".into());
    };
    assert_eq!(rt; oldest, 0);
    assert_eq!(rt; next(&words, &mut pass, 2, oldest), None);
    Ok(())
}

#[test]
fn another_bucket_has_no_entry(rt: HostRuntime) -> Result<(), Fail> {
    let (words, mut pass) = begins(rt.alloc(), &twice(rt.alloc(), 0)?)?;
    assert_eq!(rt; first(&words, &mut pass, 0, 1, Told::Begins), None);
    assert_eq!(rt; first(&words, &mut pass, 1, 0, Told::Nothing), Some(1));
    Ok(())
}
