ghost use Rattle.std.specs.Prelude.{◌≡◌, ◌+◌, ◌*◌, ◌/◌, ◌%◌, ◌^◌, ◌<◌, List, ◌∷◌, ◌++◌, map, slice_index, bit_xor, OnOk, IfOk};
ghost use Rattle.std.specs.List.{range_with_len};
ghost use Rattle.reg_model.specs.declared.call.Call.{Call as ACall};
ghost use Rattle.reg_make.specs.Generator.{next_number, number_after, centre};
ghost use Rattle.reg_make.specs.Workloads.{IsWork, declare_calls, first_calls, second_calls};
ghost use Rattle.reg_make.specs.inner.Bodies.{centre_bodies as bodies_of};

use crate::generator::Generator;
use crate::work::Workload;
use iscc_header::{Kind, NoMemory, Unit64};
use reg_model::Call;
use std::alloc::Global;

/// How many centres there are, around which the units lie.
pub const CENTRES: usize = 16;

/// The bodies of the centres, and the generator that goes on behind them.
pub fn centre_bodies(work: &Workload) -> ([u64; CENTRES], Generator)
    ensures bodies { result.0 ≡ bodies_of work.now.seed }
    ensures numbers { result.1.state ≡ number_after work.now.seed 16 }
    ensures range { IsWork work.now }
{
    let mut numbers = Generator::new(work.seed());
    let mut bodies = [0; CENTRES];
    for i in 0..CENTRES {
        bodies[i] = numbers.next();
    }
    (bodies, numbers)
}

/// The calls of the sessions of the first round. The generator stands behind the centres.
pub fn first_lists(
    alloc: Global,
    work: &Workload,
    bodies: &[u64; CENTRES],
    mut numbers: Generator,
) -> Result<Vec<Vec<Call>>, NoMemory>
    requires bodies { bodies.now ≡ bodies_of work.now.seed }
    requires numbers { numbers.state ≡ number_after work.now.seed 16 }
    ensures { IfOk result (λ lists. map (λ list. list.items) lists.items ≡ first_calls work.now) }
{
    let mut lists = Vec::new(alloc);
    for session in 0..work.sessions() {
        lists.push(declare_list(alloc, work, session, bodies, &mut numbers)?)?;
    }
    Ok(lists)
}

/// The calls of the one session of the second round.
pub fn second_lists(
    alloc: Global,
    work: &Workload,
    bodies: &[u64; CENTRES],
) -> Result<Vec<Vec<Call>>, NoMemory>
    requires { bodies.now ≡ bodies_of work.now.seed }
    ensures calls { IfOk result (λ lists. map (λ list. list.items) lists.items ≡ second_calls work.now) }
    ensures range { IsWork work.now }
{
    let withdrawals = work.units() / 2;
    let mut calls = Vec::with_capacity(alloc, CENTRES + withdrawals as usize)?;
    push_queries(&mut calls, bodies)?;
    push_withdrawals(&mut calls, withdrawals)?;
    let mut lists = Vec::with_capacity(alloc, 1)?;
    lists.push(calls)?;
    Ok(lists)
}

// The calls of one session of the first round. The generator goes on where the session before it has stopped.
fn declare_list(
    alloc: Global,
    work: &Workload,
    session: u32,
    bodies: &[u64; CENTRES],
    numbers: &mut Generator,
) -> Result<Vec<Call>, NoMemory>
    requires session { session < work.now.sessions }
    requires bodies { bodies.now ≡ bodies_of work.now.seed }
    requires numbers { numbers.old.state ≡ number_after work.now.seed (16 + session * work.now.each) }
    ensures calls { IfOk result (λ list. list.items ≡ declare_calls work.now session) }
    ensures numbers { OnOk result (numbers.new.state ≡ number_after work.now.seed (16 + (session + 1) * work.now.each)) }
{
    let each = work.each();
    let start = session * each;
    let mut calls = Vec::with_capacity(alloc, each as usize)?;
    for i in 0..each {
        calls.push(Call::Declare(next_unit(bodies, start + i, numbers)))?;
    }
    Ok(calls)
}

// The unit with this number: a centre with one bit turned over, whose place is the highest six bits of the generator's next number.
fn next_unit(bodies: &[u64; CENTRES], i: u32, numbers: &mut Generator) -> Unit64
    ensures unit { result ≡ record { kind = 6; body = bit_xor (slice_index bodies.now (i % 16)) (2 ^ (next_number numbers.old.state / 2 ^ 58)) } }
    ensures numbers { numbers.new.state ≡ next_number numbers.old.state }
{
    let place = numbers.next() >> 58;
    text_unit(bodies[i as usize % CENTRES] ^ (1 << place))
}

// A unit of the content of a text.
fn text_unit(body: u64) -> Unit64
    ensures { result ≡ record { kind = 6; body = body } }
{
    let Some(kind) = Kind::new(6) else {
        unreachable!()
    };
    Unit64 { kind, body }
}

// Adds a query near each centre.
fn push_queries(calls: &mut Vec<Call>, bodies: &[u64; CENTRES]) -> Result<(), NoMemory>
    ensures { OnOk result (calls.new.items ≡ calls.old.items ++ map (λ body. ACall.Near (record { kind = 6; body = body }) 1) bodies.now) }
{
    for body in bodies {
        calls.push(Call::Near(text_unit(*body), 1))?;
    }
    Ok(())
}

// Adds the withdrawals of the ids 0, 1, 2, ..
fn push_withdrawals(calls: &mut Vec<Call>, count: u32) -> Result<(), NoMemory>
    ensures { OnOk result (calls.new.items ≡ calls.old.items ++ map ACall.Withdraw (range_with_len 0 count)) }
{
    for id in 0..count {
        calls.push(Call::Withdraw(id as u64))?;
    }
    Ok(())
}
