ghost use Rattle.std.specs.Prelude.{◌≡◌, ◌+◌, ◌≤◌, List, length, map, All, IfOk, None};
ghost use Rattle.reg_model.specs.Registry.{start_refusal};
ghost use Rattle.reg_model.specs.Runs.{nothing};
ghost use Rattle.reg_session.specs.Sessions.{MayBeMade, ServesRound};
ghost use Rattle.reg_make.specs.Generator.{number_after};
ghost use Rattle.reg_make.specs.Workloads.{work_limits, first_calls, second_calls};
ghost use Rattle.reg_make.specs.inner.Bodies.{centre_bodies as bodies_of};

use crate::calls::{CENTRES, centre_bodies, first_lists, second_lists};
use crate::generator::Generator;
use crate::work::Workload;
use iscc_header::NoMemory;
use reg_model::{BITS_USUAL, Call, Carried, Desk, Round, Sizes};
use reg_session::{Gate, RoundFault, run_round};
use std::alloc::Global;
use std::sync::Wait;
use std::thread::Threads;

// How many entries and places of the log a round has beyond its units: a session may hold an entry that it hasn't yet given back.
const SPARE: u32 = 16;

/// The two rounds of a workload, with their seals.
#[derive(Drop)]
pub struct WorkRun<D: Desk> {
    pub first: Round,
    pub first_seal: D::Seal,
    pub second: Round,
    pub second_seal: D::Seal,
}

/// Serves the two rounds of a workload over a desk.
///
/// The calls of all sessions of a round are made before the round begins. No round is too large for the desk.
pub fn serve_work<D: Desk, G: Gate, R: Threads + Wait + Sync>(
    rt: &R,
    alloc: Global,
    work: &Workload,
    gate: &G,
) -> Result<WorkRun<D>, NoMemory>
    ensures first { IfOk result (λ run. ServesRound (work_limits work.now work.now.sessions) nothing (first_calls work.now) run.first) }
    ensures second { IfOk result (λ run. ServesRound (work_limits work.now 1) run.first.carried (second_calls work.now) run.second) }
    ensures first_begins { IfOk result (λ _. start_refusal (work_limits work.now work.now.sessions) nothing ≡ None) }
    ensures second_begins { IfOk result (λ run. start_refusal (work_limits work.now 1) run.first.carried ≡ None) }
    ensures first_seal { IfOk result (λ run. D.accounts run.first_seal ≡ run.first.accounts) }
    ensures second_seal { IfOk result (λ run. D.accounts run.second_seal ≡ run.second.accounts) }
{
    let (bodies, numbers) = centre_bodies(work);
    let (first, first_seal) = serve_first::<D, G, R>(rt, alloc, work, &bodies, numbers, gate)?;
    let (second, second_seal) = serve_second::<D, G, R>(
        rt,
        alloc,
        work,
        &bodies,
        &first.carried,
        gate,
    )?;
    Ok(WorkRun {
        first,
        first_seal,
        second,
        second_seal,
    })
}

// Serves the sessions that declare units. The generator stands behind the centres.
fn serve_first<D: Desk, G: Gate, R: Threads + Wait + Sync>(
    rt: &R,
    alloc: Global,
    work: &Workload,
    bodies: &[u64; CENTRES],
    numbers: Generator,
    gate: &G,
) -> Result<(Round, D::Seal), NoMemory>
    requires bodies { bodies.now ≡ bodies_of work.now.seed }
    requires numbers { numbers.state ≡ number_after work.now.seed 16 }
    ensures served { IfOk result (λ made. ServesRound (work_limits work.now work.now.sessions) nothing (first_calls work.now) made.0) }
    ensures begins { IfOk result (λ _. start_refusal (work_limits work.now work.now.sessions) nothing ≡ None) }
    ensures seal { IfOk result (λ made. D.accounts made.1 ≡ made.0.accounts) }
{
    let lists = first_lists(alloc, work, bodies, numbers)?;
    let nothing = Carried::new(alloc, 0);
    let sizes = work_sizes(work, work.sessions());
    serve_lists::<D, G, R>(rt, alloc, &sizes, &nothing, &lists, gate)
}

// Serves the session that asks and withdraws, behind a round that leaves room.
fn serve_second<D: Desk, G: Gate, R: Threads + Wait + Sync>(
    rt: &R,
    alloc: Global,
    work: &Workload,
    bodies: &[u64; CENTRES],
    carried: &Carried,
    gate: &G,
) -> Result<(Round, D::Seal), NoMemory>
    requires bodies { bodies.now ≡ bodies_of work.now.seed }
    requires begins { start_refusal (work_limits work.now 1) carried.now ≡ None }
    ensures served { IfOk result (λ made. ServesRound (work_limits work.now 1) carried.now (second_calls work.now) made.0) }
    ensures seal { IfOk result (λ made. D.accounts made.1 ≡ made.0.accounts) }
{
    let lists = second_lists(alloc, work, bodies)?;
    let sizes = work_sizes(work, 1);
    serve_lists::<D, G, R>(rt, alloc, &sizes, carried, &lists, gate)
}

// The sizes of a round with so many sessions.
fn work_sizes(work: &Workload, callers: u32) -> Sizes
    requires { (1 ≤ callers) × (callers ≤ 16) }
    ensures { result ≡ work_limits work.now callers }
{
    let room = work.units() + SPARE;
    let Some(sizes) = Sizes::new(room, room, BITS_USUAL, callers) else {
        unreachable!()
    };
    sizes
}

// Serves a round that can begin.
fn serve_lists<D: Desk, G: Gate, R: Threads + Wait + Sync>(
    rt: &R,
    alloc: Global,
    sizes: &Sizes,
    carried: &Carried,
    lists: &[Vec<Call>],
    gate: &G,
) -> Result<(Round, D::Seal), NoMemory>
    requires lists { length lists.now ≡ sizes.now.callers }
    requires calls { All MayBeMade (map (λ list. list.items) lists.now) }
    requires begins { start_refusal sizes.now carried.now ≡ None }
    ensures served { IfOk result (λ made. ServesRound sizes.now carried.now (map (λ list. list.items) lists.now) made.0) }
    ensures seal { IfOk result (λ made. D.accounts made.1 ≡ made.0.accounts) }
{
    match run_round::<D, G, R>(rt, alloc, sizes, carried, lists, gate) {
        Ok(made) => Ok(made),
        Err(RoundFault::NoMemory) => Err(NoMemory),
        Err(RoundFault::TooSmall { .. } | RoundFault::IdsSpent { .. }) => unreachable!(),
    }
}
