//! The rounds of a run, one after the other: each begins with what the one before it leaves.

ghost use Rattle.std.specs.Prelude.{◌≡◌, ◌<◌, [], ◌∷◌, ◌++◌, All, IfOk, IfErr, length, map};
ghost use Rattle.std.specs.List.{AllZip};
ghost use Rattle.reg_model.specs.declared.round.TheConstants.{ROUNDS_MOST};
ghost use Rattle.reg_model.specs.declared.start.StartFault.TheVariants.{NoMemory as Wanting};
ghost use Rattle.reg_model.specs.Limits.{Limits as TheLimits};
ghost use Rattle.reg_model.specs.Opening.{Opening};
ghost use Rattle.reg_model.specs.Registry.{start_refusal};
ghost use Rattle.reg_requests.specs.Requests.{calls_of as calls_asked};
ghost use Rattle.reg_top.specs.inner.RunPlans.{MayBeRun};
ghost use Rattle.reg_top.specs.inner.RunFiles.{MayBeServed};
ghost use Rattle.reg_top.specs.inner.RunRounds.{FitsRound, ServesNext, ServesFrom, left_by, round_accounts, IsDeclinedAt, IsDeclinedNext};

use crate::ending::Declined;
use crate::refusal::Refusal;
use crate::run_words::RunPlan;
use crate::served::{Served, keep};
use iscc_header::{Items, NoMemory};
use reg_model::{Call, Carried, Round, Sizes};
use reg_requests::{Item, Requests};
use reg_session::{Gate, RoundFault, Seals, run_round};
use std::alloc::Global;
use std::sync::Wait;
use std::thread::Threads;

/// Serves the rounds, each of which begins with what the one before it leaves, and keeps their seals.
pub(crate) fn serve_rounds<G: Gate, R: Threads + Wait + Sync>(
    rt: &R,
    alloc: Global,
    plan: &RunPlan<'_>,
    opening: &Carried,
    lists: &[Items<Requests>],
    gate: &G,
    seals: &mut Seals<Served>,
) -> Result<Items<Round>, Declined>
    requires plan { MayBeRun plan.now.rounds }
    requires lists { AllZip FitsRound plan.now.rounds lists.now }
    requires empty { seals.old ≡ [] }
    ensures served { IfOk result (ServesFrom opening.now plan.now.rounds lists.now) }
    ensures kept { IfOk result (λ rounds. seals.new ≡ round_accounts rounds) }
    ensures why { IfErr result (IsDeclinedAt opening.now plan.now.rounds lists.now seals.new) }
{
    let mut rounds = Items::new(alloc);
    for at in 0..plan.len() {
        let sizes = plan.sizes(at);
        let round = serve_next(
            rt,
            alloc,
            &sizes,
            opening,
            rounds.as_slice(),
            lists[at].as_slice(),
            gate,
            seals,
        )?;
        if let Err(NoMemory) = rounds.push(round) {
            return Err(Declined::NoMemory);
        }
    }
    Ok(rounds)
}

// Serves the round behind these, or the first, and keeps its seal.
fn serve_next<G: Gate, R: Threads + Wait + Sync>(
    rt: &R,
    alloc: Global,
    sizes: &Sizes,
    opening: &Carried,
    rounds: &[Round],
    lists: &[Requests],
    gate: &G,
    seals: &mut Seals<Served>,
) -> Result<Round, Declined>
    requires lists { length lists.now ≡ sizes.now.callers }
    requires served { All MayBeServed lists.now }
    requires few { length rounds.now < ROUNDS_MOST }
    requires kept { seals.old ≡ round_accounts rounds.now }
    ensures served { IfOk result (ServesNext sizes.now (left_by opening.now rounds.now) lists.now) }
    ensures kept { IfOk result (λ round. seals.new ≡ seals.old ++ round.accounts ∷ []) }
    ensures why { IfErr result (IsDeclinedNext (length rounds.now) sizes.now (left_by opening.now rounds.now)) }
    ensures same { IfErr result (λ why. seals.new ≡ seals.old) }
{
    let carried = left_of(opening, rounds);
    serve_lists(rt, alloc, rounds.len(), sizes, carried, lists, gate, seals)
}

/// What these rounds leave: what the last one carries on, or what they began with where there is none.
pub(crate) fn left_of<'a>(opening: &'a Carried, rounds: &'a [Round]) -> &'a Carried
    ensures { result.now ≡ left_by opening.now rounds.now }
{
    match rounds.last() {
        Some(last) => &last.carried,
        None => opening,
    }
}

// Serves the round with this number, which begins with what is carried, and keeps its seal.
fn serve_lists<G: Gate, R: Threads + Wait + Sync>(
    rt: &R,
    alloc: Global,
    number: usize,
    sizes: &Sizes,
    carried: &Carried,
    lists: &[Requests],
    gate: &G,
    seals: &mut Seals<Served>,
) -> Result<Round, Declined>
    requires lists { length lists.now ≡ sizes.now.callers }
    requires served { All MayBeServed lists.now }
    requires room { length seals.old < ROUNDS_MOST }
    ensures served { IfOk result (ServesNext sizes.now carried.now lists.now) }
    ensures kept { IfOk result (λ round. seals.new ≡ seals.old ++ round.accounts ∷ []) }
    ensures why { IfErr result (IsDeclinedNext number sizes.now carried.now) }
    ensures same { IfErr result (λ why. seals.new ≡ seals.old) }
{
    let calls = match calls_of_each(alloc, lists) {
        Ok(calls) => calls,
        Err(NoMemory) => return Err(Declined::NoMemory),
    };
    match run_round::<Served, G, R>(rt, alloc, sizes, carried, calls.as_slice(), gate) {
        Ok((round, seal)) => {
            keep(seals, seal);
            Ok(round)
        }
        Err(fault) => Err(refused(number as u64, fault)),
    }
}

// Why the round with this number can't be served.
fn refused(round: u64, fault: RoundFault) -> Declined
    ensures why { (sizes : TheLimits) (opening : Opening) → start_refusal sizes opening ≡ Some fault → IsDeclinedNext round sizes opening result }
    ensures memory { fault ≡ Wanting → result ≡ Declined.NoMemory }
{
    match fault {
        RoundFault::TooSmall { live, entries } => Declined::Refused(Refusal::TooSmall {
            round,
            live,
            entries,
        }),
        RoundFault::IdsSpent { base, log } => {
            Declined::Refused(Refusal::IdsSpent { round, base, log })
        }
        RoundFault::NoMemory => Declined::NoMemory,
    }
}

// The calls of each session.
fn calls_of_each(alloc: Global, lists: &[Requests]) -> Result<Vec<Vec<Call>>, NoMemory>
    ensures { IfOk result (λ calls. map (λ list. list.items) calls.items ≡ map calls_asked lists.now) }
{
    let mut calls = Vec::new(alloc);
    for list in lists {
        calls.push(calls_of(alloc, list.as_slice())?)?;
    }
    Ok(calls)
}

// The calls among the items, in order.
fn calls_of(alloc: Global, items: &[Item]) -> Result<Vec<Call>, NoMemory>
    ensures { IfOk result (λ calls. calls.items ≡ calls_asked items.now) }
{
    let mut calls = Vec::new(alloc);
    for item in items {
        if let Item::Call(call) = item {
            calls.push(*call)?;
        }
    }
    Ok(calls)
}
