ghost use Rattle.std.specs.Prelude.{◌≡◌, ℕ, ◌<◌, ◌^◌, ◌⊎◌, Result, All, length, map, slice_get, IfOk, MatchResult, Some, None};
ghost use Rattle.std.specs.List.{range_with_len};
ghost use Rattle.iscc_header.specs.declared.memory.NoMemory.{NoMemory as Wanting};
ghost use Rattle.reg_model.specs.Desks.{PassView, HasNoSnapshot, new_passes, Closes};
ghost use Rattle.reg_model.specs.Registry.{start_refusal};
ghost use Rattle.reg_session.specs.Sessions.{MayBeMade, ServesRound};
ghost use Rattle.reg_session.specs.declared.rounds.SessionSeat.{SessionSeat as ASeat};
ghost use Rattle.reg_session.specs.declared.rounds.SessionDone.{SessionDone as AServed};
ghost use Rattle.reg_session.specs.inner.Rounds.{IsSeat, IsServed, ServedFrom};

use crate::gate::Gate;
use crate::session::serve;
use iscc_header::NoMemory;
use reg_model::{
    Accounts, Call, Carried, CloseRefusal, CloseWhy, Closed, Desk, Round, Rows, Sizes, StartFault,
};
use std::alloc::Global;
use std::sync::Wait;
use std::thread::{self, Threads};

/// Why a round can't be served: those of `StartFault`, and `NoMemory` also where memory is wanting for the calls.
pub type RoundFault = StartFault;

// A session of a round, with its pass.
#[derive(Drop)]
struct SessionSeat<P: Drop> {
    number: u32,
    pass: P,
}

// A session that has made its calls.
#[derive(Drop)]
struct SessionDone<P: Drop> {
    pass: P,
    rows: Rows,
}

/// Serves a round: each list of calls is that of a session, and each session has a thread of its own where one can be made.
///
/// The sessions are halved, and one half goes to a new thread; where none can be made, the halves are served one after the other, and
/// no session fails for it. A gate that holds one session until another has come then waits forever, as it does where the other
/// has ended for want of memory.
pub fn run_round<D: Desk, G: Gate, R: Threads + Wait + Sync>(
    rt: &R,
    alloc: Global,
    sizes: &Sizes,
    carried: &Carried,
    calls: &[Vec<Call>],
    gate: &G,
) -> Result<(Round, D::Seal), RoundFault>
    requires lists { length calls.now ≡ sizes.now.callers }
    requires calls { All MayBeMade (map (λ list. list.items) calls.now) }
    ensures served { IfOk result (λ made. ServesRound sizes.now carried.now (map (λ list. list.items) calls.now) made.0) }
    ensures seal { IfOk result (λ made. D.accounts made.1 ≡ made.0.accounts) }
    ensures cause { MatchResult result
        (λ _. start_refusal sizes.now carried.now ≡ None)
        (λ fault. (start_refusal sizes.now carried.now ≡ Some fault) ⊎ ((fault ≡ StartFault.NoMemory) × (start_refusal sizes.now carried.now ≡ None))) }
{
    let (desk, passes) = D::start(alloc, sizes, carried)?;
    match serve_round(rt, alloc, sizes, desk, passes, calls, gate) {
        Ok(made) => Ok(made),
        Err(NoMemory) => Err(RoundFault::NoMemory),
    }
}

// Serves a round that has begun, and ends it.
fn serve_round<D: Desk, G: Gate, R: Threads + Wait + Sync>(
    rt: &R,
    alloc: Global,
    sizes: &Sizes,
    desk: D,
    passes: Vec<D::Pass>,
    calls: &[Vec<Call>],
    gate: &G,
) -> Result<(Round, D::Seal), NoMemory>
    requires desk { D.limits desk ≡ sizes.now }
    requires lists { length calls.now ≡ sizes.now.callers }
    requires calls { All MayBeMade (map (λ list. list.items) calls.now) }
    requires passes { map D.pass_view passes.items ≡ new_passes (D.opening desk).base sizes.now.callers }
    requires fit { All (D.fit desk) passes.items }
    ensures served { IfOk result (λ made. ServesRound sizes.now (D.opening desk) (map (λ list. list.items) calls.now) made.0) }
    ensures seal { IfOk result (λ made. D.accounts made.1 ≡ made.0.accounts) }
{
    prove!(calls.len() == sizes.callers() as usize);
    let (passes, accounts) = serve_all(rt, alloc, &desk, passes, calls, gate)?;
    let (closed, seal) = end_round(alloc, desk, passes)?;
    let round = Round {
        base: closed.base,
        sizes: *sizes,
        accounts,
        carried: closed.carried,
    };
    Ok((round, seal))
}

// Serves all sessions, and gives their passes and their accounts in the order of their numbers.
fn serve_all<D: Desk, G: Gate, R: Threads + Wait + Sync>(
    rt: &R,
    alloc: Global,
    desk: &D,
    passes: Vec<D::Pass>,
    calls: &[Vec<Call>],
    gate: &G,
) -> Result<(Vec<D::Pass>, Accounts), NoMemory>
    requires few { length calls.now < 2 ^ 32 }
    requires calls { All MayBeMade (map (λ list. list.items) calls.now) }
    requires passes { map D.pass_view passes.items ≡ new_passes (D.opening desk.now).base (length calls.now) }
    requires fit { All (D.fit desk.now) passes.items }
    ensures fit { IfOk result (λ made. All (D.fit desk.now) made.0.items) }
    ensures served { IfOk result (λ made. ServedFrom (D.limits desk.now) (D.opening desk.now) 0 (map (λ list. list.items) calls.now) (map D.pass_view made.0.items) made.1) }
{
    let seats = seated(alloc, passes)?;
    let mut passes = Vec::new(alloc);
    let mut accounts = Accounts::new(alloc);
    for served in serve_each(rt, alloc, desk, seats, calls, gate)? {
        let SessionDone { pass, rows } = served?;
        passes.push(pass)?;
        accounts.push(rows)?;
    }
    Ok((passes, accounts))
}

// Numbers the passes from 0 on.
fn seated<P: Drop>(alloc: Global, passes: Vec<P>) -> Result<Vec<SessionSeat<P>>, NoMemory>
    requires { length passes.items < 2 ^ 32 }
    ensures passes { IfOk result (λ seats. map (λ seat. seat.pass) seats.items ≡ passes.items) }
    ensures numbers { IfOk result (λ seats. map (λ seat. seat.number) seats.items ≡ range_with_len 0 (length passes.items)) }
{
    let mut seats = Vec::new(alloc);
    for pass in passes {
        let number = seats.len() as u32;
        seats.push(SessionSeat { number, pass })?;
    }
    Ok(seats)
}

// Serves the sessions of these seats, in threads.
fn serve_each<D: Desk, G: Gate, R: Threads + Wait + Sync>(
    rt: &R,
    alloc: Global,
    desk: &D,
    seats: Vec<SessionSeat<D::Pass>>,
    calls: &[Vec<Call>],
    gate: &G,
) -> Result<Vec<Result<SessionDone<D::Pass>, NoMemory>>, NoMemory>
    requires calls { All MayBeMade (map (λ list. list.items) calls.now) }
    requires seats { All (IsSeat (D.fit desk.now) D.pass_view (length calls.now)) seats.items }
    ensures count { IfOk result (λ all. length all.items ≡ length seats.items) }
    ensures each { IfOk result (λ all. (i : ℕ) (seat : ASeat D.Pass) (served : Result (AServed D.Pass) Wanting) → slice_get seats.items i ≡ Some seat → slice_get all.items i ≡ Some served
        → IfOk served (IsServed (D.fit desk.now) D.pass_view (D.limits desk.now) (D.opening desk.now) (map (λ list. list.items) calls.now) seat)) }
{
    Ok(thread::map_vec(
        rt,
        seats,
        &|seat: SessionSeat<D::Pass>| -> Result<SessionDone<D::Pass>, NoMemory>
            requires calls { All MayBeMade (map (λ list. list.items) calls.now) }
            requires seat { IsSeat (D.fit desk.now) D.pass_view (length calls.now) seat }
            ensures { IfOk result (IsServed (D.fit desk.entry.now) D.pass_view (D.limits desk.entry.now) (D.opening desk.entry.now) (map (λ list. list.items) calls.entry.now) seat) }
        { serve_seat(rt, alloc, desk, seat, calls, gate) },
    )?)
}

// Serves the session of one seat.
fn serve_seat<D: Desk, G: Gate, R: Wait>(
    rt: &R,
    alloc: Global,
    desk: &D,
    seat: SessionSeat<D::Pass>,
    calls: &[Vec<Call>],
    gate: &G,
) -> Result<SessionDone<D::Pass>, NoMemory>
    requires calls { All MayBeMade (map (λ list. list.items) calls.now) }
    requires seat { IsSeat (D.fit desk.now) D.pass_view (length calls.now) seat }
    ensures { IfOk result (IsServed (D.fit desk.now) D.pass_view (D.limits desk.now) (D.opening desk.now) (map (λ list. list.items) calls.now) seat) }
{
    let SessionSeat { number, mut pass } = seat;
    let calls = calls[number as usize].as_slice();
    let rows = serve(rt, alloc, desk, &mut pass, number, calls, gate)?;
    Ok(SessionDone { pass, rows })
}

// Ends a round whose passes stand in the order of their numbers.
#[tactic(auto, using(crate::proofs::RoundSteps::accounts_by_number, crate::proofs::RoundSteps::none_missing))]
fn end_round<D: Desk>(
    alloc: Global,
    desk: D,
    passes: Vec<D::Pass>,
) -> Result<(Closed, D::Seal), NoMemory>
    requires fit { All (D.fit desk) passes.items }
    requires ended { All HasNoSnapshot (map D.pass_view passes.items) }
    requires numbers { map (λ (pass : PassView). pass.number) (map D.pass_view passes.items) ≡ range_with_len 0 (D.limits desk).callers }
    ensures closed { IfOk result (λ ended. Closes (D.limits desk) (D.opening desk) ended.0 (map (λ (pass : PassView). pass.account) (map D.pass_view passes.items))) }
    ensures seal { IfOk result (λ ended. D.accounts ended.1 ≡ map (λ (pass : PassView). pass.account) (map D.pass_view passes.items)) }
{
    match desk.close(alloc, passes) {
        Ok(ended) => Ok(ended),
        Err(
            CloseRefusal {
                why: CloseWhy::NoMemory,
                ..
            },
        ) => Err(NoMemory),
        Err(
            CloseRefusal {
                why: CloseWhy::Missing { .. },
                ..
            },
        ) => unreachable!(),
    }
}
