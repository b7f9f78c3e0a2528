ghost use Rattle.std.specs.Prelude.{◌≡◌, map, IfOk, IfErr, MatchResult};
ghost use Rattle.reg_model.specs.Calls.{IsRequest};
ghost use Rattle.reg_model.specs.Desks.{Answered, Unanswered, HasNoSnapshot, row_of};
ghost use Rattle.reg_model.specs.Rows.{AsksLogFirst};
ghost use Rattle.reg_session.specs.Sessions.{MayBeMade, IsUnused, HasMade, IsQuery, HasMadeFirst};

use crate::gate::Gate;
use iscc_header::NoMemory;
use reg_model::{Answer, Call, Desk, Row, Rows};
use std::alloc::Global;
use std::sync::Wait;

/// Makes the calls of a session, one after another, each when the gate lets it, and tells their rows.
///
/// The memory of the rows is taken before the first call. After `NoMemory` the calls made so far stand in the pass's account: none,
/// or all before a query.
pub fn serve<D: Desk, G: Gate, R: Wait>(
    rt: &R,
    alloc: Global,
    desk: &D,
    pass: &mut D::Pass,
    session: u32,
    calls: &[Call],
    gate: &G,
) -> Result<Rows, NoMemory>
    requires calls { MayBeMade calls.now }
    requires fit { D.fit desk.now pass.old }
    requires unused { IsUnused session (D.pass_view pass.old) }
    ensures rows { IfOk result (λ rows. rows ≡ (D.pass_view pass.new).account) }
    ensures made { IfOk result (λ _. HasMade (D.limits desk.now) (D.opening desk.now) session calls.now (D.pass_view pass.new)) }
    ensures first { IfErr result (λ _. HasMadeFirst (D.limits desk.now) (D.opening desk.now) session calls.now (D.pass_view pass.new)) }
    ensures fit { D.fit desk.now pass.new }
{
    let mut rows = Vec::with_capacity(alloc, calls.len())?;
    for call in calls {
        let number = rows.len() as u32;
        gate.turn(rt, session, number);
        let answer = serve_call(rt, alloc, desk, pass, call)?;
        rows.push(Row {
            session,
            number,
            call: *call,
            point: answer.point,
            reply: answer.reply,
        })?;
    }
    Ok(Rows::from_vec(rows))
}

// Makes one call.
fn serve_call<D: Desk, R: Wait>(
    rt: &R,
    alloc: Global,
    desk: &D,
    pass: &mut D::Pass,
    call: &Call,
) -> Result<Answer, NoMemory>
    requires call { IsRequest call.now }
    requires fit { D.fit desk.now pass.old }
    requires ended { HasNoSnapshot (D.pass_view pass.old) }
    ensures answered { MatchResult result
        (λ answer. Answered (D.limits desk.now) (D.opening desk.now) (D.pass_view pass.old) (D.pass_view pass.new) call.now answer)
        (λ _. Unanswered (D.pass_view pass.old) (D.pass_view pass.new)) }
    ensures wanting { IfErr result (λ _. IsQuery call.now) }
    ensures fit { D.fit desk.now pass.new }
    ensures asks { IfOk result (λ answer. (D.limits desk.now).callers ≡ 1 → AsksLogFirst (D.limits desk.now) (D.opening desk.now) (row_of (D.pass_view pass.old) call.now answer)) }
{
    match *call {
        Call::Declare(unit) => Ok(desk.declare(rt, pass, unit)),
        Call::Withdraw(id) => Ok(desk.withdraw(rt, pass, id)),
        Call::Near(unit, radius) => desk.near(rt, alloc, pass, unit, radius),
        Call::Show(id) => Ok(desk.show(rt, pass, id)),
        Call::Count => Ok(desk.count(rt, pass)),
        Call::After(point) => Ok(desk.after(rt, pass, point)),
    }
}
