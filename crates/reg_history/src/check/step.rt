ghost use Rattle.std.specs.Prelude.{◌≡◌, ◌<◌, ◌≤◌, ◌+◌, ◌^◌, List, IfOk, IsTrue, ◌↔◌, All};
ghost use Rattle.reg_model.specs.declared.update.Declared.{Declared as ADeclared};
ghost use Rattle.reg_model.specs.Opening.{IsRising, Opening};
ghost use Rattle.reg_model.specs.Runs.{RoundRows};
ghost use Rattle.reg_history.specs.lines.HistoryLines.{IsLineValue};
ghost use Rattle.reg_history.specs.check.Checking.{Front, Nothing as NothingYet, Carried as CarriedSoFar, Serving as ServingSoFar};
ghost use Rattle.reg_history.specs.inner.CheckSteps.{IsOneLine, IsStateOf, IsReady, StepTells, BytesTell, rows_so_far, rows_after};
ghost use Rattle.reg_history.specs.inner.Serving.{KeepsRun};

use crate::check::fault::{CheckWhy, Summary};
use crate::check::serving::{Serving, all_below};
use crate::lines::line::read_history_line;
use crate::lines::told::HistoryLine;
use iscc_header::NoMemory;
use reg_model::Declared;
use std::alloc::Global;

/// What the lines so far tell.
#[derive(Debug, Drop)]
pub(crate) enum State {
    /// No line stands before.
    Start,
    /// The declarations that are carried into the first round.
    Carrying(Vec<Declared>),
    Serving(Serving),
}

/// What one line more makes of it.
#[derive(Debug, Drop)]
pub(crate) enum Step {
    Next(State),
    Fails(CheckWhy),
    Ends(Summary),
}

/// What a line with its line feed makes of a state.
pub(crate) fn after_line(
    alloc: Global,
    state: State,
    bytes: &[u8],
    scratch: &mut Vec<u8>,
) -> Result<Step, NoMemory>
    requires ready { IsReady state }
    requires line { IsOneLine bytes.now }
    ensures tells { IfOk result (λ step. (front : Front) → IsStateOf state front → BytesTell front bytes.now step) }
    ensures rows { IfOk result (λ step. rows_after step ≤ rows_so_far state + 1) }
{
    let Some(told) = read_history_line(alloc, bytes, scratch)? else {
        return Ok(Step::Fails(CheckWhy::Form));
    };
    match state {
        State::Start => Ok(start(alloc, &told)),
        State::Carrying(carried) => carry(alloc, carried, &told),
        State::Serving(serving) => serve(alloc, serving, &told),
    }
}

fn start(alloc: Global, told: &HistoryLine) -> Step
    ensures tells { StepTells NothingYet told.now result }
    ensures rows { rows_after result ≡ 0 }
{
    match told {
        HistoryLine::Head => Step::Next(State::Carrying(Vec::new(alloc))),
        _ => Step::Fails(CheckWhy::Form),
    }
}

fn carry(alloc: Global, mut carried: Vec<Declared>, told: &HistoryLine) -> Result<Step, NoMemory>
    requires { IsRising carried.items }
    ensures tells { IfOk result (λ step. IsLineValue told.now → StepTells (CarriedSoFar carried.items) told.now step) }
    ensures rows { IfOk result (λ step. rows_after step ≡ 0) }
{
    match told {
        HistoryLine::Carry(declared) => {
            if !all_below(&carried, declared.id) {
                return Ok(Step::Fails(CheckWhy::Round));
            }
            carried.push(*declared)?;
            Ok(Step::Next(State::Carrying(carried)))
        }
        HistoryLine::Round(round) => match Serving::begin(alloc, &carried, round)? {
            Some(serving) => Ok(Step::Next(State::Serving(serving))),
            None => Ok(Step::Fails(CheckWhy::Round)),
        },
        _ => Ok(Step::Fails(CheckWhy::Form)),
    }
}

fn serve(alloc: Global, mut serving: Serving, told: &HistoryLine) -> Result<Step, NoMemory>
    requires { serving.rows < 2 ^ 63 }
    ensures tells { IfOk result (λ step. (opening : Opening) (ended : List RoundRows) (now : RoundRows) → KeepsRun serving opening ended now → IsLineValue told.now
        → StepTells (ServingSoFar opening ended now) told.now step) }
    ensures rows { IfOk result (λ step. rows_after step ≤ serving.rows + 1) }
{
    match told {
        HistoryLine::Round(round) => {
            if serving.next_round(round) {
                Ok(Step::Next(State::Serving(serving)))
            } else {
                Ok(Step::Fails(CheckWhy::Round))
            }
        }
        HistoryLine::Row(row) => match serving.row(alloc, row)? {
            None => Ok(Step::Next(State::Serving(serving))),
            Some(why) => Ok(Step::Fails(why)),
        },
        HistoryLine::End { rows, live } => {
            if serving.ends(*rows, *live) {
                Ok(Step::Ends(Summary {
                    rows: *rows,
                    live: *live,
                }))
            } else {
                Ok(Step::Fails(CheckWhy::End))
            }
        }
        _ => Ok(Step::Fails(CheckWhy::Form)),
    }
}
