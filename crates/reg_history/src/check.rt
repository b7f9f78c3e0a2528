ghost use Rattle.std.specs.Prelude.{◌≡◌, ◌⊎◌, ◌<◌, ◌^◌, ℕ, IfOk, Err, length};
ghost use Rattle.reg_history.specs.declared.check.fault.CheckWhy.{CheckWhy as AWhy};
ghost use Rattle.reg_history.specs.declared.check.fault.CheckRefusal.TheVariants as refusals;
ghost use Rattle.reg_history.specs.check.Checking.{IsHistoryOf, HasLineFault};
ghost use Rattle.reg_history.specs.inner.CheckSteps.{TellsOutcome};

pub(crate) mod fault;
pub(crate) mod serving;
pub(crate) mod step;

use crate::check::fault::{CheckFault, CheckRefusal, CheckWhy, Summary};
use crate::check::step::{State, Step, after_line};
use crate::lines::line::next_line;
use std::alloc::Global;

/// Whether a text is that of a lawful history: with its numbers of rows and of live declarations, or the first line that
/// can't stand and why.
pub fn check_history(alloc: Global, text: &[u8]) -> Result<Summary, CheckRefusal>
    ensures history { IfOk result (λ summary. IsHistoryOf text.now summary.rows summary.live) }
    ensures fault { (line : ℕ) (why : AWhy) → result ≡ Err (refusals.Fault (record { line = line; why = why })) → HasLineFault text.now line why }

    // Each history is accepted, and each other text has its fault told, unless memory is wanting.
    ensures accepts { (rows live : ℕ) → IsHistoryOf text.now rows live
        → (result ≡ Ok (record { rows = rows; live = live })) ⊎ (result ≡ Err refusals.NoMemory) }
    ensures refuses { (line : ℕ) (why : AWhy) → HasLineFault text.now line why
        → (result ≡ Err (refusals.Fault (record { line = line; why = why }))) ⊎ (result ≡ Err refusals.NoMemory) }
{
    checked(alloc, text)
}

// The check, told in one clause, from which the four follow.
fn checked(alloc: Global, text: &[u8]) -> Result<Summary, CheckRefusal>
    ensures tells { TellsOutcome text.now result }
    ensures short { length text.now < 2 ^ 63 }
{
    let mut scratch = Vec::new(alloc);
    let mut state = State::Start;
    let mut rest = text;
    let mut line: u64 = 1;
    while let Some((bytes, behind)) = next_line(rest) {
        match after_line(alloc, state, bytes, &mut scratch)? {
            Step::Next(next) => state = next,
            Step::Fails(why) => return Err(fault_at(line, why)),
            Step::Ends(summary) if behind.is_empty() => return Ok(summary),
            Step::Ends(_) => return Err(fault_at(line + 1, CheckWhy::End)),
        }
        rest = behind;
        line += 1;
    }
    if rest.is_empty() {
        Err(fault_at(line, CheckWhy::End))
    } else {
        Err(fault_at(line, CheckWhy::Form))
    }
}

fn fault_at(line: u64, why: CheckWhy) -> CheckRefusal
    ensures { result ≡ refusals.Fault (record { line = line; why = why }) }
{
    CheckRefusal::Fault(CheckFault { line, why })
}
