ghost use Rattle.std.specs.Prelude.{◌≡◌, ◌<◌, ◌≤◌, ◌++◌, ◌∷◌, [], ℕ, List, IfOk};
ghost use Rattle.iscc_header.specs.declared.unit.Unit64.{Unit64 as AUnit};
ghost use Rattle.iscc_header.specs.Unit64s.{IsUnit64};
ghost use Rattle.reg_model.specs.declared.call.Call.{Call as ACall};
ghost use Rattle.reg_model.specs.declared.call.Call.TheVariants as calls;
ghost use Rattle.reg_requests.specs.Lines.{call_text};
ghost use Rattle.reg_model.specs.Calls.{IsRequest};
ghost use Rattle.reg_history.specs.declared.lines.told.ToldRow.{ToldRow as ARow};
ghost use Rattle.reg_history.specs.inner.Bytes.{first};
ghost use Rattle.reg_history.specs.lines.HistoryLines.{told_row_line, IsToldRowValue};

use crate::lines::told::ToldRow;
use crate::lines::told_reply::reply_of;
use crate::lines::values::{behind, first_byte, number_behind, unit_behind};
use iscc_header::NoMemory;
use reg_model::{Call, RADIUS_MOST};
use std::alloc::Global;

/// Which row has this line, if one has it. Whether it has is seen by printing it.
pub(crate) fn row_of(alloc: Global, text: &[u8]) -> Result<ToldRow, NoMemory>
    ensures reads { (row : ARow) → IsToldRowValue row → text.now ≡ told_row_line row → IfOk result (λ found. found ≡ row) }
    ensures value { IfOk result IsToldRowValue }
{
    let (session, rest) = number_behind(b"", text);
    let (number, rest) = number_behind(b".", rest);
    let (point, rest) = number_behind(b" @", rest);
    let (call, rest) = call_in_front(behind(b" ", rest));
    let reply = reply_of(alloc, behind(b" = ", rest))?;
    Ok(ToldRow {
        session,
        number,
        point,
        call,
        reply,
    })
}

// The call whose text stands in front, and what stands behind it.
fn call_in_front(text: &[u8]) -> (Call, &[u8])
    ensures reads { (call : ACall) (rest : List ℕ) → IsRequest call → first rest < 48 → text.now ≡ call_text call ++ rest
        → (result.0 ≡ call) × (result.1.now ≡ rest) }
    ensures value { IsRequest result.0 }
{
    match first_byte(text) {
        b'd' => {
            let (unit, rest) = unit_behind(b"declare ", text);
            (Call::Declare(unit), rest)
        }
        b'w' => {
            let (id, rest) = number_behind(b"withdraw ", text);
            (Call::Withdraw(id), rest)
        }
        b'n' => query_in_front(text),
        b's' => {
            let (id, rest) = number_behind(b"show ", text);
            (Call::Show(id), rest)
        }
        b'a' => {
            let (point, rest) = number_behind(b"after ", text);
            (Call::After(point), rest)
        }
        _ => (Call::Count, behind(b"count", text)),
    }
}

// A greater radius may not be asked for: then this is another query, with a text of its own.
fn query_in_front(text: &[u8]) -> (Call, &[u8])
    ensures reads { (unit : AUnit) (radius : ℕ) (rest : List ℕ) → IsUnit64 unit → radius ≤ RADIUS_MOST → first rest < 48
        → text.now ≡ call_text (calls.Near unit radius) ++ rest → (result.0 ≡ calls.Near unit radius) × (result.1.now ≡ rest) }
    ensures value { IsRequest result.0 }
{
    let (unit, rest) = unit_behind(b"near ", text);
    let (radius, rest) = number_behind(b" ", rest);
    (
        Call::Near(unit, radius.min(RADIUS_MOST as u64) as u32),
        rest,
    )
}
