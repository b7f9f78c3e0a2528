ghost use Rattle.std.specs.Prelude.{◌≡◌, ◌<◌, ◌^◌, ◌++◌, ◌∷◌, [], ℕ, List, true, Ok, Some, None, IfOk, IfSome, IfNone};
ghost use Rattle.reg_model.specs.declared.update.Declared.{Declared as ADeclared};
ghost use Rattle.reg_history.specs.declared.lines.told.HistoryLine.{HistoryLine as ALine};
ghost use Rattle.reg_history.specs.declared.lines.told.HistoryLine.TheVariants.{End as AnEnd};
ghost use Rattle.reg_history.specs.declared.lines.told.ToldRound.{ToldRound as ARound};
ghost use Rattle.reg_history.specs.inner.Bytes.{free};
ghost use Rattle.reg_history.specs.History.{carry_line, end_line, round_line};
ghost use Rattle.reg_history.specs.lines.HistoryLines.{whole_line, IsLineValue, IsToldRoundValue, told_limits};
ghost use Rattle.reg_history.specs.lines.Values.{IsDeclaredValue};

use crate::lines::print_line::print_history_line;
use crate::lines::row_line::row_of;
use crate::lines::told::{HistoryLine, ToldRound};
use crate::lines::values::{first_byte, number_behind, unit_behind};
use iscc_header::NoMemory;
use reg_model::Declared;
use std::alloc::Global;

/// The first line of a text with its line feed, and what stands behind it. None exactly where the text has no line feed.
pub(crate) fn next_line(text: &[u8]) -> Option<(&[u8], &[u8])>
    ensures cut { IfSome result (λ pair. text.now ≡ pair.0.now ++ pair.1.now) }
    ensures line { IfSome result (λ pair. (bytes : List ℕ) × (free 10 bytes ≡ true) × (pair.0.now ≡ bytes ++ 10 ∷ [])) }
    ensures none { IfNone result (free 10 text.now ≡ true) }
{
    for (i, byte) in text.iter().enumerate() {
        if *byte == b'\n' {
            return Some(text.split_at(i + 1));
        }
    }
    None
}

/// What a line with its line feed tells. None exactly where it is the text of no line.
pub(crate) fn read_history_line(
    alloc: Global,
    text: &[u8],
    scratch: &mut Vec<u8>,
) -> Result<Option<HistoryLine>, NoMemory>
    ensures found { (line : ALine) → result ≡ Ok (Some line) → (text.now ≡ whole_line line) × IsLineValue line }
    ensures none { result ≡ Ok None → (line : ALine) → IsLineValue line → text.now ≡ whole_line line → ⊥ }
{
    let line = candidate(alloc, text)?;
    scratch.clear();
    print_history_line(&line, scratch)?;
    if scratch.as_slice() == text {
        Ok(Some(line))
    } else {
        Ok(None)
    }
}

// Which line has this text, if one has it. Whether it has is seen by printing it.
fn candidate(alloc: Global, text: &[u8]) -> Result<HistoryLine, NoMemory>
    ensures reads { (line : ALine) → IsLineValue line → text.now ≡ whole_line line → IfOk result (λ found. found ≡ line) }
    ensures value { IfOk result IsLineValue }
{
    match first_byte(text) {
        b'i' => Ok(HistoryLine::Head),
        b'c' => Ok(HistoryLine::Carry(declared_of(text))),
        b'r' => Ok(HistoryLine::Round(round_of(text))),
        b'e' => Ok(end_of(text)),
        _ => Ok(HistoryLine::Row(row_of(alloc, text)?)),
    }
}

fn declared_of(text: &[u8]) -> Declared
    ensures reads { (d : ADeclared) → IsDeclaredValue d → text.now ≡ carry_line d → result ≡ d }
    ensures value { IsDeclaredValue result }
{
    let (id, rest) = number_behind(b"carry ", text);
    let (unit, _) = unit_behind(b" ", rest);
    Declared { id, unit }
}

fn round_of(text: &[u8]) -> ToldRound
    ensures reads { (told : ARound) → IsToldRoundValue told → text.now ≡ round_line told.number told.base (told_limits told) → result ≡ told }
    ensures value { IsToldRoundValue result }
{
    let (number, rest) = number_behind(b"round ", text);
    let (base, rest) = number_behind(b" base ", rest);
    let (entries, rest) = number_behind(b" entries ", rest);
    let (log, rest) = number_behind(b" log ", rest);
    let (callers, _) = number_behind(b" callers ", rest);
    ToldRound {
        number,
        base,
        entries,
        log,
        callers,
    }
}

fn end_of(text: &[u8]) -> HistoryLine
    ensures reads { (rows live : ℕ) → rows < 2 ^ 64 → live < 2 ^ 64 → text.now ≡ end_line rows live → result ≡ AnEnd rows live }
    ensures value { IsLineValue result }
{
    let (rows, rest) = number_behind(b"end ", text);
    let (live, _) = number_behind(b" live ", rest);
    HistoryLine::End { rows, live }
}
