ghost use Rattle.std.specs.Prelude.{◌≡◌, ◌∷◌, ◌++◌, ◌≤◌, ◌+◌, ◌-◌, ◌^◌, ◌<◌, List, OnOk, OnErr, IfOk, All, IsSome, Some, length};
ghost use Rattle.std.specs.List.{flat_map, filter_map};
ghost use Rattle.reg_model.specs.declared.reply.Row.{Row as ARow};
ghost use Rattle.reg_model.specs.Merge.{AreAccounts, row_at};
ghost use Rattle.reg_model.specs.Rows.{IsMerge};
ghost use Rattle.reg_model.specs.Runs.{RoundRows};
ghost use Rattle.reg_model.specs.Opening.{Opening};
ghost use Rattle.reg_requests.specs.inner.Printing.{Grows};
ghost use Rattle.reg_history.specs.History.{carry_line, round_line, row_line, end_line, history_text};
ghost use Rattle.reg_history.specs.lines.HistoryLines.{told_limits};
ghost use Rattle.reg_history.specs.Rounds.{IsRoundOf, AreRoundsOf, IsRunOf};
ghost use Rattle.reg_history.specs.inner.Printing.{PrintsRounds};

use crate::lines::told::ToldRound;
use iscc_header::NoMemory;
use iscc_text::print_unit;
use reg_model::{Accounts, Carried, Declared, Place, Round, Row, Sizes, merge};
use reg_requests::{kind_of, print_call, print_reply, print_word, print_word_number};
use std::alloc::Global;

/// The text of a history: of a run of rounds, the first of which began with what is carried.
pub fn print_history(
    alloc: Global,
    carried: &Carried,
    rounds: &[Round],
) -> Result<Vec<u8>, NoMemory>
    requires { IsRunOf carried.now rounds.now }
    ensures { IfOk result (λ text. (rows : List RoundRows) → AreRoundsOf carried.now rounds.now rows → text.items ≡ history_text carried.now rows) }
{
    let mut text = Vec::new(alloc);
    append_history(alloc, carried, rounds, &mut text)?;
    Ok(text)
}

/// Appends the text of a history: of a run of rounds, the first of which began with what is carried. Without memory nothing
/// is appended.
pub fn append_history(
    alloc: Global,
    carried: &Carried,
    rounds: &[Round],
    out: &mut Vec<u8>,
) -> Result<(), NoMemory>
    requires { IsRunOf carried.now rounds.now }
    ensures ok { OnOk result ((rows : List RoundRows) → AreRoundsOf carried.now rounds.now rows
        → out.new.items ≡ out.old.items ++ history_text carried.now rows) }
    ensures err { OnErr result (out.new.items ≡ out.old.items) }
{
    let before = out.len();
    let done = print_whole(alloc, carried, rounds, out);
    if done.is_err() {
        out.truncate(before);
    }
    done
}

// The functions below leave pieces behind where memory is wanting.

fn print_whole(
    alloc: Global,
    carried: &Carried,
    rounds: &[Round],
    out: &mut Vec<u8>,
) -> Result<(), NoMemory>
    requires { IsRunOf carried.now rounds.now }
    ensures ok { OnOk result ((rows : List RoundRows) → AreRoundsOf carried.now rounds.now rows
        → out.new.items ≡ out.old.items ++ history_text carried.now rows) }
    ensures err { OnErr result (Grows out.old.items out.new.items) }
{
    print_word(b"iscc-history 1\n", out)?;
    print_carried(carried.list(), out)?;
    let (rows, left) = print_rounds(alloc, carried, rounds, out)?;
    print_end_line(rows, left.list().len() as u64, out)?;
    Ok(())
}

fn print_carried(list: &[Declared], out: &mut Vec<u8>) -> Result<(), NoMemory>
    ensures ok { OnOk result (out.new.items ≡ out.old.items ++ flat_map carry_line list.now) }
    ensures err { OnErr result (Grows out.old.items out.new.items) }
{
    for declared in list {
        print_declared(declared, out)?;
    }
    Ok(())
}

pub(crate) fn print_declared(declared: &Declared, out: &mut Vec<u8>) -> Result<(), NoMemory>
    ensures ok { OnOk result (out.new.items ≡ out.old.items ++ carry_line declared.now) }
    ensures err { OnErr result (Grows out.old.items out.new.items) }
{
    print_word_number(b"carry ", declared.id, out)?;
    print_word(b" ", out)?;
    print_word(print_unit(&declared.unit).as_str().as_bytes(), out)?;
    print_word(b"\n", out)?;
    Ok(())
}

// The number of all rows, and what the last round leaves.
fn print_rounds<'a>(
    alloc: Global,
    carried: &'a Carried,
    rounds: &'a [Round],
    out: &mut Vec<u8>,
) -> Result<(u64, &'a Carried), NoMemory>
    requires { IsRunOf carried.now rounds.now }
    ensures ok { IfOk result (λ pair. (rows : List RoundRows) → AreRoundsOf carried.now rounds.now rows
        → PrintsRounds carried.now rows out.old.items out.new.items pair.0 pair.1.now) }
    ensures grows { Grows out.old.items out.new.items }
{
    let mut count: u64 = 0;
    let mut left = carried;
    for (number, round) in rounds.iter().enumerate() {
        count += print_round(alloc, number as u64, round, out)?;
        left = &round.carried;
    }
    Ok((count, left))
}

// The number of the round's rows.
fn print_round(
    alloc: Global,
    number: u64,
    round: &Round,
    out: &mut Vec<u8>,
) -> Result<u64, NoMemory>
    requires { AreAccounts round.now.accounts }
    ensures text { IfOk result (λ count. (rows : List ARow) → IsMerge round.now.accounts rows
        → out.new.items ≡ out.old.items ++ (round_line number round.now.base round.now.sizes ++ flat_map row_line rows)) }
    ensures count { IfOk result (λ count. (rows : List ARow) → IsMerge round.now.accounts rows → count ≡ length rows) }
    ensures grows { Grows out.old.items out.new.items }
{
    print_round_line(number, round.base, &round.sizes, out)?;
    let order = merge(alloc, &round.accounts)?;
    print_rows(&round.accounts, order.as_slice(), out)?;
    Ok(order.as_slice().len() as u64)
}

fn print_round_line(
    number: u64,
    base: u64,
    sizes: &Sizes,
    out: &mut Vec<u8>,
) -> Result<(), NoMemory>
    ensures ok { OnOk result (out.new.items ≡ out.old.items ++ round_line number base sizes.now) }
    ensures err { OnErr result (Grows out.old.items out.new.items) }
{
    let told = ToldRound {
        number,
        base,
        entries: sizes.entries() as u64,
        log: sizes.log() as u64,
        callers: sizes.callers() as u64,
    };
    print_told_round(&told, out)
}

pub(crate) fn print_told_round(told: &ToldRound, out: &mut Vec<u8>) -> Result<(), NoMemory>
    ensures ok { OnOk result (out.new.items ≡ out.old.items ++ round_line told.now.number told.now.base (told_limits told.now)) }
    ensures err { OnErr result (Grows out.old.items out.new.items) }
{
    print_word_number(b"round ", told.number, out)?;
    print_word_number(b" base ", told.base, out)?;
    print_word_number(b" entries ", told.entries, out)?;
    print_word_number(b" log ", told.log, out)?;
    print_word_number(b" callers ", told.callers, out)?;
    print_word(b"\n", out)
}

// The rows at these places, in their order.
fn print_rows(accounts: &Accounts, order: &[Place], out: &mut Vec<u8>) -> Result<(), NoMemory>
    requires { All (λ place. IsSome (row_at accounts.now place)) order.now }
    ensures ok { OnOk result (out.new.items ≡ out.old.items ++ flat_map row_line (filter_map (row_at accounts.now) order.now)) }
    ensures err { OnErr result (Grows out.old.items out.new.items) }
{
    for place in order {
        print_row(row_of(accounts, place), out)?;
    }
    Ok(())
}

// The row at a place that has one.
fn row_of<'a>(accounts: &'a Accounts, place: &Place) -> &'a Row
    requires { IsSome (row_at accounts.now place.now) }
    ensures { row_at accounts.now place.now ≡ Some result.now }
{
    &accounts.as_slice()[place.session as usize].as_slice()[place.number as usize]
}

fn print_row(row: &Row, out: &mut Vec<u8>) -> Result<(), NoMemory>
    ensures ok { OnOk result (out.new.items ≡ out.old.items ++ row_line row.now) }
    ensures err { OnErr result (Grows out.old.items out.new.items) }
{
    print_word_number(b"", row.session as u64, out)?;
    print_word_number(b".", row.number as u64, out)?;
    print_word_number(b" @", row.point, out)?;
    print_word(b" ", out)?;
    print_call(&row.call, out)?;
    print_word(b" = ", out)?;
    print_reply(&row.reply, kind_of(&row.call), out)?;
    print_word(b"\n", out)?;
    Ok(())
}

pub(crate) fn print_end_line(rows: u64, live: u64, out: &mut Vec<u8>) -> Result<(), NoMemory>
    ensures ok { OnOk result (out.new.items ≡ out.old.items ++ end_line rows live) }
    ensures err { OnErr result (Grows out.old.items out.new.items) }
{
    print_word_number(b"end ", rows, out)?;
    print_word_number(b" live ", live, out)?;
    print_word(b"\n", out)
}
