ghost use Rattle.std.specs.Prelude.{◌≡◌, ◌∷◌, ◌++◌, [], List, OnOk, IfOk, codes, length};
ghost use Rattle.std.specs.Fmt.{decimal};
ghost use Rattle.reg_requests.specs.Lines.{line, spaced};
ghost use Rattle.reg_requests.specs.declared.items.Item.{Item as AnItem};
ghost use Rattle.reg_top.specs.commands.Run.{item_lines};
ghost use Rattle.reg_top.specs.inner.RunRounds.{account_texts, round_texts};

use iscc_header::{Items, NoMemory};
use reg_model::{Call, Round, Row, Rows};
use reg_requests::{
    Item, Requests, kind_of, print_bad, print_reply, print_word, print_word_number,
};

/// Appends the replies of each round to its sessions, of which each has its items and its account.
pub(crate) fn print_rounds(
    lists: &[Items<Requests>],
    rounds: &[Round],
    out: &mut Vec<u8>,
) -> Result<(), NoMemory>
    ensures { OnOk result (out.new.items ≡ out.old.items ++ round_texts 0 lists.now rounds.now) }
{
    for number in 0..rounds.len().min(lists.len()) {
        let round = &rounds[number];
        print_accounts(
            number as u64,
            lists[number].as_slice(),
            round.accounts.as_slice(),
            out,
        )?;
    }
    Ok(())
}

// Appends the replies of a round to its sessions.
fn print_accounts(
    round: u64,
    lists: &[Requests],
    accounts: &[Rows],
    out: &mut Vec<u8>,
) -> Result<(), NoMemory>
    ensures { OnOk result (out.new.items ≡ out.old.items ++ account_texts round 0 lists.now accounts.now) }
{
    for session in 0..lists.len().min(accounts.len()) {
        print_replies(
            round,
            session as u64,
            lists[session].as_slice(),
            accounts[session].as_slice(),
            out,
        )?;
    }
    Ok(())
}

// Appends the replies to a session: the line that names it, and a line for each item of its file. The rows are the
// session's, in order.
fn print_replies(
    round: u64,
    session: u64,
    items: &[Item],
    rows: &[Row],
    out: &mut Vec<u8>,
) -> Result<(), NoMemory>
    ensures { OnOk result (out.new.items ≡ out.old.items
        ++ (line (spaced (codes "replies" ∷ decimal round ∷ decimal session ∷ [])) ++ item_lines items.now rows.now)) }
{
    print_word_number(b"replies ", round, out)?;
    print_word_number(b" ", session, out)?;
    print_word(b"\n", out)?;
    let mut rest = rows;
    for item in items {
        rest = print_item(item, rest, out)?;
    }
    Ok(())
}

// Appends the line of an item, and gives the rows of the items behind it.
fn print_item<'a>(item: &Item, rows: &'a [Row], out: &mut Vec<u8>) -> Result<&'a [Row], NoMemory>
    ensures { IfOk result (λ rest. (list : List AnItem)
        → out.new.items ++ item_lines list rest.now ≡ out.old.items ++ item_lines (item.now ∷ list) rows.now) }
{
    match item {
        Item::Bad(why) => {
            print_bad(*why, out)?;
            print_word(b"\n", out)?;
            Ok(rows)
        }
        Item::Call(call) => print_call_line(call, rows, out),
    }
}

// Appends the reply to a call, which its row has.
fn print_call_line<'a>(
    call: &Call,
    rows: &'a [Row],
    out: &mut Vec<u8>,
) -> Result<&'a [Row], NoMemory>
    ensures { IfOk result (λ rest. (list : List AnItem)
        → out.new.items ++ item_lines list rest.now ≡ out.old.items ++ item_lines (AnItem.Call call.now ∷ list) rows.now) }
{
    if rows.is_empty() {
        return Ok(rows);
    }
    print_reply(&rows[0].reply, kind_of(call), out)?;
    print_word(b"\n", out)?;
    Ok(&rows[1..])
}
