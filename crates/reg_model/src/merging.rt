//! The merge of the sessions' rows of a round: std's sort, over a key for each row.

ghost use Rattle.std.specs.Prelude.{◌≡◌, ◌-◌, ◌^◌, ◌++◌, IfOk, OnOk, length, map, min};
ghost use Rattle.reg_model.specs.Rows.{is_accepted as row_is_accepted, all_rows};
ghost use Rattle.reg_model.specs.Merge.{AreAccounts, IsMergeOrder};
ghost use Rattle.reg_model.specs.inner.MergeKeys.{row_key, key_place};

use crate::call::Call;
use crate::lists::Accounts;
use crate::reply::{Reply, Row};
use iscc_header::{Items, NoMemory};
use std::alloc::{AllocError, Global};

/// Where a row stands in the accounts of a round: its session, and its number in the account of that session.
#[derive(Clone, Copy, Debug, PartialEq, Eq)]
pub struct Place {
    pub session: u32,
    pub number: u32,
}

/// The places of a round's rows, in the order of the merge.
pub type Order = Items<Place>;

// What of a row its place in the merge depends on.
#[derive(Clone, Copy, Debug, PartialEq, Eq)]
struct Key {
    point: u64,
    refused: bool,
    place: Place,
}

/// The order of all rows of a round: by point, accepted rows before others, then by session and number.
pub fn merge(alloc: Global, accounts: &Accounts) -> Result<Order, NoMemory>
    requires { AreAccounts accounts.now }
    ensures { IfOk result (λ order. IsMergeOrder accounts.now order) }
{
    let mut keys = unsorted_keys(alloc, accounts)?;
    keys.sort_by_key(|key| { (key.point, key.refused, key.place.session, key.place.number) })?;
    Ok(Order::from_vec(places(alloc, &keys)?))
}

// The keys of all rows, one account after the other.
fn unsorted_keys(alloc: Global, accounts: &Accounts) -> Result<Vec<Key>, AllocError>
    ensures { IfOk result (λ keys. keys.items ≡ map row_key (all_rows accounts.now)) }
{
    let mut keys = Vec::with_capacity(alloc, row_count(accounts))?;
    for account in accounts.as_slice() {
        push_keys(&mut keys, account.as_slice())?;
    }
    Ok(keys)
}

// How many rows the accounts have together, or the greatest `usize` if they are more.
fn row_count(accounts: &Accounts) -> usize
    ensures { result ≡ min (length (all_rows accounts.now)) (2 ^ 64 - 1) }
{
    let mut count: usize = 0;
    for account in accounts.as_slice() {
        count = count.saturating_add(account.as_slice().len());
    }
    count
}

// Adds the keys of one account.
fn push_keys(keys: &mut Vec<Key>, rows: &[Row]) -> Result<(), AllocError>
    ensures { OnOk result (keys.new.items ≡ keys.old.items ++ map row_key rows.now) }
{
    for row in rows {
        keys.push(key_of(row))?;
    }
    Ok(())
}

fn key_of(row: &Row) -> Key
    ensures { result ≡ row_key row.now }
{
    Key {
        point: row.point,
        refused: !is_accepted(row),
        place: Place {
            session: row.session,
            number: row.number,
        },
    }
}

// Whether the call made an update.
fn is_accepted(row: &Row) -> bool
    ensures { result ≡ row_is_accepted row.now }
{
    match row.call {
        Call::Declare(_) => matches!(&row.reply, Reply::Id(_)),
        Call::Withdraw(_) => matches!(&row.reply, Reply::Withdrawn(_)),
        _ => false,
    }
}

// The places of the keys, in order.
fn places(alloc: Global, keys: &[Key]) -> Result<Vec<Place>, AllocError>
    ensures { IfOk result (λ places. places.items ≡ map key_place keys.now) }
{
    let mut places = Vec::with_capacity(alloc, keys.len())?;
    for key in keys {
        places.push(key.place)?;
    }
    Ok(places)
}
