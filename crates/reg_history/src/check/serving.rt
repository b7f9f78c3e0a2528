ghost use Rattle.std.specs.Prelude.{◌≡◌, ◌<◌, ◌≤◌, ◌+◌, ◌^◌, ◌↔◌, ◌∷◌, ◌++◌, [], List, ℕ, IfOk, OnOk, IsTrue, true, IfSome, IfNone, All, MatchOption, length, IsSome, is_some};
ghost use Rattle.std.specs.Option.{option_to_list};
ghost use Rattle.std.specs.declared.cmp.Ordering.TheVariants.{Less as LessThan};
ghost use Rattle.reg_model.specs.declared.sizes.TheConstants.{CALLERS_MOST as callers_most};
ghost use Rattle.reg_model.specs.declared.reply.Row.{Row as ARow};
ghost use Rattle.reg_model.specs.declared.update.Declared.{Declared as ADeclared};
ghost use Rattle.reg_model.specs.Opening.{Opening, IsRising, opening_of};
ghost use Rattle.reg_model.specs.Registry.{Registry};
ghost use Rattle.reg_model.specs.Rows.{update_of, row_cmp};
ghost use Rattle.reg_model.specs.Runs.{RoundRows, closing};
ghost use Rattle.reg_history.specs.declared.check.fault.CheckWhy.TheVariants as whys;
ghost use Rattle.reg_history.specs.lines.HistoryLines.{told_limits, row_in, reply_in, IsToldRowValue};
ghost use Rattle.reg_history.specs.check.Checking.{begun, OpensRound, RowOwes, HasEndNumbers};
ghost use Rattle.reg_history.specs.inner.Ledgers.{Keeps, MayAdd};
ghost use Rattle.reg_history.specs.inner.Serving.{KeepsRun, longer, last_of, HasRoom, RowStands, RowFails};

use crate::check::fault::CheckWhy;
use crate::ledger::Ledger;
use crate::lines::told::{ToldReply, ToldRound, ToldRow};
use iscc_header::NoMemory;
use reg_model::{BITS_USUAL, CALLERS_MOST, Call, Declared, ROUNDS_MOST, Reply, Sizes, Update};
use std::alloc::Global;
use std::marker::Model;

// How many rounds a history has at most.
const ROUNDS: u64 = ROUNDS_MOST as u64;

// How many sessions a round has at most.
const SESSIONS: usize = CALLERS_MOST as usize;

/// What of a row the place of the next depends on.
#[derive(Clone, Copy, Debug, PartialEq, Eq, PartialOrd, Ord)]
pub(crate) struct LastRow {
    point: u64,
    refused: bool,
    session: u64,
    number: u64,
}

/// The round that goes on, as far as the lines before tell it: what a row that may follow depends on.
#[derive(Debug, Drop)]
pub(crate) struct Serving {
    // How many rounds have ended.
    ended: u64,
    // How many rows there are in all rounds.
    rows: u64,
    // How many rows each session of the round has.
    counts: [u64; SESSIONS],
    last: Option<LastRow>,
    ledger: Ledger,
}

impl Model for Serving {
    ghost use Rattle.std.specs.Prelude.{◌<◌, ◌≤◌, ℕ, get_or};
    ghost use Rattle.reg_model.specs.declared.round.TheConstants.{ROUNDS_MOST as rounds_most};
    ghost use Rattle.reg_history.specs.inner.Ledgers.{Keeps, MayAdd};
    ghost use Rattle.reg_history.specs.inner.Serving.{ServingParts};

    ghost Value = { ServingParts };

    ghost view = { λ s. record { ended = s.ended; rows = s.rows; counts = s.counts; last = s.last; ledger = s.ledger } };

    ghost invariant = { λ s. (s.ended < rounds_most) × ((session : ℕ) → get_or s.counts session 0 ≤ s.rows) };
}

impl Serving {
    /// The first round, if its line can stand behind these carry lines.
    pub(crate) fn begin(
        alloc: Global,
        carried: &[Declared],
        told: &ToldRound,
    ) -> Result<Option<Serving>, NoMemory>
        requires { IsRising carried.now }
        ensures { IfOk result (λ begins. MatchOption begins
            (OpensRound (opening_of told.now.base carried.now) 0 told.now → ⊥)
            (λ serving. OpensRound (opening_of told.now.base carried.now) 0 told.now
            × KeepsRun serving (opening_of told.now.base carried.now) [] (begun told.now))) }
    {
        if told.number != 0 || told.base > 1 << 34 || !all_below(carried, told.base) {
            return Ok(None);
        }
        let Some(sizes) = sizes_of(told, carried.len() as u64) else {
            return Ok(None);
        };
        let ledger = Ledger::open(alloc, sizes, told.base, carried)?;
        Ok(Some(Serving {
            ended: 0,
            rows: 0,
            counts: [0; SESSIONS],
            last: None,
            ledger,
        }))
    }

    /// Whether a round's line can stand where the rounds so far have ended. If it can, its round is begun.
    pub(crate) fn next_round(&mut self, told: &ToldRound) -> bool
        ensures opens { (opening : Opening) (ended : List RoundRows) (now : RoundRows) → KeepsRun self.old opening ended now
            → (IsTrue result ↔ OpensRound (closing opening (ended ++ now ∷ [])) (length ended + 1) told.now) }
        ensures begun { result ≡ true → (opening : Opening) (ended : List RoundRows) (now : RoundRows) → KeepsRun self.old opening ended now
            → KeepsRun self.new opening (ended ++ now ∷ []) (begun told.now) }
        ensures rows { self.new.rows ≡ self.old.rows }
    {
        if told.number >= ROUNDS
            || told.number != self.ended + 1
            || told.base != self.ledger.point()
        {
            return false;
        }
        let Some(sizes) = sizes_of(told, self.ledger.live_count()) else {
            return false;
        };
        self.ledger.reopen(sizes);
        self.ended += 1;
        self.counts = [0; SESSIONS];
        self.last = None;
        true
    }

    /// Why a row can't stand, or that it stands; then it is added.
    pub(crate) fn row(&mut self, alloc: Global, row: &ToldRow) -> Result<Option<CheckWhy>, NoMemory>
        requires { self.old.rows < 2 ^ 63 }
        ensures told { IfOk result (λ why. (opening : Opening) (ended : List RoundRows) (now : RoundRows) → KeepsRun self.old opening ended now → IsToldRowValue row.now
            → MatchOption why (RowStands (closing opening ended) now row.now × KeepsRun self.new opening ended (longer now row.now))
            (RowFails (closing opening ended) now row.now)) }
        ensures rows { self.new.rows ≤ self.old.rows + 1 }
    {
        if !self.session_stands(row) {
            return Ok(Some(CheckWhy::Session));
        }
        if !self.order_stands(row) {
            return Ok(Some(CheckWhy::Order));
        }
        if !self.point_stands(row) {
            return Ok(Some(CheckWhy::Point));
        }
        if !self.ledger.reply_stands(alloc, &row.call, &row.reply)? {
            return Ok(Some(CheckWhy::Reply));
        }
        self.add(row)?;
        Ok(None)
    }

    /// Whether these are the numbers of the end line.
    pub(crate) fn ends(&self, rows: u64, live: u64) -> bool
        ensures { (opening : Opening) (ended : List RoundRows) (now : RoundRows) → KeepsRun self.now opening ended now
            → (IsTrue result ↔ HasEndNumbers opening (ended ++ now ∷ []) rows live) }
    {
        rows == self.rows && live == self.ledger.live_count()
    }

    fn session_stands(&self, row: &ToldRow) -> bool
        ensures stands { (opening : Opening) (ended : List RoundRows) (now : RoundRows) → KeepsRun self.now opening ended now
            → (IsTrue result ↔ RowOwes (closing opening ended) now row.now whys.Session) }
        ensures within { IsTrue result → row.now.session < callers_most }
    {
        row.session < self.ledger.sizes().callers() as u64
            && row.number == self.counts[row.session as usize]
    }

    fn order_stands(&self, row: &ToldRow) -> bool
        ensures stands { (opening : Opening) (ended : List RoundRows) (now : RoundRows) → KeepsRun self.now opening ended now
            → (IsTrue result ↔ RowOwes (closing opening ended) now row.now whys.Order) }
    {
        match &self.last {
            None => true,
            Some(last) => is_after(last, &last_row(row)),
        }
    }

    fn point_stands(&self, row: &ToldRow) -> bool
        ensures stands { (opening : Opening) (ended : List RoundRows) (now : RoundRows) → KeepsRun self.now opening ended now
            → (IsTrue result ↔ RowOwes (closing opening ended) now row.now whys.Point) }
        ensures room { IsTrue result → IsSome (update_of row.now.call (reply_in row.now.reply))
            → self.now.ledger.declared + self.now.ledger.withdrawn < self.now.ledger.limits.log }
    {
        let accepted = update_in(row).is_some() as u64;
        row.point == self.ledger.point() + accepted && row.point <= self.ledger.end()
    }

    // Adds a row that stands.
    fn add(&mut self, row: &ToldRow) -> Result<(), NoMemory>
        requires rows { self.old.rows < 2 ^ 63 }
        requires session { row.now.session < callers_most }
        requires room { IsSome (update_of row.now.call (reply_in row.now.reply))
            → self.old.ledger.declared + self.old.ledger.withdrawn < self.old.ledger.limits.log }
        ensures served { OnOk result ((opening : Opening) (ended : List RoundRows) (now : RoundRows) → KeepsRun self.old opening ended now → IsToldRowValue row.now
            → RowStands (closing opening ended) now row.now → KeepsRun self.new opening ended (longer now row.now)) }
        ensures rows { self.new.rows ≤ self.old.rows + 1 }
    {
        add_update(&mut self.ledger, update_in(row))?;
        self.rows += 1;
        self.counts[row.session as usize] += 1;
        self.last = Some(last_row(row));
        Ok(())
    }
}

// The sizes of a round, if they are in range and have room for the live declarations and for the ids.
fn sizes_of(told: &ToldRound, live: u64) -> Option<Sizes>
    requires { told.now.base ≤ 2 ^ 34 }
    ensures found { IfSome result (λ sizes. (sizes ≡ told_limits told.now) × HasRoom told.now live) }
    ensures none { IfNone result (HasRoom told.now live → ⊥) }
{
    let entries = u32::try_from(told.entries).ok()?;
    let log = u32::try_from(told.log).ok()?;
    let callers = u32::try_from(told.callers).ok()?;
    let sizes = Sizes::new(entries, log, BITS_USUAL, callers)?;
    if live > told.entries || told.base > (1 << 34) - told.log {
        return None;
    }
    Some(sizes)
}

/// Whether all ids of a list by rising id are below this one.
pub(crate) fn all_below(list: &[Declared], id: u64) -> bool
    requires { IsRising list.now }
    ensures { IsTrue result ↔ All (λ (d : ADeclared). d.id < id) list.now }
{
    match list {
        [] => true,
        [.., last] => last.id < id,
    }
}

// The update that a row makes, if it is accepted.
fn update_in(row: &ToldRow) -> Option<Update>
    ensures { result ≡ update_of row.now.call (reply_in row.now.reply) }
{
    match (row.call, &row.reply) {
        (Call::Declare(unit), ToldReply::Plain(Reply::Id(_))) => Some(Update::Decl(unit)),
        (Call::Withdraw(id), ToldReply::Plain(Reply::Withdrawn(_))) => Some(Update::Wd(id)),
        _ => None,
    }
}

// Adds the update of a row, if it makes one.
fn add_update(ledger: &mut Ledger, update: Option<Update>) -> Result<(), NoMemory>
    requires { IsSome update → ledger.old.declared + ledger.old.withdrawn < ledger.old.limits.log }
    ensures { OnOk result ((r : Registry) → Keeps ledger.old r → IfSome update (MayAdd r) → Keeps ledger.new (record r { log = r.log ++ option_to_list update })) }
{
    match update {
        Some(update) => ledger.add(update),
        None => Ok(()),
    }
}

fn last_row(row: &ToldRow) -> LastRow
    ensures { result ≡ last_of (row_in row.now) }
{
    LastRow {
        point: row.point,
        refused: update_in(row).is_none(),
        session: row.session,
        number: row.number,
    }
}

// Whether a row comes after another in the order of rows.
fn is_after(last: &LastRow, row: &LastRow) -> bool
    ensures { (a b : ARow) → last.now ≡ last_of a → row.now ≡ last_of b → (IsTrue result ↔ (row_cmp a b ≡ LessThan)) }
{
    last.cmp(row).is_lt()
}
