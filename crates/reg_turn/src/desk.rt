ghost use Rattle.std.specs.Prelude.{◌≡◌, ◌≤◌, ◌<◌, [], ◌⊎◌, All, IfOk, IfErr, MatchResult, None, Some, true, map, length, not, find, ◌==◌};
ghost use Rattle.std.specs.List.{list_any, range_with_len};
ghost use Rattle.reg_model.specs.declared.call.Call.{Call};
ghost use Rattle.reg_model.specs.Rows.{all_rows};
ghost use Rattle.reg_model.specs.Live.{opening_after};
ghost use Rattle.reg_model.specs.Desks.{new_passes, accounts_of, close_refusal, Closes, HasNoSnapshot};
ghost use Rattle.reg_model.specs.Registry.{registry_at};
ghost use Rattle.reg_turn.specs.Turns.{TurnView, IsPassOf};
ghost use Rattle.reg_turn.specs.PlainRows.{IsPlainRow};
ghost use Rattle.reg_turn.specs.inner.OneTurn.{first_view};
ghost use Rattle.reg_turn.specs.inner.Steps.{turn_view, Took, HasTurn, Gives, view_after, Gathered};

use crate::passes::{TurnPass, TurnSeal};
use crate::rule::{Deal, Gather, Give, Keep, OneTurn, Silent, Take, Telling};
use crate::view::{Key, View};
use atomic_table::{Seat, Table};
use iscc_header::{NoMemory, Unit64};
use reg_model::{
    Answer, Call, Carried, CloseRefusal, CloseWhy, Closed, Desk, Plain, Sizes, StartFault,
};
use std::alloc::{AllocError, Global};
use std::marker::{Brand, Model};
use std::sync::Wait;
use std::thread;

type Turns = Table<Option<Plain>, View, Key, OneTurn, Global>;

/// A registry that one caller at a time has. Every call but `start` and `close` waits for its turn.
#[derive(Drop)]
pub struct TurnDesk {
    table: Turns,
    callers: u32,
}

impl Model for TurnDesk {
    ghost use Rattle.std.specs.Prelude.{◌≡◌, ◌≤◌};
    ghost use Rattle.reg_turn.specs.Turns.{TurnView};
    ghost use Rattle.reg_turn.specs.inner.Steps.{turn_view};

    ghost Value = { TurnView };

    ghost view = { λ d. turn_view d.table.shared.table_id d.table.shared.key };

    ghost invariant = { λ d. (d.table.shared.table_id.words ≡ 1) × (d.table.shared.table_id.slots ≡ 1) × (d.callers ≡ d.table.shared.key.sizes.callers) × (1 ≤ d.callers) };
}

impl Desk for TurnDesk {
    type Pass = TurnPass;

    type Seal = TurnSeal;

    ghost limits = { λ desk. desk.limits };

    ghost opening = { λ desk. desk.opening };

    ghost pass_view = { λ pass. pass.pass };

    ghost accounts = { λ seal. seal };

    ghost fit = { IsPassOf };

    fn start(
        alloc: Global,
        sizes: &Sizes,
        carried: &Carried,
    ) -> Result<(TurnDesk, Vec<TurnPass>), StartFault> {
        let plain = Plain::start(alloc, sizes, carried)?;
        let callers = sizes.callers();
        let (table, seat) = table_of(alloc, sizes, carried, plain)?;
        let passes = deal(alloc, &table, seat, callers)?;
        Ok((TurnDesk { table, callers }, passes))
    }

    fn declare<R: Wait>(&self, rt: &R, pass: &mut TurnPass, unit: Unit64) -> Answer {
        let mut plain = take(rt, &self.table, &mut pass.seat);
        let copy = unit;
        let answer = plain.declare(unit);
        give::<Brand>(
            &self.table,
            &mut pass.seat,
            plain,
            Call::Declare(copy),
            &answer,
        );
        answer
    }

    fn withdraw<R: Wait>(&self, rt: &R, pass: &mut TurnPass, id: u64) -> Answer {
        let mut plain = take(rt, &self.table, &mut pass.seat);
        let answer = plain.withdraw(id);
        give::<Brand>(
            &self.table,
            &mut pass.seat,
            plain,
            Call::Withdraw(id),
            &answer,
        );
        answer
    }

    fn show<R: Wait>(&self, rt: &R, pass: &mut TurnPass, id: u64) -> Answer {
        let plain = take(rt, &self.table, &mut pass.seat);
        let answer = plain.show(id);
        give::<Brand>(&self.table, &mut pass.seat, plain, Call::Show(id), &answer);
        answer
    }

    fn count<R: Wait>(&self, rt: &R, pass: &mut TurnPass) -> Answer {
        let plain = take(rt, &self.table, &mut pass.seat);
        let answer = plain.count();
        give::<Brand>(&self.table, &mut pass.seat, plain, Call::Count, &answer);
        answer
    }

    fn after<R: Wait>(&self, rt: &R, pass: &mut TurnPass, point: u64) -> Answer {
        let plain = take(rt, &self.table, &mut pass.seat);
        let answer = plain.after(point);
        give::<Brand>(
            &self.table,
            &mut pass.seat,
            plain,
            Call::After(point),
            &answer,
        );
        answer
    }

    fn near<R: Wait>(
        &self,
        rt: &R,
        alloc: Global,
        pass: &mut TurnPass,
        unit: Unit64,
        radius: u32,
    ) -> Result<Answer, NoMemory> {
        let copy = unit;
        let plain = take(rt, &self.table, &mut pass.seat);
        match plain.near(alloc, unit, radius) {
            Ok(answer) => {
                give::<Brand>(
                    &self.table,
                    &mut pass.seat,
                    plain,
                    Call::Near(copy, radius),
                    &answer,
                );
                Ok(answer)
            }
            Err(fault) => {
                give_back(&self.table, &mut pass.seat, plain);
                Err(fault)
            }
        }
    }

    /// Also, each row has the reply that the slow registry gives at its place: a declaration, or the withdrawal of a live id,
    /// is refused for want of a place in the log exactly where the log is full, and a declaration for want of entries exactly
    /// where the log isn't full and each entry has a live declaration.
    fn close(
        self,
        _alloc: Global,
        passes: Vec<TurnPass>,
    ) -> Result<(Closed, TurnSeal), CloseRefusal<TurnDesk, TurnPass>>
        requires fit { All (IsPassOf self) passes.items }
        requires ended { All HasNoSnapshot (map (λ pass. pass.pass) passes.items) }
        ensures closed { IfOk result (λ ended. Closes self.limits self.opening ended.0 ended.1) }
        ensures plain { IfOk result (λ ended. All (IsPlainRow self.limits self.opening ended.0.log) (all_rows ended.1)) }
        ensures seal { IfOk result (λ ended. ended.1 ≡ accounts_of self.limits.callers (map (λ pass. pass.pass) passes.items)) }
        ensures back { IfErr result (λ refusal. (refusal.desk ≡ self) × (refusal.passes.items ≡ passes.items)) }
        ensures cause { MatchResult result
            (λ _. close_refusal self.limits.callers (map (λ pass. pass.pass) passes.items) ≡ None)
            (λ refusal. (close_refusal self.limits.callers (map (λ pass. pass.pass) passes.items) ≡ Some refusal.why)
            ⊎ ((refusal.why ≡ CloseWhy.NoMemory) × (close_refusal self.limits.callers (map (λ pass. pass.pass) passes.items) ≡ None))) }
    {
        if let Some(number) = missing(self.callers, &passes) {
            return Err(CloseRefusal {
                desk: self,
                passes,
                why: CloseWhy::Missing { number },
            });
        }
        let TurnDesk { table, callers: _ } = self;
        let mut seat = gather(&table, passes);
        let badge = table.shared.split_seat::<Keep>(&mut seat).into_badge();
        let mut closed = table.close_with(seat);
        let slot = closed.take(0);
        closed.free();
        let Some(plain) = slot else { unreachable!() };
        Ok((ended(plain), TurnSeal { badge }))
    }
}

// A table with this registry in its slot, and the first seat of it.
fn table_of(
    alloc: Global,
    sizes: &Sizes,
    carried: &Carried,
    plain: Plain,
) -> Result<(Turns, Seat<Option<Plain>, View>), AllocError>
    requires { plain ≡ registry_at sizes.now carried.now [] }
    ensures table { IfOk result (λ made. (made.0.shared.table_id.words ≡ 1) × (made.0.shared.table_id.slots ≡ 1) × (made.1.table_id ≡ made.0.shared.table_id)) }
    ensures key { IfOk result (λ made. made.0.shared.key ≡ record { sizes = sizes.now; carried = carried.now }) }
    ensures seat { IfOk result (λ made. made.1.me ≡ (first_view made.0.shared.key, [])) }
{
    let Ok(carried) = carried.try_clone(alloc) else {
        return Err(AllocError);
    };
    let key = Key {
        sizes: *sizes,
        carried,
    };
    let mut slots = Vec::with_capacity(alloc, 1)?;
    slots.push(Some(plain))?;
    match Table::new(alloc, &[0], slots, &key) {
        Ok(made) => Ok(made),
        Err(_) => Err(AllocError),
    }
}

// Deals a pass to each session, in the order of their numbers.
fn deal(
    alloc: Global,
    table: &Turns,
    mut seat: Seat<Option<Plain>, View>,
    callers: u32,
) -> Result<Vec<TurnPass>, AllocError>
    requires table { (table.now.shared.table_id.words ≡ 1) × (seat.table_id ≡ table.now.shared.table_id) }
    requires seat { seat.me ≡ (first_view table.now.shared.key, []) }
    requires callers { callers ≡ table.now.shared.key.sizes.callers }
    ensures passes { IfOk result (λ passes. map (λ pass. pass.pass) passes.items ≡ new_passes table.now.shared.key.carried.base callers) }
    ensures desk { IfOk result (λ passes. All (IsPassOf (turn_view table.now.shared.table_id table.now.shared.key)) passes.items) }
{
    let mut passes = Vec::new(alloc);
    for number in 0..callers {
        let others = table.shared.split_seat::<Deal>(&mut seat);
        passes.push(TurnPass { seat, number })?;
        seat = others;
    }
    Ok(passes)
}

// Takes the turn, and the registry with it.
fn take<R: Wait>(rt: &R, table: &Turns, seat: &mut Seat<Option<Plain>, View>) -> Plain
    requires table { (table.now.shared.table_id.words ≡ 1) × (table.now.shared.table_id.slots ≡ 1) × (seat.old.table_id ≡ table.now.shared.table_id) }
    requires seat { (seat.old.me.0.live ≡ true) × (seat.old.me.1 ≡ []) × (0 < length seat.old.me.0.accounts) }
    ensures table { seat.new.table_id ≡ seat.old.table_id }
    ensures took { Took seat.old.me seat.new.me result }
{
    for _ in rt.forever() {
        if table.shared.compare_exchange::<Take>(seat, 0, 0, 1) == 0 {
            let Some(plain) = table.shared.exchange(seat, 0, None) else {
                unreachable!()
            };
            return plain;
        }
        thread::yield_now();
    }
    unreachable!()
}

// Gives the turn back, with the answer to a call.
fn give<T: Telling>(
    table: &Turns,
    seat: &mut Seat<Option<Plain>, View>,
    plain: Plain,
    _call: Call,
    _answer: &Answer,
)
    requires table { (table.now.shared.table_id.words ≡ 1) × (table.now.shared.table_id.slots ≡ 1) × (seat.old.table_id ≡ table.now.shared.table_id) }
    requires turn { HasTurn seat.old.me }
    requires told { Gives seat.old.me.0 plain T.served }
    ensures table { seat.new.table_id ≡ seat.old.table_id }
    ensures gave { seat.new.me ≡ (view_after seat.old.me.0 T.served, []) }
{
    let _ = table.shared.exchange(seat, 0, Some(plain));
    table.shared.store::<Give<T>>(seat, 0, 0);
}

// Gives the turn back without an answer.
fn give_back(table: &Turns, seat: &mut Seat<Option<Plain>, View>, plain: Plain)
    requires table { (table.now.shared.table_id.words ≡ 1) × (table.now.shared.table_id.slots ≡ 1) × (seat.old.table_id ≡ table.now.shared.table_id) }
    requires turn { HasTurn seat.old.me }
    requires kept { Gives seat.old.me.0 plain None }
    ensures table { seat.new.table_id ≡ seat.old.table_id }
    ensures gave { seat.new.me ≡ (view_after seat.old.me.0 None, []) }
{
    let _ = table.shared.exchange(seat, 0, Some(plain));
    table.shared.store::<Give<Silent>>(seat, 0, 0);
}

// The least number that no pass has.
fn missing(callers: u32, passes: &[TurnPass]) -> Option<u32>
    ensures { result ≡ find (λ number. not (list_any (λ pass. pass.pass.number == number) passes.now)) (range_with_len 0 callers) }
{
    for number in 0..callers {
        if !has_number(passes, number) {
            return Some(number);
        }
    }
    None
}

fn has_number(passes: &[TurnPass], number: u32) -> bool
    ensures { result ≡ list_any (λ pass. pass.pass.number == number) passes.now }
{
    passes.iter().any(|pass| pass.number() == number)
}

// Joins the seats of all passes into one, in their order.
fn gather(table: &Turns, mut passes: Vec<TurnPass>) -> Seat<Option<Plain>, View>
    requires table { (table.now.shared.table_id.words ≡ 1) × All (IsPassOf (turn_view table.now.shared.table_id table.now.shared.key)) passes.items }
    requires some { 0 < length passes.items }
    ensures table { result.table_id ≡ table.now.shared.table_id }
    ensures gathered { Gathered table.now.shared.key (map (λ pass. pass.pass) passes.items) result.me }
{
    let TurnPass {
        mut seat,
        number: _,
    } = passes.remove(0);
    while !passes.is_empty() {
        let TurnPass {
            seat: other,
            number: _,
        } = passes.remove(0);
        table.shared.join_seat::<Gather>(&mut seat, other);
    }
    seat
}

// What a round leaves.
fn ended(plain: Plain) -> Closed
    ensures log { result.log ≡ plain.log }
    ensures base { result.base ≡ plain.opening.base }
    ensures carried { result.carried ≡ opening_after plain.opening plain.log }
{
    let (log, carried) = plain.into_parts();
    Closed {
        base: carried.base() - log.as_slice().len() as u64,
        log,
        carried,
    }
}
