// The table under its rule, and one caller of it.
ghost use Rattle.std.specs.Prelude.{◌≡◌, ◌+◌, ◌<◌, ◌≤◌, ◌^◌, [], length};
ghost use Rattle.reg_words.specs.Memory.{PIN, HEAD, CODE, STAMP, NEXT, GIVE, LOG, NOTE, start};
ghost use Rattle.reg_rule.specs.inner.ChainParts.{head_cell, next_cell};
ghost use Rattle.reg_rule.specs.Fresh.{fresh};
ghost use Rattle.reg_rule.specs.inner.Rule.{sizes};

use crate::remembered::Remembered;
use crate::rule::OneRegistry;
use crate::view::{Key, View};
use atomic_table::{Seat, Table};
use reg_model::{Carried, Sizes};
use std::alloc::Global;
use std::marker::Model;

/// The shared words. Contracts see which table it is, and what it was made for.
#[derive(Drop)]
pub struct Words {
    pub(crate) table: Table<(), View, Key, OneRegistry, Global>,
    pub(crate) sizes: Sizes,
    pub(crate) carried: Carried,
    /// How many heads there are: one for each bucket of each table.
    pub(crate) heads: usize,
}

impl Model for Words {
    ghost use Rattle.std.specs.Prelude.{◌≡◌, ◌≤◌, ◌+◌, ◌*◌, ◌^◌, length};
    ghost use Rattle.atomic_table.specs.Seated.{TableId};
    ghost use Rattle.reg_words.specs.Memory.{whole};
    ghost use Rattle.reg_rule.specs.declared.view.Key.{Key};
    ghost use Rattle.reg_rule.specs.inner.Rule.{sizes as areas};

    ghost Value = { TableId × Key };

    ghost view = { λ w. (w.table.shared.table_id, w.table.shared.key) };

    ghost invariant = { λ w. (w.table.shared.table_id.words ≡ 1 + whole (areas w.table.shared.key)) × (w.table.shared.table_id.slots ≡ 0) × (w.sizes ≡ w.table.shared.key.sizes) × (w.table.shared.key.entries ≡ w.table.shared.key.sizes.entries) × (w.heads ≡ 4 * 2 ^ w.table.shared.key.sizes.bits) × (w.heads ≤ 262144) × (w.carried ≡ w.table.shared.key.carried) × (w.table.shared.key.carried.base + w.table.shared.key.sizes.log ≤ 2 ^ 34) × (length w.table.shared.key.carried.list ≤ w.table.shared.key.entries) };
}

/// One caller. Contracts see which table it is of, and what it knows.
#[derive(Drop)]
pub struct Pass {
    pub(crate) seat: Seat<(), View>,
    pub(crate) seen: u32,
    pub(crate) hand: Option<u32>,
    pub(crate) remembered: Remembered,
}

impl Model for Pass {
    ghost use Rattle.atomic_table.specs.Seated.{TableId};
    ghost use Rattle.reg_rule.specs.declared.view.View.{View};
    ghost use Rattle.reg_rule.specs.inner.Plays.{Remembers};

    ghost Value = { TableId × View };

    ghost view = { λ p. (p.seat.table_id, p.seat.me.0) };

    ghost invariant = { λ p. Remembers p.seen p.hand p.remembered p.seat.me };
}

impl Words {
    /// The sizes of the round.
    pub fn sizes(&self) -> &Sizes
        ensures sizes { result.now ≡ self.now.1.sizes }
        ensures entries { self.now.1.entries ≡ self.now.1.sizes.entries }
    {
        &self.sizes
    }

    /// What was carried into the round.
    pub fn carried(&self) -> &Carried
        ensures carried { result.now ≡ self.now.1.carried }
        ensures ids { self.now.1.carried.base + self.now.1.sizes.log ≤ 2 ^ 34 }
        ensures room { length self.now.1.carried.list ≤ self.now.1.entries }
    {
        &self.carried
    }

    // Where the pin of a session is.
    pub(crate) fn pin_at(&self, seat: u32) -> usize
        ensures { result ≡ start (sizes self.now.1) PIN + seat }
    {
        4 + seat as usize
    }

    // Where the head of a bucket is.
    pub(crate) fn head_at(&self, table: u32, bucket: u32) -> usize
        requires table { table < 4 }
        requires bucket { bucket < 2 ^ self.now.1.sizes.bits }
        ensures { result ≡ start (sizes self.now.1) HEAD + head_cell self.now.1.sizes.bits table bucket }
    {
        4 + self.sizes.callers() as usize + table as usize * (self.heads / 4) + bucket as usize
    }

    // Where the next word of an entry in a table is.
    pub(crate) fn next_at(&self, table: u32, entry: u32) -> usize
        requires table { table < 4 }
        requires entry { entry < self.now.1.entries }
        ensures { result ≡ start (sizes self.now.1) NEXT + next_cell self.now.1.entries table entry }
    {
        4 + self.sizes.callers() as usize
            + self.heads
            + 2 * self.sizes.entries() as usize
            + table as usize * self.sizes.entries() as usize
            + entry as usize
    }

    // Where the code of an entry is.
    pub(crate) fn code_at(&self, entry: u32) -> usize
        requires { entry < self.now.1.entries }
        ensures { result ≡ start (sizes self.now.1) CODE + entry }
    {
        4 + self.sizes.callers() as usize + self.heads + entry as usize
    }

    // Where the stamp of an entry is.
    pub(crate) fn stamp_at(&self, entry: u32) -> usize
        requires { entry < self.now.1.entries }
        ensures { result ≡ start (sizes self.now.1) STAMP + entry }
    {
        4 + self.sizes.callers() as usize
            + self.heads
            + self.sizes.entries() as usize
            + entry as usize
    }

    // Where a place of the ring is.
    pub(crate) fn give_at(&self, place: u32) -> usize
        ensures { result ≡ start (sizes self.now.1) GIVE + place }
    {
        4 + self.sizes.callers() as usize
            + self.heads
            + 6 * self.sizes.entries() as usize
            + place as usize
    }

    // Where a place of the log is.
    pub(crate) fn log_at(&self, place: u32) -> usize
        requires { place < self.now.1.sizes.log }
        ensures { result ≡ start (sizes self.now.1) LOG + place }
    {
        4 + self.sizes.callers() as usize
            + self.heads
            + 7 * self.sizes.entries() as usize
            + place as usize
    }

    // Where the note of a place is.
    pub(crate) fn note_at(&self, place: u32) -> usize
        requires { place < self.now.1.sizes.log }
        ensures { result ≡ start (sizes self.now.1) NOTE + place }
    {
        4 + self.sizes.callers() as usize
            + self.heads
            + 7 * self.sizes.entries() as usize
            + self.sizes.log() as usize
            + place as usize
    }
}

impl Pass {
    // The new pass of a session.
    pub(crate) fn new(seat: Seat<(), View>, number: u32, base: u64) -> Pass
        requires seat { seat.me ≡ (fresh seat.me.0.key number 1, []) }
        requires number { number < seat.me.0.key.sizes.callers }
        requires base { (base ≡ seat.me.0.key.carried.base) × (base ≤ 2 ^ 34) }
        ensures { result ≡ (seat.table_id, seat.me.0) }
    {
        Pass {
            seat,
            seen: 0,
            hand: None,
            remembered: Remembered::new(number, base),
        }
    }
}
