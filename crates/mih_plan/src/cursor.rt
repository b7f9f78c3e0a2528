ghost use Rattle.std.specs.Prelude.{◌≡◌, ◌+◌, ◌^◌, ◌<◌, ◌≤◌, [], ◌∷◌, IfOk, IfSome, IfNone};
ghost use Rattle.mih_plan.specs.Buckets.{plan};
ghost use Rattle.mih_plan.specs.inner.Walks.{probes_from, limit_of, start_of};

use crate::probe::{Plan, Probe, bucket_of};
use crate::search::{Block, first_near};
use iscc_header::{Items, NoMemory};
use std::alloc::Global;
use std::marker::Model;

/// The probes of a plan that are still to come. Takes no memory. Contracts see their list.
#[derive(Debug, Drop)]
pub struct Probes {
    body: u64,
    radius: u32,
    bits: u32,
    // The table, and the block of buckets there, from which on the next probe is looked for.
    table: u32,
    from: Block,
}

impl Model for Probes {
    ghost use Rattle.std.specs.Prelude.{◌<◌, ◌≤◌, ◌^◌, List};
    ghost use Rattle.mih_plan.specs.declared.probe.Probe.{Probe as AProbe};
    ghost use Rattle.mih_plan.specs.inner.Walks.{probes_from, start_of};

    ghost Value = { List AProbe };

    ghost view = { λ p. probes_from p.body p.radius p.bits p.table (start_of p.from) };

    ghost invariant = { λ p. (4 ≤ p.bits) × (p.bits ≤ 16) × (p.table < 4) × (p.from.height ≤ p.bits) × (start_of p.from ≤ 2 ^ p.bits) };
}

impl Probes {
    /// All probes of the plan for a body and a radius.
    pub fn of(body: u64, radius: u32, bits: u32) -> Probes
        requires least { 4 ≤ bits }
        requires most { bits ≤ 16 }
        requires radius { radius ≤ 15 }
        ensures all { result ≡ plan body radius bits }
    {
        Probes {
            body,
            radius,
            bits,
            table: 0,
            from: whole_table(bits),
        }
    }

    /// Takes the next probe, if one is left.
    pub fn next_probe(&mut self) -> Option<Probe>
        ensures first { IfSome result (λ probe. self.old ≡ probe ∷ self.new) }
        ensures end { IfNone result (self.old ≡ []) }
        ensures stays { IfNone result (self.new ≡ []) }
    {
        let next = first_probe(self.body, self.radius, self.bits, self.table, self.from)?;
        self.table = next.probe.table;
        self.from = next.from;
        Some(next.probe)
    }
}

/// The plan of a query: which buckets a body within the radius can stand in.
///
/// With a radius of 4q + a, a below 4, these are for the first a + 1 tables the buckets within q bits of the body's own, and
/// for the other tables those within q - 1 bits; the others have none where q is 0. The greatest plan, of radius 15 and 16
/// bits, has 2,788 probes.
pub fn plan(alloc: Global, body: u64, radius: u32, bits: u32) -> Result<Plan, NoMemory>
    requires least { 4 ≤ bits }
    requires most { bits ≤ 16 }
    requires radius { radius ≤ 15 }
    ensures ok { IfOk result (λ list. list ≡ plan body radius bits) }
{
    let mut list = Items::new(alloc);
    let mut probes = Probes::of(body, radius, bits);
    while let Some(probe) = probes.next_probe() {
        list.push(probe)?;
    }
    Ok(list)
}

// A probe, and the block of its table from which on the next is looked for.
#[derive(Clone, Copy, Debug)]
struct Next {
    probe: Probe,
    from: Block,
}

// The first probe from this block of this table on.
fn first_probe(body: u64, radius: u32, bits: u32, table: u32, from: Block) -> Option<Next>
    requires least { 4 ≤ bits }
    requires most { bits ≤ 16 }
    requires table { table < 4 }
    requires height { from.height ≤ bits }
    requires start { start_of from ≤ 2 ^ bits }
    ensures first { IfSome result (λ next. probes_from body radius bits table (start_of from) ≡ next.probe ∷ probes_from body radius bits next.probe.table (start_of next.from)) }
    ensures table { IfSome result (λ next. next.probe.table < 4) }
    ensures height { IfSome result (λ next. next.from.height ≤ bits) }
    ensures start { IfSome result (λ next. start_of next.from ≤ 2 ^ bits) }
    ensures none { IfNone result (probes_from body radius bits table (start_of from) ≡ []) }
{
    let centre = bucket_of(body, table, bits);
    if let Some(near) = first_near(centre, limit_of(radius, table), from, bits) {
        let probe = Probe {
            table,
            bucket: near.bucket,
        };
        return Some(Next {
            probe,
            from: near.next,
        });
    }
    if table == 3 {
        return None;
    }
    first_probe(body, radius, bits, table + 1, whole_table(bits))
}

// All buckets of a table.
fn whole_table(bits: u32) -> Block
    ensures start { start_of result ≡ 0 }
    ensures height { result.height ≡ bits }
{
    Block {
        common: 0,
        height: bits,
    }
}

// In a table's probes fewer bits than this differ.
fn limit_of(radius: u32, table: u32) -> u32
    ensures { result ≡ limit_of radius table }
{
    let quarter = radius / 4;
    if table <= radius % 4 {
        quarter + 1
    } else {
        quarter
    }
}
