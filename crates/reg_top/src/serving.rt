ghost use Rattle.std.specs.Prelude.{◌≡◌, [], List, map};
ghost use Rattle.reg_model.specs.Runs.{RoundRows};
ghost use Rattle.reg_session.specs.Outside.{outside, shelf_view, sink_view};
ghost use Rattle.reg_top.specs.Words.{IsSideCommand};
ghost use Rattle.reg_top.specs.commands.Run.{accounts_served};
ghost use Rattle.reg_top.specs.Outcomes.{IsOutcome, IsServedStatus};

use crate::args::Args;
use crate::commands::make::make;
use crate::commands::run::run_command;
use crate::served::Served;
use crate::words::work_asked;
use reg_session::{Gate, Seals, Shelf, Sink};
use std::alloc::Global;
use std::sync::Wait;
use std::thread::Threads;

/// Does the commands that serve calls, which are `run` and `make`, and tells words of no form.
pub(crate) fn serving<F: Shelf, K: Sink, G: Gate, R: Threads + Wait + Sync>(
    rt: &R,
    alloc: Global,
    words: &Args,
    shelf: &mut F,
    sink: &mut K,
    gate: &G,
    seals: &mut Seals<Served>,
) -> u8
    requires other { IsSideCommand words.now → ⊥ }
    requires empty { seals.old ≡ [] }
    ensures { (served : List RoundRows) × IsOutcome words.now
        (outside (shelf_view (F.files shelf.old) (F.fetch_faults shelf.old) (F.put_faults shelf.old)) (sink_view (K.taken sink.old) (K.faults sink.old)))
        (outside (shelf_view (F.files shelf.new) (F.fetch_faults shelf.new) (F.put_faults shelf.new)) (sink_view (K.taken sink.new) (K.faults sink.new))) served result
        × (IsServedStatus result → seals.new ≡ map accounts_served served) }
{
    match work_asked(words) {
        Some(work) => make(rt, alloc, &work, sink, gate, seals).number(),
        None => run_command(rt, alloc, words, shelf, sink, gate, seals),
    }
}
