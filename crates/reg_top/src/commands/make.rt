ghost use Rattle.std.specs.Prelude.{◌≡◌, [], List, IfOk, map};
ghost use Rattle.reg_model.specs.Runs.{RoundRows};
ghost use Rattle.reg_make.specs.Workloads.{IsWork};
ghost use Rattle.reg_requests.specs.Lines.{line};
ghost use Rattle.reg_session.specs.Outside.{ShelfView, outside, sink_view};
ghost use Rattle.reg_top.specs.Fetches.Command.{Make};
ghost use Rattle.reg_top.specs.commands.Make.{counts_text};
ghost use Rattle.reg_top.specs.commands.Run.{accounts_served};
ghost use Rattle.reg_top.specs.inner.Endings.{Ends, IsServedEnding};

use crate::ending::{Declined, Ending, written};
use crate::fault_line::declined;
use crate::served::{Served, keep};
use crate::write::write_all;
use iscc_header::NoMemory;
use reg_make::{Counts, WorkRun, Workload, count_work, serve_work};
use reg_requests::{print_word, print_word_number};
use reg_session::{Gate, Seals, Sink};
use std::alloc::Global;
use std::sync::Wait;
use std::thread::Threads;

/// `make SEED N S`: serves a generated workload, and writes the line with the counts of its rows.
pub(crate) fn make<K: Sink, G: Gate, R: Threads + Wait + Sync>(
    rt: &R,
    alloc: Global,
    work: &Workload,
    sink: &mut K,
    gate: &G,
    seals: &mut Seals<Served>,
) -> Ending
    requires range { IsWork work.now }
    requires empty { seals.old ≡ [] }
    ensures { (served : List RoundRows)
        × ((shelf : ShelfView) → Ends (Make work.now)
        (outside shelf (sink_view (K.taken sink.old) (K.faults sink.old))) (outside shelf (sink_view (K.taken sink.new) (K.faults sink.new))) served result)
        × (IsServedEnding result → seals.new ≡ map accounts_served served) }
{
    let run = match serve_work::<Served, G, R>(rt, alloc, work, gate) {
        Ok(run) => run,
        Err(NoMemory) => return declined(sink, Declined::NoMemory),
    };
    let WorkRun {
        first,
        first_seal,
        second,
        second_seal,
    } = run;
    let counts = count_work(&first, &second);
    keep(seals, first_seal);
    keep(seals, second_seal);
    match counts_line(alloc, counts) {
        Ok(line) => written(write_all(sink, line.as_slice())),
        Err(NoMemory) => declined(sink, Declined::NoMemory),
    }
}

// The line with these counts.
fn counts_line(alloc: Global, counts: Counts) -> Result<Vec<u8>, NoMemory>
    ensures { IfOk result (λ text. text.items ≡ line (counts_text counts)) }
{
    let mut out = Vec::new(alloc);
    print_word_number(b"made calls ", counts.calls, &mut out)?;
    print_word_number(b" accepted ", counts.accepted, &mut out)?;
    print_word_number(b" live ", counts.live, &mut out)?;
    print_word_number(b" hits ", counts.hits, &mut out)?;
    print_word(b"\n", &mut out)?;
    Ok(out)
}
