ghost use Rattle.std.specs.Prelude.{◌≡◌, List, ℕ, [], map};
ghost use Rattle.reg_model.specs.Runs.{RoundRows};
ghost use Rattle.reg_requests.specs.declared.items.Line.{Line as ALine};
ghost use Rattle.reg_requests.specs.Words.{line_words};
ghost use Rattle.reg_requests.specs.Requests.{ReadsLine};
ghost use Rattle.reg_requests.specs.TakenIsccs.{HasIsccText, TakesIscc};
ghost use Rattle.reg_make.specs.Workloads.{Work};
ghost use Rattle.reg_session.specs.Outside.{outside, shelf_view, sink_view};
ghost use Rattle.reg_top.specs.Fetches.{Plan};
ghost use Rattle.reg_top.specs.Fetches.Command.{Run, Make};
ghost use Rattle.reg_top.specs.Words.{IsForm, IsSideCommand};
ghost use Rattle.reg_top.specs.commands.Run.{accounts_served};
ghost use Rattle.reg_top.specs.Outcomes.{Writes, Saves, TakesLoneOutput, IsRefusalNumber, TellsRefusal, IsOutcome};

use crate::args::Args;
use crate::served::Served;
use crate::serving::serving;
use crate::side_commands::side;
use reg_session::{Gate, Seals, Shelf, Sink};
use std::alloc::Global;
use std::sync::Wait;
use std::thread::Threads;

/// Does what the words say, and answers the status: docs/FORMATS.md has the words and the statuses. The sessions of a `run`
/// have threads of their own, which wait for the gate, and for each other.
///
/// On status 5 the sink has a front of the output, or the line of the image that couldn't be saved, and on every other status but
/// 0 a line that tells it, or a front of that line where the sink failed. Nothing is put on the shelf but on status 0 and 5.
/// What the seals are on another status than 0, 8, 9 and 11 isn't told.
pub fn top<F: Shelf, K: Sink, G: Gate, R: Threads + Wait + Sync>(
    rt: &R,
    alloc: Global,
    words: &Args,
    shelf: &mut F,
    sink: &mut K,
    gate: &G,
    seals: &mut Seals<Served>,
) -> u8
    requires { seals.old ≡ [] }

    // The output holds one history: each call of the named files once, in its file's order and after all that its session had
    // seen, with the registry's reply there. The shelf has the image of what the last round leaves under the name to be saved, if
    // any, and all else as it was. For each round there is one seal of the desk, whose accounts are its sessions' rows.
    ensures run { (plan : Plan) → IsForm words.now (Run plan) → result ≡ 0 → (served : List RoundRows) × Writes (Run plan)
        (outside (shelf_view (F.files shelf.old) (F.fetch_faults shelf.old) (F.put_faults shelf.old)) (sink_view (K.taken sink.old) (K.faults sink.old)))
        (outside (shelf_view (F.files shelf.new) (F.fetch_faults shelf.new) (F.put_faults shelf.new)) (sink_view (K.taken sink.new) (K.faults sink.new))) served
        × Saves (Run plan)
        (outside (shelf_view (F.files shelf.old) (F.fetch_faults shelf.old) (F.put_faults shelf.old)) (sink_view (K.taken sink.old) (K.faults sink.old)))
        (outside (shelf_view (F.files shelf.new) (F.fetch_faults shelf.new) (F.put_faults shelf.new)) (sink_view (K.taken sink.new) (K.faults sink.new))) served
        × (seals.new ≡ map accounts_served served) }

    // Where there is one session the output is the one that the words and files have.
    ensures lone { (plan : Plan) → IsForm words.now (Run plan) → result ≡ 0 → TakesLoneOutput plan
        (outside (shelf_view (F.files shelf.old) (F.fetch_faults shelf.old) (F.put_faults shelf.old)) (sink_view (K.taken sink.old) (K.faults sink.old)))
        (outside (shelf_view (F.files shelf.new) (F.fetch_faults shelf.new) (F.put_faults shelf.new)) (sink_view (K.taken sink.new) (K.faults sink.new))) }

    // Where an image or a round is refused, its line is told, and there is one seal for each round before it.
    ensures refused { (plan : Plan) → IsForm words.now (Run plan) → IsRefusalNumber result → (served : List RoundRows) × TellsRefusal (Run plan)
        (outside (shelf_view (F.files shelf.old) (F.fetch_faults shelf.old) (F.put_faults shelf.old)) (sink_view (K.taken sink.old) (K.faults sink.old)))
        (outside (shelf_view (F.files shelf.new) (F.fetch_faults shelf.new) (F.put_faults shelf.new)) (sink_view (K.taken sink.new) (K.faults sink.new))) served result
        × (seals.new ≡ map accounts_served served) }

    // The line of a workload is counted from the rows of its rounds, for each of which there is a seal.
    ensures make { (work : Work) → IsForm words.now (Make work) → result ≡ 0 → (served : List RoundRows) × Writes (Make work)
        (outside (shelf_view (F.files shelf.old) (F.fetch_faults shelf.old) (F.put_faults shelf.old)) (sink_view (K.taken sink.old) (K.faults sink.old)))
        (outside (shelf_view (F.files shelf.new) (F.fetch_faults shelf.new) (F.put_faults shelf.new)) (sink_view (K.taken sink.new) (K.faults sink.new))) served
        × (seals.new ≡ map accounts_served served) }

    // A command that serves nothing leaves no seal.
    ensures seals { IsSideCommand words.now → seals.new ≡ [] }

    // The text of a `declare` or a `near` line is taken as an ISCC exactly where it stands for one.
    ensures text { (line text : List ℕ) (read : ALine) → ReadsLine line read → HasIsccText (line_words line) text → TakesIscc text read }

    // What is written by each command, and the cause of each status.
    ensures outcome { (served : List RoundRows) × IsOutcome words.now
        (outside (shelf_view (F.files shelf.old) (F.fetch_faults shelf.old) (F.put_faults shelf.old)) (sink_view (K.taken sink.old) (K.faults sink.old)))
        (outside (shelf_view (F.files shelf.new) (F.fetch_faults shelf.new) (F.put_faults shelf.new)) (sink_view (K.taken sink.new) (K.faults sink.new))) served result }
{
    match side(alloc, words, shelf, sink) {
        Some(status) => status,
        None => serving(rt, alloc, words, shelf, sink, gate, seals),
    }
}
