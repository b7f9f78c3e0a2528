ghost use Rattle.std.specs.Prelude.{◌≡◌, ◌≤◌, [], ◌++◌, List, IfOk, IfErr, length, map};
ghost use Rattle.std.specs.List.{AllZip};
ghost use Rattle.std.specs.Option.{option_map};
ghost use Rattle.reg_model.specs.Runs.{RoundRows};
ghost use Rattle.reg_make.specs.Workloads.{Work};
ghost use Rattle.reg_history.specs.History.{history_text};
ghost use Rattle.reg_history.specs.Rounds.{AreRoundsOf, IsRunOf};
ghost use Rattle.reg_session.specs.Outside.{outside, shelf_view, sink_view};
ghost use Rattle.reg_top.specs.Fetches.Command.{Run};
ghost use Rattle.reg_top.specs.Words.{IsMakeForm, IsSideCommand};
ghost use Rattle.reg_top.specs.commands.Run.{accounts_served};
ghost use Rattle.reg_top.specs.Outcomes.{IsOutcome, IsServedStatus};
ghost use Rattle.reg_top.specs.inner.Endings.{Ends, IsServedEnding};
ghost use Rattle.reg_top.specs.inner.RunPlans.{MayBeRun};
ghost use Rattle.reg_image.specs.declared.image.TheConstants.{DECLARED_MOST};
ghost use Rattle.reg_top.specs.inner.RunImages.{SavesAs};
ghost use Rattle.reg_top.specs.inner.RunRounds.{FitsRound, left_by, round_texts};
ghost use Rattle.reg_top.specs.inner.RunEndings.{IsServedRun, IsDeclinedRun, FinishesAs};

use crate::args::Args;
use crate::ending::{Declined, Ending, written};
use crate::fault_line::{declined, no_form, unread, unsaved};
use crate::replies::print_rounds;
use crate::run_files::{Given, Unread, read_given};
use crate::run_images::{image_left, opening_of};
use crate::run_rounds::{left_of, serve_rounds};
use crate::run_words::{RunPlan, run_plan};
use crate::served::Served;
use crate::write::write_all;
use iscc_header::{Items, NoMemory};
use reg_history::append_history;
use reg_model::{Carried, Round};
use reg_requests::Requests;
use reg_session::{Gate, PutFault, Seals, Shelf, Sink};
use std::alloc::Global;
use std::sync::Wait;
use std::thread::Threads;

// What a run makes: its output, and the image of what it leaves, where that is to be saved.
#[derive(Debug, Drop)]
struct Made {
    output: Vec<u8>,
    image: Option<Vec<u8>>,
}

/// `run`: serves the calls of request files round by round, a session for each file, and writes the replies and the history. It
/// begins with the image that it loads, if any, and saves that of what it leaves, if asked.
pub(crate) fn run_command<F: Shelf, K: Sink, G: Gate, R: Threads + Wait + Sync>(
    rt: &R,
    alloc: Global,
    words: &Args,
    shelf: &mut F,
    sink: &mut K,
    gate: &G,
    seals: &mut Seals<Served>,
) -> u8
    requires other { IsSideCommand words.now → ⊥ }
    requires made { (work : Work) → IsMakeForm words.now work → ⊥ }
    requires empty { seals.old ≡ [] }
    ensures { (served : List RoundRows) × IsOutcome words.now
        (outside (shelf_view (F.files shelf.old) (F.fetch_faults shelf.old) (F.put_faults shelf.old)) (sink_view (K.taken sink.old) (K.faults sink.old)))
        (outside (shelf_view (F.files shelf.new) (F.fetch_faults shelf.new) (F.put_faults shelf.new)) (sink_view (K.taken sink.new) (K.faults sink.new))) served result
        × (IsServedStatus result → seals.new ≡ map accounts_served served) }
{
    match run_plan(words) {
        Some(plan) => run(rt, alloc, &plan, shelf, sink, gate, seals).number(),
        None => no_form(sink),
    }
}

// Reads the files, serves their calls, saves the image, and writes the output. Both are in memory before the first byte of either is
// written.
fn run<F: Shelf, K: Sink, G: Gate, R: Threads + Wait + Sync>(
    rt: &R,
    alloc: Global,
    plan: &RunPlan<'_>,
    shelf: &mut F,
    sink: &mut K,
    gate: &G,
    seals: &mut Seals<Served>,
) -> Ending
    requires plan { MayBeRun plan.now.rounds }
    requires empty { seals.old ≡ [] }
    ensures { (served : List RoundRows) × Ends (Run plan.now)
        (outside (shelf_view (F.files shelf.old) (F.fetch_faults shelf.old) (F.put_faults shelf.old)) (sink_view (K.taken sink.old) (K.faults sink.old)))
        (outside (shelf_view (F.files shelf.new) (F.fetch_faults shelf.new) (F.put_faults shelf.new)) (sink_view (K.taken sink.new) (K.faults sink.new))) served result
        × (IsServedEnding result → seals.new ≡ map accounts_served served) }
{
    match read_given(alloc, plan, shelf) {
        Ok(given) => match make(rt, alloc, plan, &given, gate, seals) {
            Ok(made) => finish(plan, &made, shelf, sink),
            Err(why) => declined(sink, why),
        },
        Err(Unread::File { name, fault }) => unread(sink, fault, name),
        Err(Unread::NoMemory) => declined(sink, Declined::NoMemory),
    }
}

// Serves the rounds from what is given, and makes the output and the image.
fn make<G: Gate, R: Threads + Wait + Sync>(
    rt: &R,
    alloc: Global,
    plan: &RunPlan<'_>,
    given: &Given,
    gate: &G,
    seals: &mut Seals<Served>,
) -> Result<Made, Declined>
    requires plan { MayBeRun plan.now.rounds }
    requires lists { AllZip FitsRound plan.now.rounds given.now.lists }
    requires empty { seals.old ≡ [] }
    ensures made { IfOk result (λ made. IsServedRun plan.now (option_map (λ bytes. bytes.items) given.now.image) given.now.lists seals.new
        made.output.items (option_map (λ bytes. bytes.items) made.image)) }
    ensures why { IfErr result (IsDeclinedRun plan.now (option_map (λ bytes. bytes.items) given.now.image) given.now.lists seals.new) }
{
    let opening = opening_of(alloc, &given.image)?;
    let lists = given.lists.as_slice();
    let rounds = serve_rounds(rt, alloc, plan, &opening, lists, gate, seals)?;
    match print_run(alloc, plan, &opening, lists, rounds.as_slice()) {
        Ok(made) => Ok(made),
        Err(NoMemory) => Err(Declined::NoMemory),
    }
}

// The output of these rounds, and the image of what they leave.
fn print_run(
    alloc: Global,
    plan: &RunPlan<'_>,
    opening: &Carried,
    lists: &[Items<Requests>],
    rounds: &[Round],
) -> Result<Made, NoMemory>
    requires run { IsRunOf opening.now rounds.now }
    requires few { length (left_by opening.now rounds.now).list ≤ DECLARED_MOST }
    ensures output { IfOk result (λ made. (rows : List RoundRows) → AreRoundsOf opening.now rounds.now rows
        → made.output.items ≡ round_texts 0 lists.now rounds.now ++ history_text opening.now rows) }
    ensures image { IfOk result (λ made. SavesAs plan.now.save (left_by opening.now rounds.now) (option_map (λ bytes. bytes.items) made.image)) }
{
    let mut output = Vec::new(alloc);
    print_rounds(lists, rounds, &mut output)?;
    append_history(alloc, opening, rounds, &mut output)?;
    let image = image_left(alloc, plan, left_of(opening, rounds))?;
    Ok(Made { output, image })
}

// Saves the image under its name, if one is to be saved, and writes the output.
fn finish<F: Shelf, K: Sink>(plan: &RunPlan<'_>, made: &Made, shelf: &mut F, sink: &mut K) -> Ending
    ensures { FinishesAs plan.now.save (option_map (λ bytes. bytes.items) made.now.image) made.now.output.items
        (outside (shelf_view (F.files shelf.old) (F.fetch_faults shelf.old) (F.put_faults shelf.old)) (sink_view (K.taken sink.old) (K.faults sink.old)))
        (outside (shelf_view (F.files shelf.new) (F.fetch_faults shelf.new) (F.put_faults shelf.new)) (sink_view (K.taken sink.new) (K.faults sink.new))) result }
{
    let (Some(name), Some(image)) = (plan.save(), &made.image) else {
        return written(write_all(sink, made.output.as_slice()));
    };
    match shelf.put(name, image.as_slice()) {
        Ok(()) => written(write_all(sink, made.output.as_slice())),
        Err(PutFault::Failed) => unsaved(sink, name),
        Err(PutFault::NoMemory) => declined(sink, Declined::NoMemory),
    }
}
