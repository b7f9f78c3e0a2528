ghost use Rattle.std.specs.Prelude.{◌≡◌, ℕ, [], Some, codes, slice_get, IfOk, IfErr};
ghost use Rattle.reg_session.specs.Outside.{outside, shelf_view, sink_view};
ghost use Rattle.reg_top.specs.SavedHistories.{HasLawfulHistory};
ghost use Rattle.reg_top.specs.Fetches.Command.{Check};
ghost use Rattle.reg_top.specs.commands.Check.{lawful_text};
ghost use Rattle.reg_top.specs.Outcomes.{IsOutcome};
ghost use Rattle.reg_top.specs.inner.Endings.{Ends, CheckDeclines, IsUnfaulty};

use crate::args::Args;
use crate::ending::{Declined, Ending, written};
use crate::fault_line::{declined, no_form, unread};
use crate::fetch::fetch_file;
use crate::refusal::Refusal;
use crate::saved_history::history_in;
use crate::words::one_value;
use crate::write::write_line;
use iscc_header::NoMemory;
use reg_history::{CheckRefusal, Summary, check_history};
use reg_requests::print_word_number;
use reg_session::{Shelf, Sink};
use std::alloc::Global;

/// The greatest length of a file with a history, in bytes.
pub(crate) const HISTORY_MOST: usize = 1 << 28;

/// `check FILE`: tells whether the history that is saved in a file is lawful, or its first line that can't stand.
pub(crate) fn check_command<F: Shelf, K: Sink>(
    alloc: Global,
    words: &Args,
    shelf: &mut F,
    sink: &mut K,
) -> u8
    requires { slice_get words.now 0 ≡ Some (codes "check") }
    ensures { IsOutcome words.now
        (outside (shelf_view (F.files shelf.old) (F.fetch_faults shelf.old) (F.put_faults shelf.old)) (sink_view (K.taken sink.old) (K.faults sink.old)))
        (outside (shelf_view (F.files shelf.new) (F.fetch_faults shelf.new) (F.put_faults shelf.new)) (sink_view (K.taken sink.new) (K.faults sink.new))) [] result }
{
    match one_value(words, "check") {
        None => no_form(sink),
        Some(name) => check_file(alloc, name, shelf, sink).number(),
    }
}

fn check_file<F: Shelf, K: Sink>(alloc: Global, name: &str, shelf: &mut F, sink: &mut K) -> Ending
    ensures { Ends (Check name.now)
        (outside (shelf_view (F.files shelf.old) (F.fetch_faults shelf.old) (F.put_faults shelf.old)) (sink_view (K.taken sink.old) (K.faults sink.old)))
        (outside (shelf_view (F.files shelf.new) (F.fetch_faults shelf.new) (F.put_faults shelf.new)) (sink_view (K.taken sink.new) (K.faults sink.new))) [] result }
{
    match fetch_file(alloc, name, shelf, HISTORY_MOST) {
        Ok(file) => match lawful_line(alloc, file.as_slice()) {
            Ok(text) => written(write_line(sink, text.as_slice())),
            Err(why) => declined(sink, why),
        },
        Err(fault) => unread(sink, fault, name),
    }
}

// The text that tells that the history in a file is lawful.
fn lawful_line(alloc: Global, file: &[u8]) -> Result<Vec<u8>, Declined>
    ensures made { IfOk result (λ text. (rows live : ℕ) × HasLawfulHistory file.now rows live × (text.items ≡ lawful_text rows live)) }
    ensures unfaulty { IfOk result (λ text. IsUnfaulty file.now) }
    ensures declines { IfErr result (CheckDeclines file.now) }
{
    let summary = match summary_of(alloc, file) {
        Ok(summary) => summary,
        Err(why) => return Err(why),
    };
    match summary_text(alloc, &summary) {
        Ok(text) => Ok(text),
        Err(NoMemory) => Err(Declined::NoMemory),
    }
}

// The numbers of the lawful history in a file.
fn summary_of(alloc: Global, file: &[u8]) -> Result<Summary, Declined>
    ensures lawful { IfOk result (λ summary. HasLawfulHistory file.now summary.rows summary.live) }
    ensures unfaulty { IfOk result (λ summary. IsUnfaulty file.now) }
    ensures declines { IfErr result (CheckDeclines file.now) }
{
    let Some(text) = history_in(file) else {
        return Err(Declined::Refused(Refusal::NoHistory));
    };
    match check_history(alloc, text) {
        Ok(summary) => Ok(summary),
        Err(CheckRefusal::Fault(fault)) => Err(Declined::Refused(Refusal::Line(fault))),
        Err(CheckRefusal::NoMemory) => Err(Declined::NoMemory),
    }
}

fn summary_text(alloc: Global, summary: &Summary) -> Result<Vec<u8>, NoMemory>
    ensures { IfOk result (λ text. text.items ≡ lawful_text summary.now.rows summary.now.live) }
{
    let mut text = Vec::new(alloc);
    print_word_number(b"lawful rows ", summary.rows, &mut text)?;
    print_word_number(b" live ", summary.live, &mut text)?;
    Ok(text)
}
