ghost use Rattle.std.specs.Prelude.{◌≡◌, [], List, IfOk, Err};
ghost use Rattle.std.specs.Process.{exit_status};
ghost use Rattle.reg_model.specs.Runs.{RoundRows};
ghost use Rattle.reg_session.specs.Outside.{outside, shelf_view, sink_view};
ghost use Rattle.reg_top.specs.Outcomes.{IsOutcome};

use reg_top::{Args, NoGate, Shelf, Sink, no_seals, top};
use std::alloc::Global;
use std::process::ExitCode;
use std::sync::Wait;
use std::thread::Threads;

/// Why a command line gives no words.
#[derive(Clone, Copy, Debug, PartialEq, Eq)]
pub enum NoWords {
    /// Memory is wanting for them.
    NoMemory,
    /// One of them is no text.
    NoText,
}

// The status where there is no memory for the words; nothing is written then.
const MEMORY: u8 = 6;

/// Does what the words say, with no gate, and ends with the status that `top` answers.
pub(crate) fn exit_with<F: Shelf, K: Sink, R: Threads + Wait + Sync>(
    rt: &R,
    alloc: Global,
    words: Result<Args, NoWords>,
    shelf: &mut F,
    sink: &mut K,
) -> ExitCode
    ensures served { IfOk words (λ words. (served : List RoundRows) × IsOutcome words
        (outside (shelf_view (F.files shelf.old) (F.fetch_faults shelf.old) (F.put_faults shelf.old)) (sink_view (K.taken sink.old) (K.faults sink.old)))
        (outside (shelf_view (F.files shelf.new) (F.fetch_faults shelf.new) (F.put_faults shelf.new)) (sink_view (K.taken sink.new) (K.faults sink.new))) served (exit_status result)) }

    // Words that are no text are of no form, as no words are.
    ensures no_text { words ≡ Err NoWords.NoText → (served : List RoundRows) × IsOutcome []
        (outside (shelf_view (F.files shelf.old) (F.fetch_faults shelf.old) (F.put_faults shelf.old)) (sink_view (K.taken sink.old) (K.faults sink.old)))
        (outside (shelf_view (F.files shelf.new) (F.fetch_faults shelf.new) (F.put_faults shelf.new)) (sink_view (K.taken sink.new) (K.faults sink.new))) served (exit_status result) }
    ensures no_memory { words ≡ Err NoWords.NoMemory → (exit_status result ≡ 6) × (shelf.new ≡ shelf.old) × (sink.new ≡ sink.old) }
{
    let words = match words {
        Ok(words) => words,
        Err(NoWords::NoText) => Args::new(alloc),
        Err(NoWords::NoMemory) => return ExitCode::from(MEMORY),
    };
    let status = top(rt, alloc, &words, shelf, sink, &NoGate, &mut no_seals());
    ExitCode::from(status)
}
