ghost use Rattle.std.specs.Prelude.{◌≡◌, ℕ, [], Option, List, Some, codes, slice_get, IfOk, IfErr, string_bytes};
ghost use Rattle.serde_json.specs.Data.{Data};
ghost use Rattle.serde_json.specs.Written.{compact_text};
ghost use Rattle.iscc_text.specs.Explanations.{Explains};
ghost use Rattle.reg_session.specs.Files.{Files};
ghost use Rattle.reg_session.specs.Outside.{ShelfView, outside, sink_view};
ghost use Rattle.reg_requests.specs.Lines.{line};
ghost use Rattle.reg_top.specs.Fetches.Command.{Explain};
ghost use Rattle.reg_top.specs.commands.Explain.{IsExplanation};
ghost use Rattle.reg_top.specs.Outcomes.{IsOutcome};
ghost use Rattle.reg_top.specs.inner.Endings.{Ends, ExplainDeclines};

use crate::args::Args;
use crate::ending::{Declined, Ending, written};
use crate::fault_line::{declined, no_form};
use crate::refusal::Refusal;
use crate::words::one_value;
use crate::write::write_line;
use iscc_code::Iscc;
use iscc_header::NoMemory;
use iscc_text::{explain, read_iscc};
use reg_session::Sink;
use std::alloc::Global;

/// `explain TEXT`: writes the explanation of the ISCC for which a text stands.
pub(crate) fn explain_command<K: Sink>(alloc: Global, words: &Args, sink: &mut K) -> u8
    requires { slice_get words.now 0 ≡ Some (codes "explain") }
    ensures { (shelf : ShelfView) → IsOutcome words.now
        (outside shelf (sink_view (K.taken sink.old) (K.faults sink.old))) (outside shelf (sink_view (K.taken sink.new) (K.faults sink.new))) [] result }
{
    match one_value(words, "explain") {
        None => no_form(sink),
        Some(text) => explain_text(alloc, text, sink).number(),
    }
}

fn explain_text<K: Sink>(alloc: Global, text: &str, sink: &mut K) -> Ending
    ensures { (shelf : ShelfView) → Ends (Explain text.now)
        (outside shelf (sink_view (K.taken sink.old) (K.faults sink.old))) (outside shelf (sink_view (K.taken sink.new) (K.faults sink.new))) [] result }
{
    match explanation(alloc, text) {
        Ok(tree) => written(write_line(sink, tree.as_bytes())),
        Err(why) => declined(sink, why),
    }
}

// The compact text of the tree that explains an ISCC.
fn explanation(alloc: Global, text: &str) -> Result<String, Declined>
    ensures made { IfOk result (λ tree. IsExplanation text.now (line (string_bytes tree))) }
    ensures declines { IfErr result (ExplainDeclines text.now) }
{
    let iscc = match read_iscc(text.as_bytes()) {
        Ok(iscc) => iscc,
        Err(fault) => return Err(Declined::Refused(Refusal::Text(fault))),
    };
    match tree_text(alloc, &iscc) {
        Ok(tree) => Ok(tree),
        Err(NoMemory) => Err(Declined::NoMemory),
    }
}

fn tree_text(alloc: Global, iscc: &Iscc) -> Result<String, NoMemory>
    ensures { IfOk result (λ text. (tree : Data) × Explains iscc.now tree × (string_bytes text ≡ compact_text tree)) }
{
    let tree = explain(alloc, iscc)?;
    Ok(tree.to_string(alloc)?)
}
