ghost use Rattle.std.specs.Prelude.{◌≡◌, ◌<◌, ℕ, [], Option, Some, codes, length, drop, slice_get, IfOk, IfErr};
ghost use Rattle.std.specs.List.{AllZip};
ghost use Rattle.iscc_code.specs.Composites.{CodeParts};
ghost use Rattle.reg_session.specs.Files.{Files};
ghost use Rattle.reg_session.specs.Outside.{ShelfView, outside, sink_view};
ghost use Rattle.reg_top.specs.Fetches.Command.{Compose};
ghost use Rattle.reg_top.specs.commands.Compose.{IsTextOf, HasWordFault, IsCompositeOf};
ghost use Rattle.reg_top.specs.Outcomes.{IsOutcome};
ghost use Rattle.reg_top.specs.inner.Endings.{Ends, ComposeDeclines};

use crate::args::Args;
use crate::ending::{Declined, Ending, written};
use crate::fault_line::{declined, no_form};
use crate::refusal::{Refusal, WordFault};
use crate::words::has_texts;
use crate::write::write_line;
use iscc_code::{Code, Iscc, Unit, compose};
use iscc_text::{print_iscc, read_iscc};
use reg_session::Sink;
use std::alloc::Global;

/// `compose TEXT ..`: writes the composite of the units for which the texts stand.
pub(crate) fn compose_command<K: Sink>(alloc: Global, words: &Args, sink: &mut K) -> u8
    requires { slice_get words.now 0 ≡ Some (codes "compose") }
    ensures { (shelf : ShelfView) → IsOutcome words.now
        (outside shelf (sink_view (K.taken sink.old) (K.faults sink.old))) (outside shelf (sink_view (K.taken sink.new) (K.faults sink.new))) [] result }
{
    if !has_texts(words) {
        return no_form(sink);
    }
    compose_texts(alloc, words, sink).number()
}

fn compose_texts<K: Sink>(alloc: Global, words: &Args, sink: &mut K) -> Ending
    requires { 0 < length words.now }
    ensures { (shelf : ShelfView) → Ends (Compose (drop 1 words.now))
        (outside shelf (sink_view (K.taken sink.old) (K.faults sink.old))) (outside shelf (sink_view (K.taken sink.new) (K.faults sink.new))) [] result }
{
    match composite(alloc, words) {
        Ok(code) => {
            let text = print_iscc(&Iscc::Code(code));
            written(write_line(sink, text.as_str().as_bytes()))
        }
        Err(why) => declined(sink, why),
    }
}

// The composite of the units for which the texts behind the first word stand. All texts are read before it is made.
fn composite(alloc: Global, words: &Args) -> Result<Code, Declined>
    requires { 0 < length words.now }
    ensures composed { IfOk result (IsCompositeOf (drop 1 words.now)) }
    ensures declines { IfErr result (ComposeDeclines (drop 1 words.now)) }
{
    let units = match read_units(alloc, words) {
        Ok(units) => units,
        Err(why) => return Err(why),
    };
    match compose(units.as_slice()) {
        Ok(code) => Ok(code),
        Err(fault) => Err(Declined::Refused(Refusal::Units(fault))),
    }
}

// The units for which the texts behind the first word stand.
fn read_units(alloc: Global, words: &Args) -> Result<Vec<Unit>, Declined>
    requires { 0 < length words.now }
    ensures read { IfOk result (λ units. AllZip IsTextOf (drop 1 words.now) units.items) }
    ensures declines { IfErr result (ComposeDeclines (drop 1 words.now)) }
{
    let mut units = Vec::new(alloc);
    for at in 0..words.len() - 1 {
        match read_unit(words.word(at + 1)) {
            Ok(unit) => {
                if units.push(unit).is_err() {
                    return Err(Declined::NoMemory);
                }
            }
            Err(why) => return Err(Declined::Refused(Refusal::Word { at, why })),
        }
    }
    Ok(units)
}

// The unit for which a text stands.
fn read_unit(text: &str) -> Result<Unit, WordFault>
    ensures read { IfOk result (IsTextOf text.now) }
    ensures fault { IfErr result (HasWordFault text.now) }
{
    match read_iscc(text.as_bytes()) {
        Ok(iscc) => unit_of(&iscc),
        Err(fault) => Err(WordFault::Text(fault)),
    }
}

// The unit that an ISCC is, if it is one.
fn unit_of(iscc: &Iscc) -> Result<Unit, WordFault>
    ensures unit { IfOk result (λ unit. iscc.now ≡ Iscc.Unit unit) }
    ensures several { IfErr result (λ fault. (fault ≡ WordFault.NotUnit) × ((code : CodeParts) × (iscc.now ≡ Iscc.Code code))) }
{
    match iscc {
        Iscc::Unit(unit) => Ok(*unit),
        Iscc::Code(_) => Err(WordFault::NotUnit),
    }
}
