ghost use Rattle.std.specs.Prelude.{◌≡◌, [], Some, codes, slice_get};
ghost use Rattle.reg_session.specs.Outside.{outside, shelf_view, sink_view};
ghost use Rattle.reg_top.specs.Fetches.Command.{Instance};
ghost use Rattle.reg_top.specs.Outcomes.{IsOutcome};
ghost use Rattle.reg_top.specs.inner.Endings.{Ends};

use crate::args::Args;
use crate::ending::{Ending, written};
use crate::fault_line::{no_form, unread};
use crate::fetch::fetch_file;
use crate::words::one_value;
use crate::write::write_line;
use iscc_instance::instance_code;
use iscc_text::print_unit;
use reg_session::{Shelf, Sink};
use std::alloc::Global;

/// The greatest length of a file that gets an Instance-Code, in bytes.
pub(crate) const HASHED_MOST: usize = 1 << 28;

/// `instance FILE`: writes the Instance-Code of the bytes of a file. Takes no memory but the file's.
pub(crate) fn instance_command<F: Shelf, K: Sink>(
    alloc: Global,
    words: &Args,
    shelf: &mut F,
    sink: &mut K,
) -> u8
    requires { slice_get words.now 0 ≡ Some (codes "instance") }
    ensures { IsOutcome words.now
        (outside (shelf_view (F.files shelf.old) (F.fetch_faults shelf.old) (F.put_faults shelf.old)) (sink_view (K.taken sink.old) (K.faults sink.old)))
        (outside (shelf_view (F.files shelf.new) (F.fetch_faults shelf.new) (F.put_faults shelf.new)) (sink_view (K.taken sink.new) (K.faults sink.new))) [] result }
{
    match one_value(words, "instance") {
        None => no_form(sink),
        Some(name) => instance_file(alloc, name, shelf, sink).number(),
    }
}

fn instance_file<F: Shelf, K: Sink>(
    alloc: Global,
    name: &str,
    shelf: &mut F,
    sink: &mut K,
) -> Ending
    ensures { Ends (Instance name.now)
        (outside (shelf_view (F.files shelf.old) (F.fetch_faults shelf.old) (F.put_faults shelf.old)) (sink_view (K.taken sink.old) (K.faults sink.old)))
        (outside (shelf_view (F.files shelf.new) (F.fetch_faults shelf.new) (F.put_faults shelf.new)) (sink_view (K.taken sink.new) (K.faults sink.new))) [] result }
{
    match fetch_file(alloc, name, shelf, HASHED_MOST) {
        Ok(file) => {
            let unit = instance_code(file.as_slice());
            written(write_line(sink, print_unit(&unit).as_str().as_bytes()))
        }
        Err(fault) => unread(sink, fault, name),
    }
}
