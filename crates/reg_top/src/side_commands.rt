ghost use Rattle.std.specs.Prelude.{◌≡◌, ◌↔◌, [], IsNone, IfSome, IfNone};
ghost use Rattle.reg_session.specs.Outside.{outside, shelf_view, sink_view};
ghost use Rattle.reg_top.specs.Words.{IsSideCommand};
ghost use Rattle.reg_top.specs.Outcomes.{IsOutcome};

use crate::args::Args;
use crate::commands::check::check_command;
use crate::commands::compose::compose_command;
use crate::commands::explain::explain_command;
use crate::commands::instance::instance_command;
use crate::words::{SideWord, side_word};
use reg_session::{Shelf, Sink};
use std::alloc::Global;

/// Does the commands that serve no calls, which are `explain`, `compose`, `instance` and `check`, and answers the status.
/// Always returns.
///
/// None comes exactly where the first word is none of these; then nothing was touched.
pub fn side<F: Shelf, K: Sink>(
    alloc: Global,
    words: &Args,
    shelf: &mut F,
    sink: &mut K,
) -> Option<u8>
    ensures other { IsNone result ↔ (IsSideCommand words.now → ⊥) }
    ensures untouched { IfNone result ((shelf.new ≡ shelf.old) × (sink.new ≡ sink.old)) }

    // It ends as `top` does: what is written, and the cause of each status. No rounds are served.
    ensures outcome { IfSome result (IsOutcome words.now
        (outside (shelf_view (F.files shelf.old) (F.fetch_faults shelf.old) (F.put_faults shelf.old)) (sink_view (K.taken sink.old) (K.faults sink.old)))
        (outside (shelf_view (F.files shelf.new) (F.fetch_faults shelf.new) (F.put_faults shelf.new)) (sink_view (K.taken sink.new) (K.faults sink.new))) []) }
{
    match side_word(words) {
        None => None,
        Some(SideWord::Explain) => Some(explain_command(alloc, words, sink)),
        Some(SideWord::Compose) => Some(compose_command(alloc, words, sink)),
        Some(SideWord::Instance) => Some(instance_command(alloc, words, shelf, sink)),
        Some(SideWord::Check) => Some(check_command(alloc, words, shelf, sink)),
    }
}
