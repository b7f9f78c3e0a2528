// Calls that change nothing.
ghost use Rattle.std.specs.Prelude.{◌≤◌, MatchResult};
ghost use Rattle.reg_model.specs.declared.TheConstants.{RADIUS_MOST};
ghost use Rattle.reg_model.specs.declared.call.Call.{Call as ACall};
ghost use Rattle.reg_model.specs.Desks.{HasNoSnapshot, Answered, Unanswered};
ghost use Rattle.reg_rule.specs.Passes.{pass_view};
ghost use Rattle.reg_free.specs.Fit.{IsFit};

use iscc_header::{NoMemory, Unit64};
use reg_commit::front;
use reg_model::{Answer, Call, Reply};
use reg_query::{begin, end, near_at, show_at};
use reg_rule::{Pass, Told, Words};
use std::alloc::Global;

/// How many declarations are live at the front.
pub(crate) fn count(words: &Words, pass: &mut Pass) -> Answer
    requires fit { IsFit words.now pass.old }
    requires free { HasNoSnapshot (pass_view pass.old.1) }
    ensures answered { Answered words.now.1.sizes words.now.1.carried (pass_view pass.old.1) (pass_view pass.new.1) ACall.Count result }
    ensures fit { IsFit words.now pass.new }
{
    let place = front(words, pass, Told::Row(Call::Count));
    let carried = words.carried();
    let live = carried.list().len() as u64 + pass.decls() as u64 - pass.wds() as u64;
    Answer {
        point: carried.base() + place as u64,
        reply: Reply::Count(live),
    }
}

/// Whether the front has come to this point.
pub(crate) fn after(words: &Words, pass: &mut Pass, point: u64) -> Answer
    requires fit { IsFit words.now pass.old }
    requires free { HasNoSnapshot (pass_view pass.old.1) }
    ensures answered { Answered words.now.1.sizes words.now.1.carried (pass_view pass.old.1) (pass_view pass.new.1) (ACall.After point) result }
    ensures fit { IsFit words.now pass.new }
{
    let place = front(words, pass, Told::Row(Call::After(point)));
    let here = words.carried().base() + place as u64;
    Answer {
        point: here,
        reply: if point <= here {
            Reply::Reached
        } else {
            Reply::Ahead
        },
    }
}

/// The unit of the live declaration with this id, at a snapshot of this call.
pub(crate) fn show(words: &Words, pass: &mut Pass, id: u64) -> Answer
    requires fit { IsFit words.now pass.old }
    requires free { HasNoSnapshot (pass_view pass.old.1) }
    ensures answered { Answered words.now.1.sizes words.now.1.carried (pass_view pass.old.1) (pass_view pass.new.1) (ACall.Show id) result }
    ensures fit { IsFit words.now pass.new }
{
    let point = begin(words, pass);
    let shown = show_at(words, pass, id, Told::Row(Call::Show(id)));
    end(words, pass);
    Answer {
        point,
        reply: match shown {
            Some(unit) => Reply::Live(unit),
            None => Reply::Absent(id),
        },
    }
}

/// The hits of a query, at a snapshot of this call.
pub(crate) fn near(
    words: &Words,
    pass: &mut Pass,
    alloc: Global,
    unit: Unit64,
    radius: u32,
) -> Result<Answer, NoMemory>
    requires fit { IsFit words.now pass.old }
    requires free { HasNoSnapshot (pass_view pass.old.1) }
    requires radius { radius ≤ RADIUS_MOST }
    ensures answered { MatchResult result
        (λ answer. Answered words.now.1.sizes words.now.1.carried (pass_view pass.old.1) (pass_view pass.new.1) (ACall.Near unit radius) answer)
        (λ _. Unanswered (pass_view pass.old.1) (pass_view pass.new.1)) }
    ensures fit { IsFit words.now pass.new }
{
    let point = begin(words, pass);
    let found = near_at(words, pass, alloc, unit, radius);
    end(words, pass);
    Ok(Answer {
        point,
        reply: Reply::Hits(found?.hits),
    })
}
