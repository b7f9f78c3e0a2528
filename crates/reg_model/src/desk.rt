ghost use Rattle.std.specs.Prelude.{◌≡◌, ◌⊎◌, ◌≤◌, ℕ, List, All, map, IfOk, IfErr, MatchResult, Some, None};
ghost use Rattle.reg_model.specs.declared.call.Call.{Call};
ghost use Rattle.reg_model.specs.declared.reply.Row.{Row};
ghost use Rattle.reg_model.specs.Limits.{Limits};
ghost use Rattle.reg_model.specs.Opening.{Opening};
ghost use Rattle.reg_model.specs.Registry.{start_refusal};
ghost use Rattle.reg_model.specs.Rows.{AsksLogFirst};
ghost use Rattle.reg_model.specs.Desks.{PassView, new_passes, HasNoSnapshot, row_of, Answered, Unanswered, accounts_of, close_refusal, Closes};

use crate::RADIUS_MOST;
use crate::carried::Carried;
use crate::lists::Updates;
use crate::reply::Answer;
use crate::sizes::Sizes;
use crate::start::StartFault;
use iscc_header::{NoMemory, Unit64};
use std::alloc::Global;
use std::sync::Wait;

/// What a round leaves: its base, its updates, and what the next round begins with.
#[derive(Debug, Drop)]
pub struct Closed {
    pub base: u64,
    pub log: Updates,
    pub carried: Carried,
}

/// Why a round can't end: the first of these that applies.
#[derive(Clone, Copy, Debug, PartialEq, Eq)]
pub enum CloseWhy {
    /// No pass was given with this number, the least such.
    Missing { number: u32 },
    NoMemory,
}

/// A round that couldn't end, with all that was given for it.
#[derive(Drop)]
pub struct CloseRefusal<D: Drop, P: Drop> {
    pub desk: D,
    pub passes: Vec<P>,
    pub why: CloseWhy,
}

/// A registry for one round, which several callers use at once, each with a pass of its own.
///
/// Each answer adds a row to the account of the pass that asked, and is one that the registry of the round gives after some
/// updates. That all answers are those of one registry is said when the round ends: [`Desk::close`] gives one log of updates
/// over which the accounts merge into a lawful round.
pub trait Desk: Sized + Sync + Drop {
    /// What one caller uses the desk with.
    type Pass: Send + Drop;

    /// What stays of a round that has ended. Nothing is read from it; contracts see the accounts.
    type Seal: Send + Drop;

    ghost limits: { Self → Limits };

    /// What the round began with.
    ghost opening: { Self → Opening };

    ghost pass_view: { Self.Pass → PassView };

    /// The accounts by number.
    ghost accounts: { Self.Seal → List (List Row) };

    /// The pass is of this desk, and as its calls need it.
    ghost fit: { Self → Self.Pass → Type 0 };

    /// Begins a round, with a pass for each caller. The faults are asked in the order of `StartFault`.
    fn start(
        alloc: Global,
        sizes: &Sizes,
        carried: &Carried,
    ) -> Result<(Self, Vec<Self::Pass>), StartFault>
        ensures desk { IfOk result (λ made. (limits made.0 ≡ sizes.now) × (opening made.0 ≡ carried.now)) }
        ensures passes { IfOk result (λ made. map pass_view made.1.items ≡ new_passes carried.now.base sizes.now.callers) }
        ensures fit { IfOk result (λ made. All (fit made.0) made.1.items) }
        ensures cause { MatchResult result
            (λ _. start_refusal sizes.now carried.now ≡ None)
            (λ fault. (start_refusal sizes.now carried.now ≡ Some fault) ⊎ ((fault ≡ StartFault.NoMemory) × (start_refusal sizes.now carried.now ≡ None))) };

    /// Declares a unit. Takes no memory.
    fn declare<R: Wait>(&self, rt: &R, pass: &mut Self::Pass, unit: Unit64) -> Answer
        requires { fit self.now pass.old × HasNoSnapshot (pass_view pass.old) }
        ensures answered { Answered (limits self.now) (opening self.now) (pass_view pass.old) (pass_view pass.new) (Call.Declare unit) result }
        ensures fit { fit self.now pass.new }

        // A lone caller is told of a full log before it is told of full entries.
        ensures asks { (limits self.now).callers ≡ 1 → AsksLogFirst (limits self.now) (opening self.now) (row_of (pass_view pass.old) (Call.Declare unit) result) };

    /// Ends the live declaration with this id. Takes no memory.
    fn withdraw<R: Wait>(&self, rt: &R, pass: &mut Self::Pass, id: u64) -> Answer
        requires { fit self.now pass.old × HasNoSnapshot (pass_view pass.old) }
        ensures answered { Answered (limits self.now) (opening self.now) (pass_view pass.old) (pass_view pass.new) (Call.Withdraw id) result }
        ensures fit { fit self.now pass.new };

    /// Asks for the unit of the live declaration with this id. Takes no memory.
    fn show<R: Wait>(&self, rt: &R, pass: &mut Self::Pass, id: u64) -> Answer
        requires { fit self.now pass.old × HasNoSnapshot (pass_view pass.old) }
        ensures answered { Answered (limits self.now) (opening self.now) (pass_view pass.old) (pass_view pass.new) (Call.Show id) result }
        ensures fit { fit self.now pass.new };

    /// Asks how many declarations are live. Takes no memory.
    fn count<R: Wait>(&self, rt: &R, pass: &mut Self::Pass) -> Answer
        requires { fit self.now pass.old × HasNoSnapshot (pass_view pass.old) }
        ensures answered { Answered (limits self.now) (opening self.now) (pass_view pass.old) (pass_view pass.new) Call.Count result }
        ensures fit { fit self.now pass.new };

    /// Asks whether the registry has come to this point. Takes no memory.
    fn after<R: Wait>(&self, rt: &R, pass: &mut Self::Pass, point: u64) -> Answer
        requires { fit self.now pass.old × HasNoSnapshot (pass_view pass.old) }
        ensures answered { Answered (limits self.now) (opening self.now) (pass_view pass.old) (pass_view pass.new) (Call.After point) result }
        ensures fit { fit self.now pass.new };

    /// Asks for the live declarations of the unit's kind whose bodies differ from its own in at most `radius` bits.
    fn near<R: Wait>(
        &self,
        rt: &R,
        alloc: Global,
        pass: &mut Self::Pass,
        unit: Unit64,
        radius: u32,
    ) -> Result<Answer, NoMemory>
        requires pass { fit self.now pass.old × HasNoSnapshot (pass_view pass.old) }
        requires radius { radius ≤ RADIUS_MOST }
        ensures answered { MatchResult result
            (λ answer. Answered (limits self.now) (opening self.now) (pass_view pass.old) (pass_view pass.new) (Call.Near unit radius) answer)
            (λ _. Unanswered (pass_view pass.old) (pass_view pass.new)) }
        ensures fit { fit self.now pass.new };

    /// Ends the round. Its passes may be given in any order; all of them are handed back, with the desk, where one is missing.
    fn close(
        self,
        alloc: Global,
        passes: Vec<Self::Pass>,
    ) -> Result<(Closed, Self::Seal), CloseRefusal<Self, Self::Pass>>
        requires fit { All (fit self) passes.items }
        requires ended { All HasNoSnapshot (map pass_view passes.items) }
        ensures closed { IfOk result (λ ended. Closes (limits self) (opening self) ended.0 (accounts ended.1)) }
        ensures seal { IfOk result (λ ended. accounts ended.1 ≡ accounts_of (limits self).callers (map pass_view passes.items)) }
        ensures back { IfErr result (λ refusal. (refusal.desk ≡ self) × (refusal.passes.items ≡ passes.items)) }
        ensures cause { MatchResult result
            (λ _. close_refusal (limits self).callers (map pass_view passes.items) ≡ None)
            (λ refusal. (close_refusal (limits self).callers (map pass_view passes.items) ≡ Some refusal.why)
            ⊎ ((refusal.why ≡ CloseWhy.NoMemory) × (close_refusal (limits self).callers (map pass_view passes.items) ≡ None))) };
}
