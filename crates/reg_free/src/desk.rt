ghost use Rattle.std.specs.Prelude.{◌≡◌, ◌⊎◌, All, IfOk, IfErr, MatchResult, None, Some, map};
ghost use Rattle.reg_model.specs.Desks.{HasNoSnapshot, accounts_of, close_refusal, Closes};
ghost use Rattle.reg_rule.specs.Passes.{pass_view as shown};
ghost use Rattle.reg_rule.specs.Readers.{EndsStanding};
ghost use Rattle.reg_free.specs.Fit.{IsFit};

use crate::{asking, declaring, withdrawing};
use iscc_header::{NoMemory, Unit64};
use reg_model::{Answer, Carried, CloseRefusal, CloseWhy, Closed, Desk, Sizes, StartFault};
use reg_rule::{Pass, Seal, Words, WordsRefusal};
use std::alloc::Global;
use std::marker::Model;
use std::sync::Wait;

/// A registry that many callers use at once, none of which holds up another.
#[derive(Drop)]
pub struct FreeDesk {
    words: Words,
}

impl Model for FreeDesk {
    ghost use Rattle.atomic_table.specs.Seated.{TableId};
    ghost use Rattle.reg_rule.specs.declared.view.Key.{Key};

    ghost Value = { TableId × Key };

    ghost view = { λ d. d.words };
}

impl Desk for FreeDesk {
    type Pass = Pass;

    type Seal = Seal;

    ghost limits = { λ desk. desk.1.sizes };

    ghost opening = { λ desk. desk.1.carried };

    ghost pass_view = { λ pass. shown pass.1 };

    ghost accounts = { λ seal. seal };

    ghost fit = { IsFit };

    fn start(
        alloc: Global,
        sizes: &Sizes,
        carried: &Carried,
    ) -> Result<(FreeDesk, Vec<Pass>), StartFault> {
        let (words, passes) = Words::start(alloc, sizes, carried)?;
        Ok((FreeDesk { words }, passes))
    }

    fn declare<R: Wait>(&self, rt: &R, pass: &mut Pass, unit: Unit64) -> Answer {
        declaring::declare(rt, &self.words, pass, unit)
    }

    fn withdraw<R: Wait>(&self, _rt: &R, pass: &mut Pass, id: u64) -> Answer {
        withdrawing::withdraw(&self.words, pass, id)
    }

    fn show<R: Wait>(&self, _rt: &R, pass: &mut Pass, id: u64) -> Answer {
        asking::show(&self.words, pass, id)
    }

    fn count<R: Wait>(&self, _rt: &R, pass: &mut Pass) -> Answer {
        asking::count(&self.words, pass)
    }

    fn after<R: Wait>(&self, _rt: &R, pass: &mut Pass, point: u64) -> Answer {
        asking::after(&self.words, pass, point)
    }

    fn near<R: Wait>(
        &self,
        _rt: &R,
        alloc: Global,
        pass: &mut Pass,
        unit: Unit64,
        radius: u32,
    ) -> Result<Answer, NoMemory> {
        asking::near(&self.words, pass, alloc, unit, radius)
    }

    fn close(
        self,
        alloc: Global,
        passes: Vec<Pass>,
    ) -> Result<(Closed, Seal), CloseRefusal<FreeDesk, Pass>>
        requires fit { All (IsFit self) passes.items }
        requires ended { All HasNoSnapshot (map (λ pass. shown pass.1) passes.items) }
        ensures closed { IfOk result (λ ended. Closes self.1.sizes self.1.carried ended.0 ended.1) }
        ensures words { IfOk result (λ ended. EndsStanding self.1 ended.0.log ended.1) }
        ensures seal { IfOk result (λ ended. ended.1 ≡ accounts_of self.1.sizes.callers (map (λ pass. shown pass.1) passes.items)) }
        ensures back { IfErr result (λ refusal. (refusal.desk ≡ self) × (refusal.passes.items ≡ passes.items)) }
        ensures cause { MatchResult result
            (λ _. close_refusal self.1.sizes.callers (map (λ pass. shown pass.1) passes.items) ≡ None)
            (λ refusal. (close_refusal self.1.sizes.callers (map (λ pass. shown pass.1) passes.items) ≡ Some refusal.why)
            ⊎ ((refusal.why ≡ CloseWhy.NoMemory) × (close_refusal self.1.sizes.callers (map (λ pass. shown pass.1) passes.items) ≡ None))) }
    {
        let FreeDesk { words } = self;
        match words.finish(alloc, passes) {
            Ok(ended) => Ok(ended),
            Err(WordsRefusal { words, passes, why }) => Err(CloseRefusal {
                desk: FreeDesk { words },
                passes,
                why,
            }),
        }
    }
}
