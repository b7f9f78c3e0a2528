// The end of a round.
ghost use Rattle.std.specs.Prelude.{◌≡◌, ◌<◌, ◌≤◌, ◌⊎◌, [], All, IfOk, IfErr, IfNone, MatchResult, None, Some, length, not, find, vec_capacity, ◌==◌};
ghost use Rattle.std.specs.List.{list_any, range_with_len};
ghost use Rattle.reg_model.specs.Desks.{Closes, accounts_of, close_refusal};
ghost use Rattle.reg_model.specs.Leaving.{leaving_room};
ghost use Rattle.reg_rule.specs.Passes.{number_of, passes_shown};
ghost use Rattle.reg_rule.specs.Rounds.{IsWordsPass, IsAtRest};
ghost use Rattle.reg_rule.specs.Readers.{EndsStanding};
ghost use Rattle.reg_rule.specs.inner.Ending.{Gathered};

use crate::last_words::last_updates;
use crate::rule::{Joining, Sealing};
use crate::view::View;
use crate::words::{Pass, Words};
use atomic_table::{Badge, Seat};
use iscc_header::NoMemory;
use reg_model::{CloseWhy, Closed, Leaving, Update};
use std::alloc::Global;
use std::marker::Model;

/// What stays of a round that has ended: the accounts of its sessions by number, which contracts see. Nothing is read from
/// it.
#[derive(Drop)]
pub struct Seal {
    badge: Badge<View>,
}

impl Model for Seal {
    ghost use Rattle.std.specs.Prelude.{List};
    ghost use Rattle.reg_model.specs.declared.reply.Row.{Row};
    ghost use Rattle.reg_rule.specs.inner.Ending.{sealed_accounts};

    ghost Value = { List (List Row) };

    ghost view = { λ s. sealed_accounts s.badge.views };
}

/// A round that couldn't end, with all that was given for it.
#[derive(Drop)]
pub struct WordsRefusal {
    pub words: Words,
    pub passes: Vec<Pass>,
    pub why: CloseWhy,
}

impl Words {
    /// Ends the round. Its passes may be given in any order; none is pinned or holds the sweep. All of them are handed back,
    /// with the words, where one is missing or memory is short: it is taken before the first seat is given up.
    pub fn finish(self, alloc: Global, passes: Vec<Pass>) -> Result<(Closed, Seal), WordsRefusal>
        requires own { All (IsWordsPass self) passes.items }
        requires rest { All (λ p. IsAtRest p.1) passes.items }
        ensures closed { IfOk result (λ ended. Closes self.1.sizes self.1.carried ended.0 ended.1) }
        ensures words { IfOk result (λ ended. EndsStanding self.1 ended.0.log ended.1) }
        ensures seal { IfOk result (λ ended. ended.1 ≡ accounts_of self.1.sizes.callers (passes_shown passes.items)) }
        ensures back { IfErr result (λ refusal. (refusal.words ≡ self) × (refusal.passes.items ≡ passes.items)) }
        ensures cause { MatchResult result
            (λ _. close_refusal self.1.sizes.callers (passes_shown passes.items) ≡ None)
            (λ refusal. (close_refusal self.1.sizes.callers (passes_shown passes.items) ≡ Some refusal.why)
            ⊎ ((refusal.why ≡ CloseWhy.NoMemory) × (close_refusal self.1.sizes.callers (passes_shown passes.items) ≡ None))) }
    {
        if let Some(why) = refusal(&self, &passes) {
            return Err(WordsRefusal {
                words: self,
                passes,
                why,
            });
        }
        let Ok((room, leaving)) = room_for(alloc, &self) else {
            return Err(WordsRefusal {
                words: self,
                passes,
                why: CloseWhy::NoMemory,
            });
        };
        let mut seat = gather(&self, passes);
        let Words {
            table,
            sizes,
            carried,
            heads: _,
        } = self;
        let badge = table.shared.split_seat::<Sealing>(&mut seat).into_badge();
        let last = table.close_with(seat);
        let log = last_updates(&last, &sizes, room);
        last.free();
        let left = leaving.finish(&carried, log.as_slice());
        let base = carried.base();
        Ok((
            Closed {
                base,
                log,
                carried: left,
            },
            Seal { badge },
        ))
    }
}

// Why the round can't end with these passes, if it can't though there is memory.
fn refusal(words: &Words, passes: &[Pass]) -> Option<CloseWhy>
    ensures why { result ≡ close_refusal words.now.1.sizes.callers (passes_shown passes.now) }
    ensures some { IfNone result (0 < length passes.now) }
{
    let number = missing(words.sizes.callers(), passes)?;
    Some(CloseWhy::Missing { number })
}

// The least number that no pass has.
fn missing(callers: u32, passes: &[Pass]) -> Option<u32>
    ensures { result ≡ find (λ number. not (list_any (λ pass. number_of pass.1 == number) passes.now)) (range_with_len 0 callers) }
{
    for number in 0..callers {
        if !has_number(passes, number) {
            return Some(number);
        }
    }
    None
}

fn has_number(passes: &[Pass], number: u32) -> bool
    ensures { result ≡ list_any (λ pass. number_of pass.1 == number) passes.now }
{
    passes.iter().any(|pass| pass.number() == number)
}

// All memory that the end of the round takes: for its updates, and for what it leaves.
fn room_for(alloc: Global, words: &Words) -> Result<(Vec<Update>, Leaving), NoMemory>
    ensures updates { IfOk result (λ room. (room.0.items ≡ []) × (words.now.1.sizes.log ≤ vec_capacity room.0)) }
    ensures leaving { IfOk result (λ room. room.1 ≡ leaving_room (length words.now.1.carried.list) words.now.1.sizes.log words.now.1.sizes.entries) }
{
    let updates = Vec::with_capacity(alloc, words.sizes.log() as usize)?;
    let leaving = Leaving::reserve(alloc, &words.sizes, &words.carried)?;
    Ok((updates, leaving))
}

// Joins the seats of all passes into one, in their order.
fn gather(words: &Words, mut passes: Vec<Pass>) -> Seat<(), View>
    requires own { All (IsWordsPass words.now) passes.items }
    requires rest { All (λ p. IsAtRest p.1) passes.items }
    requires some { 0 < length passes.items }
    ensures table { result.table_id ≡ words.now.0 }
    ensures gathered { Gathered words.now.1 (passes_shown passes.items) result.me }
{
    let Pass {
        mut seat,
        seen: _,
        hand: _,
        remembered: _,
    } = passes.remove(0);
    while !passes.is_empty() {
        let Pass {
            seat: other,
            seen: _,
            hand: _,
            remembered: _,
        } = passes.remove(0);
        words.table.shared.join_seat::<Joining>(&mut seat, other);
    }
    seat
}
