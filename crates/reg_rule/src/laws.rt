//! What the rule of the table gives, for readers who never open `specs/inner`. The functions do nothing: their contracts
//! are the laws. `OneRegistry` is the rule of the table, which holds between any two steps.

ghost use Rattle.reg_rule.specs.Readers.{Always, WordsStand, FrontIsLength, WordsHaveOneLog, WordsHaveOneSweep, BucketHasOneChain, JoinLengthens, ExchangeSeesPlace, SeenWordsStay};
ghost use Rattle.reg_rule.specs.ReadersSteps.{StepsLengthen, SplitLengthens};

use crate::rule::OneRegistry;
use crate::view::{Key, View};
use atomic_table::TableRule;

/// Between any two steps the words of the table and what its seats know stand for one registry.
pub fn the_words_stand_for_one_registry()
    ensures { Always ⟦<OneRegistry as TableRule<(), View, Key>>⟧.holds WordsStand }
{}

/// The words have one log, whose length is their front.
pub fn the_words_have_one_log()
    ensures front { FrontIsLength }
    ensures one { WordsHaveOneLog }
{}

/// The words have one state of the sweep.
pub fn the_words_have_one_sweep()
    ensures { WordsHaveOneSweep }
{}

/// A bucket has one chain in each table.
pub fn a_bucket_has_one_chain()
    ensures { BucketHasOneChain }
{}

/// A place of the log that was seen stays as it is: what a seat has seen only grows, at each step, where it is split, and
/// where two are joined. An exchange of the log sees one place more, whether it wins or loses; so the exchanges that a
/// seat has made are no more than the places it has seen. And the words of the places that a seat has seen never change.
pub fn what_is_seen_stays()
    ensures steps { StepsLengthen }
    ensures split { SplitLengthens }
    ensures join { JoinLengthens }
    ensures exchange { ExchangeSeesPlace }
    ensures words { SeenWordsStay }
{}
