// A walk along a chain.
ghost use Rattle.std.specs.Prelude.{◌≡◌, ◌≢◌, ℕ, ◌<◌, ◌⊎◌, ◌^◌, IfNone, IfSome, Some};
ghost use Rattle.reg_rule.specs.declared.told.Told.TheVariants.{Nothing, Begins};
ghost use Rattle.reg_rule.specs.declared.view.Cursor.{Cursor};
ghost use Rattle.reg_rule.specs.Links.{link_word};
ghost use Rattle.reg_rule.specs.Chains.{Once};
ghost use Rattle.reg_rule.specs.Moves.{first_met, none_met, next_met, walked};
ghost use Rattle.reg_rule.specs.Steps.{HasWalked};
ghost use Rattle.reg_rule.specs.Rounds.{IsWordsPass};

use reg_rule::{Pass, Told, Words, load_head, load_next};

/// The first entry of a bucket, if it has one. The walk of a query begins with `Told::Begins`, and goes on to its other
/// buckets with `Told::Nothing`.
pub fn first(words: &Words, pass: &mut Pass, table: u32, bucket: u32, told: Told) -> Option<u32>
    requires own { IsWordsPass words.now pass.old }
    requires pinned { 0 < pass.old.1.pin }
    requires table { table < 4 }
    requires bucket { bucket < 2 ^ pass.old.1.key.sizes.bits }
    requires telling { (told ≡ Begins) ⊎ (told ≡ Nothing) }
    ensures none { IfNone result ((pass.new ≡ (words.now.0, none_met told pass.old.1)) × HasWalked table bucket pass.new.1) }
    ensures some { IfSome result (λ entry. (entry < pass.old.1.key.entries) × (pass.new ≡ (words.now.0, first_met told pass.old.1 table bucket entry))) }
{
    // Read for its contract: an entry is a number of 20 bits.
    let _range = words.sizes().callers();
    entry_of(load_head(words, pass, table, bucket, told))
}

/// The entry behind the one at which the walk of the pass stands, if there is one. None was met before.
pub fn next(words: &Words, pass: &mut Pass, table: u32, entry: u32) -> Option<u32>
    requires own { IsWordsPass words.now pass.old }
    requires table { table < 4 }
    requires entry { entry < pass.old.1.key.entries }
    requires cursor { (c : Cursor) × (pass.old.1.cursor ≡ Some c) × (c.table ≡ table) × (c.entry ≡ entry) }
    ensures none { IfNone result ((pass.new ≡ (words.now.0, walked pass.old.1)) × ((c : Cursor) → pass.old.1.cursor ≡ Some c → HasWalked c.table c.bucket pass.new.1)) }
    ensures some { IfSome result (λ behind. (behind < pass.old.1.key.entries) × ((c : Cursor) → pass.old.1.cursor ≡ Some c → pass.new ≡ (words.now.0, next_met pass.old.1 c behind)) × Once pass.new.1.visited) }
{
    // Read for its contract: an entry is a number of 20 bits.
    let _range = words.sizes().callers();
    entry_of(load_next(words, pass, table, entry, Told::Nothing))
}

// The entry that a head or a next word names.
fn entry_of(word: u64) -> Option<u32>
    requires { (word ≢ 0) → (entry : ℕ) × (word ≡ link_word entry) × (entry < 2 ^ 20) }
    ensures none { IfNone result (word ≡ 0) }
    ensures some { IfSome result (λ entry. word ≡ link_word entry) }
{
    if word == 0 {
        return None;
    }
    Some((word - 1) as u32)
}
