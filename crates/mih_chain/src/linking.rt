// A push.
ghost use Rattle.std.specs.Prelude.{◌≡◌, ◌<◌, ℕ, true, false, Option};
ghost use Rattle.mih_plan.specs.Buckets.{bucket_of};
ghost use Rattle.reg_rule.specs.declared.view.Link.{Link};
ghost use Rattle.reg_rule.specs.Rounds.{IsWordsPass};
ghost use Rattle.mih_chain.specs.Linking.{IsUnlinkedHand, Linked};
ghost use Rattle.mih_chain.specs.inner.Turns.{linked_once, tried_once};

use mih_plan::bucket_of;
use reg_rule::{Pass, Told, Words, load_head, store_next, swap_head};
use std::sync::Wait;
use std::thread;

/// Links the entry in hand in this table, in front of the bucket of its code. Waits while other pushes come between.
pub fn link<R: Wait>(rt: &R, words: &Words, pass: &mut Pass, table: u32, entry: u32, code: u64)
    requires own { IsWordsPass words.now pass.old }
    requires table { table < 4 }
    requires hand { IsUnlinkedHand pass.old.1 entry code table }
    ensures linked { Linked pass.old.1 table pass.new.1 }
    ensures own { IsWordsPass words.now pass.new }
{
    // Read for its contract: a bucket has 4 to 16 bits.
    let _range = words.sizes().callers();
    let bucket = bucket_of(code, table, words.sizes().bits());
    for _ in rt.forever() {
        if try_link(words, pass, table, bucket, entry) {
            return;
        }
        thread::yield_now();
    }
    unreachable!()
}

// One turn: the head is loaded and stored as the next word, and then exchanged for the entry. It wins where no other push
// came between.
fn try_link(words: &Words, pass: &mut Pass, table: u32, bucket: u32, entry: u32) -> bool
    requires own { IsWordsPass words.now pass.old }
    requires table { table < 4 }
    requires hand { (code : ℕ) × IsUnlinkedHand pass.old.1 entry code table × (bucket ≡ bucket_of code table pass.old.1.key.sizes.bits) }
    ensures own { IsWordsPass words.now pass.new }
    ensures won { result ≡ true → pass.new.1 ≡ linked_once pass.old.1 table }
    ensures lost { result ≡ false → (ready : Option Link) × (pass.new.1 ≡ tried_once pass.old.1 ready) }
{
    let first = load_head(words, pass, table, bucket, Told::Links);
    store_next(words, pass, table, first);
    swap_head(words, pass, table, bucket, first, entry as u64 + 1) == first
}
