// Taking an entry out of its chain.
ghost use Rattle.std.specs.Prelude.{◌≡◌, ◌<◌, ◌^◌, ℕ, List};
ghost use Rattle.reg_rule.specs.Rounds.{IsWordsPass};
ghost use Rattle.mih_chain.specs.Linking.{MayUnlink, Unlinked};
ghost use Rattle.mih_chain.specs.inner.Ways.{IsOnWay, GoesOn};

use reg_rule::{Pass, Told, Words, cut_head, cut_next, load_head, load_next};

/// Takes the entry that the holder of the sweep unlinks out of its chain in this table, and no other. Pushes that come
/// between only lengthen its way.
pub fn unlink(words: &Words, pass: &mut Pass, table: u32, bucket: u32, entry: u32)
    requires own { IsWordsPass words.now pass.old }
    requires may { MayUnlink table bucket entry pass.old.1 }
    requires inside { entry < pass.old.1.key.entries }
    ensures own { IsWordsPass words.now pass.new }
    ensures unlinked { Unlinked table pass.old.1 pass.new.1 }
{
    // Read for its contract: an entry is a number of 20 bits.
    let _range = words.sizes().callers();
    let link = entry as u64 + 1;
    let first = load_head(words, pass, table, bucket, Told::Sweeps);
    let behind = load_next(words, pass, table, entry, Told::Sweeps);
    if first != link {
        cut_behind(words, pass, table, entry, (first - 1) as u32, behind);
        return;
    }
    let found = cut_head(words, pass, table, bucket, link, behind);
    if found != link {
        cut_behind(words, pass, table, entry, (found - 1) as u32, behind);
    }
}

// Follows the chain from an entry on to the one before that which is unlinked, and cuts there.
fn cut_behind(words: &Words, pass: &mut Pass, table: u32, entry: u32, from: u32, behind: u64)
    requires own { IsWordsPass words.now pass.old }
    requires on { (ahead : List ℕ) × IsOnWay pass.old.1 table entry from behind ahead }
    requires entry { entry < 2 ^ 20 }
    ensures own { IsWordsPass words.now pass.new }
    ensures unlinked { Unlinked table pass.old.1 pass.new.1 }
{
    let mut at = from;
    while let Some(next) = next_on_way(words, pass, table, entry, at) {
        at = next;
    }
    cut_next(words, pass, table, at, entry as u64 + 1, behind);
}

// The next entry on the way, or none where the one that is unlinked comes next.
fn next_on_way(words: &Words, pass: &mut Pass, table: u32, entry: u32, at: u32) -> Option<u32>
    requires own { IsWordsPass words.now pass.old }
    requires on { (behind : ℕ) × (ahead : List ℕ) × IsOnWay pass.old.1 table entry at behind ahead }
    requires entry { entry < 2 ^ 20 }
    ensures own { IsWordsPass words.now pass.new }
    ensures goes { (behind : ℕ) (ahead : List ℕ) → IsOnWay pass.old.1 table entry at behind ahead → GoesOn result table at ahead pass.old.1 pass.new.1 }
{
    // Read for its contract: an entry is a number of 20 bits.
    let _range = words.sizes().callers();
    let next = load_next(words, pass, table, at, Told::Sweeps);
    if next == entry as u64 + 1 {
        return None;
    }
    Some((next - 1) as u32)
}
