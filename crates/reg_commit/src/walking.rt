// The walk along the log.
ghost use Rattle.std.specs.Prelude.{◌≡◌, ◌<◌, ◌≤◌, length};
ghost use Rattle.reg_rule.specs.Rounds.{IsWordsPass};
ghost use Rattle.reg_commit.specs.Fronts.{MayWalk, FrontFound};

use reg_rule::{Pass, Told, Words, load_log};

/// Walks the log from what the pass has seen to its front: the first place found empty, or the number of places where the
/// last one is filled. Where all were seen before, the last one is loaded again, so there is always a load. What is told
/// enters where the front is found: a row, or a snapshot.
pub fn front(words: &Words, pass: &mut Pass, told: Told) -> u32
    requires own { IsWordsPass words.now pass.old }
    requires telling { MayWalk told pass.old.1 }
    ensures own { IsWordsPass words.now pass.new }
    ensures found { FrontFound told pass.old.1 result pass.new.1 }
{
    if pass.places_seen() < words.sizes().log() {
        walk(words, pass, &told)
    } else {
        reload(words, pass, &told)
    }
}

// All places were seen, and the last one is loaded again.
fn reload(words: &Words, pass: &mut Pass, told: &Told) -> u32
    requires own { IsWordsPass words.now pass.old }
    requires telling { MayWalk told.now pass.old.1 }
    requires all { pass.old.1.key.sizes.log ≤ length pass.old.1.log }
    ensures own { IsWordsPass words.now pass.new }
    ensures found { FrontFound told.now pass.old.1 result pass.new.1 }
{
    let _range = words.sizes().callers();
    let places = words.sizes().log();
    load_log(words, pass, places - 1, *told);
    places
}

// The places behind those seen are loaded, up to one that is empty.
fn walk(words: &Words, pass: &mut Pass, told: &Told) -> u32
    requires own { IsWordsPass words.now pass.old }
    requires telling { MayWalk told.now pass.old.1 }
    requires short { length pass.old.1.log < pass.old.1.key.sizes.log }
    ensures own { IsWordsPass words.now pass.new }
    ensures found { FrontFound told.now pass.old.1 result pass.new.1 }
{
    let places = words.sizes().log();
    while pass.places_seen() < places {
        let place = pass.places_seen();
        if load_log(words, pass, place, *told) == 0 {
            return place;
        }
    }
    places
}
