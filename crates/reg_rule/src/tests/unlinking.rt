// The holder of the sweep unlinks an entry, waits for a pinned pass, and gives the entry back.
ghost use Rattle.std.specs.Prelude.{◌≡◌, ◌+◌, ◌<◌, [], ◌∷◌, None, Some, OnOk};
ghost use Rattle.reg_words.specs.declared.word.StampWord.TheVariants.{Dead};
ghost use Rattle.reg_rule.specs.declared.told.Told.TheVariants.{Nothing, Closes, Examines};
ghost use Rattle.reg_rule.specs.declared.view.Place.{Place as APlace};
ghost use Rattle.reg_rule.specs.Moves.{filled, pinned, unpinned, holding_of, looked, swept_to, behind_at, put_known, give_stored, put_stored};
ghost use Rattle.reg_rule.specs.Fresh.{fresh, unswept};
ghost use Rattle.reg_rule.specs.Rounds.{IsWordsPass};
ghost use Rattle.reg_rule.specs.inner.Trials.{all_counted, tables_below, sweeping, swept_log, holds, seeking, limbo_word, in_limbo, next_word, ready, seen_live, withdrawn, buried, opened_at, unlinked, marked_out, waited, gave_back};

use super::entering::{birth_word, commits, finds_birth, helps, meta, prepares};
use super::sweeping::{UNSWEPT, takes_sweep};
use super::*;
use mih_plan::bucket_of;
use reg_model::Update;
use reg_words::{LogWord, StampWord, SweepWord, Swept, Why};

const LIMBO: SweepWord = SweepWord {
    held: false,
    limbo: true,
    place: 1,
    mark: 2,
};

const NEXT: SweepWord = SweepWord {
    held: false,
    limbo: false,
    place: 2,
    mark: 0,
};

// The withdrawal at place 1 is found stamped.
fn examines(words: &Words, pass: &mut Pass, word: u64) -> Result<(), Fail>
    requires own { IsWordsPass words.now pass.old }
    requires key { pass.old.1.key ≡ sweeping }
    requires log { pass.old.1.log ≡ swept_log }
    requires holding { pass.old.1.holding ≡ Some (holding_of unswept) }
    ensures { OnOk result (pass.new ≡ (words.now.0, looked (Examines 1) 0 (Dead 0 0 1) pass.old.1)) }
{
    let stamp = StampWord::Dead {
        kind: meta()?,
        id: 0,
        death: 1,
    };
    let dead = stamp.pack();
    if dead != word {
        return Err("another word".into());
    }
    if load_stamp(words, pass, 0, Told::Examines(1)) != dead {
        return Err("another stamp".into());
    }
    Ok(())
}

// The next session is found free of the place.
fn scans(words: &Words, pass: &mut Pass, seat: u32) -> Result<(), Fail>
    requires own { IsWordsPass words.now pass.old }
    requires key { pass.old.1.key ≡ sweeping }
    requires log { pass.old.1.log ≡ swept_log }
    requires seat { seat < 2 }
    requires holding { pass.old.1.holding ≡ Some (seeking seat 0) }
    ensures { OnOk result (pass.new ≡ (words.now.0, holds pass.old.1 (seeking (seat + 1) 0) 18)) }
{
    if load_pin(words, pass, seat) != 0 {
        return Err("the session is pinned".into());
    }
    Ok(())
}

// The entry is found as the first of its chain.
fn finds_first(words: &Words, pass: &mut Pass, table: u32) -> Result<(), Fail>
    requires own { IsWordsPass words.now pass.old }
    requires key { pass.old.1.key ≡ sweeping }
    requires log { pass.old.1.log ≡ swept_log }
    requires table { table < 4 }
    requires holding { pass.old.1.holding ≡ Some (seeking 2 table) }
    ensures { OnOk result (pass.new ≡ (words.now.0, holds pass.old.1 (seeking 2 table) 13)) }
{
    let bucket = bucket_of(0, table, 4);
    if load_head(words, pass, table, bucket, Told::Sweeps) != 1 {
        return Err("another entry is the first".into());
    }
    Ok(())
}

// What stands behind the entry.
fn finds_behind(words: &Words, pass: &mut Pass, table: u32) -> u64
    requires own { IsWordsPass words.now pass.old }
    requires key { pass.old.1.key ≡ sweeping }
    requires log { pass.old.1.log ≡ swept_log }
    requires table { table < 4 }
    requires holding { pass.old.1.holding ≡ Some (seeking 2 table) }
    ensures { pass.new ≡ (words.now.0, holds pass.old.1 (behind_at table result (seeking 2 table)) 16) }
{
    load_next(words, pass, table, 0, Told::Sweeps)
}

// The entry is unlinked from the head.
fn cuts(words: &Words, pass: &mut Pass, table: u32, behind: u64) -> Result<(), Fail>
    requires own { IsWordsPass words.now pass.old }
    requires key { pass.old.1.key ≡ sweeping }
    requires log { pass.old.1.log ≡ swept_log }
    requires table { table < 4 }
    requires holding { pass.old.1.holding ≡ Some (behind_at table behind (seeking 2 table)) }
    ensures { OnOk result (pass.new ≡ (words.now.0, holds pass.old.1 (seeking 2 (table + 1)) 20)) }
{
    let bucket = bucket_of(0, table, 4);
    if cut_head(words, pass, table, bucket, 1, behind) != 1 {
        return Err("another entry is the first".into());
    }
    Ok(())
}

// The entry goes into limbo, and the sweep is given back.
fn leaves(words: &Words, pass: &mut Pass)
    requires own { IsWordsPass words.now pass.old }
    requires holding { pass.old.1.holding ≡ Some (record (seeking 2 4) { marked = Some 2 }) }
    ensures { pass.new ≡ (words.now.0, swept_to Nothing pass.old.1 limbo_word) }
{
    store_sweep(words, pass, LIMBO.pack(), &LIMBO, Told::Nothing);
}

// The next session is found free of the entry in limbo.
fn scans_again(words: &Words, pass: &mut Pass, seat: u32) -> Result<(), Fail>
    requires own { IsWordsPass words.now pass.old }
    requires key { pass.old.1.key ≡ sweeping }
    requires log { pass.old.1.log ≡ swept_log }
    requires seat { seat < 2 }
    requires holding { pass.old.1.holding ≡ Some (in_limbo seat) }
    ensures { OnOk result (pass.new ≡ (words.now.0, holds pass.old.1 (in_limbo (seat + 1)) 18)) }
{
    if load_pin(words, pass, seat) != 0 {
        return Err("the session is pinned".into());
    }
    Ok(())
}

// The session 1 is found pinned, having seen no place: so it may be at the entry in limbo.
fn finds_pinned(words: &Words, pass: &mut Pass) -> Result<(), Fail>
    requires own { IsWordsPass words.now pass.old }
    requires key { pass.old.1.key ≡ sweeping }
    requires log { pass.old.1.log ≡ swept_log }
    requires holding { pass.old.1.holding ≡ Some (in_limbo 1) }
    ensures { OnOk result (pass.new ≡ (words.now.0, holds pass.old.1 (in_limbo 1) 18)) }
{
    if load_pin(words, pass, 1) != 1 {
        return Err("another pin".into());
    }
    Ok(())
}

// The sweep is given back as it was, with the entry in limbo.
fn stays(words: &Words, pass: &mut Pass, told: Told)
    requires own { IsWordsPass words.now pass.old }
    requires holding { pass.old.1.holding ≡ Some (in_limbo 1) }
    ensures { pass.new ≡ (words.now.0, swept_to told pass.old.1 limbo_word) }
{
    store_sweep(words, pass, LIMBO.pack(), &LIMBO, told);
}

// So many entries were put into the ring.
fn finds_put(words: &Words, pass: &mut Pass) -> Result<(), Fail>
    requires own { IsWordsPass words.now pass.old }
    requires key { pass.old.1.key ≡ sweeping }
    requires log { pass.old.1.log ≡ swept_log }
    requires holding { pass.old.1.holding ≡ Some (in_limbo 2) }
    ensures { OnOk result (pass.new ≡ (words.now.0, holds pass.old.1 (put_known 4 (in_limbo 2)) 10)) }
{
    if load_put(words, pass, Told::Sweeps) != 4 {
        return Err("another count".into());
    }
    Ok(())
}

// The entry is stored in its ring place.
fn gives(words: &Words, pass: &mut Pass)
    requires own { IsWordsPass words.now pass.old }
    requires key { pass.old.1.key ≡ sweeping }
    requires log { pass.old.1.log ≡ swept_log }
    requires holding { pass.old.1.holding ≡ Some (put_known 4 (in_limbo 2)) }
    ensures { pass.new ≡ (words.now.0, holds pass.old.1 (give_stored (put_known 4 (in_limbo 2))) 22) }
{
    store_give(words, pass, 0, 0);
}

// The count is raised for it.
fn raises(words: &Words, pass: &mut Pass)
    requires own { IsWordsPass words.now pass.old }
    requires key { pass.old.1.key ≡ sweeping }
    requires log { pass.old.1.log ≡ swept_log }
    requires holding { pass.old.1.holding ≡ Some (give_stored (put_known 4 (in_limbo 2))) }
    ensures { pass.new ≡ (words.now.0, holds pass.old.1 (put_stored (in_limbo 2)) 22) }
{
    store_put(words, pass, 5);
}

// The sweep goes on to the next place, and is given back.
fn goes_on(words: &Words, pass: &mut Pass, told: Told)
    requires own { IsWordsPass words.now pass.old }
    requires holding { pass.old.1.holding ≡ Some (put_stored (in_limbo 2)) }
    ensures { pass.new ≡ (words.now.0, swept_to told pass.old.1 next_word) }
{
    store_sweep(words, pass, NEXT.pack(), &NEXT, told);
}

// The entry is unlinked in one table more.
fn unlinks(words: &Words, pass: &mut Pass, table: u32) -> Result<(), Fail>
    requires own { IsWordsPass words.now pass.old }
    requires key { pass.old.1.key ≡ sweeping }
    requires log { pass.old.1.log ≡ swept_log }
    requires table { table < 4 }
    requires holding { pass.old.1.holding ≡ Some (seeking 2 table) }
    ensures { OnOk result (pass.new ≡ (words.now.0, record (all_counted pass.old.1 (13 ∷ 16 ∷ 20 ∷ [])) { holding = Some (seeking 2 (table + 1)) })) }
{
    finds_first(words, pass, table)?;
    let behind = finds_behind(words, pass, table);
    cuts(words, pass, table, behind)
}

// The entry is unlinked in all tables.
fn unlinks_all(words: &Words, pass: &mut Pass) -> Result<(), Fail>
    requires own { IsWordsPass words.now pass.old }
    requires key { pass.old.1.key ≡ sweeping }
    requires log { pass.old.1.log ≡ swept_log }
    requires holding { pass.old.1.holding ≡ Some (seeking 2 0) }
    ensures { OnOk result (pass.new ≡ (words.now.0, unlinked pass.old.1)) }
{
    unlinks(words, pass, 0)?;
    unlinks(words, pass, 1)?;
    unlinks(words, pass, 2)?;
    unlinks(words, pass, 3)
}

// The sweep is taken, the entry unlinked, and then the mark found.
fn unlinks_and_marks(words: &Words, pass: &mut Pass) -> Result<(), Fail>
    requires own { IsWordsPass words.now pass.old }
    requires key { pass.old.1.key ≡ sweeping }
    requires log { pass.old.1.log ≡ swept_log }
    requires free { pass.old.1.holding ≡ None }
    requires last { pass.old.1.last_word ≡ unswept }
    ensures { OnOk result (pass.new ≡ (words.now.0, marked_out pass.old.1)) }
{
    takes_sweep(words, pass, UNSWEPT, 0)?;
    examines(words, pass, 536_870_914)?;
    scans(words, pass, 0)?;
    scans(words, pass, 1)?;
    unlinks_all(words, pass)?;
    finds_front(words, pass, 2, Told::Nothing)
}

// The sweep is taken again, and its second scan finds session 1 pinned.
fn waits(words: &Words, pass: &mut Pass, told: Told) -> Result<(), Fail>
    requires own { IsWordsPass words.now pass.old }
    requires key { pass.old.1.key ≡ sweeping }
    requires log { pass.old.1.log ≡ swept_log }
    requires free { pass.old.1.holding ≡ None }
    requires last { pass.old.1.last_word ≡ limbo_word }
    ensures { OnOk result (pass.new ≡ (words.now.0, waited told pass.old.1)) }
{
    takes_sweep(words, pass, LIMBO, 268_435_462)?;
    scans_again(words, pass, 0)?;
    finds_pinned(words, pass)?;
    stays(words, pass, told);
    Ok(())
}

// The sweep is taken again, all sessions are found free, and the entry is given back.
fn gives_entry_back(words: &Words, pass: &mut Pass, told: Told) -> Result<(), Fail>
    requires own { IsWordsPass words.now pass.old }
    requires key { pass.old.1.key ≡ sweeping }
    requires log { pass.old.1.log ≡ swept_log }
    requires free { pass.old.1.holding ≡ None }
    requires last { pass.old.1.last_word ≡ limbo_word }
    ensures { OnOk result (pass.new ≡ (words.now.0, gave_back told pass.old.1)) }
{
    takes_sweep(words, pass, LIMBO, 268_435_462)?;
    scans_again(words, pass, 0)?;
    scans_again(words, pass, 1)?;
    finds_put(words, pass)?;
    gives(words, pass);
    raises(words, pass);
    goes_on(words, pass, told);
    Ok(())
}

// The first pass withdraws what it has found live.
fn withdraws(words: &Words, pass: &mut Pass) -> Result<(), Fail>
    requires words { words.now.1 ≡ sweeping }
    requires live { pass.old ≡ (words.now.0, seen_live) }
    ensures { OnOk result (pass.new ≡ (words.now.0, withdrawn)) }
{
    let word = LogWord::Wd { entry: 0, id: 0 }.pack();
    if swap_log(words, pass, 1, 0, word, &Update::Wd(0), 0) != 0 {
        return Err("the place is filled".into());
    }
    Ok(())
}

// It completes the withdrawal, and is unpinned.
fn buries(words: &Words, pass: &mut Pass) -> Result<(), Fail>
    requires words { words.now.1 ≡ sweeping }
    requires withdrawn { pass.old ≡ (words.now.0, withdrawn) }
    ensures { OnOk result (pass.new ≡ (words.now.0, buried)) }
{
    let birth = birth_word(0)?;
    let stamp = StampWord::Dead {
        kind: meta()?,
        id: 0,
        death: 1,
    };
    swap_death(words, pass, 0, birth, stamp.pack());
    unpins(words, pass);
    Ok(())
}

// The first pass declares, and finds its declaration live.
fn declares(words: &Words, pass: &mut Pass) -> Result<(), Fail>
    requires words { words.now.1 ≡ sweeping }
    requires ready { pass.old ≡ (words.now.0, ready 16 0) }
    ensures { OnOk result (pass.new ≡ (words.now.0, seen_live)) }
{
    commits(words, pass, 0, 0, 1)?;
    helps(words, pass, 0, 0)?;
    finds_front(words, pass, 1, Told::Nothing)?;
    finds_birth(words, pass, 0, 0, 536_870_912)
}

// The second pass, which is pinned, finds the first place filled.
fn sees_first(words: &Words, pass: &mut Pass) -> Result<(), Fail>
    requires words { words.now.1 ≡ sweeping }
    requires pinned { pass.old ≡ (words.now.0, pinned (fresh sweeping 1 1)) }
    ensures { OnOk result ((p : APlace) × (pass.new ≡ (words.now.0, filled Nothing (pinned (fresh sweeping 1 1)) p))) }
{
    if load_log(words, pass, 0, Told::Nothing) != 1 {
        return Err("another word".into());
    }
    Ok(())
}

// And the second.
fn sees_second(words: &Words, pass: &mut Pass) -> Result<(), Fail>
    requires words { words.now.1 ≡ sweeping }
    requires seen { (p : APlace) × (pass.old ≡ (words.now.0, filled Nothing (pinned (fresh sweeping 1 1)) p)) }
    ensures { OnOk result ((p : APlace) × (q : APlace) × (pass.new ≡ (words.now.0, filled Nothing (filled Nothing (pinned (fresh sweeping 1 1)) p) q))) }
{
    if load_log(words, pass, 1, Told::Nothing) != 2 {
        return Err("another word".into());
    }
    Ok(())
}

// And opens a snapshot at the front behind them.
fn opens(words: &Words, pass: &mut Pass) -> Result<(), Fail>
    requires words { words.now.1 ≡ sweeping }
    requires seen { (p : APlace) × (q : APlace) × (pass.old ≡ (words.now.0, filled Nothing (filled Nothing (pinned (fresh sweeping 1 1)) p) q)) }
    ensures { OnOk result ((p : APlace) × (q : APlace) × (pass.new ≡ (words.now.0, opened_at p q))) }
{
    finds_front(words, pass, 2, Told::Opens)
}

// The second pass begins: it has seen no place when it is pinned.
fn begins_second(words: &Words, pass: &mut Pass) -> Result<(), Fail>
    requires words { words.now.1 ≡ sweeping }
    requires new { pass.old ≡ (words.now.0, fresh sweeping 1 1) }
    ensures { OnOk result ((p : APlace) × (q : APlace) × (pass.new ≡ (words.now.0, opened_at p q))) }
{
    pins(words, pass);
    sees_first(words, pass)?;
    sees_second(words, pass)?;
    opens(words, pass)
}

// It closes its snapshot, and is unpinned.
fn closes(words: &Words, pass: &mut Pass)
    requires words { words.now.1 ≡ sweeping }
    requires opened { (p : APlace) × (q : APlace) × (pass.old ≡ (words.now.0, opened_at p q)) }
    ensures { (p : APlace) × (q : APlace) × (pass.new ≡ (words.now.0, unpinned Closes (opened_at p q))) }
{
    store_pin(words, pass, 0, Told::Closes);
}

// The first pass declares and withdraws.
fn withdraws_its_own(words: &Words, pass: &mut Pass) -> Result<(), Fail>
    requires words { words.now.1 ≡ sweeping }
    requires new { pass.old ≡ (words.now.0, fresh sweeping 0 1) }
    ensures { OnOk result (pass.new ≡ (words.now.0, buried)) }
{
    prepares(words, pass, 0, 16)?;
    declares(words, pass)?;
    withdraws(words, pass)?;
    buries(words, pass)
}

#[test]
fn an_entry_waits_for_a_pass_that_was_pinned_before_the_mark(rt: HostRuntime) -> Result<(), Fail> {
    let (words, mut first, mut second) = begins(rt.alloc(), 4, 16)?;
    withdraws_its_own(&words, &mut first)?;
    unlinks_and_marks(&words, &mut first)?;
    begins_second(&words, &mut second)?;
    leaves(&words, &mut first);
    let pinned = Swept {
        places: 0,
        given: 0,
        why: Why::Pinned { seat: 1, pin: 1 },
    };
    waits(&words, &mut first, Told::Ends(pinned))?;
    closes(&words, &mut second);
    let given = Swept {
        places: 1,
        given: 1,
        why: Why::Front,
    };
    gives_entry_back(&words, &mut first, Told::Ends(given))
}
