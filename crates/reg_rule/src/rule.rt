// The rule of the table, and the names of its steps.
ghost use Rattle.std.specs.Prelude.{ℕ, Option, None};
ghost use Rattle.reg_words.specs.declared.word.SweepWord.{SweepWord};
ghost use Rattle.reg_model.specs.declared.update.Update.TheVariants.{Wd};
ghost use Rattle.reg_rule.specs.declared.told.Told.{Told as ToldValue};
ghost use Rattle.reg_rule.specs.declared.told.Told.TheVariants.{Nothing};
ghost use Rattle.reg_rule.specs.declared.view.Place.{Place};
ghost use Rattle.reg_rule.specs.inner.Rule.{Kept, first};
ghost use Rattle.reg_rule.specs.Fresh.{unswept};
ghost use Rattle.reg_rule.specs.Log.{place_of};
ghost use Rattle.reg_rule.specs.Steps.{HeadTells, NextTells, LogLoaded, LogSwapped, CodeLoaded, StampLoaded, NoteStored, BirthSwapped, DeathSwapped, HeldStored, TakeLoaded, PutLoaded, GiveLoaded, TakeSwapped, NextStored, HeadSwapped, PinStored, PinLoaded, SweepSwapped, SweepStored, HeadCut, NextCut, GiveStored, PutStored};
ghost use Rattle.reg_rule.specs.inner.Plays.{seated, seated_more, seated_past, seated_with, seated_leaving, seated_taking};
ghost use Rattle.reg_rule.specs.inner.Remembering.{remembered_of, pinned_to, sweep_found, sweep_left};
ghost use Rattle.reg_rule.specs.Seatings.{head_part, tail_part, joined, nobody, sealing};

use crate::view::{Key, View};
use atomic_table::{Join, Play, Split, TableRule};
use std::marker::{Brand, PhantomData};

/// All sessions share one registry.
pub struct OneRegistry;

impl TableRule<(), View, Key> for OneRegistry {
    ghost holds = { Kept };

    ghost first = { first };
}

/// What a step is told, and where it is made: the table, and the place, entry, bucket or session.
pub trait Telling {
    ghost told: { ToldValue };

    ghost table: { ℕ };

    ghost at: { ℕ };

    ghost place: { Place };

    ghost word: { SweepWord };

    ghost code: { Option ℕ };
}

impl Telling for Brand {
    ghost told = { Nothing };

    ghost table = { 0 };

    ghost at = { 0 };

    ghost place = { place_of (Wd 0) 0 };

    ghost word = { unswept };

    ghost code = { None };
}

/// A load of the log.
pub struct LoadLog<T> {
    told: PhantomData<T>,
}

impl<T: Telling> Play<(), View> for LoadLog<T> {
    ghost then = { seated_more T.told T.at (LogLoaded T.told T.at) };
}

/// An exchange of the log.
pub struct SwapLog<T> {
    told: PhantomData<T>,
}

impl<T: Telling> Play<(), View> for SwapLog<T> {
    ghost then = { seated_past T.place.update (LogSwapped T.at T.place) };
}

/// A load of a code.
pub struct LoadCode<T> {
    told: PhantomData<T>,
}

impl<T: Telling> Play<(), View> for LoadCode<T> {
    ghost then = { seated (CodeLoaded T.told T.at) };
}

/// A store of a note.
pub struct StoreNote<T> {
    told: PhantomData<T>,
}

impl<T: Telling> Play<(), View> for StoreNote<T> {
    ghost then = { seated (λ v r w. NoteStored T.at v w) };
}

/// An exchange of a stamp, to a birth.
pub struct SwapBirth<T> {
    told: PhantomData<T>,
}

impl<T: Telling> Play<(), View> for SwapBirth<T> {
    ghost then = { seated (λ v r w. BirthSwapped v w) };
}

/// An exchange of a stamp, to a death.
pub struct SwapDeath<T> {
    told: PhantomData<T>,
}

impl<T: Telling> Play<(), View> for SwapDeath<T> {
    ghost then = { seated (λ v r w. DeathSwapped v w) };
}

/// A load of a stamp.
pub struct LoadStamp<T> {
    told: PhantomData<T>,
}

impl<T: Telling> Play<(), View> for LoadStamp<T> {
    ghost then = { seated (StampLoaded T.told T.at) };
}

/// A store of the stamp or the code of the entry in hand.
pub struct StoreHeld<T> {
    told: PhantomData<T>,
}

impl<T: Telling> Play<(), View> for StoreHeld<T> {
    ghost then = { seated (λ v r w. HeldStored T.code v w) };
}

/// A load of the count taken.
pub struct LoadTake<T> {
    told: PhantomData<T>,
}

impl<T: Telling> Play<(), View> for LoadTake<T> {
    ghost then = { seated TakeLoaded };
}

/// A load of the count put.
pub struct LoadPut<T> {
    told: PhantomData<T>,
}

impl<T: Telling> Play<(), View> for LoadPut<T> {
    ghost then = { seated (PutLoaded T.told) };
}

/// A load of a ring place.
pub struct LoadGive<T> {
    told: PhantomData<T>,
}

impl<T: Telling> Play<(), View> for LoadGive<T> {
    ghost then = { seated GiveLoaded };
}

/// An exchange of the count taken.
pub struct SwapTake<T> {
    told: PhantomData<T>,
}

impl<T: Telling> Play<(), View> for SwapTake<T> {
    ghost then = { seated_taking T.at TakeSwapped };
}

/// A load of a head.
pub struct LoadHead<T> {
    told: PhantomData<T>,
}

impl<T: Telling> Play<(), View> for LoadHead<T> {
    ghost then = { seated (HeadTells T.told T.table T.at) };
}

/// A store of the next word of the entry in hand.
pub struct StoreNext<T> {
    told: PhantomData<T>,
}

impl<T: Telling> Play<(), View> for StoreNext<T> {
    ghost then = { seated_with (λ new other v r w. NextStored T.table new v w) };
}

/// An exchange of a head, to push.
pub struct SwapHead<T> {
    told: PhantomData<T>,
}

impl<T: Telling> Play<(), View> for SwapHead<T> {
    ghost then = { seated_with (λ old new v r w. HeadSwapped T.table old v r w) };
}

/// A load of a next word.
pub struct LoadNext<T> {
    told: PhantomData<T>,
}

impl<T: Telling> Play<(), View> for LoadNext<T> {
    ghost then = { seated (NextTells T.told T.table T.at) };
}

/// A store of the seat's pin.
pub struct StorePin<T> {
    told: PhantomData<T>,
}

impl<T: Telling> Play<(), View> for StorePin<T> {
    ghost then = { seated_leaving (λ new v r. pinned_to T.told new (remembered_of v)) (λ new v r w. PinStored T.told new v w) };
}

/// A load of a pin.
pub struct LoadPin<T> {
    told: PhantomData<T>,
}

impl<T: Telling> Play<(), View> for LoadPin<T> {
    ghost then = { seated (PinLoaded T.at) };
}

/// An exchange of the word of the sweep, to take it.
pub struct SwapSweep<T> {
    told: PhantomData<T>,
}

impl<T: Telling> Play<(), View> for SwapSweep<T> {
    ghost then = { seated_leaving (λ old v r. sweep_found T.told r (remembered_of v)) (λ old v r w. SweepSwapped T.told old v r w) };
}

/// A store of the word of the sweep.
pub struct StoreSweep<T> {
    told: PhantomData<T>,
}

impl<T: Telling> Play<(), View> for StoreSweep<T> {
    ghost then = { seated_leaving (λ new v r. sweep_left T.told new (remembered_of v)) (λ new v r w. SweepStored T.told T.word v w) };
}

/// An exchange of a head, to unlink.
pub struct CutHead<T> {
    told: PhantomData<T>,
}

impl<T: Telling> Play<(), View> for CutHead<T> {
    ghost then = { seated_with (λ old new v r w. HeadCut T.table old v r w) };
}

/// An exchange of a next word, to unlink.
pub struct CutNext<T> {
    told: PhantomData<T>,
}

impl<T: Telling> Play<(), View> for CutNext<T> {
    ghost then = { seated_with (λ old new v r w. NextCut T.table old v r w) };
}

/// A store of a ring place.
pub struct StoreGive<T> {
    told: PhantomData<T>,
}

impl<T: Telling> Play<(), View> for StoreGive<T> {
    ghost then = { seated (λ v r w. GiveStored v w) };
}

/// A store of the count put.
pub struct StorePut<T> {
    told: PhantomData<T>,
}

impl<T: Telling> Play<(), View> for StorePut<T> {
    ghost then = { seated (λ v r w. PutStored v w) };
}

/// A seat keeps its first account.
pub struct Splitting;

impl Split<View> for Splitting {
    ghost left = { head_part };

    ghost right = { tail_part };
}

/// A seat takes in another.
pub struct Joining;

impl Join<View> for Joining {
    ghost both = { joined };

    ghost spent = { nobody };
}

/// A view that only keeps the accounts.
pub struct Sealing;

impl Split<View> for Sealing {
    ghost left = { λ v. v };

    ghost right = { sealing };
}
