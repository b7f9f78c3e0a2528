// What a pass keeps in its own memory beside its seat, and what a program may ask of it.
ghost use Rattle.std.specs.Prelude.{◌≡◌, ◌<◌, ◌↔◌, ◌-◌, ◌^◌, min, length, true, None, option_map};
ghost use Rattle.std.specs.List.{last_or};
ghost use Rattle.reg_model.specs.Live.{declarations, withdrawals};
ghost use Rattle.reg_words.specs.Packing.{sweep_word};
ghost use Rattle.reg_rule.specs.Log.{updates};
ghost use Rattle.reg_rule.specs.Seats.{hand_of};
ghost use Rattle.reg_rule.specs.Passes.{number_of, point_of};
ghost use Rattle.reg_rule.specs.inner.Remembering.{opened_at, pinned_to, swept_more, sweep_found, sweep_left};

use crate::told::Told;
use crate::words::Pass;
use reg_words::Swept;

// What a pass keeps of what it knows, beside the places seen and the entry in hand.
#[derive(Drop)]
pub(crate) struct Remembered {
    // The number of its session, and how many updates were made before the round.
    pub(crate) number: u32,
    pub(crate) base: u64,
    // The place of its open snapshot.
    pub(crate) snapshot: Option<u32>,
    // Its pin word.
    pub(crate) pin: u64,
    // How many of the places seen are declarations.
    pub(crate) decls: u32,
    // The last word without held that it found or stored in the word of the sweep.
    pub(crate) sweep_word: u64,
    // How many sweeps it made, or the greatest number if they are more, and what the last one did.
    pub(crate) sweeps: u64,
    pub(crate) last_sweep: Option<Swept>,
}

impl Remembered {
    // What a pass remembers that has done nothing yet.
    pub(crate) fn new(number: u32, base: u64) -> Remembered
        ensures { result ≡ record { number = number; base = base; snapshot = None; pin = 0; decls = 0; sweep_word = 0; sweeps = 0; last_sweep = None } }
    {
        Remembered {
            number,
            base,
            snapshot: None,
            pin: 0,
            decls: 0,
            sweep_word: 0,
            sweeps: 0,
            last_sweep: None,
        }
    }

    // A snapshot is opened where the front was found.
    #[inline]
    pub(crate) fn open(&mut self, told: Told, front: bool, place: u32)
        ensures { self.new ≡ opened_at told front place self.old }
    {
        if matches!(told, Told::Opens) && front {
            self.snapshot = Some(place);
        }
    }

    // The pin was stored.
    #[inline]
    pub(crate) fn repin(&mut self, told: Told, new: u64)
        ensures { self.new ≡ pinned_to told new self.old }
    {
        self.pin = new;
        if matches!(told, Told::Closes) && new == 0 {
            self.snapshot = None;
        }
    }

    // A sweep has ended.
    #[inline]
    fn end(&mut self, told: Told)
        ensures { self.new ≡ swept_more told self.old }
    {
        if let Told::Ends(swept) = told {
            self.sweeps = self.sweeps.saturating_add(1);
            self.last_sweep = Some(swept);
        }
    }

    // This word was found where the sweep was to be taken. The low bit says that it is held.
    #[inline]
    pub(crate) fn find_sweep(&mut self, told: Told, found: u64)
        ensures { self.new ≡ sweep_found told found self.old }
    {
        if found % 2 == 1 {
            self.end(told);
        } else {
            self.sweep_word = found;
        }
    }

    // This word was stored by the holder of the sweep.
    #[inline]
    pub(crate) fn leave_sweep(&mut self, told: Told, new: u64)
        ensures { self.new ≡ sweep_left told new self.old }
    {
        if new % 2 == 0 {
            self.sweep_word = new;
            self.end(told);
        }
    }
}

impl Pass {
    /// The number of the session.
    #[inline]
    pub fn number(&self) -> u32
        ensures number { result ≡ number_of self.now.1 }
        ensures below { result < self.now.1.key.sizes.callers }
    {
        self.remembered.number
    }

    /// How many places of the log the pass has seen.
    #[inline]
    pub fn places_seen(&self) -> u32
        ensures { result ≡ length self.now.1.log }
    {
        self.seen
    }

    /// The greatest point that the pass has seen.
    #[inline]
    pub fn seen(&self) -> u64
        ensures { result ≡ point_of self.now.1 (length self.now.1.log) }
    {
        self.remembered.base + self.seen as u64
    }

    /// The point of the open snapshot, if one is open.
    #[inline]
    pub fn snapshot(&self) -> Option<u64>
        ensures { result ≡ option_map (point_of self.now.1) self.now.1.snapshot }
    {
        match self.remembered.snapshot {
            None => None,
            Some(place) => Some(self.remembered.base + place as u64),
        }
    }

    /// The entry in hand, if there is one.
    #[inline]
    pub fn hand(&self) -> Option<u32>
        ensures { result ≡ hand_of self.now.1 }
    {
        self.hand
    }

    /// The pass is pinned.
    #[inline]
    pub fn pinned(&self) -> bool
        ensures { result ≡ true ↔ 0 < self.now.1.pin }
    {
        self.remembered.pin != 0
    }

    /// The word in which the session has its pin.
    #[inline]
    pub fn pin(&self) -> u64
        ensures { result ≡ self.now.1.pin }
    {
        self.remembered.pin
    }

    /// How many of the places seen are declarations.
    #[inline]
    pub fn decls(&self) -> u32
        ensures { result ≡ declarations (updates self.now.1.log) }
    {
        self.remembered.decls
    }

    /// How many of the places seen are withdrawals.
    #[inline]
    pub fn wds(&self) -> u32
        ensures { result ≡ withdrawals (updates self.now.1.log) }
    {
        self.seen - self.remembered.decls
    }

    /// The last word of the sweep that was found or stored here and isn't held.
    #[inline]
    pub fn sweep_word(&self) -> u64
        ensures { result ≡ sweep_word self.now.1.last_word }
    {
        self.remembered.sweep_word
    }

    /// How many sweeps the pass has made, or the greatest number if they are more.
    #[inline]
    pub fn sweeps(&self) -> u64
        ensures { result ≡ min (length self.now.1.sweeps) (2 ^ 64 - 1) }
    {
        self.remembered.sweeps
    }

    /// What the last sweep did, if the pass has made one.
    #[inline]
    pub fn last_sweep(&self) -> Option<Swept>
        ensures { result ≡ last_or None self.now.1.sweeps }
    {
        self.remembered.last_sweep
    }
}
