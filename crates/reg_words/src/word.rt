ghost use Rattle.std.specs.Prelude.{◌≡◌, ◌≢◌, IfSome, IfNone, Some};
ghost use Rattle.reg_words.specs.declared.word.LogWord.{LogWord};
ghost use Rattle.reg_words.specs.declared.word.StampWord.{StampWord};
ghost use Rattle.reg_words.specs.declared.word.SweepWord.{SweepWord};
ghost use Rattle.reg_words.specs.Packing.{FitsLog, FitsStamp, FitsSweep, log_word, stamp_word, sweep_word};

use iscc_header::Kind;

/// A field of 4 bits is below this. It has a kind, of which there are 13.
const KINDS: u64 = 1 << 4;

/// Entries are below this: 20 bits.
const ENTRIES: u64 = 1 << 20;

/// Places, marks, and the places of deaths with one more are below this: 25 bits.
const PLACES: u64 = 1 << 25;

/// Ids in the log, and ids with one more in stamps, are below this: 35 bits.
const IDS: u64 = 1 << 35;

/// A record of the log. The word 0 is no packing of one: that place is empty.
///
/// From the low bit: a tag in 2 bits, 1 for a declaration and 2 for a withdrawal; the kind in 4, which is 0 for a
/// withdrawal; the entry in 20; the id in 35. The 3 bits above are 0.
#[derive(Clone, Copy, Debug, PartialEq, Eq)]
pub enum LogWord {
    /// A unit of this kind was declared. The entry holds it, and the id is its own.
    Decl { kind: Kind, entry: u32, id: u64 },
    /// A declaration was withdrawn. The entry is the one that holds it, and the id is the withdrawn one.
    Wd { entry: u32, id: u64 },
}

impl LogWord {
    /// The word of this record.
    #[inline]
    pub fn pack(&self) -> u64
        requires { FitsLog self.now }
        ensures { result ≡ log_word self.now }
    {
        match *self {
            LogWord::Decl { kind, entry, id } => {
                1 + ((kind.number() as u64) << 2) + ((entry as u64) << 6) + (id << 26)
            }
            LogWord::Wd { entry, id } => 2 + ((entry as u64) << 6) + (id << 26),
        }
    }

    /// The record that is packed in this word, if it is the packing of one: so what was packed is read back.
    #[inline]
    pub fn unpack(word: u64) -> Option<LogWord>
        ensures found { IfSome result (λ w. FitsLog w × (log_word w ≡ word)) }
        ensures none { IfNone result ((w : LogWord) → FitsLog w → log_word w ≢ word) }
        ensures back { (w : LogWord) → FitsLog w → log_word w ≡ word → result ≡ Some w }
    {
        let entry = ((word >> 6) % ENTRIES) as u32;
        let id = word >> 26;
        if id >= IDS {
            return None;
        }
        if word % 4 == 1 {
            let kind = Kind::new(((word >> 2) % KINDS) as u8)?;
            return Some(LogWord::Decl { kind, entry, id });
        }
        // Both fields at once: the tag 2 and the kind 0.
        if word % 64 == 2 {
            return Some(LogWord::Wd { entry, id });
        }
        None
    }
}

/// What an entry's stamp says of the declaration in it.
///
/// From the low bit: the place of the withdrawal and one more in 25 bits, 0 while the declaration is live; the kind in 4;
/// the id and one more in 35. The word 0 is that of an entry without a declaration.
#[derive(Clone, Copy, Debug, PartialEq, Eq)]
pub enum StampWord {
    /// No declaration is in the entry.
    Unborn,
    /// A declaration is in it, and isn't withdrawn.
    Live { kind: Kind, id: u64 },
    /// The declaration in it was withdrawn by the record at the place `death` of the log.
    Dead { kind: Kind, id: u64, death: u32 },
}

impl StampWord {
    /// The word of this stamp.
    #[inline]
    pub fn pack(&self) -> u64
        requires { FitsStamp self.now }
        ensures { result ≡ stamp_word self.now }
    {
        match *self {
            StampWord::Unborn => 0,
            StampWord::Live { kind, id } => ((kind.number() as u64) << 25) + ((id + 1) << 29),
            StampWord::Dead { kind, id, death } => {
                (death as u64 + 1) + ((kind.number() as u64) << 25) + ((id + 1) << 29)
            }
        }
    }

    /// The stamp that is packed in this word, if it is the packing of one: so what was packed is read back.
    #[inline]
    pub fn unpack(word: u64) -> Option<StampWord>
        ensures found { IfSome result (λ s. FitsStamp s × (stamp_word s ≡ word)) }
        ensures none { IfNone result ((s : StampWord) → FitsStamp s → stamp_word s ≢ word) }
        ensures back { (s : StampWord) → FitsStamp s → stamp_word s ≡ word → result ≡ Some s }
    {
        if word == 0 {
            return Some(StampWord::Unborn);
        }
        let born = word >> 29;
        if born == 0 {
            return None;
        }
        let id = born - 1;
        let kind = Kind::new(((word >> 25) % KINDS) as u8)?;
        let dead = (word % PLACES) as u32;
        if dead == 0 {
            return Some(StampWord::Live { kind, id });
        }
        Some(StampWord::Dead {
            kind,
            id,
            death: dead - 1,
        })
    }
}

/// How far reclamation has come.
///
/// From the low bit: whether a caller holds the sweep, in 1 bit; whether an entry is in limbo, in 1; the place in 25; the
/// mark in 25. The 12 bits above are 0.
#[derive(Clone, Copy, Debug, PartialEq, Eq)]
pub struct SweepWord {
    /// A caller holds the sweep.
    pub held: bool,
    /// The entry of the declaration that the next place withdraws is unlinked, and not given back yet.
    pub limbo: bool,
    /// The next place of the log.
    pub place: u32,
    /// While an entry is in limbo: how many places were found filled after it was unlinked. A pinned caller that has seen
    /// more places can't reach it.
    pub mark: u32,
}

impl SweepWord {
    /// The word of this state.
    #[inline]
    pub fn pack(&self) -> u64
        requires { FitsSweep self.now }
        ensures { result ≡ sweep_word self.now }
    {
        u64::from(self.held)
            + (u64::from(self.limbo) << 1)
            + ((self.place as u64) << 2)
            + ((self.mark as u64) << 27)
    }

    /// The state that is packed in this word, if it is the packing of one: so what was packed is read back.
    #[inline]
    pub fn unpack(word: u64) -> Option<SweepWord>
        ensures found { IfSome result (λ s. FitsSweep s × (sweep_word s ≡ word)) }
        ensures none { IfNone result ((s : SweepWord) → FitsSweep s → sweep_word s ≢ word) }
        ensures back { (s : SweepWord) → FitsSweep s → sweep_word s ≡ word → result ≡ Some s }
    {
        let mark = word >> 27;
        if mark >= PLACES {
            return None;
        }
        Some(SweepWord {
            held: word % 2 == 1,
            limbo: (word >> 1) % 2 == 1,
            place: ((word >> 2) % PLACES) as u32,
            mark: mark as u32,
        })
    }
}
