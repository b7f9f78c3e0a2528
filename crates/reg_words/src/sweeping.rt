/// What one sweep did: it passes places of the log in their order, and gives back the entries of declarations that were
/// withdrawn there.
#[derive(Clone, Copy, Debug, PartialEq, Eq)]
pub struct Swept {
    /// How many places it passed.
    pub places: u32,
    /// How many entries it gave back: of these places, at most one each.
    pub given: u32,
    /// Why it went no further.
    pub why: Why,
}

/// Why a sweep stopped.
#[derive(Clone, Copy, Debug, PartialEq, Eq)]
pub enum Why {
    /// The next place was empty, or was the last one with its withdrawal not stamped yet, or all places of the log are passed.
    Front,
    /// As many places were passed as were asked for.
    Limit,
    /// A seat is in the way: it had seen no more places than the withdrawal's place, or than the mark, so it may still read
    /// the entry that would be given back.
    Pinned {
        /// The number of the seat.
        seat: u32,
        /// Its PIN word as it was found, which is not 0: the number of places that the seat has seen, and one more.
        pin: u32,
    },
    /// Another caller holds the sweep.
    Held,
}
