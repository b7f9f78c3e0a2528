// What the words are made for, and what a seat knows. But for the key, values of these types exist in proofs alone.
use iscc_header::Unit64;
use reg_model::{Carried, Row, Sizes, Update};
use reg_words::{SweepWord, Swept};
use std::collections::LinkedList;

/// What the words are made for: the sizes, what is carried into the round, and how many entries there are.
#[derive(Drop)]
pub struct Key {
    pub sizes: Sizes,
    pub carried: Carried,
    pub entries: u32,
}

/// A filled place of the log: the update, and the entry of its declaration.
#[derive(Drop)]
pub struct Place {
    pub update: Update,
    pub entry: u32,
}

/// The rows of one session.
#[derive(Drop)]
pub struct Account {
    pub number: u32,
    pub rows: LinkedList<Row>,
}

/// A next word of the entry in hand, or of the entry that is unlinked, in one table.
#[derive(Drop)]
pub struct Link {
    pub table: u32,
    pub word: u64,
}

/// An entry in hand.
#[derive(Drop)]
pub struct Hand {
    pub entry: u32,
    /// Its stamp was stored as 0.
    pub unborn: bool,
    pub code: Option<u64>,
    /// The tables in which it is linked.
    pub linked: LinkedList<u32>,
    /// The next word that was stored for the push to come.
    pub ready: Option<Link>,
}

/// A declaration that was found live at a place.
#[derive(Drop)]
pub struct Found {
    pub id: u64,
    pub entry: u32,
    pub place: u32,
}

/// Where a walk along a chain stands.
#[derive(Drop)]
pub struct Cursor {
    pub table: u32,
    pub bucket: u32,
    pub entry: u32,
}

/// A look of a query at the stamp of an entry, with the id that the stamp named.
#[derive(Drop)]
pub struct Met {
    pub table: u32,
    pub bucket: u32,
    pub entry: u32,
    pub id: Option<u64>,
}

/// The looks of a query that was answered.
#[derive(Drop)]
pub struct Cost {
    pub unit: Unit64,
    pub radius: u32,
    pub looked: u64,
}

/// How far a seat has come in taking an entry from the ring.
#[derive(Drop)]
pub enum Taking {
    Idle,
    /// The count of entries taken was loaded.
    Begun { taken: u32 },
    /// And then the count of entries put, which is greater.
    Room { taken: u32, put: u32 },
    /// And then the entry of that ring place.
    Named { taken: u32, put: u32, entry: u32 },
}

/// The ring was found empty when so many entries had been taken. The front was there then, and the last sweep of the
/// seat had stopped there.
#[derive(Drop)]
pub struct Empty {
    pub taken: u32,
    pub front: u32,
    pub stopped: u32,
}

/// Where the holder of the sweep is in a chain, and the entries between it and the one that it seeks.
#[derive(Drop)]
pub struct Way {
    pub table: u32,
    pub entry: u32,
    pub ahead: LinkedList<u32>,
}

/// What the holder of the sweep knows.
#[derive(Drop)]
pub struct Holding {
    /// What stands in the word of the sweep.
    pub word: SweepWord,
    /// The place that it examines.
    pub place: u32,
    /// The withdrawal at that place was found stamped.
    pub stamped: bool,
    /// The sessions below were found free of that place: they have no front at it or before it.
    pub clear: u32,
    /// The tables in which the entry was unlinked.
    pub cut: LinkedList<u32>,
    pub way: Option<Way>,
    /// The next word of the entry in one table.
    pub behind: Option<Link>,
    /// The front that was found after the unlinking.
    pub marked: Option<u32>,
    /// The sessions below were found free of the entry in limbo: they have no cursor at it.
    pub freed: u32,
    pub put: Option<u32>,
    /// The entry was stored in the ring.
    pub gave: bool,
    /// The count of entries put was raised for it.
    pub paid: bool,
}

/// What a seat knows.
#[derive(Drop)]
pub struct View {
    /// False once it was joined into another seat, and of one that keeps a seal.
    pub live: bool,
    pub key: Key,
    /// The places seen.
    pub log: LinkedList<Place>,
    /// Its pin word.
    pub pin: u64,
    /// The last front that it has found since it was pinned.
    pub front: Option<u32>,
    /// The place of its open snapshot.
    pub snapshot: Option<u32>,
    /// The last place that it has committed.
    pub committed: Option<u32>,
    /// The last place that it has helped to the end.
    pub helped: Option<u32>,
    /// The last place whose note it has stored.
    pub noted: Option<u32>,
    pub found: Option<Found>,
    pub cursor: Option<Cursor>,
    /// The entries that the walk has met, the cursor's included.
    pub visited: LinkedList<u32>,
    pub met: LinkedList<Met>,
    pub costs: LinkedList<Cost>,
    pub hands: LinkedList<Hand>,
    pub taking: Taking,
    pub empty: Option<Empty>,
    /// The last word without held that it found or stored in the word of the sweep.
    pub last_word: SweepWord,
    pub holding: Option<Holding>,
    /// Where its last sweep stopped that was not refused.
    pub stopped: u32,
    /// Its sweeps, in order.
    pub sweeps: LinkedList<Swept>,
    /// Its own account first, and then those of the seats that were joined into it.
    pub accounts: LinkedList<Account>,
    /// The kinds of the steps that it made, in order.
    pub made: LinkedList<u32>,
    /// The accounts that a seal keeps.
    pub sealed: LinkedList<Account>,
}
