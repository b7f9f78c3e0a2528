use iscc_header::{Items, Unit64};
use reg_model::{Call, Declared, Reply};

/// What one line of a history tells. Its numbers are those of the text, whether or not they can stand there.
#[derive(Debug, Drop, PartialEq)]
pub(crate) enum HistoryLine {
    /// The first line.
    Head,
    /// A declaration that is carried into the first round.
    Carry(Declared),
    Round(ToldRound),
    Row(ToldRow),
    /// The end: the numbers of all rows, and of the declarations that are live.
    End { rows: u64, live: u64 },
}

/// The line of a round: its number, its base and its sizes.
#[derive(Clone, Copy, Debug, PartialEq, Eq)]
pub(crate) struct ToldRound {
    pub number: u64,
    pub base: u64,
    pub entries: u64,
    pub log: u64,
    pub callers: u64,
}

/// The line of a row.
#[derive(Debug, Drop, PartialEq)]
pub(crate) struct ToldRow {
    pub session: u64,
    pub number: u64,
    pub point: u64,
    pub call: Call,
    pub reply: ToldReply,
}

/// The reply that a row's line tells. Hits are told with whole units, which may be of any kind.
#[derive(Debug, Drop, PartialEq)]
pub(crate) enum ToldReply {
    Hits(ToldHits),
    /// Every reply but hits.
    Plain(Reply),
}

/// A hit: its id, its distance and its unit.
#[derive(Clone, Copy, Debug, PartialEq, Eq)]
pub(crate) struct ToldHit {
    pub id: u64,
    pub distance: u64,
    pub unit: Unit64,
}

/// The hits of a line, in order.
pub(crate) type ToldHits = Items<ToldHit>;
