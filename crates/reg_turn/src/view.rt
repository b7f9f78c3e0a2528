// What a table of turns is told, and what a seat of it knows.
use reg_model::{Carried, Row, Sizes, Update};
use std::collections::LinkedList;

/// What the table is told when it is made: the sizes and the opening of its round.
#[derive(Drop)]
pub struct Key {
    pub sizes: Sizes,
    pub carried: Carried,
}

/// The rows of one session. No value of it is made.
#[derive(Drop)]
pub struct Account {
    pub number: u32,
    pub rows: LinkedList<Row>,
}

/// What a seat knows. No value of it is made.
#[derive(Drop)]
pub struct View {
    /// The seat is that of a pass, or of the passes that are still to be dealt out.
    pub live: bool,
    pub key: Key,
    /// It has the turn, and the registry has this log.
    pub holds: bool,
    pub log: LinkedList<Update>,
    /// The greatest point that it has seen.
    pub seen: u64,
    pub accounts: LinkedList<Account>,
    /// The accounts that a seal keeps.
    pub sealed: LinkedList<Account>,
}
