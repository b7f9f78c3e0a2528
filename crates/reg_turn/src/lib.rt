//! A desk behind one turn: a registry that one caller at a time has.
//!
//! It stands on `reg_model`, whose trait `Desk` it implements. `reg_top` serves over it.
//!
//! The registry, a `Plain`, lies in the one slot of a table. The table's one word is 0 while nobody has the turn. A call
//! exchanges the word from 0 to 1, takes the registry out of the slot, asks it, puts it back and stores 0; a pass is a seat
//! of the table. `specs.inner.OneTurn.antt` says what holds between any two steps, `specs/inner/Steps.antt` what a step
//! tells its caller, `specs/PlainRows.antt` what a round over this desk promises beyond the trait.
#![tactic(auto)]

mod desk;
mod passes;
mod rule;
mod view;

pub use desk::TurnDesk;
pub use passes::{TurnPass, TurnSeal};

#[cfg(test)]
mod tests;
