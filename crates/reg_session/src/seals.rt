ghost use Rattle.std.specs.Prelude.{◌≡◌, ◌<◌, ◌≤◌, [], ◌∷◌, ◌++◌, length};

use arrayvec::ArrayVec;
use reg_model::{Desk, ROUNDS_MOST};
use std::marker::Model;

/// The seals of rounds that have ended, in order: at most [`ROUNDS_MOST`] of them. Contracts see the list.
#[derive(Drop)]
pub struct Seals<D: Desk> {
    // A place of the array is filled by a value of its own, which no seal is: so each seal lies in an option.
    seals: ArrayVec<Option<D::Seal>, ROUNDS_MOST>,
}

impl<D: Desk> Model for Seals<D> {
    ghost use Rattle.std.specs.Prelude.{◌≡◌, List, length};
    ghost use Rattle.std.specs.List.{filter_map};

    ghost Value = { List D.Seal };

    ghost view = { λ s. filter_map (λ seal. seal) s.seals.items };

    ghost invariant = { λ s. length (filter_map (λ seal. seal) s.seals.items) ≡ length s.seals.items };
}

impl<D: Desk> Seals<D> {
    /// No seals. Takes no memory.
    pub fn new() -> Seals<D>
        ensures { result ≡ [] }
    {
        Seals {
            seals: ArrayVec::new(),
        }
    }

    /// Adds a seal at the end. Takes no memory.
    pub fn push(&mut self, seal: D::Seal)
        requires { length self.old < ROUNDS_MOST }
        ensures { self.new ≡ self.old ++ seal ∷ [] }
    {
        self.seals.push(Some(seal));
    }

    /// How many seals there are.
    pub fn len(&self) -> usize
        ensures value { result ≡ length self.now }
        ensures most { result ≤ ROUNDS_MOST }
    {
        self.seals.len()
    }
}
