ghost use Rattle.std.specs.Prelude.{◌≡◌};

use crate::view::View;
use atomic_table::{Badge, Seat};
use reg_model::Plain;
use std::marker::Model;

/// What one caller uses a desk with. Contracts see which desk it is of, and the pass.
#[derive(Drop)]
pub struct TurnPass {
    pub(crate) seat: Seat<Option<Plain>, View>,
    pub(crate) number: u32,
}

impl Model for TurnPass {
    ghost use Rattle.reg_turn.specs.Turns.{TurnPassView};
    ghost use Rattle.reg_turn.specs.inner.Steps.{IsIdle, turn_view, pass_of};

    ghost Value = { TurnPassView };

    ghost view = { λ p. record { desk = turn_view p.seat.table_id p.seat.me.0.key; pass = pass_of p.seat.me.0 } };

    ghost invariant = { λ p. IsIdle p.seat.me p.number };
}

/// What stays of a round: the accounts of its sessions by number, which contracts see. Nothing is read from it.
#[derive(Drop)]
pub struct TurnSeal {
    pub(crate) badge: Badge<View>,
}

impl Model for TurnSeal {
    ghost use Rattle.std.specs.Prelude.{List};
    ghost use Rattle.reg_model.specs.declared.reply.Row.{Row};
    ghost use Rattle.reg_turn.specs.inner.Steps.{sealed_accounts};

    ghost Value = { List (List Row) };

    ghost view = { λ s. sealed_accounts s.badge.views };
}

impl TurnPass {
    /// The number of its session.
    pub fn number(&self) -> u32
        ensures { result ≡ self.now.pass.number }
    {
        self.number
    }
}
