// The rule of the table, and its kinds of step.
ghost use Rattle.std.specs.Prelude.{Option, None};
ghost use Rattle.reg_turn.specs.inner.OneTurn.{Kept, first_view};
ghost use Rattle.reg_turn.specs.inner.Steps.{ServedCall, taken, gave, head_part, tail_part, joined, nobody, sealing};

use crate::view::{Key, View};
use atomic_table::{Join, Play, Split, TableRule};
use reg_model::Plain;
use std::marker::{Brand, PhantomData};

pub struct OneTurn;

impl TableRule<Option<Plain>, View, Key> for OneTurn {
    ghost holds = { Kept };

    ghost first = { first_view };
}

/// The word is exchanged from 0 to 1, and the registry is out.
pub struct Take;

impl Play<Option<Plain>, View> for Take {
    ghost then = { taken };
}

/// The call that was served, and its answer, if one was. A call names them in its proof.
pub trait Telling {
    ghost served: { Option ServedCall };
}

impl Telling for Brand {
    ghost served = { None };
}

/// No call was served.
pub struct Silent;

impl Telling for Silent {
    ghost served = { None };
}

/// 0 is stored, and the registry is at home again.
pub struct Give<T> {
    told: PhantomData<T>,
}

impl<T: Telling> Play<Option<Plain>, View> for Give<T> {
    ghost then = { gave T.served };
}

/// The first account of a seat stays with it, and a new seat has the others.
pub struct Deal;

impl Split<View> for Deal {
    ghost left = { head_part };

    ghost right = { tail_part };
}

/// A seat has the accounts of another behind its own.
pub struct Gather;

impl Join<View> for Gather {
    ghost both = { joined };

    ghost spent = { nobody };
}

/// A new seat keeps the accounts of this one.
pub struct Keep;

impl Split<View> for Keep {
    ghost left = { λ v. v };

    ghost right = { sealing };
}
