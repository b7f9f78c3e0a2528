ghost use Rattle.std.specs.Prelude.{◌≡◌, ◌<◌, [], ◌∷◌, ◌++◌, length};
ghost use Rattle.reg_model.specs.declared.round.TheConstants.{ROUNDS_MOST};

use reg_model::Desk;
use reg_session::Seals;
use reg_turn::TurnDesk;

/// The desk over which `run` and `make` serve. Its seals are what `top` leaves of the rounds.
pub type Served = TurnDesk;

/// The seals of no round, with which a program begins. Takes no memory.
pub fn no_seals() -> Seals<Served>
    ensures { result ≡ [] }
{
    Seals::new()
}

/// Keeps the seal of a round behind those of the rounds before it.
pub(crate) fn keep(seals: &mut Seals<Served>, seal: <Served as Desk>::Seal)
    requires { length seals.old < ROUNDS_MOST }
    ensures { seals.new ≡ seals.old ++ seal ∷ [] }
{
    seals.push(seal);
}
