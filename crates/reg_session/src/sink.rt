ghost use Rattle.std.specs.Prelude.{◌≡◌, ◌≢◌, [], ℕ, List, Option, IsErr};
ghost use Rattle.reg_session.specs.Faults.{HasCause};
ghost use Rattle.reg_session.specs.Files.{TakesFront};

/// A sink took nothing.
#[derive(Clone, Copy, Debug, PartialEq, Eq)]
pub struct Failed;

/// A place for output.
pub trait Sink {
    /// The bytes that it has taken, where it tells them.
    ghost taken: { Self → Option (List ℕ) };

    /// How often it has failed. It never falls.
    ghost faults: { Self → ℕ };

    /// Takes some front of a piece.
    fn put(&mut self, piece: &[u8]) -> Result<usize, Failed>
        requires { piece.now ≢ [] }
        ensures takes { TakesFront (taken self.old) (taken self.new) piece.now result }
        ensures cause { HasCause (faults self.old) (faults self.new) (IsErr result) };
}
