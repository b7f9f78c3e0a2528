ghost use Rattle.std.specs.Prelude.{◌≡◌, ◌≢◌, [], None, Ok, IsErr, length};
ghost use Rattle.reg_session.specs.Faults.{HasCause};
ghost use Rattle.reg_session.specs.Files.{TakesFront};

use crate::sink::{Failed, Sink};

/// A sink that takes every piece whole, and keeps none.
#[derive(Clone, Copy, Debug, PartialEq, Eq)]
pub struct SureSink;

impl SureSink {
    /// A sink that has taken nothing.
    pub fn new() -> SureSink {
        SureSink
    }
}

impl Sink for SureSink {
    ghost taken = { λ _. None };

    ghost faults = { λ _. 0 };

    fn put(&mut self, piece: &[u8]) -> Result<usize, Failed>
        requires { piece.now ≢ [] }
        ensures takes { TakesFront None None piece.now result }
        ensures cause { HasCause 0 0 (IsErr result) }

        // It takes the whole piece.
        ensures whole { result ≡ Ok (length piece.now) }
    {
        Ok(piece.len())
    }
}
