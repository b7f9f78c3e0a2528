ghost use Rattle.std.specs.Prelude.{◌≡◌, ℕ, List, Option, Err};
ghost use Rattle.reg_session.specs.Faults.{HasCause};

/// Why a fetch gave no bytes.
#[derive(Clone, Copy, Debug, PartialEq, Eq)]
pub enum FetchFault {
    /// It couldn't be read.
    Failed,
    /// There is no file with the name.
    Missing,
    /// It has more bytes than the limit.
    TooLong,
    /// Memory is wanting for its bytes.
    NoMemory,
}

/// Why bytes weren't put under a name.
#[derive(Clone, Copy, Debug, PartialEq, Eq)]
pub enum PutFault {
    /// They couldn't be written.
    Failed,
    /// Memory is wanting.
    NoMemory,
}

/// Files by their names.
pub trait Shelf {
    ghost use Rattle.reg_session.specs.declared.shelf.FetchFault.TheVariants.{Failed};
    ghost use Rattle.reg_session.specs.Files.{FetchGives, PutTells};

    /// The bytes at each name, where it tells them.
    ghost files: { Self → Option (List ℕ → Option (List ℕ)) };

    /// How often a fetch has failed. It never falls.
    ghost fetch_faults: { Self → ℕ };

    /// How often a put has failed. It never falls.
    ghost put_faults: { Self → ℕ };

    /// Puts the bytes of the file with this name in place of what `into` has: at most `limit` of them, or none where it is
    /// refused.
    fn fetch(&mut self, name: &str, into: &mut Vec<u8>, limit: usize) -> Result<(), FetchFault>
        ensures gives { FetchGives (files self.old) name.now limit result into.new.items }
        ensures same { files self.new ≡ files self.old }
        ensures cause { HasCause (fetch_faults self.old) (fetch_faults self.new) (result ≡ Err Failed) }
        ensures puts { put_faults self.new ≡ put_faults self.old };

    /// Puts these bytes under the name, in place of what it has.
    fn put(&mut self, name: &str, bytes: &[u8]) -> Result<(), PutFault>
        ensures tells { PutTells (files self.old) (files self.new) name.now bytes.now result }
        ensures fetches { fetch_faults self.new ≡ fetch_faults self.old }
        ensures cause { HasCause (put_faults self.old) (put_faults self.new) (result ≡ Err PutFault.Failed) };
}
