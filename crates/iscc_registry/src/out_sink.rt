use reg_top::{Failed, Sink};

/// Standard output. It tells none of its bytes, and is trusted for what it took.
#[derive(Drop)]
pub struct OutSink<'a, P> {
    out: &'a P,
    faults: u64,
}

impl<'a, P> OutSink<'a, P> {
    /// The output that the runtime prints to.
    pub fn new(out: &'a P) -> OutSink<'a, P> {
        OutSink { out, faults: 0 }
    }
}

impl<P: Print> Sink for OutSink<'_, P> {
    ghost use Rattle.std.specs.Prelude.{None};

    ghost taken = { λ _. None };

    ghost faults = { λ s. s.faults };

    fn put(&mut self, piece: &[u8]) -> Result<usize, Failed> {
        match self.out.write_some(piece) {
            Ok(count) if count > 0 => Ok(count),
            // A write that takes nothing would go on for ever.
            _ => {
                self.faults = self.faults.saturating_add(1);
                Err(Failed)
            }
        }
    }
}
