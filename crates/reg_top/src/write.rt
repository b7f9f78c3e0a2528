ghost use Rattle.std.specs.Prelude.{◌≡◌, ◌++◌, IsErr, MatchResult};
ghost use Rattle.reg_session.specs.Faults.{HasCause};
ghost use Rattle.reg_requests.specs.Lines.{line};
ghost use Rattle.reg_session.specs.Outside.{TakesWhole, TakesPart};

use reg_session::{Failed, Sink};

/// Writes all bytes, or those before a fault. Takes no memory.
pub(crate) fn write_all<K: Sink>(sink: &mut K, bytes: &[u8]) -> Result<(), Failed>
    ensures takes { MatchResult result
        (λ _. TakesWhole (K.taken sink.old) (K.taken sink.new) bytes.now)
        (λ _. TakesPart (K.taken sink.old) (K.taken sink.new) bytes.now) }
    ensures cause { HasCause (K.faults sink.old) (K.faults sink.new) (IsErr result) }
{
    let mut rest = bytes;
    while !rest.is_empty() {
        let taken = sink.put(rest)?;
        rest = &rest[taken..];
    }
    Ok(())
}

/// Writes the first bytes, and then the second. Takes no memory.
pub(crate) fn write_two<K: Sink>(sink: &mut K, first: &[u8], second: &[u8]) -> Result<(), Failed>
    ensures takes { MatchResult result
        (λ _. TakesWhole (K.taken sink.old) (K.taken sink.new) (first.now ++ second.now))
        (λ _. TakesPart (K.taken sink.old) (K.taken sink.new) (first.now ++ second.now)) }
    ensures cause { HasCause (K.faults sink.old) (K.faults sink.new) (IsErr result) }
{
    if let Err(Failed) = write_all(sink, first) {
        return Err(Failed);
    }
    if let Err(Failed) = write_all(sink, second) {
        return Err(Failed);
    }
    Ok(())
}

/// Writes a line: a text, and a line feed. Takes no memory.
pub(crate) fn write_line<K: Sink>(sink: &mut K, text: &[u8]) -> Result<(), Failed>
    ensures takes { MatchResult result
        (λ _. TakesWhole (K.taken sink.old) (K.taken sink.new) (line text.now))
        (λ _. TakesPart (K.taken sink.old) (K.taken sink.new) (line text.now)) }
    ensures cause { HasCause (K.faults sink.old) (K.faults sink.new) (IsErr result) }
{
    write_two(sink, text, b"\n")
}
