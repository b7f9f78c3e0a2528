ghost use Rattle.std.specs.Prelude.{◌≡◌, ◌≢◌, ◌≤◌, Some, [], ◌++◌, take, IfOk, IsErr, vec_capacity};
ghost use Rattle.reg_session.specs.Faults.{HasCause, one_more};
ghost use Rattle.reg_session.specs.Files.{TakesFront};
ghost use Rattle.reg_session.specs.Sinks.{taken_of};

use crate::sink::{Failed, Sink};
use std::marker::Model;

/// Output in memory. It takes at most `most` bytes a call, and fails once `stop` bytes are taken or its room is used up.
#[derive(Debug, Drop)]
pub struct ListSink {
    bytes: Vec<u8>,
    most: usize,
    stop: usize,
    // As many bytes as the list had room for at first.
    room: usize,
    faults: u64,
}

impl Model for ListSink {
    ghost use Rattle.std.specs.Prelude.{◌≤◌, vec_capacity};
    ghost use Rattle.reg_session.specs.Sinks.{ByteList};

    ghost Value = { ByteList };

    ghost view = { λ s. record {
      bytes = s.bytes.items;
      most = s.most;
      stop = s.stop;
      room = s.room;
      faults = s.faults;
    } };

    ghost invariant = { λ s. (1 ≤ s.most) × (s.room ≤ vec_capacity s.bytes) };
}

impl ListSink {
    /// An empty sink. The capacity of `room` is all that it has: none of its bytes are kept, and it must be empty.
    pub fn new(room: Vec<u8>, most: usize, stop: usize) -> ListSink
        requires empty { room.items ≡ [] }
        requires some { 1 ≤ most }
        ensures { result ≡ record { bytes = []; most = most; stop = stop; room = vec_capacity room; faults = 0 } }
    {
        let count = room.capacity();
        ListSink {
            bytes: room,
            most,
            stop,
            room: count,
            faults: 0,
        }
    }

    /// Lends the bytes that it has taken.
    pub fn bytes(&self) -> &[u8]
        ensures { result.now ≡ self.now.bytes }
    {
        self.bytes.as_slice()
    }
}

impl Sink for ListSink {
    ghost taken = { λ s. Some s.bytes };

    ghost faults = { λ s. s.faults };

    fn put(&mut self, piece: &[u8]) -> Result<usize, Failed>
        requires { piece.now ≢ [] }
        ensures takes { TakesFront (Some self.old.bytes) (Some self.new.bytes) piece.now result }
        ensures cause { HasCause self.old.faults self.new.faults (IsErr result) }

        // It takes as many bytes as it may and has room for, and fails where these are none.
        ensures count { IfOk result (λ n. n ≡ taken_of self.old piece.now) }
        ensures none { IsErr result → taken_of self.old piece.now ≡ 0 }
        ensures took { IfOk result (λ n. self.new ≡ record self.old { bytes = self.old.bytes ++ take n piece.now }) }
        ensures failed { IsErr result → self.new ≡ record self.old { faults = one_more self.old.faults } }
    {
        let room = self.room.saturating_sub(self.bytes.len());
        let left = self.stop.saturating_sub(self.bytes.len());
        let count = piece.len().min(self.most).min(left).min(room);
        if count == 0 {
            self.faults = self.faults.saturating_add(1);
            return Err(Failed);
        }
        match self.bytes.extend_from_slice(&piece[..count]) {
            Ok(()) => Ok(count),
            Err(_) => unreachable!(),
        }
    }
}
