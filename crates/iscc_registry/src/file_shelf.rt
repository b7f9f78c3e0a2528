use reg_top::{FetchFault, PutFault, Shelf};
use std::io::{ErrorKind, Read, Write};
use std::rt::Files;
use std::{fs, io};

/// The files of the system, by their paths. It tells no content, and is trusted for it.
#[derive(Drop)]
pub struct FileShelf<'a, R> {
    rt: &'a R,
    fetch_faults: u64,
    put_faults: u64,
}

impl<'a, R> FileShelf<'a, R> {
    /// The files that the runtime opens.
    pub fn new(rt: &'a R) -> FileShelf<'a, R> {
        FileShelf {
            rt,
            fetch_faults: 0,
            put_faults: 0,
        }
    }
}

impl<R: Files> Shelf for FileShelf<'_, R> {
    ghost use Rattle.std.specs.Prelude.{None};

    ghost files = { λ _. None };

    ghost fetch_faults = { λ s. s.fetch_faults };

    ghost put_faults = { λ s. s.put_faults };

    fn fetch(&mut self, name: &str, into: &mut Vec<u8>, limit: usize) -> Result<(), FetchFault> {
        into.clear();
        let read = read_file(self.rt, name, into, limit);
        if read.is_ok() && into.len() <= limit {
            return Ok(());
        }
        into.clear();
        let fault = match read {
            Ok(()) => FetchFault::TooLong,
            Err(error) => fault_of(error.kind()),
        };
        if fault == FetchFault::Failed {
            self.fetch_faults = self.fetch_faults.saturating_add(1);
        }
        Err(fault)
    }

    fn put(&mut self, name: &str, bytes: &[u8]) -> Result<(), PutFault> {
        let put = write_file(self.rt, name, bytes);
        if put == Err(PutFault::Failed) {
            self.put_faults = self.put_faults.saturating_add(1);
        }
        put
    }
}

// What is refused, by the system's own word for it.
fn fault_of(kind: ErrorKind) -> FetchFault {
    match kind {
        ErrorKind::NotFound => FetchFault::Missing,
        ErrorKind::OutOfMemory => FetchFault::NoMemory,
        _ => FetchFault::Failed,
    }
}

// Reads the bytes of a file, or one more than the limit where it is longer.
fn read_file<R: Files>(rt: &R, name: &str, into: &mut Vec<u8>, limit: usize) -> io::Result<()> {
    let most = (limit as u64).saturating_add(1);
    let _ = fs::open(rt, name)?.take(most).read_to_end(into)?;
    Ok(())
}

// Makes the file, or empties it, and writes the bytes. Memory may be wanting only before the file is changed: what comes after
// that is a failure, since it leaves something else than it found.
fn write_file<R: Files>(rt: &R, name: &str, bytes: &[u8]) -> Result<(), PutFault> {
    let mut file = match fs::create(rt, name) {
        Ok(file) => file,
        Err(error) => {
            return Err(match error.kind() {
                ErrorKind::OutOfMemory => PutFault::NoMemory,
                _ => PutFault::Failed,
            });
        }
    };
    if file.write_all(bytes).is_err() || file.flush().is_err() {
        return Err(PutFault::Failed);
    }
    Ok(())
}
