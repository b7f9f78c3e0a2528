ghost use Rattle.std.specs.Prelude.{◌≡◌, Some, None, map, string_bytes, IfSome, IfNone};
ghost use Rattle.reg_session.specs.Shelves.{file_at};

use crate::list_shelf::{bytes_at, put_bytes};
use crate::shelf::{FetchFault, PutFault, Shelf};
use iscc_header::NoMemory;
use std::marker::Model;

/// Files in memory. It never fails.
#[derive(Debug, Drop)]
pub struct SureShelf {
    files: Vec<(String, Vec<u8>)>,
}

impl Model for SureShelf {
    ghost use Rattle.std.specs.Prelude.{List, ℕ, map, string_bytes};

    ghost Value = { List (List ℕ × List ℕ) };

    ghost view = { λ s. map (λ file. (string_bytes file.0, file.1.items)) s.files.items };
}

impl SureShelf {
    /// A shelf of these files, by name.
    pub fn new(files: Vec<(String, Vec<u8>)>) -> SureShelf
        ensures { result ≡ map (λ file. (string_bytes file.0, file.1.items)) files.items }
    {
        SureShelf { files }
    }

    /// What it has at a name.
    pub fn file(&self, name: &str) -> Option<&[u8]>
        ensures found { IfSome result (λ bytes. file_at self.now name.now ≡ Some bytes.now) }
        ensures none { IfNone result (file_at self.now name.now ≡ None) }
    {
        bytes_at(self.files.as_slice(), name)
    }
}

impl Shelf for SureShelf {
    ghost use Rattle.std.specs.Prelude.{◌≢◌, Err, OnOk, OnErr, ℕ};
    ghost use Rattle.reg_session.specs.Faults.{HasCause};
    ghost use Rattle.reg_session.specs.Files.{FetchGives, PutTells};
    ghost use Rattle.reg_session.specs.Shelves.{file_at as at, put_file};
    ghost use Rattle.reg_session.specs.declared.shelf.FetchFault.TheVariants.{Failed};

    ghost files = { λ s. Some (at s) };

    ghost fetch_faults = { λ _. 0 };

    ghost put_faults = { λ _. 0 };

    fn fetch(&mut self, name: &str, into: &mut Vec<u8>, limit: usize) -> Result<(), FetchFault>
        ensures gives { FetchGives (Some (at self.old)) name.now limit result into.new.items }
        ensures same { Some (at self.new) ≡ Some (at self.old) }
        ensures cause { HasCause 0 0 (result ≡ Err Failed) }
        ensures puts { ◌≡◌ {A = ℕ} 0 0 }

        // It never fails.
        ensures sure { result ≢ Err Failed }
    {
        into.clear();
        match self.file(name) {
            None => Err(FetchFault::Missing),
            Some(bytes) => {
                if bytes.len() > limit {
                    return Err(FetchFault::TooLong);
                }
                match into.extend_from_slice(bytes) {
                    Ok(()) => Ok(()),
                    Err(_) => Err(FetchFault::NoMemory),
                }
            }
        }
    }

    fn put(&mut self, name: &str, bytes: &[u8]) -> Result<(), PutFault>
        ensures tells { PutTells (Some (at self.old)) (Some (at self.new)) name.now bytes.now result }
        ensures fetches { ◌≡◌ {A = ℕ} 0 0 }
        ensures cause { HasCause 0 0 (result ≡ Err PutFault.Failed) }

        // It never fails.
        ensures sure { result ≢ Err PutFault.Failed }
        ensures called { OnOk result (self.new ≡ put_file self.old name.now bytes.now) }
        ensures same { OnErr result (self.new ≡ self.old) }
    {
        match put_bytes(&mut self.files, name, bytes) {
            Ok(()) => Ok(()),
            Err(NoMemory) => Err(PutFault::NoMemory),
        }
    }
}
