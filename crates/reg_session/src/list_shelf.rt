ghost use Rattle.std.specs.Prelude.{◌≡◌, Some, map, string_bytes, IfSome, IfNone, None, OnOk, OnErr, ◌<◌, ◌↔◌, Contains, length};
ghost use Rattle.std.specs.Bool.{Decides};
ghost use Rattle.std.specs.List.{position_from};
ghost use Rattle.std.specs.Str.{bytes_eq};
ghost use Rattle.reg_session.specs.Shelves.{after_call, file_at, put_file};

use crate::shelf::{FetchFault, PutFault, Shelf};
use iscc_header::NoMemory;
use std::marker::Model;

/// Files in memory. It fails at the calls whose numbers are listed.
#[derive(Debug, Drop)]
pub struct ListShelf {
    files: Vec<(String, Vec<u8>)>,
    fail: Vec<u64>,
    calls: u64,
    faults: u64,
    put_faults: u64,
}

impl Model for ListShelf {
    ghost use Rattle.std.specs.Prelude.{map, string_bytes};
    ghost use Rattle.reg_session.specs.Shelves.{FileList};

    ghost Value = { FileList };

    ghost view = { λ s. record {
      files = map (λ file. (string_bytes file.0, file.1.items)) s.files.items;
      fail = s.fail.items;
      calls = s.calls;
      faults = s.faults;
      put_faults = s.put_faults;
    } };
}

impl ListShelf {
    /// A shelf of these files, by name; a call whose number from 0 is in `fail` fails.
    pub fn new(files: Vec<(String, Vec<u8>)>, fail: Vec<u64>) -> ListShelf
        ensures files { result.files ≡ map (λ file. (string_bytes file.0, file.1.items)) files.items }
        ensures fail { result.fail ≡ fail.items }
        ensures calls { result.calls ≡ 0 }
        ensures faults { result.faults ≡ 0 }
        ensures put_faults { result.put_faults ≡ 0 }
    {
        ListShelf {
            files,
            fail,
            calls: 0,
            faults: 0,
            put_faults: 0,
        }
    }

    /// What it has at a name.
    pub fn file(&self, name: &str) -> Option<&[u8]>
        ensures found { IfSome result (λ bytes. file_at self.now.files name.now ≡ Some bytes.now) }
        ensures none { IfNone result (file_at self.now.files name.now ≡ None) }
    {
        bytes_at(&self.files, name)
    }

    // Counts a call, and tells whether it is one of those that fail.
    fn count_call(&mut self) -> bool
        ensures listed { Decides result (Contains self.old.fail self.old.calls) }
        ensures counted { self.new ≡ after_call self.old }
    {
        let number = self.calls;
        self.calls = self.calls.saturating_add(1);
        self.fail.contains(&number)
    }
}

// The bytes of the first file with this name.
pub(crate) fn bytes_at<'a>(files: &'a [(String, Vec<u8>)], name: &str) -> Option<&'a [u8]>
    ensures found { IfSome result (λ bytes. file_at (map (λ file. (string_bytes file.0, file.1.items)) files.now) name.now ≡ Some bytes.now) }
    ensures none { IfNone result (file_at (map (λ file. (string_bytes file.0, file.1.items)) files.now) name.now ≡ None) }
{
    for file in files {
        if file.0.as_str() == name {
            return Some(file.1.as_slice());
        }
    }
    None
}

// The place of the first file with this name.
fn place_of(files: &[(String, Vec<u8>)], name: &str) -> Option<usize>
    ensures found { IfSome result (λ place. position_from (λ file. bytes_eq (string_bytes file.0) name.now) 0 files.now ≡ Some place) }
    ensures low { IfSome result (λ place. place < length files.now) }
    ensures none { IfNone result (position_from (λ file. bytes_eq (string_bytes file.0) name.now) 0 files.now ≡ None) }
{
    for (place, file) in files.iter().enumerate() {
        if file.0.as_str() == name {
            return Some(place);
        }
    }
    None
}

// Puts the bytes in place of those of the first file with this name, or as a file at the end.
pub(crate) fn put_bytes(
    files: &mut Vec<(String, Vec<u8>)>,
    name: &str,
    bytes: &[u8],
) -> Result<(), NoMemory>
    ensures put { OnOk result (map (λ file. (string_bytes file.0, file.1.items)) files.new.items ≡ put_file (map (λ file. (string_bytes file.0, file.1.items)) files.old.items) name.now bytes.now) }
    ensures same { OnErr result (files.new.items ≡ files.old.items) }
{
    let alloc = *files.allocator();
    let copy = Vec::from_slice(alloc, bytes)?;
    match place_of(files, name) {
        Some(place) => files[place].1 = copy,
        None => files.push((String::from_str(alloc, name)?, copy))?,
    }
    Ok(())
}

impl Shelf for ListShelf {
    ghost use Rattle.std.specs.Prelude.{Err};
    ghost use Rattle.reg_session.specs.Faults.{HasCause};
    ghost use Rattle.reg_session.specs.Files.{FetchGives, PutTells};
    ghost use Rattle.reg_session.specs.Shelves.{file_at as at, after_failure, after_put, after_failed_put};
    ghost use Rattle.reg_session.specs.declared.shelf.FetchFault.TheVariants.{Failed};

    ghost files = { λ s. Some (at s.files) };

    ghost fetch_faults = { λ s. s.faults };

    ghost put_faults = { λ s. s.put_faults };

    fn fetch(&mut self, name: &str, into: &mut Vec<u8>, limit: usize) -> Result<(), FetchFault>
        ensures gives { FetchGives (Some (at self.old.files)) name.now limit result into.new.items }
        ensures same { Some (at self.new.files) ≡ Some (at self.old.files) }
        ensures cause { HasCause self.old.faults self.new.faults (result ≡ Err Failed) }
        ensures puts { self.new.put_faults ≡ self.old.put_faults }

        // It fails at the listed calls, and at no others.
        ensures fails { (result ≡ Err Failed) ↔ Contains self.old.fail self.old.calls }
        ensures failed { result ≡ Err Failed → self.new ≡ after_failure self.old }
        ensures called { (result ≡ Err Failed → ⊥) → self.new ≡ after_call self.old }
    {
        into.clear();
        if self.count_call() {
            self.faults = self.faults.saturating_add(1);
            return Err(FetchFault::Failed);
        }
        match self.file(name) {
            None => Err(FetchFault::Missing),
            Some(bytes) => {
                if bytes.len() > limit {
                    return Err(FetchFault::TooLong);
                }
                match into.extend_from_slice(bytes) {
                    Ok(()) => Ok(()),
                    Err(_) => Err(FetchFault::NoMemory),
                }
            }
        }
    }

    fn put(&mut self, name: &str, bytes: &[u8]) -> Result<(), PutFault>
        ensures tells { PutTells (Some (at self.old.files)) (Some (at self.new.files)) name.now bytes.now result }
        ensures fetches { self.new.faults ≡ self.old.faults }
        ensures cause { HasCause self.old.put_faults self.new.put_faults (result ≡ Err PutFault.Failed) }

        // It fails at the listed calls, and at no others.
        ensures fails { (result ≡ Err PutFault.Failed) ↔ Contains self.old.fail self.old.calls }
        ensures failed { result ≡ Err PutFault.Failed → self.new ≡ after_failed_put self.old }
        ensures called { self.new ≡ after_put self.old name.now bytes.now result }
    {
        if self.count_call() {
            self.put_faults = self.put_faults.saturating_add(1);
            return Err(PutFault::Failed);
        }
        match put_bytes(&mut self.files, name, bytes) {
            Ok(()) => Ok(()),
            Err(NoMemory) => Err(PutFault::NoMemory),
        }
    }
}
