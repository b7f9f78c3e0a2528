//! The files of a run: the image that it loads, and the calls and refused lines of its sessions. All are read before a call is
//! served.

ghost use Rattle.std.specs.Prelude.{◌≡◌, ◌≤◌, ◌++◌, ℕ, List, OnOk, IfOk, IfErr, IfSome, length, map};
ghost use Rattle.std.specs.List.{AllZip, flat_map};
ghost use Rattle.std.specs.Option.{option_map};
ghost use Rattle.reg_session.specs.declared.shelf.FetchFault.TheVariants.{Failed};
ghost use Rattle.reg_session.specs.Faults.{HasCause};
ghost use Rattle.reg_session.specs.Files.{Files};
ghost use Rattle.reg_top.specs.Fetches.{RoundPlan, fetch_of, image_fetches, request_fetches};
ghost use Rattle.reg_top.specs.inner.Endings.{UnreadWhy};
ghost use Rattle.reg_top.specs.inner.RunFiles.{IsRead, ReadsRound, LoadsImage, AreUnread};

use crate::fetch::fetch_file;
use crate::run_words::RunPlan;
use iscc_header::{Items, NoMemory};
use reg_requests::{Requests, read_requests};
use reg_session::{FetchFault, Shelf};
use std::alloc::Global;

/// The greatest length of a request file, in bytes.
pub(crate) const REQUEST_MOST: usize = 1 << 24;

/// The greatest length of a file with an image, in bytes: the greatest image has somewhat more than half as many.
pub(crate) const IMAGE_MOST: usize = 1 << 25;

/// Why the files of a run aren't read.
#[derive(Clone, Copy, Debug)]
pub enum Unread<'a> {
    /// The first file that gave nothing, and why.
    File { name: &'a str, fault: FetchFault },
    NoMemory,
}

/// What a run is given: the bytes of the image that it loads, if any, and the items of the files of each round.
#[derive(Debug, Drop)]
pub struct Given {
    pub image: Option<Vec<u8>>,
    pub lists: Items<Items<Requests>>,
}

/// Reads the image first, and then the files of each round.
pub(crate) fn read_given<'a, F: Shelf>(
    alloc: Global,
    plan: &'a RunPlan<'_>,
    shelf: &mut F,
) -> Result<Given, Unread<'a>>
    ensures image { IfOk result (λ given. LoadsImage (F.files shelf.old) plan.now.load (option_map (λ image. image.items) given.image)) }
    ensures read { IfOk result (λ given. AllZip (ReadsRound (F.files shelf.old)) plan.now.rounds given.lists) }
    ensures quiet { OnOk result (F.fetch_faults shelf.new ≡ F.fetch_faults shelf.old) }
    ensures why { IfErr result (AreUnread (F.files shelf.old) (F.fetch_faults shelf.old) (F.fetch_faults shelf.new) (image_fetches plan.now ++ request_fetches plan.now)) }
    ensures same { F.files shelf.new ≡ F.files shelf.old }
    ensures puts { F.put_faults shelf.new ≡ F.put_faults shelf.old }
{
    let image = load_image(alloc, plan, shelf)?;
    let lists = read_rounds(alloc, plan, shelf)?;
    Ok(Given { image, lists })
}

// The bytes of the file with the image that is to be loaded, if any.
fn load_image<'a, F: Shelf>(
    alloc: Global,
    plan: &'a RunPlan<'_>,
    shelf: &mut F,
) -> Result<Option<Vec<u8>>, Unread<'a>>
    ensures image { IfOk result (λ image. LoadsImage (F.files shelf.old) plan.now.load (option_map (λ bytes. bytes.items) image)) }
    ensures quiet { OnOk result (F.fetch_faults shelf.new ≡ F.fetch_faults shelf.old) }
    ensures why { IfErr result (AreUnread (F.files shelf.old) (F.fetch_faults shelf.old) (F.fetch_faults shelf.new) (image_fetches plan.now)) }
    ensures same { F.files shelf.new ≡ F.files shelf.old }
    ensures puts { F.put_faults shelf.new ≡ F.put_faults shelf.old }
{
    match plan.load() {
        None => Ok(None),
        Some(name) => match fetch_file(alloc, name, shelf, IMAGE_MOST) {
            Ok(bytes) => Ok(Some(bytes)),
            Err(fault) => Err(Unread::File { name, fault }),
        },
    }
}

// The calls and refused lines of the files of each round.
fn read_rounds<'a, F: Shelf>(
    alloc: Global,
    plan: &'a RunPlan<'_>,
    shelf: &mut F,
) -> Result<Items<Items<Requests>>, Unread<'a>>
    ensures read { IfOk result (λ lists. AllZip (ReadsRound (F.files shelf.old)) plan.now.rounds lists) }
    ensures quiet { OnOk result (F.fetch_faults shelf.new ≡ F.fetch_faults shelf.old) }
    ensures why { IfErr result (AreUnread (F.files shelf.old) (F.fetch_faults shelf.old) (F.fetch_faults shelf.new) (request_fetches plan.now)) }
    ensures same { F.files shelf.new ≡ F.files shelf.old }
    ensures puts { F.put_faults shelf.new ≡ F.put_faults shelf.old }
{
    let mut lists = Items::new(alloc);
    for at in 0..plan.len() {
        let list = read_files(alloc, plan.names(at), shelf)?;
        if let Err(NoMemory) = lists.push(list) {
            return Err(Unread::NoMemory);
        }
    }
    Ok(lists)
}

// The calls and refused lines of each file of a round.
fn read_files<'a, F: Shelf>(
    alloc: Global,
    names: &[&'a str],
    shelf: &mut F,
) -> Result<Items<Requests>, Unread<'a>>
    ensures read { IfOk result (AllZip (IsRead (F.files shelf.old)) (map (λ name. name.now) names.now)) }
    ensures quiet { OnOk result (F.fetch_faults shelf.new ≡ F.fetch_faults shelf.old) }
    ensures why { IfErr result (AreUnread (F.files shelf.old) (F.fetch_faults shelf.old) (F.fetch_faults shelf.new) (map (fetch_of REQUEST_MOST) (map (λ name. name.now) names.now))) }
    ensures same { F.files shelf.new ≡ F.files shelf.old }
    ensures puts { F.put_faults shelf.new ≡ F.put_faults shelf.old }
{
    let mut lists = Items::new(alloc);
    for at in 0..names.len() {
        let name = names[at];
        match read_file(alloc, name, shelf) {
            Ok(list) => {
                if let Err(NoMemory) = lists.push(list) {
                    return Err(Unread::NoMemory);
                }
            }
            Err(fault) => return Err(Unread::File { name, fault }),
        }
    }
    Ok(lists)
}

// The calls and refused lines of a file, or why it gave none.
fn read_file<F: Shelf>(alloc: Global, name: &str, shelf: &mut F) -> Result<Requests, FetchFault>
    ensures read { IfOk result (IsRead (F.files shelf.old) name.now) }
    ensures quiet { OnOk result (F.fetch_faults shelf.new ≡ F.fetch_faults shelf.old) }
    ensures why { IfErr result (λ fault. IfSome (F.files shelf.old) (λ (told : Files). UnreadWhy fault told (fetch_of REQUEST_MOST name.now))) }
    ensures cause { IfErr result (λ fault. HasCause (F.fetch_faults shelf.old) (F.fetch_faults shelf.new) (fault ≡ Failed)) }
    ensures same { F.files shelf.new ≡ F.files shelf.old }
    ensures puts { F.put_faults shelf.new ≡ F.put_faults shelf.old }
{
    let file = fetch_file(alloc, name, shelf, REQUEST_MOST)?;
    match read_requests(alloc, file.as_slice()) {
        Ok(list) => Ok(list),
        Err(NoMemory) => Err(FetchFault::NoMemory),
    }
}
