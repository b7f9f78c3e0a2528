ghost use Rattle.std.specs.Prelude.{◌≡◌, ◌⊎◌, ◌+◌, ◌*◌, ◌≤◌, length, [], Some, None, Ok, Err, IfOk, IfErr, MatchResult};
ghost use Rattle.reg_model.specs.Opening.{Opening};
ghost use Rattle.reg_image.specs.declared.fault.ImageFault.{ImageFault as AFault};
ghost use Rattle.reg_image.specs.declared.fault.ImageRefusal.TheVariants.{Fault, NoMemory as refusal_no_memory};
ghost use Rattle.reg_image.specs.Images.{IsImage};
ghost use Rattle.reg_image.specs.ImageFaults.{image_fault, declared_fault};
ghost use Rattle.reg_image.specs.inner.Reading.{declared_at, declared_list, one_fault};

use crate::fault::{ImageFault, ImageRefusal, ImageWhy};
use crate::front::{front_fault, number_at};
use iscc_header::{Items, Kind, NoMemory, Unit64};
use reg_model::{Carried, Declared};
use std::alloc::Global;

/// Reads an image back. The first fault of other bytes is told exactly.
pub fn read_image(alloc: Global, bytes: &[u8]) -> Result<Carried, ImageRefusal>
    ensures image { IfOk result (λ carried. IsImage carried bytes.now) }
    ensures fault { (fault : AFault) → result ≡ Err (Fault fault) → image_fault bytes.now ≡ Some fault }
    ensures refuses { (fault : AFault) → image_fault bytes.now ≡ Some fault → (result ≡ Err (Fault fault)) ⊎ (result ≡ Err refusal_no_memory) }
    ensures accepts { (opening : Opening) → IsImage opening bytes.now → MatchResult result (λ carried. carried ≡ opening) (λ refusal. refusal ≡ refusal_no_memory) }
{
    if let Some(fault) = front_fault(bytes) {
        return Err(ImageRefusal::Fault(fault));
    }
    let base = number_at(bytes, 12);
    let count = number_at(bytes, 20) as usize;
    let list = read_declarations(alloc, bytes, base, count)?;
    let end = 28 + 17 * count + 32;
    if end < bytes.len() {
        return Err(ImageRefusal::Fault(ImageFault {
            at: end as u64,
            why: ImageWhy::Trailing,
        }));
    }
    Ok(Carried::from_list(base, list))
}

// The declarations behind the front, or the first fault of one of them.
fn read_declarations(
    alloc: Global,
    bytes: &[u8],
    base: u64,
    count: usize,
) -> Result<Items<Declared>, ImageRefusal>
    requires { 28 + 17 * count ≤ length bytes.now }
    ensures list { IfOk result (λ list. list ≡ declared_list 28 count bytes.now) }
    ensures sound { IfOk result (λ list. declared_fault base None 28 count bytes.now ≡ None) }
    ensures fault { (fault : AFault) → result ≡ Err (Fault fault) → declared_fault base None 28 count bytes.now ≡ Some fault }
{
    let mut list = with_room(alloc, count)?;
    let mut before = None;
    for i in 0..count {
        let declared = match read_declared(bytes, 28 + 17 * i, before, base) {
            Ok(declared) => declared,
            Err(fault) => return Err(ImageRefusal::Fault(fault)),
        };
        let id = declared.id;
        list.push(declared)?;
        before = Some(id);
    }
    Ok(list)
}

// No declaration, with room for so many.
fn with_room(alloc: Global, count: usize) -> Result<Items<Declared>, NoMemory>
    ensures { IfOk result (λ list. list ≡ []) }
{
    Ok(Items::from_vec(Vec::with_capacity(alloc, count)?))
}

// The declaration at a place, with an id above the one before it and below the base.
#[tactic(auto, unfolding(crate::specs::inner::Reading::one_fault))]
fn read_declared(
    bytes: &[u8],
    place: usize,
    before: Option<u64>,
    base: u64,
) -> Result<Declared, ImageFault>
    requires { place + 17 ≤ length bytes.now }
    ensures ok { IfOk result (λ declared. declared ≡ declared_at place bytes.now) }
    ensures sound { IfOk result (λ declared. one_fault base before place (declared_at place bytes.now) ≡ None) }
    ensures err { IfErr result (λ fault. one_fault base before place (declared_at place bytes.now) ≡ Some fault) }
{
    let Some(kind) = Kind::new(bytes[place + 8]) else {
        return Err(ImageFault {
            at: (place + 8) as u64,
            why: ImageWhy::Kind,
        });
    };
    let id = number_at(bytes, place);
    if before.is_some_and(|earlier| id <= earlier) {
        return Err(ImageFault {
            at: place as u64,
            why: ImageWhy::Order,
        });
    }
    if base <= id {
        return Err(ImageFault {
            at: place as u64,
            why: ImageWhy::Range,
        });
    }
    let body = number_at(bytes, place + 9);
    Ok(Declared {
        id,
        unit: Unit64 { kind, body },
    })
}
