ghost use Rattle.std.specs.Prelude.{◌≡◌, ◌≤◌, ◌++◌, length, All, OnOk, IfOk};
ghost use Rattle.std.specs.List.{flat_map};
ghost use Rattle.blake3_core.specs.Tree.{hash};
ghost use Rattle.iscc_header.specs.Unit64s.{IsUnit64};
ghost use Rattle.reg_model.specs.declared.update.Declared.{Declared as ADeclared};
ghost use Rattle.reg_image.specs.Images.{IsImage, declared_bytes, front_bytes};

use iscc_header::{NoMemory, Unit64};
use iscc_instance::Hasher;
use reg_model::{Carried, Declared};
use std::alloc::Global;

/// The most declarations of an image.
pub const DECLARED_MOST: u32 = 1 << 20;

/// The image of a base and carried declarations, in one list of bytes whose memory is taken once.
pub fn write_image(alloc: Global, carried: &Carried) -> Result<Vec<u8>, NoMemory>
    requires { length carried.now.list ≤ DECLARED_MOST }
    ensures { IfOk result (λ bytes. IsImage carried.now bytes.items) }
{
    let list = carried.list();
    let mut bytes = Vec::with_capacity(alloc, 60 + 17 * list.len())?;
    append_front(&mut bytes, carried.base(), list.len() as u64)?;
    append_list(&mut bytes, list)?;
    let summed = bytes.as_slice();
    let sum = sum_of(summed);
    bytes.extend_from_slice(&sum)?;
    Ok(bytes)
}

/// The BLAKE3 hash of bytes.
pub(crate) fn sum_of(bytes: &[u8]) -> [u8; 32]
    ensures { result ≡ hash bytes.now }
{
    let mut hasher = Hasher::new();
    hasher.update(bytes);
    hasher.finalize()
}

// Appends what stands before the declarations.
#[tactic(auto, unfolding(crate::specs::Images::front_bytes))]
fn append_front(out: &mut Vec<u8>, base: u64, count: u64) -> Result<(), NoMemory>
    ensures { OnOk result (out.new.items ≡ out.old.items ++ front_bytes base count) }
{
    out.extend_from_slice(b"ISCCREGI")?;
    out.extend_from_slice(&1u32.to_be_bytes())?;
    out.extend_from_slice(&base.to_be_bytes())?;
    out.extend_from_slice(&count.to_be_bytes())?;
    Ok(())
}

// Appends declarations, one after the other.
fn append_list(out: &mut Vec<u8>, list: &[Declared]) -> Result<(), NoMemory>
    ensures bytes { OnOk result (out.new.items ≡ out.old.items ++ flat_map declared_bytes list.now) }
    ensures units { OnOk result (All (λ (d : ADeclared). IsUnit64 d.unit) list.now) }
{
    for declared in list {
        append_declared(out, *declared)?;
    }
    Ok(())
}

// Appends one declaration.
fn append_declared(out: &mut Vec<u8>, declared: Declared) -> Result<(), NoMemory>
    ensures bytes { OnOk result (out.new.items ≡ out.old.items ++ declared_bytes declared) }
    ensures unit { IsUnit64 declared.unit }
{
    let Unit64 { kind, body } = declared.unit;
    out.extend_from_slice(&declared.id.to_be_bytes())?;
    out.push(kind.number())?;
    out.extend_from_slice(&body.to_be_bytes())?;
    Ok(())
}
