// The Instance-Code (ISO 24138:2024).

ghost use Rattle.std.specs.Prelude.{◌≡◌, ◌≤◌, ◌%◌, ◌/◌, take};
ghost use Rattle.iscc_instance.specs.Instances.{instance_of};

use crate::hasher::Hasher;
use iscc_code::Unit;
use iscc_header::{Kind, MainType, Unit64};

/// The Instance-Code of a hash: an INSTANCE unit whose body is the first `bits` bits of it, 64 by default.
///
/// Takes no memory.
pub fn instance_unit(hash: &[u8; 32], bits: u32) -> Unit
    requires least { 32 ≤ bits }
    requires most { bits ≤ 256 }
    requires words { bits % 32 ≡ 0 }
    ensures { result ≡ record { kind = 12; body = take (bits / 8) hash.now } }
{
    let Some(kind) = Kind::of(MainType::Instance, 0) else {
        unreachable!()
    };
    Unit::new(kind, &hash[..(bits / 8) as usize]).unwrap()
}

/// The Instance-Code of bytes, 64 bits wide: what the registry declares of a file. Takes no memory.
pub fn instance_code(bytes: &[u8]) -> Unit64
    ensures { result ≡ instance_of bytes.now }
{
    let mut hasher = Hasher::new();
    hasher.update(bytes);
    instance_unit(&hasher.finalize(), 64).first64().unwrap()
}
