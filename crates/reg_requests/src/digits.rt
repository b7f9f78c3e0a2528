ghost use Rattle.std.specs.Prelude.{◌≡◌, ◌<◌, ◌≤◌, ◌+◌, ◌*◌, ◌%◌, ◌^◌, ◌++◌, ℕ, List, length, true, false, IfSome, IfNone, IfOk, Ok};
ghost use Rattle.hex.specs.Hex.{decode_of};
ghost use Rattle.iscc_instance.specs.Tree.{hash};
ghost use Rattle.iscc_header.specs.Unit64s.{IsUnit64};
ghost use Rattle.iscc_instance.specs.Hasher.{HasTaken, hasher_len};
ghost use Rattle.iscc_instance.specs.Instances.{instance_of};
ghost use Rattle.reg_requests.specs.Requests.{DigitsMean};

use crate::items::BadLine;
use iscc_header::Unit64;
use iscc_instance::{Hasher, instance_unit};

// How many bytes are decoded at a time.
const PIECE: usize = 64;

/// The Instance-Code of the bytes that hexadecimal digits stand for, in either case.
pub(crate) fn read_digits(digits: &[u8]) -> Result<Unit64, BadLine>
    ensures means { DigitsMean digits.now result }
    ensures range { IfOk result IsUnit64 }
{
    match hash_of(digits) {
        Some(hash) => Ok(instance_unit(&hash, 64).first64().unwrap()),
        None => Err(BadLine::Hex),
    }
}

// The hash of the bytes that digits stand for.
fn hash_of(digits: &[u8]) -> Option<[u8; 32]>
    ensures found { IfSome result (λ value. (bytes : List ℕ) × (decode_of digits.now ≡ Ok bytes) × (value ≡ hash bytes)) }
    ensures none { IfNone result ((bytes : List ℕ) → decode_of digits.now ≡ Ok bytes → ⊥) }
{
    if digits.len() % 2 != 0 {
        return None;
    }
    let mut hasher = Hasher::new();
    let mut rest = digits;
    while !rest.is_empty() {
        let (piece, behind) = rest.split_at(rest.len().min(2 * PIECE));
        if !take_piece(&mut hasher, piece) {
            return None;
        }
        rest = behind;
    }
    Some(hasher.finalize())
}

// Takes the bytes of some digits, if they stand for bytes.
fn take_piece(hasher: &mut Hasher, digits: &[u8]) -> bool
    requires short { length digits.now ≤ 128 }
    requires room { hasher_len hasher.old + length digits.now < 2 ^ 64 }
    ensures len { hasher_len hasher.new ≤ hasher_len hasher.old + length digits.now }
    ensures taken { result ≡ true → (bytes : List ℕ) × (decode_of digits.now ≡ Ok bytes)
        × ((before : List ℕ) → HasTaken hasher.old before → HasTaken hasher.new (before ++ bytes)) }
    ensures refused { result ≡ false → (bytes : List ℕ) → decode_of digits.now ≡ Ok bytes → ⊥ }
{
    let mut bytes = [0; PIECE];
    let room = &mut bytes[..digits.len() / 2];
    if hex::decode_to_slice(digits, room).is_err() {
        return false;
    }
    hasher.update(room);
    true
}
