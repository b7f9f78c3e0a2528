ghost use Rattle.std.specs.Prelude.{◌≡◌, ◌+◌, ◌≤◌, length, take, drop, Some};
ghost use Rattle.std.specs.Int.{w32, w64};
ghost use Rattle.std.specs.Str.{bytes_eq};
ghost use Rattle.blake3_core.specs.Tree.{hash};
ghost use Rattle.reg_image.specs.ImageFaults.{number_at as number_there, front_fault as first_fault};

use crate::fault::{ImageFault, ImageWhy};
use crate::image::{DECLARED_MOST, sum_of};

/// The first fault that is asked before the declarations.
#[tactic(auto, unfolding(crate::specs::ImageFaults::front_fault))]
pub(crate) fn front_fault(bytes: &[u8]) -> Option<ImageFault>
    ensures { result ≡ first_fault bytes.now }
{
    let len = bytes.len() as u64;
    if len < 28 {
        return fault_at(len, ImageWhy::Short);
    }
    if &bytes[..8] != b"ISCCREGI".as_slice() {
        return fault_at(0, ImageWhy::Magic);
    }
    if version_of(bytes) != 1 {
        return fault_at(8, ImageWhy::Version);
    }
    if number_at(bytes, 12) > 1 << 34 {
        return fault_at(12, ImageWhy::Range);
    }
    let count = number_at(bytes, 20);
    if count > DECLARED_MOST as u64 {
        return fault_at(20, ImageWhy::Range);
    }
    let end = 28 + 17 * count;
    if len < end + 32 {
        return fault_at(len, ImageWhy::Short);
    }
    if !has_sum(bytes, end as usize) {
        return fault_at(end, ImageWhy::Sum);
    }
    None
}

// The fault at this place.
fn fault_at(at: u64, why: ImageWhy) -> Option<ImageFault>
    ensures { result ≡ Some (record { at = at; why = why }) }
{
    Some(ImageFault { at, why })
}

/// The number whose eight bytes stand at a place, the highest first.
#[tactic(auto, unfolding(crate::specs::ImageFaults::number_at))]
pub(crate) fn number_at(bytes: &[u8], place: usize) -> u64
    requires { place + 8 ≤ length bytes.now }
    ensures { result ≡ number_there w64 place bytes.now }
{
    let Some(eight) = bytes[place..].first_chunk::<8>() else {
        unreachable!()
    };
    u64::from_be_bytes(*eight)
}

// The number whose four bytes stand at place 8.
#[tactic(auto, unfolding(crate::specs::ImageFaults::number_at))]
fn version_of(bytes: &[u8]) -> u32
    requires { 12 ≤ length bytes.now }
    ensures { result ≡ number_there w32 8 bytes.now }
{
    let Some(four) = bytes[8..].first_chunk::<4>() else {
        unreachable!()
    };
    u32::from_be_bytes(*four)
}

// The 32 bytes at a place are the hash of all bytes before it.
fn has_sum(bytes: &[u8], place: usize) -> bool
    requires { place + 32 ≤ length bytes.now }
    ensures { result ≡ bytes_eq (take 32 (drop place bytes.now)) (hash (take place bytes.now)) }
{
    let sum = sum_of(&bytes[..place]);
    &bytes[place..place + 32] == sum.as_slice()
}
