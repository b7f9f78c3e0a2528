ghost use Rattle.std.specs.Prelude.{◌≡◌, ◌≢◌, ◌<◌, ◌≤◌, ◌+◌, ◌-◌, ◌*◌, ◌^◌, ◌++◌, ◌↔◌, ℕ, List, length, take, replicate, IsNone, IsSome, IfSome, IfNone};
ghost use Rattle.iscc_header.specs.Bits.{bits_of, byte_bits};
ghost use Rattle.iscc_code.specs.Units.{UnitParts, IsBodyLength, IsUnit, first_bits, first64_of};

use iscc_header::{Kind, Unit64};
use std::marker::Model;

/// A unit of 32, 64, .. or 256 bits (ISO 24138:2024). The first bit of the body is the highest of its first byte.
#[derive(Clone, Copy, Debug, PartialEq, Eq)]
pub struct Unit {
    kind: Kind,
    len: u8,
    // The body, and zeros behind it.
    bytes: [u8; 32],
}

impl Model for Unit {
    ghost use Rattle.std.specs.Prelude.{◌-◌, ◌++◌, length, take, replicate};
    ghost use Rattle.iscc_code.specs.Units.{UnitParts};
    ghost use Rattle.iscc_code.specs.inner.StoredUnits.{IsStored};

    ghost Value = { UnitParts };

    ghost view = { λ u. record { kind = u.kind; body = take u.len u.bytes } };

    ghost invariant = { λ u. IsStored u.kind u.len u.bytes };

    ghost inverse = { λ v. record { kind = v.kind; len = length v.body; bytes = v.body ++ replicate (32 - length v.body) 0 } };

    ghost use Rattle.std.proofs.Common.{ap₂};
    ghost use Rattle.iscc_code.specs.inner.StoredUnits.{stored_len, stored_bytes};

    ghost inverse_ok = { λ a h. ap₂ (λ n b. record { kind = a.kind; len = n; bytes = b })
        (stored_len a.kind a.len a.bytes h) (stored_bytes a.kind a.len a.bytes h) };
}

impl Unit {
    /// The unit of this kind with this body, or none where a body can't have so many bytes.
    pub fn new(kind: Kind, body: &[u8]) -> Option<Unit>
        ensures found { IfSome result (λ unit. unit ≡ record { kind = kind; body = body.now }) }
        ensures range { IfSome result IsUnit }
        ensures some { IsSome result ↔ IsBodyLength (length body.now) }
    {
        let len = body.len();
        if len < 4 || len > 32 || len % 4 != 0 {
            return None;
        }
        Some(Unit {
            kind,
            len: len as u8,
            bytes: filled(body),
        })
    }

    /// Its MainType and its SubType.
    pub fn kind(&self) -> Kind
        ensures value { result ≡ self.now.kind }
        ensures range { IsUnit self.now }
    {
        self.kind
    }

    /// Lends its body: 4, 8, .. or 32 bytes, the first bit the highest of the first byte.
    pub fn body(&self) -> &[u8]
        ensures value { result.now ≡ self.now.body }
        ensures range { IsUnit self.now }
    {
        &self.bytes[..self.len as usize]
    }

    /// The number of bits of the body.
    pub fn bits(&self) -> u32
        ensures value { result ≡ 8 * length self.now.body }
        ensures range { IsUnit self.now }
    {
        8 * self.len as u32
    }

    /// The unit of the first 64 bits. A unit of 32 bits has none.
    pub fn first64(&self) -> Option<Unit64>
        ensures found { IfSome result (λ short. (short.kind ≡ self.now.kind)
            × (bits_of 64 short.body ≡ take 64 (byte_bits self.now.body))) }
        ensures value { IfSome result (λ short. short ≡ first64_of self.now) }
        ensures none { IsNone result ↔ (length self.now.body ≡ 4) }
    {
        let body = self.body();
        if body.len() < 8 {
            return None;
        }
        Some(Unit64 {
            kind: self.kind,
            body: first_number(body),
        })
    }
}

// The bytes, and zeros behind them.
fn filled(body: &[u8]) -> [u8; 32]
    requires { length body.now ≤ 32 }
    ensures { result ≡ body.now ++ replicate (32 - length body.now) 0 }
{
    let mut bytes = [0; 32];
    bytes[..body.len()].copy_from_slice(body);
    bytes
}

/// The number that the first eight bytes stand for, the first of them the highest.
pub(crate) fn first_number(bytes: &[u8]) -> u64
    requires { 8 ≤ length bytes.now }
    ensures { result ≡ first_bits bytes.now }
{
    let Some(front) = bytes.first_chunk::<8>() else {
        unreachable!()
    };
    u64::from_be_bytes(*front)
}
