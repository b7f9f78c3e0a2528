ghost use Rattle.std.specs.Prelude.{◌≡◌, ◌<◌, ◌≤◌, ◌+◌, ◌*◌, ◌++◌, ℕ, length, true, is_some, All, IfSome, Contains, if◌then◌else◌};
ghost use Rattle.std.specs.List.{flat_map};
ghost use Rattle.arrayvec.specs.ArrayVec.{array_vec_len};
ghost use Rattle.iscc_header.specs.Kinds.{main_number, kinds};
ghost use Rattle.iscc_header.specs.Unit64s.{IsUnit64};
ghost use Rattle.iscc_code.specs.Composites.{IsCode, IsBody, code_units, code_len, code_body, code_header, body_bytes, unit_if, unit_count, is_code_sub as is_sub_of_code};
ghost use Rattle.iscc_code.specs.inner.KindNumbers.{kind_from};

use crate::unit::first_number;
use arrayvec::ArrayVec;
use iscc_header::{Kind, MainType, Unit64};
use std::marker::Model;

/// The SubType of DATA and INSTANCE alone.
pub(crate) const SUM: u16 = 5;

/// The SubType of META, DATA and INSTANCE.
pub(crate) const NONE: u16 = 6;

// The Length of a header where META stands beside DATA and INSTANCE, without SEMANTIC and CONTENT.
const META_ALONE: u16 = 4;

/// An ISCC-CODE (ISO 24138:2024): a DATA and an INSTANCE unit, and META, SEMANTIC and CONTENT units where they are
/// there, each of 64 bits. The first bit of a body is its highest.
#[derive(Clone, Copy, Debug, PartialEq, Eq)]
pub struct Code {
    pub(crate) meta_body: Option<u64>,
    pub(crate) semantic_body: Option<u64>,
    pub(crate) content_body: Option<u64>,
    pub(crate) data_body: u64,
    pub(crate) instance_body: u64,
    // That of the SEMANTIC and CONTENT units, or SUM, or NONE.
    pub(crate) sub: u16,
}

impl Model for Code {
    ghost use Rattle.iscc_code.specs.Composites.{CodeParts, IsCode};

    ghost Value = { CodeParts };

    ghost view = { λ c. record {
      meta_body = c.meta_body;
      semantic_body = c.semantic_body;
      content_body = c.content_body;
      data_body = c.data_body;
      instance_body = c.instance_body;
      sub = c.sub;
    } };

    ghost invariant = { λ c. IsCode (record {
      meta_body = c.meta_body;
      semantic_body = c.semantic_body;
      content_body = c.content_body;
      data_body = c.data_body;
      instance_body = c.instance_body;
      sub = c.sub;
    }) };

    ghost inverse = { λ v. record {
      meta_body = v.meta_body;
      semantic_body = v.semantic_body;
      content_body = v.content_body;
      data_body = v.data_body;
      instance_body = v.instance_body;
      sub = v.sub;
    } };
}

impl Code {
    /// The SubType: 0 to 4 for the media TEXT, IMAGE, AUDIO, VIDEO and MIXED, SUM 5, or NONE 6.
    pub fn sub(&self) -> u16
        ensures value { result ≡ self.now.sub }
        ensures range { IsCode self.now }
    {
        self.sub
    }

    /// Its units, by rising MainType. Takes no memory.
    pub fn split(&self) -> ArrayVec<Unit64, 5>
        ensures value { result.items ≡ code_units self.now }
        ensures units { All IsUnit64 result.items }
        ensures range { IsCode self.now }
    {
        let mut units = ArrayVec::new();
        push_if(&mut units, MainType::Meta, 0, self.meta_body);
        push_if(&mut units, MainType::Semantic, self.sub, self.semantic_body);
        push_if(&mut units, MainType::Content, self.sub, self.content_body);
        push_if(&mut units, MainType::Data, 0, Some(self.data_body));
        push_if(&mut units, MainType::Instance, 0, Some(self.instance_body));
        units
    }

    /// The Length of its header: which of META, SEMANTIC and CONTENT are there.
    pub(crate) fn header_len(&self) -> u16
        ensures value { result ≡ code_len self.now }
        ensures range { IsCode self.now }
    {
        worth(self.content_body, 1) + worth(self.semantic_body, 2) + worth(self.meta_body, 4)
    }
}

// What a body adds to the Length of its header where it is there.
fn worth(body: Option<u64>, worth: u16) -> u16
    ensures { result ≡ (if is_some body then worth else 0) }
{
    if body.is_some() { worth } else { 0 }
}

// Adds the unit with this MainType, this SubType and this body, if the body is there.
fn push_if(units: &mut ArrayVec<Unit64, 5>, main: MainType, sub: u16, body: Option<u64>)
    requires kind { IfSome body (λ b. Contains kinds (main_number main, sub)) }
    requires room { array_vec_len units.old < 5 }
    ensures items { units.new.items ≡ units.old.items ++ unit_if (kind_from (main_number main) sub) body }
    ensures len { array_vec_len units.new ≤ array_vec_len units.old + 1 }
{
    let Some(body) = body else {
        return;
    };
    let Some(kind) = Kind::of(main, sub) else {
        unreachable!()
    };
    units.push(Unit64 { kind, body });
}

/// Whether an ISCC-CODE whose header has this Length may have this SubType.
#[tactic(auto, unfolding(crate::specs::Composites::is_code_sub))]
pub(crate) fn may_have_sub(len: u16, sub: u16) -> bool
    ensures { result ≡ is_sub_of_code len sub }
{
    if len == 0 {
        sub == SUM
    } else if len == META_ALONE {
        sub == NONE
    } else {
        sub < SUM
    }
}

/// How many units an ISCC-CODE has whose header has this Length.
pub(crate) fn units_in(len: u16) -> usize
    requires { len < 8 }
    ensures { result ≡ unit_count len }
{
    (2 + len % 2 + len / 2 % 2 + len / 4 % 2) as usize
}

/// The ISCC-CODE with this Length and this SubType in its header, and this body behind it.
pub(crate) fn code_from(len: u16, sub: u16, body: &[u8]) -> Code
    requires len { len < 8 }
    requires sub { is_sub_of_code len sub ≡ true }
    requires body { length body.now ≡ 8 * unit_count len }
    ensures header { code_header result ≡ record { main = 5; sub = sub; version = 0; len = len } }
    ensures body { code_body result ≡ body.now }
    ensures range { IsCode result }
{
    let (meta_body, rest) = body_if(len / 4 % 2, body);
    let (semantic_body, rest) = body_if(len / 2 % 2, rest);
    let (content_body, rest) = body_if(len % 2, rest);
    let (data_body, rest) = next_body(rest);
    let (instance_body, _) = next_body(rest);
    Code {
        meta_body,
        semantic_body,
        content_body,
        data_body,
        instance_body,
        sub,
    }
}

// The next body, where the count is 1, and what stands behind it. A count of 0 takes none.
fn body_if(count: u16, bytes: &[u8]) -> (Option<u64>, &[u8])
    requires count { count ≤ 1 }
    requires long { 8 * count ≤ length bytes.now }
    ensures count { (if is_some result.0 then 1 else 0) ≡ count }
    ensures whole { (kind : ℕ) → bytes.now ≡ flat_map body_bytes (unit_if kind result.0) ++ result.1.now }
    ensures rest { length bytes.now ≡ 8 * count + length result.1.now }
    ensures range { IfSome result.0 IsBody }
{
    if count == 0 {
        return (None, bytes);
    }
    let (body, rest) = next_body(bytes);
    (Some(body), rest)
}

// The body that eight bytes stand for, the first of them the highest, and what stands behind them.
fn next_body(bytes: &[u8]) -> (u64, &[u8])
    requires { 8 ≤ length bytes.now }
    ensures whole { (kind : ℕ) → bytes.now ≡ body_bytes (record { kind = kind; body = result.0 }) ++ result.1.now }
    ensures rest { length bytes.now ≡ 8 + length result.1.now }
    ensures range { IsBody result.0 }
{
    (first_number(bytes), &bytes[8..])
}
