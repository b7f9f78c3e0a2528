ghost use Rattle.std.specs.Prelude.{◌≡◌, ◌<◌, ◌≤◌, ◌+◌, ◌++◌, ◌↔◌, ℕ, List, length, true, false, IfOk, IfSome, IfNone, MatchResult};
ghost use Rattle.arrayvec.specs.ArrayVec.{array_vec_len};
ghost use Rattle.iscc_header.specs.Kinds.{main_of, sub_of};
ghost use Rattle.iscc_header.specs.Headers.{EncodesHeader};
ghost use Rattle.iscc_code.specs.declared.iscc.Iscc.{Iscc as AnIscc};
ghost use Rattle.iscc_code.specs.declared.iscc.Iscc.TheVariants.{Unit as AUnit, Code as ACode};
ghost use Rattle.iscc_code.specs.declared.iscc.IsccFault.{IsccFault as AFault};
ghost use Rattle.iscc_code.specs.Units.{is_kind};
ghost use Rattle.iscc_code.specs.Codes.{EncodesIscc, HasFault};
ghost use Rattle.iscc_code.specs.inner.Decoding.{DecodesTo, HasParts, IsFirstFault};

use crate::code::{Code, code_from, may_have_sub, units_in};
use crate::unit::Unit;
use arrayvec::ArrayVec;
use iscc_header::{Header, HeaderFault, Kind, MainType, decode_header, encode_header};

// The MainType of an ISCC-CODE.
const ISCC: u16 = 5;

/// An ISCC (ISO 24138:2024): a unit, or an ISCC-CODE of several units.
#[derive(Clone, Copy, Debug, PartialEq, Eq)]
pub enum Iscc {
    /// An ISCC-UNIT of 32 to 256 bits.
    Unit(Unit),
    /// An ISCC-CODE of two to five units.
    Code(Code),
}

/// Why bytes encode no ISCC, in the order of the causes.
#[derive(Clone, Copy, Debug, PartialEq, Eq)]
pub enum IsccFault {
    /// The bytes begin with no header.
    Header(HeaderFault),
    /// The MainType is above 5.
    MainType,
    /// The version isn't 0.
    Version,
    /// The length is above 7.
    Length,
    /// No kind, or no ISCC-CODE of this length, has this SubType.
    SubType,
    /// The body is shorter than its header says.
    Short,
    /// The body is longer than its header says.
    Long,
}

/// The ISCC that the bytes encode (ISO 24138:2024), or the first fault.
pub fn decode(bytes: &[u8]) -> Result<Iscc, IsccFault>
    ensures found { IfOk result (λ iscc. EncodesIscc iscc bytes.now) }
    ensures complete { (iscc : AnIscc) → EncodesIscc iscc bytes.now → result ≡ Ok iscc }
    ensures fault { (fault : AFault) → (result ≡ Err fault) ↔ HasFault bytes.now fault }
{
    read_bytes(bytes)
}

fn read_bytes(bytes: &[u8]) -> Result<Iscc, IsccFault>
    ensures { DecodesTo bytes.now result }
{
    let (header, count) = match decode_header(bytes) {
        Ok(read) => read,
        Err(fault) => return Err(IsccFault::Header(fault)),
    };
    iscc_of(&header, &bytes[count..])
}

// The ISCC with this header and this body, or the first fault of the two.
fn iscc_of(header: &Header, body: &[u8]) -> Result<Iscc, IsccFault>
    ensures { MatchResult result (HasParts header.now body.now) (IsFirstFault header.now body.now) }
{
    if header.main() > ISCC {
        return Err(IsccFault::MainType);
    }
    if header.version() != 0 {
        return Err(IsccFault::Version);
    }
    if header.length() > 7 {
        return Err(IsccFault::Length);
    }
    if header.main() == ISCC {
        code_of(header, body)
    } else {
        unit_of(header, body)
    }
}

// The ISCC-CODE with this header and this body, or the first fault of the two.
fn code_of(header: &Header, body: &[u8]) -> Result<Iscc, IsccFault>
    requires main { header.now.main ≡ 5 }
    requires version { header.now.version ≡ 0 }
    requires len { header.now.len ≤ 7 }
    ensures { MatchResult result (HasParts header.now body.now) (IsFirstFault header.now body.now) }
{
    if !may_have_sub(header.length(), header.sub()) {
        return Err(IsccFault::SubType);
    }
    let width = 8 * units_in(header.length());
    if body.len() < width {
        return Err(IsccFault::Short);
    }
    if body.len() > width {
        return Err(IsccFault::Long);
    }
    Ok(Iscc::Code(code_from(header.length(), header.sub(), body)))
}

// The unit with this header and this body, or the first fault of the two.
fn unit_of(header: &Header, body: &[u8]) -> Result<Iscc, IsccFault>
    requires main { header.now.main ≤ 4 }
    requires version { header.now.version ≡ 0 }
    requires len { header.now.len ≤ 7 }
    ensures { MatchResult result (HasParts header.now body.now) (IsFirstFault header.now body.now) }
{
    let Some(kind) = kind_of(header) else {
        return Err(IsccFault::SubType);
    };
    let width = 4 * (header.length() as usize + 1);
    if body.len() < width {
        return Err(IsccFault::Short);
    }
    if body.len() > width {
        return Err(IsccFault::Long);
    }
    let Some(unit) = Unit::new(kind, body) else {
        unreachable!()
    };
    Ok(Iscc::Unit(unit))
}

// The kind with the MainType and the SubType of a header.
fn kind_of(header: &Header) -> Option<Kind>
    ensures found { IfSome result (λ kind. (kind < 13) × (main_of kind ≡ header.now.main) × (sub_of kind ≡ header.now.sub)
        × (is_kind header.now.main header.now.sub ≡ true)) }
    ensures none { IfNone result (is_kind header.now.main header.now.sub ≡ false) }
{
    let Some(main) = MainType::of(header.main()) else {
        return None;
    };
    let Some(kind) = Kind::of(main, header.sub()) else {
        return None;
    };
    Some(kind)
}

/// The bytes of an ISCC: its header, and its body. Takes no memory.
pub fn encode(iscc: &Iscc) -> ArrayVec<u8, 42>
    ensures { EncodesIscc iscc.now result.items }
{
    match iscc {
        Iscc::Unit(unit) => unit_bytes(unit),
        Iscc::Code(code) => code_bytes(code),
    }
}

fn unit_bytes(unit: &Unit) -> ArrayVec<u8, 42>
    ensures { EncodesIscc (AUnit unit.now) result.items }
{
    let body = unit.body();
    let kind = unit.kind();
    let mut bytes = header_bytes(
        kind.main().number(),
        kind.sub(),
        (body.len() / 4 - 1) as u16,
    );
    append(&mut bytes, body);
    bytes
}

fn code_bytes(code: &Code) -> ArrayVec<u8, 42>
    ensures { EncodesIscc (ACode code.now) result.items }
{
    let mut bytes = header_bytes(ISCC, code.sub(), code.header_len());
    for unit in code.split().as_slice() {
        append(&mut bytes, &unit.body.to_be_bytes());
    }
    bytes
}

// The bytes of a header of four small numbers, with version 0.
fn header_bytes(main: u16, sub: u16, len: u16) -> ArrayVec<u8, 42>
    requires main { main < 8 }
    requires sub { sub < 8 }
    requires len { len < 8 }
    ensures encoded { EncodesHeader (record { main = main; sub = sub; version = 0; len = len }) result.items }
    ensures two { length result.items ≡ 2 }
{
    let Some(header) = Header::new(main, sub, 0, len) else {
        unreachable!()
    };
    let mut bytes = ArrayVec::new();
    append(&mut bytes, encode_header(&header).as_slice());
    bytes
}

fn append(bytes: &mut ArrayVec<u8, 42>, more: &[u8])
    requires { array_vec_len bytes.old + length more.now ≤ 42 }
    ensures { bytes.new.items ≡ bytes.old.items ++ more.now }
{
    if bytes.try_extend_from_slice(more).is_err() {
        unreachable!()
    }
}
