ghost use Rattle.std.specs.Prelude.{◌≡◌, All, IfSome, IfNone, IfOk};
ghost use Rattle.iscc_header.specs.Unit64s.{IsUnit64};
ghost use Rattle.iscc_code.specs.declared.iscc.Iscc.TheVariants.{Unit as AUnit};
ghost use Rattle.iscc_code.specs.Codes.{units_of};
ghost use Rattle.reg_requests.specs.Requests.{TextMeans};

use crate::items::BadLine;
use arrayvec::ArrayVec;
use iscc_code::{Iscc, Unit};
use iscc_header::Unit64;
use iscc_text::read_iscc;

/// The units of an ISCC, each by its first 64 bits.
pub(crate) type Units = ArrayVec<Unit64, 5>;

/// The units of the ISCC that a text stands for, or why the text is refused.
pub(crate) fn read_units(text: &[u8]) -> Result<Units, BadLine>
    ensures means { TextMeans text.now result }
    ensures range { IfOk result (λ units. All IsUnit64 units.items) }
{
    let Ok(iscc) = read_iscc(text) else {
        return Err(BadLine::Text);
    };
    match units(&iscc) {
        Some(units) => Ok(units),
        None => Err(BadLine::Short),
    }
}

fn units(iscc: &Iscc) -> Option<Units>
    ensures found { IfSome result (λ units. units_of iscc.now ≡ Some units.items) }
    ensures range { IfSome result (λ units. All IsUnit64 units.items) }
    ensures none { IfNone result (units_of iscc.now ≡ None) }
{
    match iscc {
        Iscc::Unit(unit) => one_unit(unit),
        Iscc::Code(code) => Some(code.split()),
    }
}

// A unit of 32 bits has none.
fn one_unit(unit: &Unit) -> Option<Units>
    ensures found { IfSome result (λ units. units_of (AUnit unit.now) ≡ Some units.items) }
    ensures range { IfSome result (λ units. All IsUnit64 units.items) }
    ensures none { IfNone result (units_of (AUnit unit.now) ≡ None) }
{
    if unit.bits() < 64 {
        return None;
    }
    let mut units = ArrayVec::new();
    units.push(unit.first64().unwrap());
    Some(units)
}
