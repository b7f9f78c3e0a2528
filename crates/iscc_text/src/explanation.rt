ghost use Rattle.std.specs.Prelude.{◌≡◌, ◌≤◌, length, map, false, IfOk};
ghost use Rattle.serde_json.specs.Data.{array};
ghost use Rattle.serde_json.specs.View.{view, items_of};
ghost use Rattle.serde_json.specs.Written.{has_float};
ghost use Rattle.iscc_header.specs.Kinds.{main_number};
ghost use Rattle.iscc_text.specs.Explanations.{Explains, main_name, media_name, sub_name, code_sub_name, unit_data, unit64_data, code_data};

use crate::print::{print_iscc, print_unit};
use iscc_code::{Code, Iscc};
use iscc_header::{Kind, MainType, NoMemory, Unit64};
use serde_json::{Value, json};
use std::alloc::{AllocError, Global};

/// An object that explains an ISCC, with its members in the order of their keys.
///
/// A unit has `bits`, `body` in small hexadecimal digits, `main`, `sub` and `text`, with the names of
/// ISO 24138:2024 in capitals. A unit that is neither SEMANTIC nor CONTENT has the SubType `NONE`. An ISCC-CODE has
/// `main`, `sub`, `text` and `units`, the objects of its units. No number in it is a float.
pub fn explain(alloc: Global, iscc: &Iscc) -> Result<Value, NoMemory>
    ensures explains { IfOk result (λ value. Explains iscc.now (view value)) }
    ensures whole_numbers { IfOk result (λ value. has_float (view value) ≡ false) }
{
    match iscc_value(alloc, iscc) {
        Ok(value) => Ok(value),
        Err(AllocError) => Err(NoMemory),
    }
}

fn iscc_value(alloc: Global, iscc: &Iscc) -> Result<Value, AllocError>
    ensures { IfOk result (λ value. Explains iscc.now (view value)) }
{
    let text = print_iscc(iscc);
    match iscc {
        Iscc::Unit(unit) => unit_value(alloc, unit.kind(), unit.body(), text.as_str()),
        Iscc::Code(code) => code_value(alloc, code, text.as_str()),
    }
}

fn code_value(alloc: Global, code: &Code, text: &str) -> Result<Value, AllocError>
    ensures { IfOk result (λ value. view value ≡ code_data code.now text.now) }
{
    let main = main_text(MainType::Iscc);
    let sub = code_sub_text(code.sub());
    let units = unit_values(alloc, code.split().as_slice())?;
    json!(in alloc; {"main": main, "sub": sub, "text": text, "units": units})
}

fn unit_values(alloc: Global, units: &[Unit64]) -> Result<Value, AllocError>
    ensures { IfOk result (λ value. view value ≡ array (items_of (map unit64_data units.now))) }
{
    let mut values = Vec::new(alloc);
    for unit in units {
        values.push(unit64_value(alloc, unit)?)?;
    }
    Ok(Value::Array(values))
}

fn unit64_value(alloc: Global, unit: &Unit64) -> Result<Value, AllocError>
    ensures { IfOk result (λ value. view value ≡ unit64_data unit.now) }
{
    let text = print_unit(unit);
    unit_value(alloc, unit.kind, &unit.body.to_be_bytes(), text.as_str())
}

fn unit_value(alloc: Global, kind: Kind, body: &[u8], text: &str) -> Result<Value, AllocError>
    requires { length body.now ≤ 32 }
    ensures { IfOk result (λ value. view value ≡ unit_data (record { kind = kind; body = body.now }) text.now) }
{
    let bits = 8 * body.len() as u32;
    let body = hex::encode(alloc, body)?;
    let main = main_text(kind.main());
    let sub = sub_text(kind.main(), kind.sub());
    json!(in alloc; {"bits": bits, "body": &body, "main": main, "sub": sub, "text": text})
}

fn main_text(main: MainType) -> &'static str
    ensures { result.now ≡ main_name (main_number main) }
{
    match main {
        MainType::Meta => "META",
        MainType::Semantic => "SEMANTIC",
        MainType::Content => "CONTENT",
        MainType::Data => "DATA",
        MainType::Instance => "INSTANCE",
        MainType::Iscc => "ISCC",
    }
}

fn sub_text(main: MainType, sub: u16) -> &'static str
    ensures { result.now ≡ sub_name (main_number main) sub }
{
    match main {
        MainType::Semantic | MainType::Content => media(sub),
        _ => "NONE",
    }
}

fn code_sub_text(sub: u16) -> &'static str
    ensures { result.now ≡ code_sub_name sub }
{
    match sub {
        5 => "SUM",
        6 => "NONE",
        _ => media(sub),
    }
}

fn media(sub: u16) -> &'static str
    ensures { result.now ≡ media_name sub }
{
    match sub {
        0 => "TEXT",
        1 => "IMAGE",
        2 => "AUDIO",
        3 => "VIDEO",
        _ => "MIXED",
    }
}
