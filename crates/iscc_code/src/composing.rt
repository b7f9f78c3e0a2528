ghost use Rattle.std.specs.Prelude.{◌≡◌, ◌≤◌, ◌↔◌, ◌==◌, nat_lt, length, map, count_by, false, IfOk, IfSome};
ghost use Rattle.std.specs.Option.{option_map, option_to_list};
ghost use Rattle.iscc_header.specs.Kinds.{main_number, main_of};
ghost use Rattle.iscc_code.specs.declared.composing.ComposeFault.{ComposeFault as AFault};
ghost use Rattle.iscc_code.specs.Units.{IsUnit, first64_of, first_bits};
ghost use Rattle.iscc_code.specs.Composites.{IsCode, IsBody, IsComposite, code_units, compose_fault, of_main, subs_differ, has_twice as some_stands_twice, has_narrow};
ghost use Rattle.iscc_code.specs.inner.Joined.{ComposesTo, FitsMain, in_order, sub_from};

use crate::code::{Code, NONE, SUM};
use crate::unit::Unit;
use iscc_header::MainType;

/// Why units have no composite, in the order of the causes.
#[derive(Clone, Copy, Debug, PartialEq, Eq)]
pub enum ComposeFault {
    /// Two units have one MainType.
    Twice,
    /// There is no DATA unit.
    NoData,
    /// There is no INSTANCE unit.
    NoInstance,
    /// A unit has under 64 bits.
    Narrow,
    /// The SEMANTIC and the CONTENT unit have different SubTypes.
    SubTypes,
}

/// The composite of units in any order (ISO 24138:2024), or the first fault. Takes no memory.
pub fn compose(units: &[Unit]) -> Result<Code, ComposeFault>
    ensures found { IfOk result (λ code. IsComposite units.now code) }
    ensures fault { (fault : AFault) → (result ≡ Err fault) ↔ (compose_fault units.now ≡ Some fault) }
{
    composed(units)
}

fn composed(units: &[Unit]) -> Result<Code, ComposeFault>
    ensures { ComposesTo units.now result }
{
    if has_twice(units) {
        return Err(ComposeFault::Twice);
    }
    let Some(data) = only_of(units, MainType::Data) else {
        return Err(ComposeFault::NoData);
    };
    let Some(instance) = only_of(units, MainType::Instance) else {
        return Err(ComposeFault::NoInstance);
    };
    if is_narrow(units) {
        return Err(ComposeFault::Narrow);
    }
    let meta = only_of(units, MainType::Meta);
    let semantic = only_of(units, MainType::Semantic);
    let content = only_of(units, MainType::Content);
    if have_two_subs(&semantic, &content) {
        return Err(ComposeFault::SubTypes);
    }
    Ok(joined(&meta, &semantic, &content, &data, &instance))
}

// Whether some MainType stands twice.
fn has_twice(units: &[Unit]) -> bool
    ensures { result ≡ some_stands_twice units.now }
{
    stands_twice(units, MainType::Meta)
        || stands_twice(units, MainType::Semantic)
        || stands_twice(units, MainType::Content)
        || stands_twice(units, MainType::Data)
        || stands_twice(units, MainType::Instance)
}

fn stands_twice(units: &[Unit], main: MainType) -> bool
    ensures { result ≡ nat_lt 1 (length (of_main (main_number main) units.now)) }
{
    count_of(units, main) > 1
}

// How many units have the MainType.
fn count_of(units: &[Unit], main: MainType) -> usize
    ensures { result ≡ count_by (λ unit. main_of unit.kind == main_number main) units.now }
{
    units.iter().filter(|unit| has_main(unit, main)).count()
}

// The unit with the MainType, which stands once at most.
fn only_of(units: &[Unit], main: MainType) -> Option<Unit>
    requires { length (of_main (main_number main) units.now) ≤ 1 }
    ensures units { of_main (main_number main) units.now ≡ option_to_list result }
    ensures range { IfSome result IsUnit }
{
    for unit in units {
        if has_main(unit, main) {
            return Some(*unit);
        }
    }
    None
}

fn has_main(unit: &Unit, main: MainType) -> bool
    ensures value { result ≡ (main_of unit.now.kind == main_number main) }
    ensures range { IsUnit unit.now }
{
    unit.kind().main().number() == main.number()
}

// Whether a unit has under 64 bits.
fn is_narrow(units: &[Unit]) -> bool
    ensures { result ≡ has_narrow units.now }
{
    units.iter().any(|unit| unit.body().len() < 8)
}

// Whether both are there, with different SubTypes.
fn have_two_subs(semantic: &Option<Unit>, content: &Option<Unit>) -> bool
    ensures { result ≡ subs_differ (option_to_list semantic.now) (option_to_list content.now) }
{
    match (semantic, content) {
        (Some(a), Some(b)) => a.kind().sub() != b.kind().sub(),
        _ => false,
    }
}

// The ISCC-CODE of the first 64 bits of these units.
fn joined(
    meta: &Option<Unit>,
    semantic: &Option<Unit>,
    content: &Option<Unit>,
    last_data: &Unit,
    instance: &Unit,
) -> Code
    requires meta { IfSome meta.now (FitsMain 0) }
    requires semantic { IfSome semantic.now (FitsMain 1) }
    requires content { IfSome content.now (FitsMain 2) }
    requires last_data { FitsMain 3 last_data.now }
    requires instance { FitsMain 4 instance.now }
    requires same { subs_differ (option_to_list semantic.now) (option_to_list content.now) ≡ false }
    ensures units { code_units result ≡ map first64_of (in_order meta.now semantic.now content.now last_data.now instance.now) }
    ensures range { IsCode result }
{
    Code {
        meta_body: first_body_if(meta),
        semantic_body: first_body_if(semantic),
        content_body: first_body_if(content),
        data_body: first_body(last_data),
        instance_body: first_body(instance),
        sub: sub_of_code(meta.is_some(), semantic, content),
    }
}

// The SubType of an ISCC-CODE with these units, and a META unit or none.
fn sub_of_code(has_meta: bool, semantic: &Option<Unit>, content: &Option<Unit>) -> u16
    ensures { result ≡ sub_from has_meta semantic.now content.now }
{
    match (semantic, content) {
        (Some(unit), _) => unit.kind().sub(),
        (None, Some(unit)) => unit.kind().sub(),
        (None, None) => { if has_meta { NONE } else { SUM } }
    }
}

// The number of the first 64 bits of a unit that has as many.
fn first_body(unit: &Unit) -> u64
    requires { 8 ≤ length unit.now.body }
    ensures value { result ≡ first_bits unit.now.body }
    ensures range { IsBody result }
{
    unit.first64().unwrap().body
}

fn first_body_if(unit: &Option<Unit>) -> Option<u64>
    requires { IfSome unit.now (λ u. 8 ≤ length u.body) }
    ensures value { result ≡ option_map (λ u. first_bits u.body) unit.now }
    ensures range { IfSome result IsBody }
{
    match unit {
        Some(unit) => Some(first_body(unit)),
        None => None,
    }
}
