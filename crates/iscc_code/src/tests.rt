use super::*;
use iscc_header::{HeaderFault, Kind, MainType};
use std::test::Fail;

#[test]
fn a_unit_is_read_back_from_its_bytes(rt: HostRuntime) -> Result<(), Fail> {
    let kind = Kind::of(MainType::Instance, 0).ok_or("no kind")?;
    let body = [0xaf, 0x13, 0x49, 0xb9, 0xf5, 0xf9, 0xa1, 0xa6];
    let unit = Unit::new(kind, &body).ok_or("no unit")?;
    assert_eq!(rt; unit.kind(), kind);
    assert_eq!(rt; unit.body(), body.as_slice());
    assert_eq!(rt; unit.bits(), 64);
    let short = unit.first64().ok_or("short")?;
    assert_eq!(rt; short.kind, kind);
    assert_eq!(rt; short.body, 0xaf13_49b9_f5f9_a1a6);
    let bytes = [0x40, 0x01, 0xaf, 0x13, 0x49, 0xb9, 0xf5, 0xf9, 0xa1, 0xa6];
    assert_eq!(rt; encode(&Iscc::Unit(unit)).as_slice(), bytes.as_slice());
    assert_eq!(rt; decode(&bytes), Ok(Iscc::Unit(unit)));
    Ok(())
}

#[test]
fn a_body_has_four_to_thirty_two_bytes_by_fours(rt: HostRuntime) -> Result<(), Fail> {
    let kind = Kind::of(MainType::Meta, 0).ok_or("no kind")?;
    let body = [1u8; 40];
    for len in 0..41 {
        let fits = len == 4
            || len == 8
            || len == 12
            || len == 16
            || len == 20
            || len == 24
            || len == 28
            || len == 32;
        assert_eq!(rt; Unit::new(kind, &body[..len]).is_some(), fits);
    }
    let least = Unit::new(kind, &body[..4]).ok_or("no unit")?;
    assert_eq!(rt; least.first64(), None);
    assert_eq!(rt; least.bits(), 32);
    let most = Unit::new(kind, &body[..32]).ok_or("no unit")?;
    assert_eq!(rt; most.first64().ok_or("short")?.body, 0x0101_0101_0101_0101);
    assert_eq!(rt; encode(&Iscc::Unit(most)).len(), 34);
    Ok(())
}

#[test]
fn the_first_fault_of_an_iscc_is_answered(rt: HostRuntime) {
    let cases = [
        ([].as_slice(), IsccFault::Header(HeaderFault::Short)),
        ([0xF0, 0].as_slice(), IsccFault::Header(HeaderFault::NoCode)),
        (
            [0, 8, 1].as_slice(),
            IsccFault::Header(HeaderFault::Padding),
        ),
        // MainType 6, with a version and a length that can't be either.
        ([0x67, 0x18, 0].as_slice(), IsccFault::MainType),
        ([0x80, 0x00, 0x00].as_slice(), IsccFault::MainType),
        // Version 1, with SubType 7 and length 8.
        ([0x07, 0x18, 0x00].as_slice(), IsccFault::Version),
        // Length 8, with SubType 7.
        ([0x07, 0x08, 0x00].as_slice(), IsccFault::Length),
        ([0x01, 0x00].as_slice(), IsccFault::SubType),
        ([0x15, 0x00].as_slice(), IsccFault::SubType),
        ([0x25, 0x00].as_slice(), IsccFault::SubType),
        ([0x31, 0x00].as_slice(), IsccFault::SubType),
        ([0x41, 0x00].as_slice(), IsccFault::SubType),
        ([0x00, 0x00, 1, 2, 3].as_slice(), IsccFault::Short),
        ([0x00, 0x00, 1, 2, 3, 4, 5].as_slice(), IsccFault::Long),
        ([0x00, 0x00].as_slice(), IsccFault::Short),
        // An ISCC-CODE: SUM with META, NONE without, MIXED with neither SEMANTIC nor CONTENT, SUM with CONTENT.
        ([0x55, 0x04].as_slice(), IsccFault::SubType),
        ([0x56, 0x00].as_slice(), IsccFault::SubType),
        ([0x54, 0x00].as_slice(), IsccFault::SubType),
        ([0x55, 0x01].as_slice(), IsccFault::SubType),
        ([0x54, 0x01, 1, 2, 3].as_slice(), IsccFault::Short),
        (
            [
                0x55, 0x00, 0, 0, 0, 0, 0, 0, 0, 0, 0, 0, 0, 0, 0, 0, 0, 0, 0,
            ]
            .as_slice(),
            IsccFault::Long,
        ),
    ];
    for (bytes, fault) in cases {
        assert_eq!(rt; decode(bytes), Err(fault));
    }
}

// A unit of 64 bits whose body is one byte eight times.
fn unit(main: MainType, sub: u16, byte: u8) -> Option<Unit> {
    let kind = Kind::of(main, sub)?;
    Unit::new(kind, &[byte; 8])
}

#[test]
fn a_composite_has_its_units_by_rising_main_type(rt: HostRuntime) -> Result<(), Fail> {
    let instance = unit(MainType::Instance, 0, 5).ok_or("no unit")?;
    let content = unit(MainType::Content, 3, 3).ok_or("no unit")?;
    let data = unit(MainType::Data, 0, 4).ok_or("no unit")?;
    let semantic = unit(MainType::Semantic, 3, 2).ok_or("no unit")?;
    let meta = unit(MainType::Meta, 0, 1).ok_or("no unit")?;
    let Ok(code) = compose(&[instance, content, data, semantic, meta]) else {
        return Err("refused".into());
    };
    assert_eq!(rt; code.sub(), 3);
    let units = code.split();
    assert_eq!(rt; units.len(), 5);
    let sorted = [meta, semantic, content, data, instance];
    for (i, whole) in sorted.iter().enumerate() {
        assert_eq!(rt; Some(units.as_slice()[i]), whole.first64());
    }
    let bytes = encode(&Iscc::Code(code));
    assert_eq!(rt; bytes.len(), 42);
    assert_eq!(rt; &bytes.as_slice()[..3], [0x53, 0x07, 1].as_slice());
    assert_eq!(rt; decode(bytes.as_slice()), Ok(Iscc::Code(code)));
    Ok(())
}

#[test]
fn data_and_instance_alone_have_the_sub_type_sum(rt: HostRuntime) -> Result<(), Fail> {
    let data = unit(MainType::Data, 0, 0).ok_or("no unit")?;
    let instance = unit(MainType::Instance, 0, 0).ok_or("no unit")?;
    let Ok(code) = compose(&[instance, data]) else {
        return Err("refused".into());
    };
    assert_eq!(rt; code.sub(), 5);
    let bytes = [0x55, 0, 0, 0, 0, 0, 0, 0, 0, 0, 0, 0, 0, 0, 0, 0, 0, 0];
    assert_eq!(rt; encode(&Iscc::Code(code)).as_slice(), bytes.as_slice());
    let meta = unit(MainType::Meta, 0, 0).ok_or("no unit")?;
    let Ok(with_meta) = compose(&[instance, data, meta]) else {
        return Err("refused".into());
    };
    assert_eq!(rt; with_meta.sub(), 6);
    Ok(())
}

#[test]
fn the_first_fault_of_composing_is_answered(rt: HostRuntime) -> Result<(), Fail> {
    let meta = unit(MainType::Meta, 0, 0).ok_or("no unit")?;
    let semantic = unit(MainType::Semantic, 0, 0).ok_or("no unit")?;
    let content = unit(MainType::Content, 1, 0).ok_or("no unit")?;
    let data = unit(MainType::Data, 0, 0).ok_or("no unit")?;
    let instance = unit(MainType::Instance, 0, 0).ok_or("no unit")?;
    let kind = Kind::of(MainType::Data, 0).ok_or("no kind")?;
    let narrow = Unit::new(kind, &[0; 4]).ok_or("no unit")?;
    assert_eq!(rt; compose(&[meta, data]), Err(ComposeFault::NoInstance));
    assert_eq!(rt; compose(&[data, data]), Err(ComposeFault::Twice));
    assert_eq!(rt; compose(&[narrow, instance]), Err(ComposeFault::Narrow));
    assert_eq!(rt;
        compose(&[semantic, content, data, instance]),
        Err(ComposeFault::SubTypes)
    );
    assert_eq!(rt; compose(&[instance]), Err(ComposeFault::NoData));
    assert_eq!(rt; compose(&[]), Err(ComposeFault::NoData));
    assert_eq!(rt;
        compose(&[semantic, content, narrow, instance]),
        Err(ComposeFault::Narrow)
    );
    assert_eq!(rt; compose(&[narrow]), Err(ComposeFault::NoInstance));
    Ok(())
}
