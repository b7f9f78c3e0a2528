use super::*;
use std::test::Fail;

// The pairs of MainType and SubType number, by kind: ISO 24138:2024, tables of MainTypes and SubTypes.
const PAIRS: [(MainType, u16); 13] = [
    (MainType::Meta, 0),
    (MainType::Semantic, 0),
    (MainType::Semantic, 1),
    (MainType::Semantic, 2),
    (MainType::Semantic, 3),
    (MainType::Semantic, 4),
    (MainType::Content, 0),
    (MainType::Content, 1),
    (MainType::Content, 2),
    (MainType::Content, 3),
    (MainType::Content, 4),
    (MainType::Data, 0),
    (MainType::Instance, 0),
];

#[test]
fn each_kind_is_found_by_its_pair(rt: HostRuntime) -> Result<(), Fail> {
    let mut number = 0;
    for (main, sub) in PAIRS {
        let kind = Kind::of(main, sub).ok_or("no kind")?;
        assert_eq!(rt; kind.number(), number);
        assert_eq!(rt; Kind::new(number), Some(kind));
        assert_eq!(rt; kind.main(), main);
        assert_eq!(rt; kind.sub(), sub);
        number = number.wrapping_add(1);
    }
    assert_eq!(rt; Kind::new(13), None);
    assert_eq!(rt; Kind::of(MainType::Iscc, 0), None);
    Ok(())
}

#[test]
fn main_types_have_the_numbers_of_the_standard(rt: HostRuntime) {
    let names = [
        MainType::Meta,
        MainType::Semantic,
        MainType::Content,
        MainType::Data,
        MainType::Instance,
        MainType::Iscc,
    ];
    let mut number = 0;
    for main in names {
        assert_eq!(rt; main.number(), number);
        assert_eq!(rt; MainType::of(number), Some(main));
        number = number.wrapping_add(1);
    }
    assert_eq!(rt; MainType::of(6), None);
}

#[test]
fn distance_counts_the_bits_that_differ(rt: HostRuntime) {
    let cases = [
        (0, 0, 0),
        (0, 1, 1),
        (0, u64::MAX, 64),
        (0, 0x0007_000F_000F_000F, 15),
        (0x8000_0000_0000_0000, 1, 2),
    ];
    for (a, b, want) in cases {
        assert_eq!(rt; distance(a, b), want, "{a} and {b}");
    }
}

// A number, the hexadecimal digits of its encoding, and how many there are.
const ENCODINGS: [(u16, u16, u8); 7] = [
    (7, 0x7, 1),
    (8, 0x80, 2),
    (71, 0xBF, 2),
    (72, 0xC00, 3),
    (583, 0xDFF, 3),
    (584, 0xE000, 4),
    (4679, 0xEFFF, 4),
];

#[test]
fn a_number_is_encoded_in_one_to_four_nibbles(rt: HostRuntime) {
    for (n, value, count) in ENCODINGS {
        assert_eq!(rt; put_nibbles(n), Some(Nibbles { count, value }));
    }
    assert_eq!(rt; put_nibbles(4680), None);
    assert_eq!(rt; put_nibbles(u16::MAX), None);
}

#[test]
fn a_number_is_read_at_any_nibble_place(rt: HostRuntime) {
    // The numbers 7, 8, 72 and 584, one after the other.
    let bytes = [0x78, 0x0C, 0x00, 0xE0, 0x00];
    let places = [(0, 7, 1), (1, 8, 3), (3, 72, 6), (6, 584, 10)];
    for (at, n, after) in places {
        assert_eq!(rt; get_nibbles(&bytes, at), Ok((n, after)));
    }
    assert_eq!(rt; get_nibbles(&bytes, 10), Err(NibbleFault::Short));
    assert_eq!(rt; get_nibbles(&[0x0F], 1), Err(NibbleFault::NoCode));
    assert_eq!(rt; get_nibbles(&[0x8F, 0xE0], 2), Err(NibbleFault::Short));
    assert_eq!(rt; get_nibbles(&[], 0), Err(NibbleFault::Short));
}

#[test]
fn a_header_of_whole_bytes_is_read_back(rt: HostRuntime) -> Result<(), Fail> {
    let header = Header::new(0, 0, 0, 8).ok_or("no header")?;
    assert_eq!(rt; encode_header(&header).as_slice(), [0, 8, 0].as_slice());
    assert_eq!(rt; decode_header(&[0, 8, 0]), Ok((header, 3)));
    assert_eq!(rt; decode_header(&[0, 8, 0, 0xFF]), Ok((header, 3)));
    let longest = Header::new(4679, 4679, 4679, 4679).ok_or("no header")?;
    let bytes = [0xEF, 0xFF, 0xEF, 0xFF, 0xEF, 0xFF, 0xEF, 0xFF];
    assert_eq!(rt; encode_header(&longest).as_slice(), bytes.as_slice());
    assert_eq!(rt; decode_header(&bytes), Ok((longest, 8)));
    let mixed = Header::new(1, 2, 3, 4).ok_or("no header")?;
    assert_eq!(rt; mixed.main(), 1);
    assert_eq!(rt; mixed.sub(), 2);
    assert_eq!(rt; mixed.version(), 3);
    assert_eq!(rt; mixed.length(), 4);
    assert_eq!(rt; encode_header(&mixed).as_slice(), [0x12, 0x34].as_slice());
    Ok(())
}

#[test]
fn a_header_with_a_number_above_4679_is_none(rt: HostRuntime) {
    assert_eq!(rt; Header::new(4680, 0, 0, 0), None);
    assert_eq!(rt; Header::new(0, 4680, 0, 0), None);
    assert_eq!(rt; Header::new(0, 0, 4680, 0), None);
    assert_eq!(rt; Header::new(0, 0, 0, 4680), None);
}

#[test]
fn the_first_fault_of_a_header_is_answered(rt: HostRuntime) {
    let cases = [
        ([0x00, 0x08, 0x01].as_slice(), HeaderFault::Padding),
        ([0xF0, 0x00].as_slice(), HeaderFault::NoCode),
        ([0x00].as_slice(), HeaderFault::Short),
        ([].as_slice(), HeaderFault::Short),
        ([0x0F, 0x00].as_slice(), HeaderFault::NoCode),
        ([0x00, 0x0E, 0xF0].as_slice(), HeaderFault::Short),
        ([0x0F].as_slice(), HeaderFault::NoCode),
    ];
    for (bytes, fault) in cases {
        assert_eq!(rt; decode_header(bytes), Err(fault));
    }
}
