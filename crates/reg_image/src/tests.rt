use super::*;
use iscc_header::{Kind, Unit64};
use iscc_instance::Hasher;
use reg_model::{Carried, Declared};
use std::alloc::Global;
use std::test::Fail;

// The number of a declaration, of its kind, and its body.
type Line = (u64, u8, u64);

// The bytes, and their hash.
fn sealed(mut bytes: Vec<u8>) -> Result<Vec<u8>, Fail> {
    let mut hasher = Hasher::new();
    hasher.update(bytes.as_slice());
    bytes.extend_from_slice(&hasher.finalize())?;
    Ok(bytes)
}

// What the hash of an image is of, whether its numbers can stand or not.
fn unsealed(alloc: Global, base: u64, count: u64, lines: &[Line]) -> Result<Vec<u8>, Fail> {
    let mut bytes = Vec::new(alloc);
    bytes.extend_from_slice(b"ISCCREGI\x00\x00\x00\x01")?;
    bytes.extend_from_slice(&base.to_be_bytes())?;
    bytes.extend_from_slice(&count.to_be_bytes())?;
    for (id, kind, body) in lines {
        bytes.extend_from_slice(&id.to_be_bytes())?;
        bytes.push(*kind)?;
        bytes.extend_from_slice(&body.to_be_bytes())?;
    }
    Ok(bytes)
}

// Bytes in the form of an image with a right sum, whether its declarations can stand or not.
fn image(alloc: Global, base: u64, lines: &[Line]) -> Result<Vec<u8>, Fail> {
    sealed(unsealed(alloc, base, lines.len() as u64, lines)?)
}

// The bytes with another one at a place.
fn changed(alloc: Global, bytes: &[u8], place: usize, flip: u8) -> Result<Vec<u8>, Fail> {
    let mut other = Vec::from_slice(alloc, bytes)?;
    if let Some(byte) = other.get_mut(place) {
        *byte ^= flip;
    }
    Ok(other)
}

fn fault_of(alloc: Global, bytes: &[u8]) -> Option<(u64, ImageWhy)> {
    match read_image(alloc, bytes) {
        Err(ImageRefusal::Fault(fault)) => Some((fault.at, fault.why)),
        _ => None,
    }
}

// An image is read, and what is read is written as the same image.
fn comes_back(alloc: Global, bytes: &[u8]) -> Result<bool, Fail> {
    let Ok(carried) = read_image(alloc, bytes) else {
        return Ok(false);
    };
    let again = write_image(alloc, &carried).or(Err("memory"))?;
    Ok(again.as_slice() == bytes)
}

// So many lines with rising ids.
fn many(alloc: Global, count: u32) -> Result<Vec<Line>, Fail> {
    let mut lines = Vec::with_capacity(alloc, count as usize)?;
    for i in 0..count {
        let number = i as u64;
        lines.push((number * 3 + 1, (number % 13) as u8, number * 4_000_000_007))?;
    }
    Ok(lines)
}

// The image of one declaration of a META unit with the body 0.
fn one_declaration(alloc: Global) -> Result<Vec<u8>, Fail> {
    let kind = Kind::new(0).ok_or("kind")?;
    let mut carried = Carried::new(alloc, 1);
    let unit = Unit64 { kind, body: 0 };
    carried.push(Declared { id: 0, unit }).or(Err("memory"))?;
    Ok(write_image(alloc, &carried).or(Err("memory"))?)
}

#[test]
fn an_image_without_declarations_has_sixty_bytes(rt: HostRuntime) -> Result<(), Fail> {
    let carried = Carried::new(rt.alloc(), 3);
    let bytes = write_image(rt.alloc(), &carried).or(Err("memory"))?;
    assert_eq!(rt; bytes.len(), 60);
    let front =
        b"\x49\x53\x43\x43\x52\x45\x47\x49\x00\x00\x00\x01\x00\x00\x00\x00\x00\x00\x00\x03\x00\x00\x00\x00\x00\x00\x00\x00";
    assert!(rt; bytes.as_slice().starts_with(front.as_slice()));
    Ok(())
}

#[test]
fn an_image_of_one_declaration_is_told_from_its_neighbours(rt: HostRuntime) -> Result<(), Fail> {
    let alloc = rt.alloc();
    let bytes = one_declaration(alloc)?;
    assert_eq!(rt; bytes.len(), 77);
    assert!(rt; bytes.as_slice() == image(alloc, 1, &[(0, 0, 0)])?.as_slice());
    let mut cut = Vec::from_slice(alloc, bytes.as_slice())?;
    cut.truncate(76);
    assert_eq!(rt;
        fault_of(alloc, cut.as_slice()),
        Some((76, ImageWhy::Short))
    );
    let other = changed(alloc, bytes.as_slice(), 30, 1)?;
    assert_eq!(rt;
        fault_of(alloc, other.as_slice()),
        Some((45, ImageWhy::Sum))
    );
    let mut longer = bytes;
    longer.push(0)?;
    assert_eq!(rt;
        fault_of(alloc, longer.as_slice()),
        Some((77, ImageWhy::Trailing))
    );
    Ok(())
}

#[test]
fn what_is_read_is_what_the_bytes_say(rt: HostRuntime) -> Result<(), Fail> {
    let alloc = rt.alloc();
    let bytes = image(alloc, 9, &[(3, 12, 1 << 63), (8, 6, 5)])?;
    let Ok(carried) = read_image(alloc, bytes.as_slice()) else {
        return Err("not read".into());
    };
    assert_eq!(rt; carried.base(), 9);
    let content = Kind::new(6).ok_or("kind")?;
    let instance = Kind::new(12).ok_or("kind")?;
    let first = Declared {
        id: 3,
        unit: Unit64 {
            kind: instance,
            body: 1 << 63,
        },
    };
    let second = Declared {
        id: 8,
        unit: Unit64 {
            kind: content,
            body: 5,
        },
    };
    assert!(rt; carried.list() == [first, second].as_slice());
    Ok(())
}

#[test]
fn the_image_of_a_late_base_is_read(rt: HostRuntime) -> Result<(), Fail> {
    let alloc = rt.alloc();
    for base in [0, 17_179_869_183, 17_179_869_184] {
        assert!(rt;
            comes_back(alloc, image(alloc, base, &[])?.as_slice())?,
            "{base}"
        );
    }
    Ok(())
}

#[test]
fn images_come_back(rt: HostRuntime) -> Result<(), Fail> {
    let alloc = rt.alloc();
    for count in [0, 1, 2, 1000] {
        let lines = many(alloc, count)?;
        let bytes = image(alloc, 17_179_869_184, lines.as_slice())?;
        assert!(rt; comes_back(alloc, bytes.as_slice())?, "{count}");
    }
    Ok(())
}

#[test]
fn the_greatest_image_comes_back(rt: HostRuntime) -> Result<(), Fail> {
    let alloc = rt.alloc();
    let lines = many(alloc, DECLARED_MOST)?;
    let bytes = image(alloc, 17_179_869_184, lines.as_slice())?;
    assert_eq!(rt; bytes.len(), 17_825_852);
    assert!(rt; comes_back(alloc, bytes.as_slice())?);
    Ok(())
}

#[test]
fn a_front_that_cannot_stand_is_refused_at_its_place(rt: HostRuntime) -> Result<(), Fail> {
    let alloc = rt.alloc();
    let bytes = image(alloc, 3, &[])?;
    assert_eq!(rt; fault_of(alloc, &[]), Some((0, ImageWhy::Short)));
    let mut cut = Vec::from_slice(alloc, bytes.as_slice())?;
    cut.truncate(27);
    assert_eq!(rt;
        fault_of(alloc, cut.as_slice()),
        Some((27, ImageWhy::Short))
    );
    let magic = changed(alloc, bytes.as_slice(), 7, 32)?;
    assert_eq!(rt;
        fault_of(alloc, magic.as_slice()),
        Some((0, ImageWhy::Magic))
    );
    let version = changed(alloc, bytes.as_slice(), 11, 3)?;
    assert_eq!(rt;
        fault_of(alloc, version.as_slice()),
        Some((8, ImageWhy::Version))
    );
    let base = image(alloc, 17_179_869_185, &[])?;
    assert_eq!(rt;
        fault_of(alloc, base.as_slice()),
        Some((12, ImageWhy::Range))
    );
    let count = sealed(unsealed(alloc, 3, 1_048_577, &[])?)?;
    assert_eq!(rt;
        fault_of(alloc, count.as_slice()),
        Some((20, ImageWhy::Range))
    );
    let absent = sealed(unsealed(alloc, 3, 1, &[])?)?;
    assert_eq!(rt;
        fault_of(alloc, absent.as_slice()),
        Some((60, ImageWhy::Short))
    );
    Ok(())
}

// Lines below the base 9, and their first fault.
type Case = ([Line; 2], u64, ImageWhy);

#[test]
fn a_declaration_that_cannot_stand_is_refused_at_its_place(rt: HostRuntime) -> Result<(), Fail> {
    let alloc = rt.alloc();
    let cases: [Case; 8] = [
        ([(0, 13, 0), (1, 0, 0)], 36, ImageWhy::Kind),
        ([(0, 0, 0), (1, 255, 0)], 53, ImageWhy::Kind),
        ([(4, 0, 0), (4, 0, 0)], 45, ImageWhy::Order),
        ([(4, 0, 0), (3, 0, 0)], 45, ImageWhy::Order),
        ([(4, 0, 0), (3, 13, 0)], 53, ImageWhy::Kind),
        ([(9, 0, 0), (10, 0, 0)], 28, ImageWhy::Range),
        ([(8, 0, 0), (9, 0, 0)], 45, ImageWhy::Range),
        ([(9, 0, 0), (9, 13, 0)], 28, ImageWhy::Range),
    ];
    for (lines, at, why) in cases {
        let bytes = image(alloc, 9, &lines)?;
        assert_eq!(rt; fault_of(alloc, bytes.as_slice()), Some((at, why)));
        let mut longer = bytes;
        longer.push(0)?;
        assert_eq!(rt; fault_of(alloc, longer.as_slice()), Some((at, why)));
    }
    Ok(())
}

#[test]
fn an_image_with_another_byte_is_refused(rt: HostRuntime) -> Result<(), Fail> {
    let alloc = rt.alloc();
    let bytes = image(alloc, 9, &[(3, 2, 7), (8, 6, 5)])?;
    for place in 0..bytes.len() {
        for flip in [1, 128, 255] {
            let other = changed(alloc, bytes.as_slice(), place, flip)?;
            assert!(rt; fault_of(alloc, other.as_slice()).is_some(), "{place}");
        }
    }
    Ok(())
}
