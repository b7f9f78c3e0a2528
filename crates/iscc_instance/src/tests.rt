// Expected values are those of b3sum 1.2.0, an outside program.

ghost use Rattle.std.specs.Prelude.{◌<◌, length};

use super::*;
use std::alloc::Global;
use std::fmt::{self, Write};
use std::process::Abort;
use std::test::Fail;

// The length of an input whose byte i is i mod 251, and its hash.
const HASHES: [(usize, &str); 15] = [
    (
        0,
        "af1349b9f5f9a1a6a0404dea36dcc9499bcb25c9adc112b7cc9a93cae41f3262",
    ),
    (
        1,
        "2d3adedff11b61f14c886e35afa036736dcd87a74d27b5c1510225d0f592e213",
    ),
    (
        63,
        "e9bc37a594daad83be9470df7f7b3798297c3d834ce80ba85d6e207627b7db7b",
    ),
    (
        64,
        "4eed7141ea4a5cd4b788606bd23f46e212af9cacebacdc7d1f4c6dc7f2511b98",
    ),
    (
        65,
        "de1e5fa0be70df6d2be8fffd0e99ceaa8eb6e8c93a63f2d8d1c30ecb6b263dee",
    ),
    (
        1023,
        "10108970eeda3eb932baac1428c7a2163b0e924c9a9e25b35bba72b28f70bd11",
    ),
    (
        1024,
        "42214739f095a406f3fc83deb889744ac00df831c10daa55189b5d121c855af7",
    ),
    (
        1025,
        "d00278ae47eb27b34faecf67b4fe263f82d5412916c1ffd97c8cb7fb814b8444",
    ),
    (
        2048,
        "e776b6028c7cd22a4d0ba182a8bf62205d2ef576467e838ed6f2529b85fba24a",
    ),
    (
        2049,
        "5f4d72f40d7a5f82b15ca2b2e44b1de3c2ef86c426c95c1af0b6879522563030",
    ),
    (
        3072,
        "b98cb0ff3623be03326b373de6b9095218513e64f1ee2edd2525c7ad1e5cffd2",
    ),
    (
        4097,
        "9b4052b38f1c5fc8b1f9ff7ac7b27cd242487b3d890d15c96a1c25b8aa0fb995",
    ),
    (
        8192,
        "aae792484c8efe4f19e2ca7d371d8c467ffb10748d8a5a1ae579948f718a2a63",
    ),
    (
        31744,
        "62b6960e1a44bcc1eb1a611a8d6235b6b4b78f32e7abc4fb4c6cdcce94895c47",
    ),
    (
        102400,
        "bc3e3d41a1146b069abffad3c0d44860cf664390afce4d9661f7902e7943e085",
    ),
];

fn pattern(alloc: Global, len: usize) -> Result<Vec<u8>, Fail> {
    let mut bytes = Vec::new(alloc);
    for i in 0..len {
        bytes.push((i % 251) as u8)?;
    }
    Ok(bytes)
}

fn hex(alloc: Global, hash: &[u8; 32]) -> Result<String, Fail> {
    let mut text = String::new(alloc);
    for byte in hash {
        write!(text, "{byte:02x}")?;
    }
    Ok(text)
}

fn take(rt: &impl Abort, hasher: &mut Hasher, piece: &[u8]) {
    assert!(rt; hasher.len() < u64::MAX - piece.len() as u64);
    hasher.update(piece);
}

// The hash of the bytes in pieces of the lengths `cuts`, over and over.
fn hash_in_pieces(rt: &impl Abort, bytes: &[u8], cuts: &[usize]) -> [u8; 32]
    requires { 0 < length cuts.now }
{
    let mut hasher = Hasher::new();
    let mut rest = bytes;
    for i in 0..bytes.len() {
        let len = rest.len().min(cuts[i % cuts.len()]);
        take(rt, &mut hasher, &rest[..len]);
        rest = &rest[len..];
    }
    assert_eq!(rt; hasher.len(), bytes.len() as u64);
    hasher.finalize()
}

#[test]
fn pieces_hash_as_the_whole(rt: HostRuntime) -> Result<(), Fail> {
    for (len, want) in HASHES {
        let bytes = pattern(rt.alloc(), len)?;
        let whole = hash_in_pieces(&rt, &bytes, &[102_400]);
        assert_eq!(rt;
            hex(rt.alloc(), &whole)?.as_str(),
            want,
            "{len} bytes at once"
        );
        let single = hash_in_pieces(&rt, &bytes, &[1]);
        assert_eq!(rt; single, whole, "{len} bytes one by one");
        let odd = hash_in_pieces(&rt, &bytes, &[7, 64, 0, 1023, 1025, 63, 3000]);
        assert_eq!(rt; odd, whole, "{len} bytes in odd pieces");
    }
    Ok(())
}

#[test]
fn zeros_and_text_hash_as_b3sum_says(rt: HostRuntime) -> Result<(), Fail> {
    let mut hasher = Hasher::new();
    take(&rt, &mut hasher, b"abc");
    let abc = "6437b3ac38465133ffb63b75273a8db548c558465d79db03fd359c6cd5bd9d85";
    assert_eq!(rt; hex(rt.alloc(), &hasher.finalize())?.as_str(), abc);

    let mut hasher = Hasher::new();
    take(&rt, &mut hasher, &[0; 1024]);
    let full = "d6fd9de5bccf223f523b316c9cd1cf9a9d87ea42473d68e011dad13f09bf8917";
    assert_eq!(rt; hex(rt.alloc(), &hasher.finalize())?.as_str(), full);
    take(&rt, &mut hasher, &[0]);
    let more = "d2beb49d87e59db174cb3ff1440f1899422968df670d060fd7ce759e8cc160e7";
    assert_eq!(rt;
        hex(rt.alloc(), &hasher.finalize())?.as_str(),
        more,
        "after an answer"
    );
    Ok(())
}

// The texts of these units are ISCC:IAA26E2JXH27TING and ISCC:IAAWIN5TVQ4EMUJT.
#[test]
fn an_instance_code_has_the_first_bits_of_the_hash(rt: HostRuntime) {
    let cases: [(&[u8], u64); 2] = [
        (b"", 0xaf13_49b9_f5f9_a1a6),
        (b"abc", 0x6437_b3ac_3846_5133),
    ];
    for (input, body) in cases {
        let unit = instance_code(input);
        assert_eq!(rt; unit.kind.number(), 12);
        assert_eq!(rt; unit.body, body);
        let mut hasher = Hasher::new();
        hasher.update(input);
        let longest = instance_unit(&hasher.finalize(), 256);
        assert_eq!(rt; longest.bits(), 256);
        assert_eq!(rt; longest.first64(), Some(unit));
    }
}
