use super::*;
use iscc_code::{Iscc, IsccFault, Unit};
use iscc_header::{HeaderFault, Kind, Unit64};
use std::test::Fail;

// Kind, body and printed text. The text of the Instance-Code is that of the empty file.
const TEXTS: [(u8, u64, &str); 6] = [
    (0, 0, "ISCC:AAAQAAAAAAAAAAAA"),
    (0, 1, "ISCC:AAAQAAAAAAAAAAAB"),
    (6, 0, "ISCC:EAAQAAAAAAAAAAAA"),
    (11, 0, "ISCC:GAAQAAAAAAAAAAAA"),
    (12, 0xaf13_49b9_f5f9_a1a6, "ISCC:IAA26E2JXH27TING"),
    (0, 0x0007_000f_000f_000f, "ISCC:AAAQABYAB4AA6AAP"),
];

#[test]
fn a_printed_unit_is_read_back(rt: HostRuntime) -> Result<(), Fail> {
    for (number, body, text) in TEXTS {
        let kind = Kind::new(number).ok_or("no kind")?;
        let unit = Unit64 { kind, body };
        assert_eq!(rt; print_unit(&unit).as_str(), text);
        assert_eq!(rt; read_printed(text.as_bytes()), Some(unit));
    }
    Ok(())
}

#[test]
fn only_the_printed_text_is_read(rt: HostRuntime) {
    let others = [
        "",
        "ISCC:",
        "ISCC:AAAQAAAAAAAAAAA",
        "ISCC:AAAQAAAAAAAAAAAAA",
        "iscc:AAAQAAAAAAAAAAAA",
        "ISCC:aaaqaaaaaaaaaaaa",
        " ISCC:AAAQAAAAAAAAAAAA",
        "ISCC:AAAQ-AAAAAAAAAAAA",
        "ISCC:AAAAAAAAAAAAAAAA",
        "ISCC:FAAQAAAAAAAAAAAA",
        "ISCC:AAAQAAAAAAAAAAA1",
        "ISCC:AAAQAAAAAAAAAAA\u{0}",
    ];
    for text in others {
        assert!(rt; read_printed(text.as_bytes()).is_none(), "{text}");
    }
}

// The ISCC-CODE of a DATA and an INSTANCE unit with zero bodies.
const TWO_UNITS: &str = "ISCC:KUAAAAAAAAAAAAAAAAAAAAAAAAAAA";

fn unit(number: u8, body: &[u8]) -> Result<Iscc, Fail> {
    let kind = Kind::new(number).ok_or("no kind")?;
    Ok(Iscc::Unit(Unit::new(kind, body).ok_or("no unit")?))
}

#[test]
fn a_lenient_text_is_read_as_the_printed_one(rt: HostRuntime) -> Result<(), Fail> {
    let meta = unit(0, &[0; 8])?;
    let texts = [
        "ISCC:AAAQAAAAAAAAAAAA",
        "AAAQAAAAAAAAAAAA",
        "  iscc:aaaq-aaaa-aaaa-aaaa ",
        "\t iScC:-AaAq--aaaaaaaaaaaa-\t",
        "iscc:-a-a-a-q-a-a-a-a-a-a-a-a-a-a-a-a-",
    ];
    for text in texts {
        assert_eq!(rt; read_iscc(text.as_bytes()), Ok(meta), "{text}");
    }
    assert_eq!(rt; print_iscc(&meta).as_str(), "ISCC:AAAQAAAAAAAAAAAA");
    Ok(())
}

#[test]
fn a_lenient_text_of_an_iscc_code_is_read_as_the_printed_one(rt: HostRuntime) -> Result<(), Fail> {
    let code = read_iscc(TWO_UNITS.as_bytes())?;
    assert_eq!(rt; print_iscc(&code).as_str(), TWO_UNITS);
    let texts = [
        "KUAAAAAAAAAAAAAAAAAAAAAAAAAAA",
        " iscc:kua-aaaaaaaa-aaaaaaaa-aaaaaaaaaa\t",
        "\tIsCc:Kua-AAaa-aaaa-aaaa-aaaa-aaaa-aaaa-AA ",
    ];
    for text in texts {
        assert_eq!(rt; read_iscc(text.as_bytes()), Ok(code), "{text}");
    }
    Ok(())
}

#[test]
fn an_iscc_code_has_the_units_that_it_was_made_of(rt: HostRuntime) -> Result<(), Fail> {
    let text = "ISCC:KACQAAAAAAAAAAAAAAAAAAAAAAAAAAAAAAAAAAAAACXRGSNZ6X42DJQ";
    let Iscc::Code(code) = read_iscc(text.as_bytes())? else {
        return Err("no ISCC-CODE".into());
    };
    let units = code.split();
    let texts = [
        "ISCC:AAAQAAAAAAAAAAAA",
        "ISCC:EAAQAAAAAAAAAAAA",
        "ISCC:GAAQAAAAAAAAAAAA",
        "ISCC:IAA26E2JXH27TING",
    ];
    assert_eq!(rt; units.len(), texts.len());
    for (unit, text) in units.as_slice().iter().zip(texts) {
        assert_eq!(rt; print_unit(unit).as_str(), text);
    }
    assert_eq!(rt; print_iscc(&Iscc::Code(code)).as_str(), text);
    Ok(())
}

#[test]
fn a_printed_unit_of_every_width_is_read_back(rt: HostRuntime) -> Result<(), Fail> {
    let body = [0xa5; 32];
    for len in [4, 8, 12, 16, 20, 24, 28, 32] {
        let iscc = unit(9, &body[..len])?;
        let text = print_iscc(&iscc);
        assert_eq!(rt; text.len(), 5 + (8 * (len + 2)).div_ceil(5));
        assert_eq!(rt; read_iscc(text.as_str().as_bytes()), Ok(iscc));
    }
    let empty_file = unit(12, &[0xaf, 0x13, 0x49, 0xb9, 0xf5, 0xf9, 0xa1, 0xa6])?;
    assert_eq!(rt; print_iscc(&empty_file).as_str(), "ISCC:IAA26E2JXH27TING");
    assert_eq!(rt; read_iscc(b"AAAAAAAAAA"), Ok(unit(0, &[0; 4])?));
    Ok(())
}

#[test]
fn the_first_fault_of_a_text_is_answered(rt: HostRuntime) {
    let short = TextFault::Iscc(IsccFault::Header(HeaderFault::Short));
    let cases = [
        ("IPFS:AAAQ", TextFault::Scheme),
        (":AAAQ", TextFault::Scheme),
        ("iscc :AAAQ", TextFault::Scheme),
        ("-iscc:AAAQ", TextFault::Scheme),
        ("AAAQ:", TextFault::Scheme),
        ("!:1", TextFault::Scheme),
        ("ISCC:AA1Q", TextFault::Letter { at: 7 }),
        ("  ISCC:AA1Q", TextFault::Letter { at: 9 }),
        ("ISCC: AAAQ", TextFault::Letter { at: 5 }),
        ("AA AQ", TextFault::Letter { at: 2 }),
        ("ISCC:AAAQ:AAAA", TextFault::Letter { at: 9 }),
        ("AAAQAAAAAAAAAAAA=", TextFault::Letter { at: 16 }),
        ("\u{0}", TextFault::Letter { at: 0 }),
        ("AA\u{e9}Q", TextFault::Letter { at: 2 }),
        ("AAAQ\n", TextFault::Letter { at: 4 }),
        ("AA8", TextFault::Letter { at: 2 }),
        ("A", TextFault::Bits),
        ("AAA", TextFault::Bits),
        ("AAAAAA", TextFault::Bits),
        ("AB", TextFault::Bits),
        ("AAAQAAAAAAAAAAAAAB", TextFault::Bits),
        ("", short),
        ("  \t", short),
        ("ISCC:", short),
        ("-", short),
        ("AA", short),
        ("8", TextFault::Letter { at: 0 }),
        ("KUA", TextFault::Bits),
        ("MAAAA", TextFault::Iscc(IsccFault::MainType)),
        ("AAIAA", TextFault::Iscc(IsccFault::Version)),
        ("AEAAA", TextFault::Iscc(IsccFault::SubType)),
        ("AAAQAAAAAAAAAAA", TextFault::Iscc(IsccFault::Short)),
        ("AAAQAAAAAAAAAAAAAA", TextFault::Iscc(IsccFault::Long)),
        ("KUAAAAAAAAAAAAAAAAAAAAAAAAAAB", TextFault::Bits),
        ("KAAAA", TextFault::Iscc(IsccFault::SubType)),
        ("KUAAA", TextFault::Iscc(IsccFault::Short)),
        (
            "KUAAAAAAAAAAAAAAAAAAAAAAAAAAAAA",
            TextFault::Iscc(IsccFault::Long),
        ),
    ];
    for (text, fault) in cases {
        assert_eq!(rt; read_iscc(text.as_bytes()), Err(fault), "{text}");
    }
}

#[test]
fn a_long_line_is_too_long(rt: HostRuntime) -> Result<(), Fail> {
    let mut line = [b'A'; 99_996];
    assert_eq!(rt; read_iscc(&line), Err(TextFault::Iscc(IsccFault::Long)));
    line[99_995] = b'B';
    assert_eq!(rt; read_iscc(&line), Err(TextFault::Bits));
    line[70_000] = b'!';
    assert_eq!(rt; read_iscc(&line), Err(TextFault::Letter { at: 70_000 }));
    Ok(())
}

#[test]
fn an_explanation_has_its_members_in_the_order_of_their_keys(rt: HostRuntime) -> Result<(), Fail> {
    let cases = [
        (
            "ISCC:IAA26E2JXH27TING",
            "{\"bits\":64,\"body\":\"af1349b9f5f9a1a6\",\"main\":\"INSTANCE\",\"sub\":\"NONE\",\"text\":\"ISCC:IAA26E2JXH27TING\"}",
        ),
        (
            "eaaaaaaaaa",
            "{\"bits\":32,\"body\":\"00000000\",\"main\":\"CONTENT\",\"sub\":\"TEXT\",\"text\":\"ISCC:EAAAAAAAAA\"}",
        ),
        (
            TWO_UNITS,
            "{\"main\":\"ISCC\",\"sub\":\"SUM\",\"text\":\"ISCC:KUAAAAAAAAAAAAAAAAAAAAAAAAAAA\",\"units\":[\
            {\"bits\":64,\"body\":\"0000000000000000\",\"main\":\"DATA\",\"sub\":\"NONE\",\"text\":\"ISCC:GAAQAAAAAAAAAAAA\"},\
            {\"bits\":64,\"body\":\"0000000000000000\",\"main\":\"INSTANCE\",\"sub\":\"NONE\",\"text\":\"ISCC:IAAQAAAAAAAAAAAA\"}]}",
        ),
    ];
    for (text, want) in cases {
        let iscc = read_iscc(text.as_bytes())?;
        let value = explain(rt.alloc(), &iscc)?;
        assert_eq!(rt; value.to_string(rt.alloc())?.as_str(), want);
    }
    Ok(())
}
