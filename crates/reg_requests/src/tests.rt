use super::*;
use iscc_header::{Items, Kind, MainType, Unit64};
use reg_model::{Call, FullCause, Hit, Reply};
use std::alloc::Global;
use std::test::Fail;

// META with body 0.
const M0: &str = "ISCC:AAAQAAAAAAAAAAAA";

// What a line is read as: the texts of its calls with `; ` between them, the refusal, or nothing.
fn told(alloc: Global, line: &[u8]) -> Result<String, Fail> {
    let mut out = Vec::new(alloc);
    match read_line(line) {
        Line::Skip => print_word(b"-", &mut out)?,
        Line::Bad(why) => print_bad(why, &mut out)?,
        Line::Calls(calls) => {
            for (i, call) in calls.as_slice().iter().enumerate() {
                if i > 0 {
                    print_word(b"; ", &mut out)?;
                }
                print_call(call, &mut out)?;
            }
        }
    }
    text_of(alloc, &out)
}

fn text_of(alloc: Global, bytes: &[u8]) -> Result<String, Fail> {
    Ok(
        std::str::from_utf8(bytes)
            .ok()
            .ok_or("not text")?
            .to_string(alloc)?,
    )
}

// The line with the text of META 0 in place of each `M0`, and what it is read as.
const LINES: [(&str, &str); 64] = [
    ("declare M0", "declare M0"),
    ("declare\tM0\r", "declare M0"),
    (" \t declare \t  M0 \t\r", "declare M0"),
    ("near M0 0", "near M0 0"),
    ("near M0 15", "near M0 15"),
    ("near M0 015", "near M0 15"),
    ("near M0 00000000000000000015", "near M0 15"),
    ("near M0 000000000000000000015", "bad number"),
    ("near M0 16", "bad radius"),
    ("near M0 18446744073709551615", "bad radius"),
    ("near M0 18446744073709551616", "bad number"),
    ("near M0 +5", "bad number"),
    ("near M0 -1", "bad number"),
    ("near M0 1x", "bad number"),
    ("near M0", "bad line"),
    ("near M0 1 2", "bad line"),
    ("near M0= x", "bad text"),
    ("near AAAAAAAAAA 99", "bad short"),
    ("declare AAAAAAAAAA", "bad short"),
    ("declare iscc:aaaq-aaaa-aaaa-aaaa", "declare M0"),
    (
        "declare AADQAAAAAAAAAAAAAAAAAAAAAAAAAAAAAAAAAAAAAAAAAAAAAAAAAAA",
        "declare M0",
    ),
    (
        "declare ISCC:KACQAAAAAAAAAAAAAAAAAAAAAAAAAAAAAAAAAAAAACXRGSNZ6X42DJQ",
        "declare M0; declare ISCC:EAAQAAAAAAAAAAAA; declare ISCC:GAAQAAAAAAAAAAAA; declare ISCC:IAA26E2JXH27TING",
    ),
    (
        "near ISCC:KACQAAAAAAAAAAAAAAAAAAAAAAAAAAAAAAAAAAAAACXRGSNZ6X42DJQ 0",
        "near M0 0; near ISCC:EAAQAAAAAAAAAAAA 0; near ISCC:GAAQAAAAAAAAAAAA 0; near ISCC:IAA26E2JXH27TING 0",
    ),
    ("declare M0=", "bad text"),
    ("declare ISCC:", "bad text"),
    ("declare iscc:iscc:AAAQAAAAAAAAAAAA", "bad text"),
    ("declare M0\r\r", "bad text"),
    ("declare", "bad line"),
    ("declare M0 M0", "bad line"),
    ("DECLARE M0", "bad line"),
    ("declared M0", "bad line"),
    ("find M0", "bad line"),
    ("withdraw 7", "withdraw 7"),
    ("withdraw 007", "withdraw 7"),
    ("withdraw x", "bad number"),
    ("withdraw", "bad line"),
    ("withdraw 1 2", "bad line"),
    ("show 18446744073709551615", "show 18446744073709551615"),
    ("show 18446744073709551616", "bad number"),
    ("show 00000000000000000042", "show 42"),
    ("show 000000000000000000042", "bad number"),
    ("show", "bad line"),
    ("count", "count"),
    (" \t count\t \r", "count"),
    ("count 1", "bad line"),
    ("counts", "bad line"),
    ("after 00000000000000000000", "after 0"),
    ("after 000000000000000000000", "bad number"),
    ("after -1", "bad number"),
    ("after", "bad line"),
    ("after 3 4", "bad line"),
    ("\u{0}", "bad line"),
    ("", "-"),
    ("\r", "-"),
    (" \t ", "-"),
    ("# declare M0", "-"),
    (" #", "-"),
    ("declare #", "bad text"),
    ("instance", "declare ISCC:IAA26E2JXH27TING"),
    ("instance 616263", "declare ISCC:IAAWIN5TVQ4EMUJT"),
    ("instance abc", "bad hex"),
    ("instance 0G", "bad hex"),
    ("instance 0x61", "bad hex"),
    ("instance 61 62", "bad line"),
];

#[test]
fn each_line_is_read_as_its_calls_or_its_first_fault(rt: HostRuntime) -> Result<(), Fail> {
    let alloc = rt.alloc();
    for (line, want) in LINES {
        let line = line.replace(alloc, "M0", M0)?;
        let want = want.replace(alloc, "M0", M0)?;
        assert_eq!(rt; told(alloc, line.as_bytes())?, want, "{line}");
    }
    Ok(())
}

#[test]
fn a_text_of_a_million_letters_is_no_code(rt: HostRuntime) -> Result<(), Fail> {
    let mut line = Vec::new(rt.alloc());
    line.extend_from_slice(b"declare ")?;
    for _ in 0..1_000_000 {
        line.push(b'A')?;
    }
    assert_eq!(rt; read_line(&line), Line::Bad(BadLine::Text));
    Ok(())
}

// How many bytes, of which byte i is i mod 251, and the first 64 bits of their hash by b3sum 1.2.0.
const HASHES: [(usize, u64); 5] = [
    (1, 0x2d3a_dedf_f11b_61f1),
    (64, 0x4eed_7141_ea4a_5cd4),
    (65, 0xde1e_5fa0_be70_df6d),
    (1025, 0xd002_78ae_47eb_27b3),
    (2049, 0x5f4d_72f4_0d7a_5f82),
];

// An `instance` line of such bytes, with their digits in this case.
fn instance_line(alloc: Global, count: usize, digits: &[u8; 16]) -> Result<Vec<u8>, Fail> {
    let mut line = Vec::new(alloc);
    line.extend_from_slice(b"instance ")?;
    for i in 0..count {
        let byte = i % 251;
        line.push(digits[byte / 16])?;
        line.push(digits[byte % 16])?;
    }
    Ok(line)
}

#[test]
fn an_instance_line_hashes_all_of_its_digits_in_either_case(rt: HostRuntime) -> Result<(), Fail> {
    let kind = Kind::of(MainType::Instance, 0).ok_or("no kind")?;
    for (count, body) in HASHES {
        for digits in [
            b"0123456789abcdef",
            b"0123456789ABCDEF",
            b"0123456789AbCdEf",
        ] {
            let line = instance_line(rt.alloc(), count, digits)?;
            let Line::Calls(calls) = read_line(&line) else {
                return Err("no call".into());
            };
            assert_eq!(rt;
                calls.as_slice(),
                [Call::Declare(Unit64 { kind, body })].as_slice(),
                "{count} bytes"
            );
        }
        let mut line = instance_line(rt.alloc(), count, b"0123456789abcdef")?;
        line.push(b'0')?;
        assert_eq!(rt;
            read_line(&line),
            Line::Bad(BadLine::Hex),
            "half a byte more"
        );
    }
    Ok(())
}

fn unit(main: MainType, body: u64) -> Result<Unit64, Fail> {
    let kind = Kind::of(main, 0).ok_or("no kind")?;
    Ok(Unit64 { kind, body })
}

// Base32 of the header of five units, with the SubType TEXT, and of 40 bytes 0.
const FILE: &str = "# a call, a refusal, a call, and five calls without a line feed

declare ISCC:AAAQAAAAAAAAAAAA\r
find
  \t
near ISCC:AAAQAAAAAAAAAAAB 3
declare KADQAAAAAAAAAAAAAAAAAAAAAAAAAAAAAAAAAAAAAAAAAAAAAAAAAAAAAAAAAAAAAAAA";

#[test]
fn a_file_has_the_items_of_its_lines(rt: HostRuntime) -> Result<(), Fail> {
    let items = read_requests(rt.alloc(), FILE.as_bytes())?;
    let want = [
        Item::Call(Call::Declare(unit(MainType::Meta, 0)?)),
        Item::Bad(BadLine::Line),
        Item::Call(Call::Near(unit(MainType::Meta, 1)?, 3)),
        Item::Call(Call::Declare(unit(MainType::Meta, 0)?)),
        Item::Call(Call::Declare(unit(MainType::Semantic, 0)?)),
        Item::Call(Call::Declare(unit(MainType::Content, 0)?)),
        Item::Call(Call::Declare(unit(MainType::Data, 0)?)),
        Item::Call(Call::Declare(unit(MainType::Instance, 0)?)),
    ];
    assert_eq!(rt; items.as_slice(), want.as_slice());
    Ok(())
}

// The text of a reply to a query for CONTENT TEXT.
fn reply_text(alloc: Global, reply: &Reply) -> Result<String, Fail> {
    let mut out = Vec::new(alloc);
    print_reply(
        reply,
        Kind::of(MainType::Content, 0).ok_or("no kind")?,
        &mut out,
    )?;
    text_of(alloc, &out)
}

#[test]
fn a_reply_is_its_word_and_its_values(rt: HostRuntime) -> Result<(), Fail> {
    let alloc = rt.alloc();
    let mut hits = Items::new(alloc);
    hits.push(Hit {
        id: 7,
        body: 0,
        distance: 0,
    })?;
    hits.push(Hit {
        id: 3,
        body: 0,
        distance: 15,
    })?;
    let replies = [
        (Reply::Id(0), "id 0"),
        (Reply::Withdrawn(3), "withdrawn 3"),
        (Reply::Absent(17_179_869_184), "none 17179869184"),
        (Reply::Hits(Items::new(alloc)), "hits 0"),
        (
            Reply::Hits(hits),
            "hits 2 7,0,ISCC:EAAQAAAAAAAAAAAA 3,15,ISCC:EAAQAAAAAAAAAAAA",
        ),
        (
            Reply::Live(unit(MainType::Meta, 1)?),
            "live ISCC:AAAQAAAAAAAAAAAB",
        ),
        (Reply::Count(5), "count 5"),
        (Reply::Reached, "reached"),
        (Reply::Ahead, "ahead"),
        (Reply::Full(FullCause::Log), "full log"),
        (
            Reply::Full(FullCause::Entries { given: 100 }),
            "full entries 100",
        ),
    ];
    for (reply, want) in &replies {
        assert_eq!(rt; reply_text(alloc, reply)?.as_str(), *want);
    }
    Ok(())
}

#[test]
fn a_number_has_up_to_20_digits_and_is_below_2_to_the_64(rt: HostRuntime) {
    let words = [
        ("0", Some(0)),
        ("007", Some(7)),
        ("18446744073709551615", Some(u64::MAX)),
        ("18446744073709551616", None),
        ("00000000000000000001", Some(1)),
        ("000000000000000000001", None),
        ("", None),
        ("+1", None),
        ("-1", None),
        (" 1", None),
        ("1\u{e9}", None),
    ];
    for (word, want) in words {
        assert_eq!(rt; read_number(word.as_bytes()), want, "{word}");
    }
}

#[test]
fn hits_have_the_kind_of_their_query(rt: HostRuntime) -> Result<(), Fail> {
    a_file_has_one_list_of_items();
    let kind = Kind::of(MainType::Content, 0).ok_or("no kind")?;
    assert_eq!(rt; kind_of(&Call::Near(Unit64 { kind, body: 0 }, 1)), kind);
    Ok(())
}
