use crate::lines::line::{next_line, read_history_line};
use crate::lines::told::{HistoryLine, ToldHit, ToldHits, ToldReply, ToldRound, ToldRow};
use iscc_header::{Items, Kind, Unit64};
use reg_model::{Call, Declared, FullCause, Reply};
use std::alloc::Global;
use std::process::Abort;
use std::test::Fail;

// META with body 0 is `ISCC:AAAQAAAAAAAAAAAA`, CONTENT TEXT with body 0 `ISCC:EAAQAAAAAAAAAAAA`. The Instance-Code of
// `abc` is `ISCC:IAAWIN5TVQ4EMUJT`, by the first 64 bits of its BLAKE3 hash.
const ABC: u64 = 0x6437_b3ac_3846_5133;

fn unit(kind: u8, body: u64) -> Result<Unit64, Fail> {
    let kind = Kind::new(kind).ok_or("no kind")?;
    Ok(Unit64 { kind, body })
}

fn row(call: Call, reply: Reply) -> HistoryLine {
    HistoryLine::Row(ToldRow {
        session: 0,
        number: 7,
        point: 12,
        call,
        reply: ToldReply::Plain(reply),
    })
}

fn near_row(call: Call, hits: ToldHits) -> HistoryLine {
    HistoryLine::Row(ToldRow {
        session: u64::MAX,
        number: 0,
        point: 0,
        call,
        reply: ToldReply::Hits(hits),
    })
}

fn hit(id: u64, distance: u64, unit: Unit64) -> ToldHit {
    ToldHit { id, distance, unit }
}

// What the lines tell, each read with what the one before it left in the buffer.
fn assert_told(rt: &impl Abort, alloc: Global, cases: &[(&str, HistoryLine)]) -> Result<(), Fail> {
    let mut scratch = Vec::new(alloc);
    for (text, want) in cases {
        let Some(line) = read_history_line(alloc, text.as_bytes(), &mut scratch)? else {
            return Err("no line".into());
        };
        assert!(rt; line == *want, "{text}");
    }
    Ok(())
}

#[test]
fn each_line_tells_its_values(rt: HostRuntime) -> Result<(), Fail> {
    let carried = Declared {
        id: 7,
        unit: unit(12, ABC)?,
    };
    let declare = Call::Declare(unit(12, ABC)?);
    let live = Reply::Live(unit(12, ABC)?);
    let round = ToldRound {
        number: 1,
        base: 12,
        entries: 0,
        log: 18_446_744_073_709_551_615,
        callers: 64,
    };
    let cases = [
        ("iscc-history 1\n", HistoryLine::Head),
        (
            "carry 7 ISCC:IAAWIN5TVQ4EMUJT\n",
            HistoryLine::Carry(carried),
        ),
        (
            "round 1 base 12 entries 0 log 18446744073709551615 callers 64\n",
            HistoryLine::Round(round),
        ),
        ("end 3 live 0\n", HistoryLine::End { rows: 3, live: 0 }),
        (
            "0.7 @12 declare ISCC:IAAWIN5TVQ4EMUJT = id 11\n",
            row(declare, Reply::Id(11)),
        ),
        (
            "0.7 @12 withdraw 3 = withdrawn 3\n",
            row(Call::Withdraw(3), Reply::Withdrawn(3)),
        ),
        (
            "0.7 @12 withdraw 3 = none 3\n",
            row(Call::Withdraw(3), Reply::Absent(3)),
        ),
        (
            "0.7 @12 show 4 = live ISCC:IAAWIN5TVQ4EMUJT\n",
            row(Call::Show(4), live),
        ),
        (
            "0.7 @12 count = count 5\n",
            row(Call::Count, Reply::Count(5)),
        ),
        (
            "0.7 @12 after 9 = reached\n",
            row(Call::After(9), Reply::Reached),
        ),
        (
            "0.7 @12 after 99 = ahead\n",
            row(Call::After(99), Reply::Ahead),
        ),
        (
            "0.7 @12 withdraw 3 = full log\n",
            row(Call::Withdraw(3), Reply::Full(FullCause::Log)),
        ),
        // A reply that the call can't have is told all the same.
        (
            "0.7 @12 count = full entries 2\n",
            row(Call::Count, Reply::Full(FullCause::Entries { given: 2 })),
        ),
    ];
    assert_told(&rt, rt.alloc(), &cases)
}

#[test]
fn hits_are_told_with_units_of_any_kind(rt: HostRuntime) -> Result<(), Fail> {
    let alloc = rt.alloc();
    let (meta, text, abc) = (unit(0, 0)?, unit(6, 0)?, unit(12, ABC)?);
    let mut one = Items::new(alloc);
    one.push(hit(7, 0, meta))?;
    let mut two = Items::new(alloc);
    two.push(hit(7, u64::MAX, text))?;
    two.push(hit(3, 15, abc))?;
    let cases = [
        (
            "18446744073709551615.0 @0 near ISCC:AAAQAAAAAAAAAAAA 15 = hits 0\n",
            near_row(Call::Near(meta, 15), Items::new(alloc)),
        ),
        (
            "18446744073709551615.0 @0 near ISCC:AAAQAAAAAAAAAAAA 0 = hits 1 7,0,ISCC:AAAQAAAAAAAAAAAA\n",
            near_row(Call::Near(meta, 0), one),
        ),
        (
            "18446744073709551615.0 @0 count = hits 2 7,18446744073709551615,ISCC:EAAQAAAAAAAAAAAA 3,15,ISCC:IAAWIN5TVQ4EMUJT\n",
            near_row(Call::Count, two),
        ),
    ];
    assert_told(&rt, alloc, &cases)
}

// Texts of no line: another word, number or mark, or more or less of them than a line has.
const REFUSED: [&str; 38] = [
    "",
    "\n",
    "iscc-history 1",
    "iscc-history 1\r\n",
    "iscc-history 1\n\n",
    "iscc-history 2\n",
    "carry 07 ISCC:AAAQAAAAAAAAAAAA\n",
    "carry 7  ISCC:AAAQAAAAAAAAAAAA\n",
    "carry 7 AAAQAAAAAAAAAAAA\n",
    "carry 7 iscc:aaaqaaaaaaaaaaaa\n",
    "carry 18446744073709551616 ISCC:AAAQAAAAAAAAAAAA\n",
    "carry ISCC:AAAQAAAAAAAAAAAA\n",
    "carry 7\n",
    "round 0 base 0 entries 4 log 64\n",
    "round 0 base 0 entries 4 log 64 callers 1 \n",
    "round 0 base 0 log 64 entries 4 callers 1\n",
    "round 0 base 00 entries 4 log 64 callers 1\n",
    "round -1 base 0 entries 4 log 64 callers 1\n",
    "end 3 live 0",
    "end 3 live 0 0\n",
    "end 18446744073709551616 live 0\n",
    "end +3 live 0\n",
    "0.0 @0 count = count 0\r\n",
    "0.0  @0 count = count 0\n",
    "0.0 0 count = count 0\n",
    "0 @0 count = count 0\n",
    "00.0 @0 count = count 0\n",
    "0.0 @0 count = reached 0\n",
    "0.0 @0 count = full\n",
    "0.0 @0 count = bad line\n",
    "0.0 @0 find 1 = count 0\n",
    "0.0 @0 near ISCC:AAAQAAAAAAAAAAAA 16 = hits 0\n",
    "0.0 @0 near ISCC:AAAQAAAAAAAAAAAA 01 = hits 0\n",
    "0.0 @0 near ISCC:AAAQAAAAAAAAAAAA 1 = hits 1\n",
    "0.0 @0 near ISCC:AAAQAAAAAAAAAAAA 1 = hits 0 7,0,ISCC:AAAQAAAAAAAAAAAA\n",
    "0.0 @0 near ISCC:AAAQAAAAAAAAAAAA 1 = hits 2 7,0,ISCC:AAAQAAAAAAAAAAAA\n",
    "0.0 @0 near ISCC:AAAQAAAAAAAAAAAA 1 = hits 1 7,00,ISCC:AAAQAAAAAAAAAAAA\n",
    "0.0 @0 near ISCC:AAAQAAAAAAAAAAAA 1 = hits 1  7,0,ISCC:AAAQAAAAAAAAAAAA\n",
];

#[test]
fn a_text_of_no_line_tells_nothing(rt: HostRuntime) -> Result<(), Fail> {
    let alloc = rt.alloc();
    let mut scratch = Vec::new(alloc);
    for text in REFUSED {
        let line = read_history_line(alloc, text.as_bytes(), &mut scratch)?;
        assert!(rt; line.is_none(), "{text}");
    }
    Ok(())
}

#[test]
fn a_text_is_cut_behind_its_first_line_feed(rt: HostRuntime) -> Result<(), Fail> {
    let cases = [
        ("\n", "\n", ""),
        ("\n\n", "\n", "\n"),
        ("end 0 live 0\n", "end 0 live 0\n", ""),
        ("a\r\nb\nc", "a\r\n", "b\nc"),
    ];
    for (text, want, behind) in cases {
        let Some((line, rest)) = next_line(text.as_bytes()) else {
            return Err("no line".into());
        };
        assert_eq!(rt; line, want.as_bytes());
        assert_eq!(rt; rest, behind.as_bytes());
    }
    for text in ["", "end 0 live 0", "a\rb"] {
        assert!(rt; next_line(text.as_bytes()).is_none(), "{text}");
    }
    Ok(())
}
