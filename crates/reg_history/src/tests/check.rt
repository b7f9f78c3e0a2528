use crate::{CheckFault, CheckRefusal, CheckWhy, Summary, check_history};
use std::alloc::Global;
use std::process::Abort;
use std::test::Fail;

// META with body 0 is `ISCC:AAAQAAAAAAAAAAAA`, with body 1 `ISCC:AAAQAAAAAAAAAAAB`; CONTENT TEXT with body 0 is
// `ISCC:EAAQAAAAAAAAAAAA`, with body 1 `ISCC:EAAQAAAAAAAAAAAB`.

// The head line, and the line of a round of two sessions behind it.
const HEAD: &str = "iscc-history 1\n";

const ROUND: &str = "iscc-history 1\nround 0 base 0 entries 4096 log 65536 callers 2\n";

// A round of one session in which body 0 has id 0, and body 1 has id 1.
const DECLARED: &str = "iscc-history 1
round 0 base 0 entries 4096 log 65536 callers 1
0.0 @1 declare ISCC:AAAQAAAAAAAAAAAA = id 0
0.1 @2 declare ISCC:AAAQAAAAAAAAAAAB = id 1
";

// The lines behind a front, and the number of the first that can't stand.
type Case<'a> = (&'a str, u64);

fn assert_faults(
    rt: &impl Abort,
    alloc: Global,
    front: &str,
    why: CheckWhy,
    cases: &[Case],
) -> Result<(), Fail> {
    for (behind, line) in cases {
        let text = format!(in alloc; "{front}{behind}")?;
        let want = CheckFault { line: *line, why };
        let got = check_history(alloc, text.as_bytes());
        assert!(rt; got == Err(CheckRefusal::Fault(want)), "{text}");
    }
    Ok(())
}

fn assert_accepted(rt: &impl Abort, alloc: Global, text: &str, rows: u64, live: u64) {
    let got = check_history(alloc, text.as_bytes());
    assert!(rt; got == Ok(Summary { rows, live }), "{text}");
}

#[test]
fn a_worked_history_is_accepted(rt: HostRuntime) {
    let text = "iscc-history 1
round 0 base 0 entries 4096 log 65536 callers 1
0.0 @1 declare ISCC:AAAQAAAAAAAAAAAA = id 0
0.1 @2 declare ISCC:AAAQAAAAAAAAAAAB = id 1
0.2 @2 near ISCC:AAAQAAAAAAAAAAAA 1 = hits 2 0,0,ISCC:AAAQAAAAAAAAAAAA 1,1,ISCC:AAAQAAAAAAAAAAAB
end 3 live 2
";
    assert_accepted(&rt, rt.alloc(), text, 3, 2);
}

#[test]
fn a_round_without_rows_is_accepted(rt: HostRuntime) -> Result<(), Fail> {
    let text = format!(in rt.alloc(); "{ROUND}end 0 live 0\n")?;
    assert_accepted(&rt, rt.alloc(), text.as_str(), 0, 0);
    Ok(())
}

#[test]
fn rows_of_two_sessions_are_accepted_by_point(rt: HostRuntime) {
    let text = "iscc-history 1
round 0 base 0 entries 4096 log 65536 callers 2
0.0 @0 count = count 0
1.0 @0 after 1 = ahead
1.1 @1 declare ISCC:AAAQAAAAAAAAAAAA = id 0
0.1 @1 show 0 = live ISCC:AAAQAAAAAAAAAAAA
0.2 @2 withdraw 0 = withdrawn 0
1.2 @2 withdraw 0 = none 0
1.3 @2 after 2 = reached
end 7 live 0
";
    assert_accepted(&rt, rt.alloc(), text, 7, 0);
}

#[test]
fn several_rounds_with_carried_declarations_are_accepted(rt: HostRuntime) {
    let text = "iscc-history 1
carry 3 ISCC:AAAQAAAAAAAAAAAA
carry 5 ISCC:EAAQAAAAAAAAAAAA
round 0 base 7 entries 4096 log 65536 callers 1
0.0 @8 declare ISCC:AAAQAAAAAAAAAAAB = id 7
0.1 @9 withdraw 3 = withdrawn 3
round 1 base 9 entries 2 log 1 callers 1
0.0 @9 count = count 2
0.1 @9 declare ISCC:AAAQAAAAAAAAAAAA = full entries 0
0.2 @9 near ISCC:EAAQAAAAAAAAAAAB 1 = hits 1 5,1,ISCC:EAAQAAAAAAAAAAAA
0.3 @10 withdraw 5 = withdrawn 5
0.4 @10 declare ISCC:AAAQAAAAAAAAAAAA = full log
0.5 @10 withdraw 7 = full log
0.6 @10 withdraw 5 = none 5
end 9 live 1
";
    assert_accepted(&rt, rt.alloc(), text, 9, 1);
}

// The round of one entry that is given back once.
const GIVEN_BACK: &str = "iscc-history 1
round 0 base 0 entries 1 log 4 callers 1
0.0 @1 declare ISCC:AAAQAAAAAAAAAAAA = id 0
0.1 @2 withdraw 0 = withdrawn 0
0.2 @3 declare ISCC:AAAQAAAAAAAAAAAB = id 2
";

#[test]
fn full_entries_counts_what_was_given_back(rt: HostRuntime) -> Result<(), Fail> {
    let alloc = rt.alloc();
    let text = format!(in alloc;
        "{GIVEN_BACK}0.3 @3 declare ISCC:AAAQAAAAAAAAAAAA = full entries 1\nend 4 live 1\n"
    )?;
    assert_accepted(&rt, alloc, text.as_str(), 4, 1);
    let cases = [
        ("0.3 @3 declare ISCC:AAAQAAAAAAAAAAAA = full entries 0\n", 6),
        ("0.3 @3 declare ISCC:AAAQAAAAAAAAAAAA = full entries 2\n", 6),
        ("0.3 @4 declare ISCC:AAAQAAAAAAAAAAAA = id 3\n", 6),
    ];
    assert_faults(&rt, alloc, GIVEN_BACK, CheckWhy::Reply, &cases)
}

#[test]
fn a_line_of_no_form_is_told(rt: HostRuntime) -> Result<(), Fail> {
    let cases = [
        ("0.0 @0 count = count 00\n", 3),
        ("0.18446744073709551616 @0 count = count 0\n", 3),
        ("0.0 @0 count = count 0", 3),
        ("0.0 @0 count = count 0\r\n", 3),
        ("0.0  @0 count = count 0\n", 3),
        ("0.0 @0 near ISCC:AAAQAAAAAAAAAAAA 1 = hits 1\n", 3),
        ("0.0 @0 near ISCC:AAAQAAAAAAAAAAAA 16 = hits 0\n", 3),
        ("\n", 3),
        ("0.0 @0 count = count 0\n0.1 @0 count = count 0", 4),
        ("end 0 live 0", 3),
    ];
    assert_faults(&rt, rt.alloc(), ROUND, CheckWhy::Form, &cases)
}

#[test]
fn a_line_out_of_its_place_is_told(rt: HostRuntime) -> Result<(), Fail> {
    let alloc = rt.alloc();
    let first = [
        ("round 0 base 0 entries 4096 log 65536 callers 1\n", 1),
        ("carry 0 ISCC:AAAQAAAAAAAAAAAA\n", 1),
        ("0.0 @0 count = count 0\n", 1),
        ("end 0 live 0\n", 1),
        ("iscc-history 2\n", 1),
        ("iscc-history 1", 1),
    ];
    assert_faults(&rt, alloc, "", CheckWhy::Form, &first)?;
    let second = [
        ("iscc-history 1\n", 2),
        ("0.0 @0 count = count 0\n", 2),
        ("end 0 live 0\n", 2),
    ];
    assert_faults(&rt, alloc, HEAD, CheckWhy::Form, &second)?;
    let third = [
        ("iscc-history 1\n", 3),
        ("carry 0 ISCC:AAAQAAAAAAAAAAAA\n", 3),
    ];
    assert_faults(&rt, alloc, ROUND, CheckWhy::Form, &third)
}

#[test]
fn sizes_and_numbers_of_the_first_round_are_checked(rt: HostRuntime) -> Result<(), Fail> {
    let cases = [
        ("round 1 base 0 entries 4096 log 65536 callers 1\n", 2),
        ("round 0 base 0 entries 0 log 65536 callers 1\n", 2),
        ("round 0 base 0 entries 1048577 log 65536 callers 1\n", 2),
        ("round 0 base 0 entries 4096 log 0 callers 1\n", 2),
        ("round 0 base 0 entries 4096 log 4194305 callers 1\n", 2),
        ("round 0 base 0 entries 4096 log 65536 callers 0\n", 2),
        ("round 0 base 0 entries 4096 log 65536 callers 17\n", 2),
        // The last id would be above 2^34.
        (
            "round 0 base 17179803649 entries 4096 log 65536 callers 1\n",
            2,
        ),
        (
            "round 0 base 18446744073709551615 entries 4096 log 65536 callers 1\n",
            2,
        ),
    ];
    assert_faults(&rt, rt.alloc(), HEAD, CheckWhy::Round, &cases)
}

#[test]
fn carried_ids_rise_and_are_below_the_base(rt: HostRuntime) -> Result<(), Fail> {
    let front = "iscc-history 1\ncarry 0 ISCC:AAAQAAAAAAAAAAAA\ncarry 7 ISCC:AAAQAAAAAAAAAAAB\n";
    let cases = [
        ("carry 7 ISCC:AAAQAAAAAAAAAAAA\n", 4),
        ("carry 6 ISCC:AAAQAAAAAAAAAAAA\n", 4),
        ("round 0 base 7 entries 4096 log 65536 callers 1\n", 4),
        ("round 0 base 0 entries 4096 log 65536 callers 1\n", 4),
        ("round 0 base 8 entries 1 log 65536 callers 1\n", 4),
    ];
    assert_faults(&rt, rt.alloc(), front, CheckWhy::Round, &cases)
}

#[test]
fn a_later_round_goes_on_where_the_last_one_ended(rt: HostRuntime) -> Result<(), Fail> {
    let alloc = rt.alloc();
    let cases = [
        ("round 0 base 2 entries 4096 log 65536 callers 1\n", 5),
        ("round 2 base 2 entries 4096 log 65536 callers 1\n", 5),
        ("round 1 base 0 entries 4096 log 65536 callers 1\n", 5),
        ("round 1 base 3 entries 4096 log 65536 callers 1\n", 5),
        ("round 1 base 2 entries 1 log 65536 callers 1\n", 5),
    ];
    assert_faults(&rt, alloc, DECLARED, CheckWhy::Round, &cases)?;
    let nine = "round 1 base 0 entries 1 log 1 callers 1
round 2 base 0 entries 1 log 1 callers 1
round 3 base 0 entries 1 log 1 callers 1
round 4 base 0 entries 1 log 1 callers 1
round 5 base 0 entries 1 log 1 callers 1
round 6 base 0 entries 1 log 1 callers 1
round 7 base 0 entries 1 log 1 callers 1
round 8 base 0 entries 1 log 1 callers 1
";
    assert_faults(&rt, alloc, ROUND, CheckWhy::Round, &[(nine, 10)])
}

#[test]
fn a_row_of_no_session_or_out_of_number_is_told(rt: HostRuntime) -> Result<(), Fail> {
    let cases = [
        ("2.0 @0 count = count 0\n", 3),
        ("18446744073709551615.0 @0 count = count 0\n", 3),
        ("0.1 @0 count = count 0\n", 3),
        ("0.0 @0 count = count 0\n0.0 @0 count = count 0\n", 4),
        ("0.0 @0 count = count 0\n0.2 @0 count = count 0\n", 4),
        (
            "0.1 @2 declare ISCC:AAAQAAAAAAAAAAAB = id 1\n0.0 @1 declare ISCC:AAAQAAAAAAAAAAAA = id 0\n",
            3,
        ),
        (
            "0.0 @0 count = count 0\nround 1 base 0 entries 4096 log 65536 callers 1\n0.1 @0 count = count 0\n",
            5,
        ),
    ];
    assert_faults(&rt, rt.alloc(), ROUND, CheckWhy::Session, &cases)
}

#[test]
fn a_row_that_is_not_after_the_last_is_told(rt: HostRuntime) -> Result<(), Fail> {
    let cases = [
        ("1.0 @0 count = count 0\n0.0 @0 count = count 0\n", 4),
        (
            "0.0 @0 count = count 0\n0.1 @0 declare ISCC:AAAQAAAAAAAAAAAA = id 0\n",
            4,
        ),
        (
            "0.0 @1 declare ISCC:AAAQAAAAAAAAAAAA = id 0\n0.1 @0 count = count 1\n",
            4,
        ),
        (
            "1.0 @1 declare ISCC:AAAQAAAAAAAAAAAA = id 0\n0.0 @1 declare ISCC:AAAQAAAAAAAAAAAB = id 1\n",
            4,
        ),
    ];
    assert_faults(&rt, rt.alloc(), ROUND, CheckWhy::Order, &cases)
}

#[test]
fn a_wrong_point_is_told(rt: HostRuntime) -> Result<(), Fail> {
    let alloc = rt.alloc();
    let cases = [
        ("0.0 @0 declare ISCC:AAAQAAAAAAAAAAAA = id 0\n", 3),
        ("0.0 @2 declare ISCC:AAAQAAAAAAAAAAAA = id 0\n", 3),
        ("0.0 @1 count = count 0\n", 3),
        (
            "0.0 @1 declare ISCC:AAAQAAAAAAAAAAAA = id 0\n0.1 @3 declare ISCC:AAAQAAAAAAAAAAAB = id 1\n",
            4,
        ),
        (
            "0.0 @1 declare ISCC:AAAQAAAAAAAAAAAA = id 0\n1.0 @1 declare ISCC:AAAQAAAAAAAAAAAB = id 1\n",
            4,
        ),
    ];
    assert_faults(&rt, alloc, ROUND, CheckWhy::Point, &cases)?;
    let sizes = [
        (
            "round 0 base 5 entries 4096 log 65536 callers 1\n0.0 @0 count = count 0\n",
            3,
        ),
        // The log is full after the first row.
        (
            "round 0 base 0 entries 4096 log 1 callers 1\n0.0 @1 declare ISCC:AAAQAAAAAAAAAAAA = id 0\n0.1 @2 withdraw 0 = withdrawn 0\n",
            4,
        ),
    ];
    assert_faults(&rt, alloc, HEAD, CheckWhy::Point, &sizes)
}

#[test]
fn a_wrong_reply_of_an_empty_registry_is_told(rt: HostRuntime) -> Result<(), Fail> {
    let cases = [
        ("0.0 @1 declare ISCC:AAAQAAAAAAAAAAAA = id 1\n", 3),
        ("0.0 @0 declare ISCC:AAAQAAAAAAAAAAAA = full log\n", 3),
        ("0.0 @0 declare ISCC:AAAQAAAAAAAAAAAA = full entries 0\n", 3),
        ("0.0 @0 declare ISCC:AAAQAAAAAAAAAAAA = count 0\n", 3),
        ("0.0 @1 withdraw 0 = withdrawn 0\n", 3),
        ("0.0 @0 withdraw 0 = none 1\n", 3),
        ("0.0 @0 withdraw 0 = full log\n", 3),
        ("0.0 @0 show 0 = live ISCC:AAAQAAAAAAAAAAAA\n", 3),
        ("0.0 @0 show 0 = none 1\n", 3),
        ("0.0 @0 count = count 1\n", 3),
        ("0.0 @0 after 0 = ahead\n", 3),
        ("0.0 @0 after 1 = reached\n", 3),
        ("0.0 @0 count = hits 0\n", 3),
    ];
    assert_faults(&rt, rt.alloc(), ROUND, CheckWhy::Reply, &cases)
}

#[test]
fn a_wrong_reply_on_what_is_live_is_told(rt: HostRuntime) -> Result<(), Fail> {
    let cases = [
        ("0.2 @2 withdraw 0 = none 0\n", 5),
        ("0.2 @3 withdraw 0 = withdrawn 1\n", 5),
        ("0.2 @2 show 0 = none 0\n", 5),
        ("0.2 @2 show 0 = live ISCC:AAAQAAAAAAAAAAAB\n", 5),
        ("0.2 @2 count = count 1\n", 5),
        (
            "0.2 @3 withdraw 0 = withdrawn 0\n0.3 @3 count = count 2\n",
            6,
        ),
        (
            "0.2 @3 withdraw 0 = withdrawn 0\n0.3 @4 withdraw 0 = withdrawn 0\n",
            6,
        ),
    ];
    assert_faults(&rt, rt.alloc(), DECLARED, CheckWhy::Reply, &cases)
}

#[test]
fn wrong_hits_are_told(rt: HostRuntime) -> Result<(), Fail> {
    let cases = [
        ("0.2 @2 near ISCC:AAAQAAAAAAAAAAAA 1 = hits 0\n", 5),
        (
            "0.2 @2 near ISCC:AAAQAAAAAAAAAAAA 1 = hits 1 0,0,ISCC:AAAQAAAAAAAAAAAA\n",
            5,
        ),
        (
            "0.2 @2 near ISCC:AAAQAAAAAAAAAAAA 1 = hits 2 1,1,ISCC:AAAQAAAAAAAAAAAB 0,0,ISCC:AAAQAAAAAAAAAAAA\n",
            5,
        ),
        (
            "0.2 @2 near ISCC:AAAQAAAAAAAAAAAA 1 = hits 2 0,0,ISCC:AAAQAAAAAAAAAAAA 1,2,ISCC:AAAQAAAAAAAAAAAB\n",
            5,
        ),
        (
            "0.2 @2 near ISCC:AAAQAAAAAAAAAAAA 1 = hits 2 0,0,ISCC:AAAQAAAAAAAAAAAA 2,1,ISCC:AAAQAAAAAAAAAAAB\n",
            5,
        ),
        (
            "0.2 @2 near ISCC:AAAQAAAAAAAAAAAA 0 = hits 2 0,0,ISCC:AAAQAAAAAAAAAAAA 1,1,ISCC:AAAQAAAAAAAAAAAB\n",
            5,
        ),
        (
            "0.2 @2 near ISCC:AAAQAAAAAAAAAAAA 0 = hits 2 0,0,ISCC:AAAQAAAAAAAAAAAA 0,0,ISCC:AAAQAAAAAAAAAAAA\n",
            5,
        ),
        // Hits of another kind than the one that is asked for.
        (
            "0.2 @2 near ISCC:AAAQAAAAAAAAAAAA 0 = hits 1 0,0,ISCC:EAAQAAAAAAAAAAAA\n",
            5,
        ),
        (
            "0.2 @2 near ISCC:EAAQAAAAAAAAAAAA 15 = hits 1 0,0,ISCC:AAAQAAAAAAAAAAAA\n",
            5,
        ),
        ("0.2 @2 near ISCC:AAAQAAAAAAAAAAAA 1 = count 2\n", 5),
    ];
    assert_faults(&rt, rt.alloc(), DECLARED, CheckWhy::Reply, &cases)
}

#[test]
fn a_wrong_or_missing_end_is_told(rt: HostRuntime) -> Result<(), Fail> {
    let alloc = rt.alloc();
    assert_faults(&rt, alloc, "", CheckWhy::End, &[("", 1)])?;
    assert_faults(&rt, alloc, HEAD, CheckWhy::End, &[("", 2)])?;
    let cases = [
        ("", 5),
        ("end 1 live 2\n", 5),
        ("end 3 live 2\n", 5),
        ("end 2 live 1\n", 5),
        ("end 2 live 2\n\n", 6),
        ("end 2 live 2\nx", 6),
        ("end 2 live 2\nend 2 live 2\n", 6),
        ("end 2 live 2\n0.2 @2 count = count 2\n", 6),
        // The rows of all rounds are counted.
        (
            "round 1 base 2 entries 4096 log 65536 callers 1\nend 0 live 2\n",
            6,
        ),
    ];
    assert_faults(&rt, alloc, DECLARED, CheckWhy::End, &cases)
}

#[test]
fn the_first_fault_of_a_text_is_told(rt: HostRuntime) -> Result<(), Fail> {
    let alloc = rt.alloc();
    // The session, the point and the reply of the row are wrong, and so is the line behind it.
    let session = [("2.0 @1 count = count 1\nx\n", 3)];
    assert_faults(&rt, alloc, ROUND, CheckWhy::Session, &session)?;
    let point = [("0.0 @1 count = count 1\nx\n", 3)];
    assert_faults(&rt, alloc, ROUND, CheckWhy::Point, &point)
}
