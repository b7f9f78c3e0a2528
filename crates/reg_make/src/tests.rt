use super::*;
use iscc_header::NoMemory;
use reg_session::NoGate;
use reg_turn::TurnDesk;
use std::alloc::Global;
use std::sync::Wait;
use std::test::Fail;
use std::thread::Threads;

// A workload, served behind one turn.
fn served<R: Threads + Wait + Sync>(
    rt: &R,
    alloc: Global,
    work: &Workload,
) -> Result<WorkRun<TurnDesk>, NoMemory> {
    serve_work::<TurnDesk, NoGate, R>(rt, alloc, work, &NoGate)
}

// A seed, units of a session, sessions, and the counts that they have by an outside program.
type Line = (u64, u64, u64, Counts);

const LINES: [Line; 4] = [
    (
        1,
        16,
        1,
        Counts {
            calls: 40,
            accepted: 24,
            live: 8,
            hits: 16,
        },
    ),
    (
        7,
        1000,
        4,
        Counts {
            calls: 6016,
            accepted: 6000,
            live: 2000,
            hits: 4000,
        },
    ),
    (
        0,
        1,
        1,
        Counts {
            calls: 17,
            accepted: 1,
            live: 1,
            hits: 1,
        },
    ),
    (
        3,
        5,
        2,
        Counts {
            calls: 31,
            accepted: 15,
            live: 5,
            hits: 10,
        },
    ),
];

#[test]
fn workloads_have_the_counts_of_an_outside_program(rt: HostRuntime) -> Result<(), Fail> {
    for (seed, each, sessions, counts) in LINES {
        let work = Workload::new(seed, each, sessions).ok_or("no workload")?;
        let run = served(&rt, rt.alloc(), &work).or(Err("memory"))?;
        assert_eq!(rt; count_work(&run.first, &run.second), counts);
    }
    Ok(())
}

#[test]
fn a_workload_has_up_to_a_million_units_in_up_to_16_sessions(rt: HostRuntime) {
    for (each, sessions) in [(1, 1), (1, 16), (1_000_000, 1), (62_500, 16), (333_333, 3)] {
        assert!(rt; Workload::new(u64::MAX, each, sessions).is_some());
    }
    for (each, sessions) in [
        (0, 1),
        (1, 0),
        (1, 17),
        (1_000_001, 1),
        (500_001, 2),
        (62_501, 16),
        (u64::MAX, 1),
        (1, u64::MAX),
        (u64::MAX, u64::MAX),
        (1 << 63, 2),
    ] {
        assert!(rt; Workload::new(0, each, sessions).is_none());
    }
}
