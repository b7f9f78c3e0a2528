ghost use Rattle.std.specs.Prelude.{◌≡◌, length};

use super::*;
use reg_history::check_history;
use std::sync::atomic::{AtomicBool, AtomicU32, Ordering};
use std::thread;

// A shelf of files with these names and texts.
pub(super) fn files_of(
    alloc: Global,
    files: &[(&str, &[u8])],
    fail: &[u64],
) -> Result<ListShelf, AllocError> {
    let mut list = Vec::new(alloc);
    for file in files {
        list.push((file.0.to_string(alloc)?, Vec::from_slice(alloc, file.1)?))?;
    }
    Ok(ListShelf::new(list, Vec::from_slice(alloc, fail)?))
}

// The status of a run of these files, each as a session, and what the sink has taken.
fn run_files<R: Threads + Wait + Sync + AllocGlobal>(
    rt: &R,
    files: &[(&str, &[u8])],
    fail: &[u64],
) -> Result<(u8, String), Fail> {
    let alloc = rt.alloc();
    let mut words = words_of(alloc, &["run"])?;
    for file in files {
        words.push(file.0)?;
    }
    let mut shelf = files_of(alloc, files, fail)?;
    let mut sink = sink_of(alloc, 1 << 16, usize::MAX)?;
    let status = top_of(rt, &words, &mut shelf, &mut sink);
    Ok((status, taken_text(alloc, &sink)?))
}

// How many seals were kept.
pub(super) fn kept(seals: &Seals<Served>) -> usize
    ensures { result ≡ length seals.now }
{
    seals.len()
}

// The number of rows and of live declarations, where the history behind the replies is lawful.
pub(super) fn checked(alloc: Global, output: &str) -> Result<(u64, u64), Fail> {
    let at = output.find("iscc-history 1\n").ok_or("no history")?;
    match check_history(alloc, &output.as_bytes()[at..]) {
        Ok(summary) => Ok((summary.rows, summary.live)),
        Err(_) => Err("not lawful".into()),
    }
}

#[test]
fn sessions_without_calls_have_their_lines_all_the_same(rt: HostRuntime) -> Result<(), Fail> {
    let files: [(&str, &[u8]); 2] = [("e.txt", b""), ("c.txt", b"# nothing\n#\n# asked\n")];
    let (status, output) = run_files(&rt, &files, &[])?;
    assert_eq!(rt; status, 0);
    assert_eq!(rt;
        output.as_str(),
        "replies 0 0\nreplies 0 1\niscc-history 1\nround 0 base 0 entries 4096 log 65536 callers 2\nend 0 live 0\n"
    );
    Ok(())
}

#[test]
fn two_sessions_that_declare_and_count_have_a_lawful_history(rt: HostRuntime) -> Result<(), Fail> {
    let text: &[u8] = b"declare ISCC:AAAQAAAAAAAAAAAA\ncount\n";
    let (status, output) = run_files(&rt, &[("a.txt", text), ("b.txt", text)], &[])?;
    assert_eq!(rt; status, 0);
    assert_eq!(rt; checked(rt.alloc(), output.as_str())?, (4, 2));
    assert!(rt; output.as_str().contains("\nid 0\n"));
    assert!(rt; output.as_str().contains("\nid 1\n"));
    Ok(())
}

#[test]
fn two_sessions_get_each_id_once(rt: HostRuntime) -> Result<(), Fail> {
    let alloc = rt.alloc();
    let mut text = String::new(alloc);
    for _ in 0..50 {
        text.push_str("declare ISCC:AAAQAAAAAAAAAAAA\n")?;
    }
    let files = [("a.txt", text.as_bytes()), ("b.txt", text.as_bytes())];
    let (status, output) = run_files(&rt, &files, &[])?;
    assert_eq!(rt; status, 0);
    assert_eq!(rt; checked(alloc, output.as_str())?, (100, 100));
    for id in 0..100 {
        let reply = format!(in alloc; "\nid {id}\n")?;
        assert!(rt; output.as_str().contains(reply.as_str()), "{id}");
    }
    assert!(rt; output.as_str().ends_with("\nend 100 live 100\n"));
    Ok(())
}

#[test]
fn sixteen_sessions_are_served_and_seventeen_refused(rt: HostRuntime) -> Result<(), Fail> {
    let alloc = rt.alloc();
    let text = "declare ISCC:AAAQAAAAAAAAAAAA\nnear ISCC:AAAQAAAAAAAAAAAA 0\ncount\nbad\n";
    let mut shelf = shelf_of(alloc, text.as_bytes(), &[])?;
    let mut sink = sink_of(alloc, 1 << 16, usize::MAX)?;
    let mut words = words_of(alloc, &["run"])?;
    for _ in 0..16 {
        words.push("a.txt")?;
    }
    let mut seals = no_seals();
    let status = top(
        &rt, alloc, &words, &mut shelf, &mut sink, &NoGate, &mut seals,
    );
    assert_eq!(rt; status, 0);
    assert_eq!(rt; kept(&seals), 1);
    let output = taken_text(alloc, &sink)?;
    assert_eq!(rt; checked(alloc, output.as_str())?, (48, 16));
    assert!(rt; output.as_str().contains("\nreplies 0 15\n"));
    assert!(rt; output.as_str().contains(" callers 16\n"));
    words.push("a.txt")?;
    let mut sink = sink_of(alloc, ROOM, usize::MAX)?;
    assert_eq!(rt; top_of(&rt, &words, &mut shelf, &mut sink), 2);
    Ok(())
}

#[test]
fn the_first_file_that_gives_nothing_is_told_by_its_name(rt: HostRuntime) -> Result<(), Fail> {
    let alloc = rt.alloc();
    let long = vec![in alloc; b'#'; (1 << 24) + 1]?;
    let a: (&str, &[u8]) = ("a.txt", b"count\n");
    let b: (&str, &[u8]) = ("b.txt", b"count\n");
    let c: (&str, &[u8]) = ("c.txt", long.as_slice());
    let cases: [(&[(&str, &[u8])], &[u64], &[&str], u8, &str); 6] = [
        (
            &[a, b],
            &[1],
            &["run", "a.txt", "b.txt"],
            4,
            "fault 4 read b.txt\n",
        ),
        (
            &[a],
            &[],
            &["run", "a.txt", "b.txt"],
            3,
            "fault 3 missing b.txt\n",
        ),
        (
            &[a],
            &[],
            &["run", "a.txt", "b.txt", "d.txt"],
            3,
            "fault 3 missing b.txt\n",
        ),
        (
            &[a, c],
            &[],
            &["run", "a.txt", "c.txt", "d.txt"],
            7,
            "fault 7 too long c.txt\n",
        ),
        (
            &[b, c],
            &[],
            &["run", "d.txt", "c.txt", "b.txt"],
            3,
            "fault 3 missing d.txt\n",
        ),
        (
            &[a, b],
            &[1],
            &["run", "a.txt", "b.txt", "a.txt"],
            4,
            "fault 4 read b.txt\n",
        ),
    ];
    for (files, fail, words, want, line) in cases {
        let mut shelf = files_of(alloc, files, fail)?;
        let mut sink = sink_of(alloc, ROOM, usize::MAX)?;
        assert_eq!(rt;
            top_of(&rt, &words_of(alloc, words)?, &mut shelf, &mut sink),
            want
        );
        assert_eq!(rt; taken_text(alloc, &sink)?.as_str(), line);
    }
    Ok(())
}

#[test]
fn a_command_that_serves_nothing_leaves_no_seal(rt: HostRuntime) -> Result<(), Fail> {
    let alloc = rt.alloc();
    let mut shelf = shelf_of(alloc, b"", &[])?;
    let mut sink = sink_of(alloc, ROOM, usize::MAX)?;
    let words = words_of(alloc, &["instance", "a.txt"])?;
    let mut seals = no_seals();
    assert_eq!(rt;
        top(
            &rt, alloc, &words, &mut shelf, &mut sink, &NoGate, &mut seals
        ),
        0
    );
    assert_eq!(rt; kept(&seals), 0);
    Ok(())
}

// Holds the first call of each of two sessions until the other has come to its own, or for a while.
#[derive(Drop)]
struct Meeting {
    came: [AtomicBool; 2],
    met: [AtomicBool; 2],
}

impl Gate for Meeting {
    fn turn<R: Wait>(&self, _rt: &R, session: u32, call: u32) {
        if call > 0 || session > 1 {
            return;
        }
        let me = session as usize;
        self.came[me].store(true, Ordering::SeqCst);
        for _ in 0..100_000_000u32 {
            if self.came[1 - me].load(Ordering::SeqCst) {
                self.met[me].store(true, Ordering::SeqCst);
                return;
            }
            thread::yield_now();
        }
    }
}

// How a run of these files ends under this gate, and what the sink has taken.
fn run_under<G: Gate, R: Threads + Wait + Sync + AllocGlobal>(
    rt: &R,
    gate: &G,
    files: &[(&str, &[u8])],
) -> Result<(u8, String), Fail> {
    let alloc = rt.alloc();
    let mut words = words_of(alloc, &["run"])?;
    for file in files {
        words.push(file.0)?;
    }
    let mut shelf = files_of(alloc, files, &[])?;
    let mut sink = sink_of(alloc, ROOM, usize::MAX)?;
    let mut seals = no_seals();
    let status = top(rt, alloc, &words, &mut shelf, &mut sink, gate, &mut seals);
    Ok((status, taken_text(alloc, &sink)?))
}

// Whether two sessions came to their first calls while the other was held there.
fn two_meet<R: Threads + Wait + Sync + AllocGlobal>(rt: &R) -> Result<bool, Fail> {
    let gate = Meeting {
        came: [AtomicBool::new(false), AtomicBool::new(false)],
        met: [AtomicBool::new(false), AtomicBool::new(false)],
    };
    let text: &[u8] = b"count\ncount\n";
    let (status, _) = run_under(rt, &gate, &[("a.txt", text), ("b.txt", text)])?;
    Ok(status == 0 && gate.met[0].load(Ordering::SeqCst) && gate.met[1].load(Ordering::SeqCst))
}

#[test]
fn two_sessions_run_beside_each_other_a_hundred_times(rt: HostRuntime) -> Result<(), Fail> {
    for _ in 0..100 {
        assert!(rt; two_meet(&rt)?);
    }
    Ok(())
}

// Counts the calls of two sessions, and notes where a call hasn't the number of those before it.
#[derive(Drop)]
struct Counting {
    calls: [AtomicU32; 2],
    astray: AtomicBool,
}

impl Gate for Counting {
    fn turn<R: Wait>(&self, _rt: &R, session: u32, call: u32) {
        if session > 1 || self.calls[session as usize].fetch_add(1, Ordering::SeqCst) != call {
            self.astray.store(true, Ordering::SeqCst);
        }
    }
}

#[test]
fn a_gate_is_asked_once_before_each_call_with_its_number(rt: HostRuntime) -> Result<(), Fail> {
    let gate = Counting {
        calls: [AtomicU32::new(0), AtomicU32::new(0)],
        astray: AtomicBool::new(false),
    };
    let files: [(&str, &[u8]); 2] = [
        ("a.txt", b"count\nbad\ncount\ncount\n"),
        ("b.txt", b"count\n"),
    ];
    assert_eq!(rt; run_under(&rt, &gate, &files)?.0, 0);
    assert!(rt; !gate.astray.load(Ordering::SeqCst));
    assert_eq!(rt; gate.calls[0].load(Ordering::SeqCst), 3);
    assert_eq!(rt; gate.calls[1].load(Ordering::SeqCst), 1);
    Ok(())
}

// Holds the first call of each session until all have come, or for a while.
#[derive(Drop)]
struct Gathering {
    sessions: u32,
    came: AtomicU32,
    met: AtomicU32,
}

impl Gate for Gathering {
    fn turn<R: Wait>(&self, _rt: &R, _session: u32, call: u32) {
        if call > 0 {
            return;
        }
        let _ = self.came.fetch_add(1, Ordering::SeqCst);
        for _ in 0..100_000_000u32 {
            if self.came.load(Ordering::SeqCst) >= self.sessions {
                let _ = self.met.fetch_add(1, Ordering::SeqCst);
                return;
            }
            thread::yield_now();
        }
    }
}

#[test]
fn sixteen_sessions_are_all_under_way_at_once(rt: HostRuntime) -> Result<(), Fail> {
    let gate = Gathering {
        sessions: 16,
        came: AtomicU32::new(0),
        met: AtomicU32::new(0),
    };
    let text: &[u8] = b"count\ncount\n";
    assert_eq!(rt; run_under(&rt, &gate, &[("a.txt", text); 16])?.0, 0);
    assert_eq!(rt; gate.met.load(Ordering::SeqCst), 16);
    Ok(())
}

// Holds session 1 before its first call until session 0 has come to its second, or for a while.
#[derive(Drop)]
struct Second {
    first_made: AtomicBool,
}

impl Gate for Second {
    fn turn<R: Wait>(&self, _rt: &R, session: u32, call: u32) {
        if session == 0 && call == 1 {
            self.first_made.store(true, Ordering::SeqCst);
        }
        if session != 1 || call > 0 {
            return;
        }
        for _ in 0..100_000_000u32 {
            if self.first_made.load(Ordering::SeqCst) {
                return;
            }
            thread::yield_now();
        }
    }
}

// What a run has written whose second session was held until the first had made its first call.
fn run_held<R: Threads + Wait + Sync + AllocGlobal>(rt: &R) -> Result<String, Fail> {
    let gate = Second {
        first_made: AtomicBool::new(false),
    };
    let text: &[u8] = b"declare ISCC:AAAQAAAAAAAAAAAA\ncount\n";
    let (_, output) = run_under(rt, &gate, &[("a.txt", text); 2])?;
    Ok(output)
}

#[test]
fn a_session_is_held_before_its_first_call(rt: HostRuntime) -> Result<(), Fail> {
    for _ in 0..20 {
        let output = run_held(&rt)?;
        assert!(rt; output.as_str().starts_with("replies 0 0\nid 0\ncount "));
        assert!(rt; output.as_str().contains("\nreplies 0 1\nid 1\ncount 2\n"));
    }
    Ok(())
}
