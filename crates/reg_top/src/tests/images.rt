use super::sessions::{checked, files_of};
use super::*;
use iscc_header::{Kind, Unit64};
use iscc_instance::Hasher;
use reg_image::write_image;
use reg_model::{Carried, Declared};

// The status of a call with these words over a shelf, and what the sink has taken.
fn run_over<R: Threads + Wait + Sync + AllocGlobal>(
    rt: &R,
    list: &[&str],
    shelf: &mut ListShelf,
    stop: usize,
) -> Result<(u8, String), Fail> {
    let alloc = rt.alloc();
    let mut sink = sink_of(alloc, 1 << 12, stop)?;
    let status = top_of(rt, &words_of(alloc, list)?, shelf, &mut sink);
    Ok((status, taken_text(alloc, &sink)?))
}

// The image of this base with so many META units of body 0, which have the ids 0, 1 ..
fn image_of(alloc: Global, base: u64, count: u64) -> Result<Vec<u8>, Fail> {
    let mut bytes = Vec::new(alloc);
    bytes.extend_from_slice(b"ISCCREGI\x00\x00\x00\x01")?;
    bytes.extend_from_slice(&base.to_be_bytes())?;
    bytes.extend_from_slice(&count.to_be_bytes())?;
    for id in 0..count {
        bytes.extend_from_slice(&id.to_be_bytes())?;
        bytes.extend_from_slice(&[0; 9])?;
    }
    sealed(bytes)
}

// The bytes, and their hash.
fn sealed(mut bytes: Vec<u8>) -> Result<Vec<u8>, Fail> {
    let mut hasher = Hasher::new();
    hasher.update(bytes.as_slice());
    bytes.extend_from_slice(&hasher.finalize())?;
    Ok(bytes)
}

// The first bytes.
fn front(alloc: Global, bytes: &[u8], len: usize) -> Result<Vec<u8>, Fail> {
    Ok(Vec::from_slice(alloc, bytes.get(..len).ok_or("short")?)?)
}

// The bytes, with one bit changed.
fn flipped(alloc: Global, bytes: &[u8], place: usize) -> Result<Vec<u8>, Fail> {
    let mut bytes = Vec::from_slice(alloc, bytes)?;
    if let Some(byte) = bytes.get_mut(place) {
        *byte ^= 1;
    }
    Ok(bytes)
}

// The bytes before the hash, with another byte at a place, and their hash.
fn resealed(alloc: Global, image: &[u8], place: usize, byte: u8) -> Result<Vec<u8>, Fail> {
    let mut bytes = front(alloc, image, image.len().saturating_sub(32))?;
    if let Some(old) = bytes.get_mut(place) {
        *old = byte;
    }
    sealed(bytes)
}

const KEPT: &[u8] = b"declare ISCC:AAAQAAAAAAAAAAAA\ndeclare ISCC:AAAQAAAAAAAAAAAB\nwithdraw 0\n";

#[test]
fn a_run_goes_on_where_the_saved_one_has_ended(rt: HostRuntime) -> Result<(), Fail> {
    let alloc = rt.alloc();
    let next: &[u8] = b"show 1\nshow 0\ndeclare ISCC:AAAQAAAAAAAAAAAA\n";
    let mut shelf = files_of(alloc, &[("a.txt", KEPT), ("b.txt", next)], &[])?;
    let first = ["run", "--save", "reg.img", "a.txt"];
    let (status, output) = run_over(&rt, &first, &mut shelf, usize::MAX)?;
    assert_eq!(rt; status, 0);
    assert_eq!(rt; checked(alloc, output.as_str())?, (3, 1));
    let mut carried = Carried::new(alloc, 3);
    let unit = Unit64 {
        kind: Kind::new(0).ok_or("no kind")?,
        body: 1,
    };
    carried.push(Declared { id: 1, unit })?;
    let image = write_image(alloc, &carried)?;
    assert_eq!(rt; shelf.file("reg.img"), Some(image.as_slice()));
    let want = "replies 0 0
live ISCC:AAAQAAAAAAAAAAAB
none 0
id 3
iscc-history 1
carry 1 ISCC:AAAQAAAAAAAAAAAB
round 0 base 3 entries 2 log 65536 callers 1
0.0 @3 show 1 = live ISCC:AAAQAAAAAAAAAAAB
0.1 @3 show 0 = none 0
0.2 @4 declare ISCC:AAAQAAAAAAAAAAAA = id 3
end 3 live 2
";
    let second = [
        "run",
        "b.txt",
        "--load=reg.img",
        "--entries=2",
        "--save=reg.img",
    ];
    let (status, output) = run_over(&rt, &second, &mut shelf, usize::MAX)?;
    assert_eq!(rt; status, 0);
    assert_eq!(rt; output.as_str(), want);
    assert_eq!(rt; checked(alloc, output.as_str())?, (3, 2));
    assert_eq!(rt; shelf.file("reg.img").map(<[u8]>::len), Some(60 + 2 * 17));
    assert_eq!(rt; shelf.file("a.txt"), Some(KEPT));
    Ok(())
}

#[test]
fn an_image_that_leaves_no_room_is_refused_by_its_first_round(rt: HostRuntime) -> Result<(), Fail> {
    let alloc = rt.alloc();
    let spent = image_of(alloc, 17179869183, 0)?;
    let three = image_of(alloc, 3, 3)?;
    let files = [
        ("spent.img", spent.as_slice()),
        ("three.img", three.as_slice()),
        ("a.txt", b""),
    ];
    let cases: [(&[&str], u8, &str); 3] = [
        (
            &["run", "--load", "spent.img", "a.txt"],
            11,
            "fault 11 round 0 base 17179869183 log 65536\n",
        ),
        (
            &["run", "--load", "three.img", "--entries", "2", "a.txt"],
            8,
            "fault 8 round 0 live 3 entries 2\n",
        ),
        (
            &["run", "--load", "a.txt", "a.txt", "--save=a.txt"],
            9,
            "fault 9 image short at 0\n",
        ),
    ];
    for (list, want, line) in cases {
        let mut shelf = files_of(alloc, &files, &[])?;
        let (status, output) = run_over(&rt, list, &mut shelf, usize::MAX)?;
        assert_eq!(rt; status, want);
        assert_eq!(rt; output.as_str(), line);
        assert_eq!(rt; shelf.file("a.txt"), Some(&[][..]));
    }
    Ok(())
}

#[test]
fn bytes_that_are_no_image_are_told_with_why_and_place(rt: HostRuntime) -> Result<(), Fail> {
    let alloc = rt.alloc();
    let image = image_of(alloc, 3, 2)?;
    let mut longer = Vec::from_slice(alloc, image.as_slice())?;
    longer.push(0)?;
    let cases = [
        (front(alloc, image.as_slice(), 93)?, "short at 93"),
        (resealed(alloc, image.as_slice(), 0, b'i')?, "magic at 0"),
        (resealed(alloc, image.as_slice(), 11, 2)?, "version at 8"),
        (resealed(alloc, image.as_slice(), 12, 1)?, "range at 12"),
        (flipped(alloc, image.as_slice(), 36)?, "sum at 62"),
        (resealed(alloc, image.as_slice(), 36, 13)?, "kind at 36"),
        (resealed(alloc, image.as_slice(), 52, 0)?, "order at 45"),
        (resealed(alloc, image.as_slice(), 52, 3)?, "range at 45"),
        (longer, "trailing at 94"),
    ];
    for (bytes, why) in &cases {
        let files = [("reg.img", bytes.as_slice()), ("a.txt", KEPT)];
        let mut shelf = files_of(alloc, &files, &[])?;
        let list = ["run", "--load", "reg.img", "a.txt"];
        let (status, output) = run_over(&rt, &list, &mut shelf, usize::MAX)?;
        assert_eq!(rt; status, 9, "{why}");
        let line = format!(in alloc; "fault 9 image {why}\n")?;
        assert_eq!(rt; output, line);
    }
    Ok(())
}

#[test]
fn an_image_is_fetched_before_the_files_and_judged_behind_them(
    rt: HostRuntime,
) -> Result<(), Fail> {
    let alloc = rt.alloc();
    let long = vec![in alloc; 0; (1 << 25) + 1]?;
    let files = [("long.img", long.as_slice()), ("a.txt", KEPT)];
    let cases: [(&[&str], &[u64], u8, &str); 5] = [
        (
            &["run", "b.txt", "--load", "c.img"],
            &[],
            3,
            "fault 3 missing c.img\n",
        ),
        (
            &["run", "b.txt", "--load", "a.txt"],
            &[],
            3,
            "fault 3 missing b.txt\n",
        ),
        (
            &["run", "b.txt", "--load", "long.img"],
            &[],
            7,
            "fault 7 too long long.img\n",
        ),
        (
            &["run", "a.txt", "--load", "a.txt"],
            &[0],
            4,
            "fault 4 read a.txt\n",
        ),
        (
            &["run", "a.txt", "--load", "a.txt"],
            &[],
            9,
            "fault 9 image magic at 0\n",
        ),
    ];
    for (list, fail, want, line) in cases {
        let mut shelf = files_of(alloc, &files, fail)?;
        let (status, output) = run_over(&rt, list, &mut shelf, usize::MAX)?;
        assert_eq!(rt; status, want);
        assert_eq!(rt; output.as_str(), line);
    }
    let mut longest = files_of(alloc, &[("long.img", &long[1..]), ("a.txt", KEPT)], &[])?;
    let list = ["run", "a.txt", "--load", "long.img"];
    assert_eq!(rt; run_over(&rt, &list, &mut longest, usize::MAX)?.0, 9);
    Ok(())
}

#[test]
fn an_image_that_cannot_be_put_is_told_and_nothing_is_written(rt: HostRuntime) -> Result<(), Fail> {
    let alloc = rt.alloc();
    let files = [("a.txt", KEPT), ("b.txt", b"")];
    let list = ["run", "--save", "b.txt", "a.txt"];
    // The shelf's first call is the fetch of a.txt, and its second the put.
    let mut shelf = files_of(alloc, &files, &[1])?;
    let (status, output) = run_over(&rt, &list, &mut shelf, usize::MAX)?;
    assert_eq!(rt; status, 5);
    assert_eq!(rt; output.as_str(), "fault 5 write b.txt\n");
    assert_eq!(rt; shelf.file("a.txt"), Some(KEPT));
    // A sink that fails has a front of the output, and the image is saved.
    let mut shelf = files_of(alloc, &files, &[])?;
    let (status, output) = run_over(&rt, &list, &mut shelf, 10)?;
    assert_eq!(rt; status, 5);
    assert_eq!(rt; output.as_str(), "replies 0 ");
    assert_eq!(rt; shelf.file("b.txt").map(<[u8]>::len), Some(60 + 17));
    Ok(())
}
