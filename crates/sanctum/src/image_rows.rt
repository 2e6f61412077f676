//! The worked rows of images: their faults, what is read of them when, and how they are converted. The bytes
//! are put together by hand; digests are those of another program.

use crate::tests::{Files, check_bytes, check_files, run_files};
use std::alloc::Global;
use std::process::Abort;
use std::test::Fail;
use std::thread::Threads;

/// One core, 8 regions, and two segments of 8 and of 16 bytes, at the first and the second page: 88 bytes.
const TWO_SEGMENTS: &str = "\
53414e4354554d01010300000200000000000080000000000000000000000000\
000000800000000008000000000000000000000000000000\
0010008000000000100000000000000000000000000000000000000000000000";

/// `TWO_SEGMENTS` in version 2.
const TWO_SEGMENTS_2: &str = "\
53414e4354554d02010300000200000000000080000000000000000000000000\
000000800000000008000000000000000000000000000000\
0010008000000000100000000000000000000000000000000000000000000000\
d6c10a8aadc1e49e3580d5c09c385908a39c0ee9345cf6a7403f5f159e6d5d42";

/// Two cores and no segment.
const TWO_CORES: &str = "\
53414e4354554d01020300000000000000000080000000000000000000000000\
00000080000000000000000000000000";

/// The plain machine in version 2, which is what `convert -` writes.
const PLAIN_2: &str = "\
53414e4354554d02010300000000000000000080000000000000000000000000\
57e52a224678cd80f3f46bae5f7ed5bbd7954ab7aee39f5082f17513140c4ce3";

/// The bytes with another byte at a place.
fn changed(alloc: Global, digits: &str, at: usize, byte: u8) -> Result<Vec<u8>, Fail> {
    let mut bytes = hex::decode(alloc, digits)?;
    if let Some(place) = bytes.get_mut(at) {
        *place = byte;
    }
    Ok(bytes)
}

/// Converts an image, which is refused with this line.
fn check_refused<R: Threads + Sync + Abort>(
    rt: &R,
    alloc: Global,
    image: &[u8],
    want: &str,
) -> Result<(), Fail> {
    let files = Files::of_script(b"", image);
    let line = format!(in alloc; "refused: image {want}\n")?;
    check_files(rt, alloc, want, &["convert", "I"], &files, 3, &line)
}

/// Rows `image-cut`, `digest-faults` and `version-1-core-limit`, and each other kind of fault at its place.
#[test]
fn each_kind_of_fault_at_its_place(rt: HostRuntime) -> Result<(), Fail> {
    let alloc = rt.alloc();
    for (digits, at, byte, want) in [
        (TWO_SEGMENTS, 0, b's', "bad magic"),
        (TWO_SEGMENTS, 7, 3, "bad version"),
        (TWO_SEGMENTS, 8, 9, "bad field at 8"),
        (TWO_SEGMENTS, 9, 7, "bad field at 9"),
        (TWO_SEGMENTS, 12, 65, "bad field at 12"),
        (TWO_SEGMENTS, 16, 2, "bad field at 16"),
        (TWO_SEGMENTS, 32, 4, "bad field at 32"),
        (TWO_SEGMENTS, 40, 0, "bad field at 40"),
        (TWO_SEGMENTS, 35, 0x7f, "out of range segment 0"),
        (TWO_SEGMENTS, 57, 0x80, "out of range segment 1"),
        (TWO_SEGMENTS, 57, 0, "overlap segment 1"),
        (TWO_SEGMENTS, 12, 3, "short at 88"),
        (TWO_SEGMENTS, 64, 8, "trailing at 80"),
        (PLAIN_2, 63, 0xe2, "bad digest at 32"),
        (PLAIN_2, 8, 17, "bad field at 8"),
        (PLAIN_2, 7, 1, "trailing at 32"),
    ] {
        check_refused(&rt, alloc, &changed(alloc, digits, at, byte)?, want)?;
    }
    Ok(())
}

/// Rows `image-shorter-than-magic`, and the cut files of `image-cut` and `digest-faults`.
#[test]
fn files_that_are_cut_or_go_on(rt: HostRuntime) -> Result<(), Fail> {
    let alloc = rt.alloc();
    for (digits, cut) in [
        (TWO_SEGMENTS, [0, 1, 2, 3, 4, 5, 6, 7, 80, 87].as_slice()),
        (PLAIN_2, &[16, 32, 63]),
    ] {
        let bytes = hex::decode(alloc, digits)?;
        for size in cut {
            let want = format!(in alloc; "short at {size}")?;
            let size = bytes.len().min(*size);
            check_refused(&rt, alloc, &bytes[..size], &want)?;
        }
        let mut more = hex::decode(alloc, digits)?;
        more.push(0)?;
        let size = bytes.len();
        let want = format!(in alloc; "trailing at {size}")?;
        check_refused(&rt, alloc, &more, &want)?;
    }
    Ok(())
}

/// Row `image-too-long`.
#[test]
fn an_image_over_its_limit(rt: HostRuntime) -> Result<(), Fail> {
    let alloc = rt.alloc();
    let zeros = vec![in alloc; 0u8; 4_195_633]?;
    let files = Files::of_script(b"", &zeros);
    let long = "refused: image too long\n";
    check_files(&rt, alloc, "image-too-long", RUN, &files, 3, long)
}

/// Row `convert-plain`; an image of either version as its version 2.
#[test]
fn images_are_converted(rt: HostRuntime) -> Result<(), Fail> {
    let alloc = rt.alloc();
    for (name, words, image, want) in [
        ("convert-plain", ["convert", "-"], "", PLAIN_2),
        ("version 2", ["convert", "I"], PLAIN_2, PLAIN_2),
        (
            "two segments",
            ["convert", "I"],
            TWO_SEGMENTS,
            TWO_SEGMENTS_2,
        ),
    ] {
        let image = hex::decode(alloc, image)?;
        let files = Files::of_script(b"", &image);
        check_bytes(&rt, alloc, name, &words, &files, want)?;
    }
    Ok(())
}

/// Runs an image over a depot that fails this call, and checks how it ends, and that the line of a read fault is
/// printed just where one is answered.
fn check_failing_read<R: Threads + Sync + Abort>(
    rt: &R,
    alloc: Global,
    image: &[u8],
    call: u32,
    code: u8,
) -> Result<(), Fail> {
    let files = Files {
        failing_reads: &[call],
        ..Files::of_script(b"", image)
    };
    let (status, out) = run_files(rt, alloc, RUN, &files)?;
    assert_eq!(rt; status.code(), code, "{call}");
    let refused = out.as_slice() == "refused: read fault\n".as_bytes();
    assert_eq!(rt; refused, code == 5, "{call}");
    Ok(())
}

/// Rows `depot-fails-early` and `depot-fails-late`.
#[test]
fn a_depot_that_fails(rt: HostRuntime) -> Result<(), Fail> {
    let alloc = rt.alloc();
    let image = hex::decode(alloc, TWO_SEGMENTS)?;
    for (call, code) in [(0, 5), (1, 5), (2, 5), (3, 0)] {
        check_failing_read(&rt, alloc, &image, call, code)?;
    }
    Ok(())
}

/// Runs the words over an image and a script, which are refused with this line.
fn check_line<R: Threads + Sync + Abort>(
    rt: &R,
    alloc: Global,
    words: &[&str],
    digits: &str,
    script: &str,
    code: u8,
    want: &str,
) -> Result<(), Fail> {
    let image = hex::decode(alloc, digits)?;
    let files = Files::of_script(script.as_bytes(), &image);
    check_files(rt, alloc, want, words, &files, code, want)
}

const SOLO: &[&str] = &["solo", "I", "S"];

const SOLO_PLAIN: &[&str] = &["solo", "-", "S"];

const RUN: &[&str] = &["run", "I", "S"];

const RUN_PLAIN: &[&str] = &["run", "-", "S"];

/// Row `solo-two-cores`: the image comes before the script, and its count of cores too.
#[test]
fn solo_asks_for_one_core_before_the_script(rt: HostRuntime) -> Result<(), Fail> {
    let alloc = rt.alloc();
    let two = "refused: image bad field at 8\n";
    check_line(&rt, alloc, SOLO, TWO_CORES, "", 3, two)?;
    check_line(&rt, alloc, SOLO, TWO_CORES, "blok\n", 3, two)?;
    check_line(&rt, alloc, &["solo", "I", "X"], TWO_CORES, "", 3, two)?;
    let short = "refused: image short at 0\n";
    check_line(&rt, alloc, SOLO, "", "blok\n", 3, short)?;
    let core = "refused: script line 1 bad core\n";
    check_line(&rt, alloc, SOLO_PLAIN, "", "core 1\n", 4, core)
}

/// The image comes before the script, and the count of cores behind both.
#[test]
fn run_asks_for_one_core_behind_the_script(rt: HostRuntime) -> Result<(), Fail> {
    let alloc = rt.alloc();
    let built = "refused: script line 0 not built\n";
    check_line(&rt, alloc, RUN, TWO_CORES, "core 1\n", 4, built)?;
    check_line(&rt, alloc, RUN, TWO_CORES, "", 4, built)?;
    check_line(&rt, alloc, RUN_PLAIN, "", "core 1\n", 4, built)?;
    check_line(&rt, alloc, &["script", "S"], "", "core 1\n", 4, built)?;
    let core = "refused: script line 1 bad core\n";
    check_line(&rt, alloc, RUN, TWO_CORES, "core 2\n", 4, core)?;
    check_line(&rt, alloc, RUN, TWO_SEGMENTS, "core 1\n", 4, core)?;
    check_line(&rt, alloc, RUN_PLAIN, "", "core 16\n", 4, core)
}

/// Where both files are bad, or missing, the image decides.
#[test]
fn the_image_is_read_first(rt: HostRuntime) -> Result<(), Fail> {
    let alloc = rt.alloc();
    let short = "refused: image short at 0\n";
    check_line(&rt, alloc, RUN, "", "blok\n", 3, short)?;
    check_line(&rt, alloc, &["run", "I", "X"], "", "", 3, short)?;
    let read = "refused: read fault\n";
    check_line(&rt, alloc, &["run", "X", "S"], "", "blok\n", 5, read)?;
    check_line(&rt, alloc, &["run", "I", "X"], TWO_CORES, "", 5, read)?;
    let word = "refused: script line 1 unknown word\n";
    check_line(&rt, alloc, RUN, TWO_CORES, "blok\n", 4, word)
}
