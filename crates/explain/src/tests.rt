// Logs and frames, and what is said of them.
ghost use Rattle.std.specs.Prelude.{◌≤◌};

use crate::SIZE;
use crate::explainer::Explainer;
use documents::line::Line;
use frames::frame::Frame;
use pair::pair::Pair;
use std::alloc::Global;
use std::io;
use std::process::Abort;
use std::test::Fail;
use supplied::row::supplied_row;

// What is printed of a log that comes in two pieces.
fn explained(heap: Global, first: &[u8], second: &[u8]) -> io::Result<Vec<u8>> {
    let mut out = Vec::new(heap);
    let mut lines = [Line::Record([0; 4]); SIZE];
    let mut records = [[0u32; 4]; SIZE];
    let mut links = [supplied_row(); SIZE];
    let pair = Pair::open(&mut lines, &mut records, &mut links, supplied_row());
    let mut explainer = Explainer::new(pair);
    explainer.feed(first, &mut out)?;
    explainer.feed(second, &mut out)?;
    explainer.finish(&mut out)?;
    Ok(out)
}

// Asserts what is printed of a log.
fn says(rt: &impl Abort, heap: Global, log: &str, expected: &str) -> Result<(), Fail> {
    let out = explained(heap, log.as_bytes(), b"")?;
    assert!(rt; out.as_slice() == expected.as_bytes(), "{log}");
    Ok(())
}

// Says whether a frame of this length, with an operation letter and then letters A, is read.
fn is_read(side: u8, letter: u8, length: usize) -> bool
    requires { length ≤ 40 }
{
    let mut bytes = [b'A'; 40];
    bytes[0] = side;
    bytes[1] = letter;
    Frame::read(&bytes[..length]).is_ok()
}

// Says whether the operation has so many bytes.
fn is_whole(letter: u8, length: usize) -> bool {
    match letter {
        b'K' => length == 2,
        b'I' | b'D' => length == 4,
        b'M' => length == 6,
        b'C' => length == 10,
        _ => 4 <= length && length <= 28,
    }
}

// The last line may end with a newline or without.
#[test]
fn line_ends(rt: HostRuntime) -> Result<(), Fail> {
    let heap = rt.alloc();
    let none = "lines 0: operations 0 (sheet 0, table 0), skipped 0, refused 0\n";
    says(&rt, heap, "", none)?;
    let empty =
        "      1  skipped\nlines 1: operations 0 (sheet 0, table 0), skipped 1, refused 0\n";
    says(&rt, heap, "\n", empty)?;
    let keep = "      1  sheet: keep -> table: keep\n\
                lines 1: operations 1 (sheet 1, table 0), skipped 0, refused 0\n";
    says(&rt, heap, "4C4B", keep)?;
    says(&rt, heap, "4C4B\n", keep)
}

// Each operation's frames have its length.
#[test]
fn lengths(rt: HostRuntime) {
    for letter in b"KINDMC" {
        for length in 0..41 {
            let whole = is_whole(*letter, length);
            assert!(rt; is_read(b'L', *letter, length) == whole);
            assert!(rt; is_read(b'R', *letter, length) == (whole && *letter != b'N'));
        }
    }
}

// Wherever a log is cut in two, the same is printed.
#[test]
fn pieces(rt: HostRuntime) -> Result<(), Fail> {
    let log = b"; bench 4\n4C490000\n4C4E00004D31\n524300000141FFFFFFFE";
    let whole = explained(rt.alloc(), log, b"")?;
    for cut in 0..log.len() {
        let parts = explained(rt.alloc(), &log[..cut], &log[cut..])?;
        assert!(rt; parts.as_slice() == whole.as_slice());
    }
    Ok(())
}

// The line past the last one that a log may have is refused, and nothing is read from there on.
#[test]
fn too_many_lines(rt: HostRuntime) -> Result<(), Fail> {
    let mut out = Vec::new(rt.alloc());
    let mut lines = [Line::Record([0; 4]); SIZE];
    let mut records = [[0u32; 4]; SIZE];
    let mut links = [supplied_row(); SIZE];
    let pair = Pair::open(&mut lines, &mut records, &mut links, supplied_row());
    let mut explainer = Explainer::new(pair);
    for _ in 0..100 {
        out.clear();
        explainer.feed(&[b'\n'; 10_000], &mut out)?;
    }
    assert!(rt; !explainer.has_ended());
    out.clear();
    explainer.feed(b"4C4B", &mut out)?;
    assert!(rt; explainer.has_ended());
    explainer.feed(b"\n4C4B\n", &mut out)?;
    explainer.finish(&mut out)?;
    let expected = "1000001  refused (1): more than 1000000 lines, the rest is not read\n\
                    lines 1000001: operations 0 (sheet 0, table 0), skipped 1000000, refused 1\n";
    assert!(rt; out.as_slice() == expected.as_bytes());
    Ok(())
}

// A remark and a record, changed from both sides: what is carried across, and what is refused.
#[test]
fn carried_across(rt: HostRuntime) -> Result<(), Fail> {
    let log = "; bench 4\n4C490000\n4C4E00004D31\n4C430001014100004E1F\n4C430001014100000001\n\
               524300000141FFFFFFFE\n52430000035300000005\n4C430001005300000083\n\
               4C430000005300000001\n4C430001024600310021\n";
    let expected = concat!(
        "      1  skipped\n",
        "      2  sheet: insert a record at 0 -> table: insert a record at 0\n",
        "      3  sheet: insert the remark \"M1\" at 0 -> table: keep\n",
        "      4  sheet: at 1, column 1: add 19999 -> table: keep\n",
        "      5  sheet: at 1, column 1: add 1 -> table: at 0, column 1: add 1\n",
        "      6  table: at 0, column 1: add -2 -> refused (9) at 0, column 1: ",
        "the change does not apply to the value\n",
        "      7  table: at 0, column 3: set 5 -> sheet: keep\n",
        "      8  sheet: at 1, column 0: set 131 -> table: at 0, column 0: set 193\n",
        "      9  sheet: at 0, column 0: set 1 -> refused (7) at 0: ",
        "the line is a remark, which has no columns\n",
        "     10  sheet: at 1, column 2: set the bits under mask 0031 to 0021 -> ",
        "table: at 0, column 2: set the bits under mask 0001 to 0001\n",
        "lines 10: operations 7 (sheet 6, table 1), skipped 1, refused 2\n",
    );
    says(&rt, rt.alloc(), log, expected)
}

// A sheet of 256 lines is full, from either side.
#[test]
fn full_sheet(rt: HostRuntime) -> Result<(), Fail> {
    let heap = rt.alloc();
    let mut log = Vec::new(heap);
    for _ in 0..256 {
        log.extend_from_slice(b"4C490000\n")?;
    }
    let out = explained(heap, log.as_slice(), b"52490000\n4C4E0001\n")?;
    let end = concat!(
        "    256  sheet: insert a record at 0 -> table: insert a record at 0\n",
        "    257  table: insert a record at 0 -> refused (6) at 0: the sheet is full\n",
        "    258  sheet: insert the remark \"\" at 1 -> refused (6) at 1: the sheet is full\n",
        "lines 258: operations 256 (sheet 256, table 0), skipped 0, refused 2\n",
    );
    assert!(rt; out.as_slice().ends_with(end.as_bytes()));
    Ok(())
}
