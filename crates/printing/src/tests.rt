// What the calls print, byte by byte.
use crate::lines::{
    print_end, print_record, print_refusal, print_sheet_head, print_sheet_line, print_table_head,
};
use crate::refusal::PrintRefusal;
use documents::line::{Line, Remark};

// A buffer of the shortest length that is taken, full of dots.
const DOTS: [u8; 64] = [b'.'; 64];

// Says whether the text was printed over the dots at the front, and its bytes were counted.
fn is_printed(answer: Result<usize, PrintRefusal>, buffer: &[u8], text: &[u8]) -> bool {
    answer == Ok(text.len())
        && buffer.starts_with(text)
        && buffer.iter().skip(text.len()).all(|byte| *byte == b'.')
}

// A remark whose stored length is this.
fn remark(len: u8) -> Line {
    Line::Remark(Remark {
        len,
        bytes: *b"M1 up to the 24th letter",
    })
}

// Each line of a report, worked by hand.
#[test]
fn each_line(rt: HostRuntime) {
    let mut buffer = DOTS;
    assert!(rt; is_printed(print_refusal(6, 9, &mut buffer), &buffer, b"! 6 9\n"));
    buffer = DOTS;
    assert!(rt; is_printed(print_sheet_head(2, &mut buffer), &buffer, b"LEFT 2\n"));
    buffer = DOTS;
    assert!(rt;
        is_printed(
            print_sheet_line(&remark(2), &mut buffer),
            &buffer,
            b"# M1\n"
        )
    );
    buffer = DOTS;
    let record = Line::Record([131, 20_000, 33, 0]);
    assert!(rt;
        is_printed(
            print_sheet_line(&record, &mut buffer),
            &buffer,
            b"131 20000 33 0\n"
        )
    );
    buffer = DOTS;
    assert!(rt; is_printed(print_table_head(1, &mut buffer), &buffer, b"RIGHT 1\n"));
    buffer = DOTS;
    assert!(rt;
        is_printed(
            print_record(&[193, 1, 1, 5], &mut buffer),
            &buffer,
            b"193 1 1 5\n"
        )
    );
    buffer = DOTS;
    assert!(rt; is_printed(print_end(7, 2, &mut buffer), &buffer, b"END 7 2\n"));
}

// An empty remark, one whose stored length is past its bytes, and the largest numbers.
#[test]
fn shortest_and_longest(rt: HostRuntime) {
    let mut buffer = DOTS;
    assert!(rt; is_printed(print_sheet_line(&remark(0), &mut buffer), &buffer, b"# \n"));
    buffer = DOTS;
    let text = b"# M1 up to the 24th letter\n";
    assert!(rt; is_printed(print_sheet_line(&remark(255), &mut buffer), &buffer, text));
    buffer = DOTS;
    let text = b"! 18446744073709551615 255\n";
    assert!(rt; is_printed(print_refusal(u64::MAX, 255, &mut buffer), &buffer, text));
    buffer = DOTS;
    let text = b"RIGHT 18446744073709551615\n";
    assert!(rt; is_printed(print_table_head(usize::MAX, &mut buffer), &buffer, text));
    buffer = DOTS;
    let text = b"4294967295 4294967295 4294967295 4294967295\n";
    assert!(rt; is_printed(print_record(&[u32::MAX; 4], &mut buffer), &buffer, text));
    buffer = DOTS;
    let text = b"END 18446744073709551615 18446744073709551615\n";
    assert!(rt; is_printed(print_end(u64::MAX, u64::MAX, &mut buffer), &buffer, text));
}

// A buffer of 63 bytes is refused, though the line would fit, and stays as it was.
#[test]
fn a_short_buffer(rt: HostRuntime) {
    let mut buffer = [b'.'; 63];
    let answer = print_sheet_head(2, &mut buffer);
    assert_eq!(rt; answer, Err(PrintRefusal::ShortBuffer));
    assert!(rt; answer.err().map(PrintRefusal::number) == Some(12));
    assert!(rt; buffer == [b'.'; 63]);
}
