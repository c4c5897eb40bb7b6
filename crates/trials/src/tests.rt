// What a pair of the supplied row answers and holds.
use documents::fault::Fault;
use documents::line::Line;
use pair::pair::Pair;
use supplied::row::{SuppliedRow, supplied_row};

// The number of the refusal of a frame that is not accepted.
fn refusal(pair: &mut Pair<'_, SuppliedRow>, bytes: &[u8]) -> Option<u8> {
    pair.play(bytes).err().map(Fault::number)
}

// A pair of size 256 takes 256 lines, and refuses the next one with 6.
#[test]
fn the_257th_line_is_refused(rt: HostRuntime) {
    let mut lines = [Line::Record([0; 4]); 300];
    let mut records = [[0u32; 4]; 300];
    let mut links = [supplied_row(); 300];
    let mut pair = Pair::open(&mut lines, &mut records, &mut links, supplied_row());
    for _ in 0..256 {
        assert_eq!(rt; refusal(&mut pair, b"LI\x00\x00"), None);
    }
    assert_eq!(rt; refusal(&mut pair, b"LI\x00\x00"), Some(6));
    assert!(rt; pair.line_count() == 256 && pair.record_count() == 256);
}

// A remark and a record, changed from both sides: the table counts lots of what the sheet counts singly.
#[test]
fn a_record_changed_from_both_sides(rt: HostRuntime) {
    let mut lines = [Line::Record([0; 4]); 4];
    let mut records = [[0u32; 4]; 4];
    let mut links = [supplied_row(); 4];
    let mut pair = Pair::open(&mut lines, &mut records, &mut links, supplied_row());
    assert_eq!(rt; refusal(&mut pair, b"LI\x00\x00"), None);
    assert_eq!(rt; refusal(&mut pair, b"LN\x00\x00M1"), None);
    assert_eq!(rt;
        refusal(&mut pair, b"LC\x00\x01\x01A\x00\x00\x4E\x1F"),
        None
    );
    assert_eq!(rt;
        refusal(&mut pair, b"LC\x00\x01\x01A\x00\x00\x00\x01"),
        None
    );
    assert_eq!(rt;
        refusal(&mut pair, b"RC\x00\x00\x01A\xFF\xFF\xFF\xFE"),
        Some(9)
    );
    assert_eq!(rt;
        refusal(&mut pair, b"RC\x00\x00\x03S\x00\x00\x00\x05"),
        None
    );
    assert_eq!(rt;
        refusal(&mut pair, b"LC\x00\x01\x00S\x00\x00\x00\x83"),
        None
    );
    assert_eq!(rt;
        refusal(&mut pair, b"LC\x00\x00\x00S\x00\x00\x00\x01"),
        Some(7)
    );
    assert_eq!(rt;
        refusal(&mut pair, b"LC\x00\x01\x02F\x00\x31\x00\x21"),
        None
    );
    assert!(rt; pair.line_count() == 2 && pair.record_count() == 1);
    let row = pair.line(1).ok().and_then(|line| line.row());
    assert_eq!(rt; row, Some([131, 20_000, 33, 0]));
    assert_eq!(rt; pair.record(0).ok(), Some([193, 1, 1, 5]));
}
