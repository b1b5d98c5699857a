// Line 8: memory that just has room for a board, and memory that is one row short.
use super::{bytes_of, cells, file_of};
use boards::board_of;
use bounds::row::Row;
use job::job::Job;
use records::refused::Refused;
use std::test::Fail;

// The cells from 19 on, and a plate of 10 bytes.
#[test]
fn room(rt: HostRuntime) -> Result<(), Fail> {
    let heap = rt.alloc();
    let plate = bytes_of(heap, &[2, 3, 2, 0, 1])?;
    for (number, rows, saved, short_at) in [
        (4, 4, 64, None),
        (4, 5, 65, None),
        (4, 3, 64, Some(45)),
        (4, 4, 63, Some(45)),
        (4, 64, 4, Some(45)),
        (4, 0, 0, Some(45)),
        (1024, 1024, 16384, None),
        (1024, 1023, 16384, Some(4125)),
        (1024, 1024, 16383, Some(4125)),
    ] {
        let file = file_of(heap, &[(1, &cells(heap, number)?), (2, &plate)])?;
        let job = Job::read(&file)?;
        let board = board_of(
            &job,
            vec![in heap; Row::default(); rows]?,
            vec![in heap; Row::default(); saved]?,
        );
        let expected = short_at.map(|place| Refused {
            number: 8,
            kind: 0,
            place,
        });
        assert_eq!(rt;
            board.err().map(|no_room| no_room.refused),
            expected,
            "{rows} rows and {saved} for trials"
        );
    }
    Ok(())
}
