use crate::family::Triples;
use bounds::row::Row;
use rule_families::change::Change;
use rule_families::family::Family;

// A union of cells 3 and 0 in cell 1, a union-plus of 0 and 1 in 2, a subset of 1 in 0, and a record of no kind.
const FILE: [u8; 32] = [
    1, 0, 3, 0, 0, 0, 1, 0, //
    3, 0, 0, 0, 1, 0, 2, 0, //
    4, 0, 1, 0, 0, 0, 9, 0, //
    5, 0, 0, 0, 1, 0, 2, 0,
];

const PLACES: [u16; 4] = [0, 8, 16, 24];

#[test]
fn where_one_part_cannot_reach_the_whole_the_other_must(rt: HostRuntime) {
    let triples = Triples::at(&FILE, &PLACES);
    let mut rows = [
        Row { low: 0, high: 2 },
        Row { low: 3, high: 9 },
        Row { low: 7, high: 8 },
        Row { low: 0, high: 5 },
    ];
    assert_eq!(rt; triples.narrow(0, &mut rows), Change::Narrowed);
    assert_eq!(rt;
        rows,
        [
            Row { low: 0, high: 2 },
            Row { low: 3, high: 5 },
            Row { low: 7, high: 8 },
            Row { low: 3, high: 5 },
        ]
    );
}

#[test]
fn a_sum_bounds_its_parts(rt: HostRuntime) {
    let triples = Triples::at(&FILE, &PLACES);
    let mut rows = [
        Row { low: 0, high: 3 },
        Row { low: 2, high: 2 },
        Row { low: 4, high: 9 },
        Row { low: 0, high: 5 },
    ];
    assert_eq!(rt; triples.narrow(1, &mut rows), Change::Narrowed);
    assert_eq!(rt;
        rows,
        [
            Row { low: 2, high: 3 },
            Row { low: 2, high: 2 },
            Row { low: 4, high: 5 },
            Row { low: 0, high: 5 },
        ]
    );
}

#[test]
fn a_sum_out_of_reach_is_void(rt: HostRuntime) {
    let triples = Triples::at(&FILE, &PLACES);
    let mut rows = [
        Row { low: 0, high: 3 },
        Row { low: 2, high: 2 },
        Row { low: 6, high: 9 },
        Row { low: 0, high: 5 },
    ];
    assert_eq!(rt; triples.narrow(1, &mut rows), Change::Void);
    assert_eq!(rt;
        rows,
        [
            Row { low: 0, high: 3 },
            Row { low: 2, high: 2 },
            Row { low: 6, high: 9 },
            Row { low: 0, high: 5 },
        ]
    );
}

#[test]
fn a_subset_has_at_most_the_whole(rt: HostRuntime) {
    let triples = Triples::at(&FILE, &PLACES);
    let mut rows = [
        Row { low: 1, high: 4 },
        Row { low: 2, high: 6 },
        Row { low: 0, high: 9 },
        Row { low: 0, high: 5 },
    ];
    assert_eq!(rt; triples.narrow(2, &mut rows), Change::Narrowed);
    assert_eq!(rt;
        rows,
        [
            Row { low: 2, high: 4 },
            Row { low: 2, high: 4 },
            Row { low: 0, high: 9 },
            Row { low: 0, high: 5 },
        ]
    );
}

#[test]
fn a_record_of_no_kind_is_quiet(rt: HostRuntime) {
    let triples = Triples::at(&FILE, &PLACES);
    let mut rows = [
        Row { low: 0, high: 3 },
        Row { low: 2, high: 2 },
        Row { low: 9, high: 9 },
        Row { low: 0, high: 5 },
    ];
    assert_eq!(rt; triples.narrow(3, &mut rows), Change::Quiet);
    assert_eq!(rt;
        rows,
        [
            Row { low: 0, high: 3 },
            Row { low: 2, high: 2 },
            Row { low: 9, high: 9 },
            Row { low: 0, high: 5 },
        ]
    );
}

#[test]
fn a_triple_touches_its_own_cells(rt: HostRuntime) {
    let triples = Triples::at(&FILE, &PLACES);
    assert_eq!(rt; triples.size(), 4);
    assert!(rt; triples.touches(0, 4, 1));
    assert!(rt; !triples.touches(0, 4, 2));
    assert!(rt;
        !triples.touches(2, 4, 2),
        "the third cell of a subset names nothing"
    );
    assert!(rt; !triples.touches(0, 3, 1), "cell 3 is missing");
}
