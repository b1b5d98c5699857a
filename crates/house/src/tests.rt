// The house's mirrors beside a job's triples: settled, tried and sought.
ghost use Rattle.std.specs.Prelude.{◌<◌};

use crate::family::{Mirrors, mirrors};
use crate::mirror::Mirror;
use board::board::Board;
use bounds::row::Row;
use rule_families::beside::Beside;
use rule_families::change::Change;
use rule_families::family::Family;
use rules::numbered::Rules;
use run::answer::Answer;
use run::call::Call;
use run::script::run;
use search::seek::seek;
use settling::settled::Settled;
use settling::watchers::Watchers;
use std::test::Fail;
use triples::family::Triples;

// A union-plus: cell 2 has the sum of cells 0 and 1.
const FILE: [u8; 8] = [3, 0, 0, 0, 1, 0, 2, 0];

const PLACES: [u16; 1] = [0];

// Cells 0 and 1 differ by at most 2; the second names a cell that the board lacks.
const MIRRORS: [Mirror; 2] = [
    Mirror {
        left: 0,
        right: 1,
        most: 2,
    },
    Mirror {
        left: 0,
        right: 3,
        most: 0,
    },
];

// A design, its mirror image, and twelve copies of both together.
const START: [Row; 3] = [
    Row { low: 0, high: 10 },
    Row { low: 6, high: 9 },
    Row { low: 12, high: 12 },
];

fn rules() -> Beside<Triples<'static>, Mirrors<'static>> {
    Beside {
        first: Triples::at(&FILE, &PLACES),
        second: mirrors(&MIRRORS),
    }
}

fn start(rt: &HostRuntime) -> Result<Board, Fail> {
    let rows = START.to_vec(rt.alloc())?;
    let saved = vec![in rt.alloc(); Row::default(); 48]?;
    Board::over(rows, saved, 3).map_err(|_| Fail::new("no board"))
}

#[test]
fn a_mirror_narrows_both_sides(rt: HostRuntime) {
    let mirrors = Rules(MIRRORS.as_slice());
    let mut rows = [
        Row { low: 0, high: 4 },
        Row { low: 5, high: 9 },
        Row { low: 12, high: 12 },
    ];
    assert_eq!(rt; mirrors.size(), 2);
    assert_eq!(rt; mirrors.narrow(0, &mut rows), Change::Narrowed);
    assert_eq!(rt;
        rows,
        [
            Row { low: 3, high: 4 },
            Row { low: 5, high: 6 },
            Row { low: 12, high: 12 },
        ]
    );
    assert_eq!(rt; mirrors.narrow(0, &mut rows), Change::Quiet);
    assert_eq!(rt;
        mirrors.narrow(1, &mut rows),
        Change::Quiet,
        "cell 3 is missing"
    );
}

#[test]
fn rows_too_far_apart_are_void(rt: HostRuntime) {
    let mirrors = mirrors(&MIRRORS);
    let mut rows = [
        Row { low: 0, high: 2 },
        Row { low: 5, high: 9 },
        Row { low: 12, high: 12 },
    ];
    assert_eq!(rt; mirrors.narrow(0, &mut rows), Change::Void);
    assert_eq!(rt; rows[0], Row { low: 0, high: 2 });
}

#[test]
fn settles_beside_triples(rt: HostRuntime) -> Result<(), Fail> {
    let mut board = start(&rt)?;
    assert_eq!(rt; board.settle(&rules()), Settled::Settled(2));
    assert_eq!(rt; Row::from(board.ask(0)?), Row { low: 4, high: 6 });
    assert_eq!(rt; Row::from(board.ask(1)?), Row { low: 6, high: 8 });
    Ok(())
}

#[test]
fn a_trial_is_taken_back(rt: HostRuntime) -> Result<(), Fail> {
    let mut board = start(&rt)?;
    board.settle(&rules());
    let slip = board.open()?;
    let tightened = board.tighten(0, 6, 6);
    let settled = board.settle(&rules());
    let tried = board.ask(1);
    board.drop(slip)?;
    tightened?;
    assert_eq!(rt; settled, Settled::Settled(1));
    assert_eq!(rt; Row::from(tried?), Row { low: 6, high: 6 });
    assert_eq!(rt; Row::from(board.ask(0)?), Row { low: 4, high: 6 });
    Ok(())
}

#[test]
fn the_first_plan_has_them_near(rt: HostRuntime) -> Result<(), Fail> {
    let board = start(&rt)?;
    let mut plan = [0; 3];
    let mut scratch = [Row::default(); 12];
    assert!(rt; seek(&board, &rules(), &mut plan, &mut scratch)?);
    assert_eq!(rt; plan, [5, 7, 12]);
    Ok(())
}

#[test]
fn two_plans_of_a_script(rt: HostRuntime) -> Result<(), Fail> {
    let mut board = start(&rt)?;
    let script = [
        Call::Seek,
        Call::Tighten {
            cell: 0,
            low: 6,
            high: 6,
        },
        Call::Seek,
        Call::Open,
    ];
    let mut answers = [Answer::NoPlan; 3];
    let mut plans = [0; 7];
    let mut scratch = [Row::default(); 12];
    let calls = run(
        &mut board,
        &rules(),
        &script,
        &mut answers,
        &mut plans,
        &mut scratch,
    );
    assert_eq!(rt; calls, 3, "there are three places for answers");
    assert_eq!(rt;
        answers,
        [
            Answer::Plan { from: 0, to: 3 },
            Answer::Granted,
            Answer::Plan { from: 3, to: 6 },
        ]
    );
    assert_eq!(rt; plans, [5, 7, 12, 6, 6, 12, 0]);
    Ok(())
}

// Which of the three rules are listed with the cell.
fn listed(watchers: &Watchers, cell: usize) -> [bool; 3]
    requires { cell < 1024 }
{
    let rules = watchers.by_cell[cell];
    [rules.contains(0), rules.contains(1), rules.contains(2)]
}

#[test]
fn a_table_lists_each_rule_with_its_cells(rt: HostRuntime) {
    let watchers = Watchers::of(&rules(), 3);
    assert_eq!(rt;
        listed(&watchers, 0),
        [true, true, false],
        "the board has no cell 3"
    );
    assert_eq!(rt; listed(&watchers, 1), [true, true, false]);
    assert_eq!(rt; listed(&watchers, 2), [true, false, false]);
    assert_eq!(rt; watchers.reach[0], 7);
    assert_eq!(rt; watchers.reach[1], 3);
    assert_eq!(rt; watchers.words, 1);
    assert_eq!(rt; watchers.resting(1), Some(1));
    assert_eq!(rt; watchers.resting(3), None, "there are three rules");
}

#[test]
fn a_table_of_many_rules_lists_no_other(rt: HostRuntime) {
    let idle = Mirror {
        left: 2,
        right: 2,
        most: 0,
    };
    let mut list = [idle; 65];
    list[0].left = 0;
    list[64].left = 64;
    let watchers = Watchers::of(&mirrors(&list), 65);
    assert!(rt; watchers.by_cell[0].contains(0));
    assert!(rt; watchers.by_cell[64].contains(64));
    assert!(rt; !watchers.by_cell[0].contains(64));
    assert!(rt; !watchers.by_cell[64].contains(0));
    assert_eq!(rt; watchers.words, 2);
}
