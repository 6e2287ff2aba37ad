// The marks of a draft: document 01's cells, what waits in them, and a refused mark.
use crate::pass::{Draft, Open};
use language::{CONSTANT_CODE, Fault, Table};
use std::process::Abort;

#[derive(Clone, Copy)]
enum Mark {
    Operator(u8),
    Operand(u8, i32),
    Test(u8),
    Counter(u32),
    Semicolon,
    Colon,
    Open,
    Close,
    Print([u8; 2]),
}

fn lay(rt: &impl Abort, draft: &mut Draft, mark: Mark) -> Result<(), Fault> {
    assert!(rt; draft.used <= Table::CELLS && 1 <= draft.level && draft.level <= Table::LEVELS);
    match mark {
        Mark::Operator(b) => draft.operator(b),
        Mark::Operand(code, value) => draft.operand(code, value),
        Mark::Test(b) => draft.test(b),
        Mark::Counter(n) => {
            assert!(rt; n <= 9999);
            draft.counter(n)
        }
        Mark::Semicolon => draft.semicolon(),
        Mark::Colon => draft.colon(),
        Mark::Open => draft.open(),
        Mark::Close => draft.close(),
        Mark::Print(bytes) => draft.print(&bytes),
    }
}

// `('/0'($5$'/1'+:;);)`
#[test]
fn lays_a_loop(rt: HostRuntime) {
    let mut draft = Draft::fresh();
    for mark in [
        Mark::Operand(CONSTANT_CODE, 0),
        Mark::Open,
        Mark::Counter(5),
        Mark::Operand(CONSTANT_CODE, 1),
        Mark::Operator(b'+'),
        Mark::Colon,
        Mark::Semicolon,
        Mark::Close,
        Mark::Semicolon,
        Mark::Close,
    ] {
        assert_eq!(rt; lay(&rt, &mut draft, mark), Ok(()));
    }
    let cells = [2000, -175, 0, -36, -5, 0, 0, -175, 1, -43, 4, 0, 0, 0, 0, 1];
    assert_eq!(rt; draft.cells[..16], cells[..]);
    assert_eq!(rt; draft.opens[6], Open::Exit(2));
    assert_eq!(rt; draft.opens[10], Open::Colon(2));
    assert_eq!(rt; draft.opens[11], Open::End(2));
    assert_eq!(rt; draft.opens[12], Open::Close(1));
    assert_eq!(rt; draft.opens[13], Open::End(1));
    assert_eq!(rt; draft.opens[14], Open::Close(0));
    assert_eq!(rt; draft.opens[15], Open::Known);
    assert_eq!(rt; (draft.level, draft.used, draft.counters), (0, 16, 1));
}

// Each cell of a mark is written, in a draft whose cells all wait.
#[test]
fn writes_each_cell(rt: HostRuntime) {
    let known = Open::Known;
    let wait = Open::Exit(9);
    for (mark, cells, opens) in [
        (
            Mark::Operator(b'+'),
            [-43, 9, 9, 9, 9],
            [known, wait, wait, wait, wait],
        ),
        (
            Mark::Operand(b'F', 3),
            [-70, 3, 9, 9, 9],
            [known, known, wait, wait, wait],
        ),
        (
            Mark::Test(b'N'),
            [-78, 0, 9, 9, 9],
            [known, Open::Exit(1), wait, wait, wait],
        ),
        (
            Mark::Counter(7),
            [-36, -7, 0, 0, 9],
            [known, known, known, Open::Exit(1), wait],
        ),
        (
            Mark::Semicolon,
            [0, 9, 9, 9, 9],
            [Open::End(1), wait, wait, wait, wait],
        ),
        (
            Mark::Colon,
            [2, 9, 9, 9, 9],
            [Open::Colon(1), wait, wait, wait, wait],
        ),
        (Mark::Open, [9, 9, 9, 9, 9], [wait, wait, wait, wait, wait]),
        (
            Mark::Close,
            [0, 1, 9, 9, 9],
            [Open::Close(0), known, wait, wait, wait],
        ),
        (
            Mark::Print([b'a', b'b']),
            [-167, 2, 97, 98, 9],
            [known, known, known, known, wait],
        ),
    ] {
        let mut draft = Draft::fresh();
        draft.cells = [9; Table::CELLS];
        draft.opens = [wait; Table::CELLS];
        assert_eq!(rt; lay(&rt, &mut draft, mark), Ok(()));
        assert_eq!(rt; (draft.cells[0], draft.opens[0]), (9, wait));
        assert_eq!(rt; draft.cells[1..6], cells[..]);
        assert_eq!(rt; draft.opens[1..6], opens[..]);
    }
}

// A mark may end in cell 250, be the 16th counter, or open the tenth level.
#[test]
fn takes_what_just_fits(rt: HostRuntime) {
    for (mark, used, counters, level) in [
        (Mark::Operator(b'+'), 249, 0, 1),
        (Mark::Operand(b'F', 3), 248, 0, 1),
        (Mark::Test(b'N'), 248, 0, 1),
        (Mark::Counter(7), 246, 15, 1),
        (Mark::Semicolon, 249, 0, 1),
        (Mark::Colon, 249, 0, 1),
        (Mark::Open, 250, 0, 9),
        (Mark::Close, 248, 0, 1),
        (Mark::Close, 249, 0, 2),
        (Mark::Print([b'a', b'b']), 246, 0, 1),
    ] {
        let mut draft = Draft::fresh();
        draft.used = used;
        draft.counters = counters;
        draft.level = level;
        assert_eq!(rt; lay(&rt, &mut draft, mark), Ok(()));
        assert_eq!(rt; draft.used, Table::CELLS);
    }
}

// A refused mark leaves the draft as it was.
#[test]
fn refused_marks_change_nothing(rt: HostRuntime) {
    for (mark, used, counters, level, why) in [
        (Mark::Operator(b'+'), 250, 0, 1, Fault::TableFull),
        (Mark::Operand(b'F', 3), 249, 0, 1, Fault::TableFull),
        (Mark::Test(b'N'), 249, 0, 1, Fault::TableFull),
        (Mark::Counter(7), 247, 15, 1, Fault::TableFull),
        (Mark::Counter(7), 250, 16, 1, Fault::ManyCounters),
        (Mark::Semicolon, 250, 0, 1, Fault::TableFull),
        (Mark::Colon, 250, 0, 1, Fault::TableFull),
        (Mark::Open, 250, 0, 10, Fault::Deep),
        (Mark::Close, 249, 0, 1, Fault::TableFull),
        (Mark::Close, 250, 0, 2, Fault::TableFull),
        (Mark::Print([b'a', b'b']), 247, 0, 1, Fault::TableFull),
    ] {
        let mut draft = Draft::fresh();
        draft.used = used;
        draft.counters = counters;
        draft.level = level;
        draft.opens = [Open::Exit(9); Table::CELLS];
        let before = draft;
        assert_eq!(rt; lay(&rt, &mut draft, mark), Err(why));
        assert_eq!(rt;
            (draft.level, draft.used, draft.counters),
            (level, used, counters)
        );
        assert_eq!(rt; draft.cells[..], before.cells[..]);
        assert_eq!(rt; draft.opens[..], before.opens[..]);
        assert_eq!(rt; draft.starts[..], before.starts[..]);
    }
}
