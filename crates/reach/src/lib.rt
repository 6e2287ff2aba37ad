// What a letter can reach: which letters it may call, through however many others, and which of those have no text.
#![tactic(auto)]

ghost use Rattle.std.specs.Prelude.{◌≡◌};
ghost use Rattle.book.specs.Store.{store_of};
ghost use Rattle.marks.specs.Formats.{Row};
ghost use Rattle.reach.specs.Errors.{error_number, reach_number};
ghost use Rattle.reach.specs.Reach.{spread, spread_by, most_calls, missing_of, reports, reach};
ghost use Rattle.reach.specs.Rounds.{tables, in_array, Counted, ReadsOne, Clear, ReadsAll, marks_of, with_row};
ghost use Rattle.reach.specs.declared.ReachError.TheVariants.{Refused};

use admission::View;
use book::Refusal;
use language::{Ending, LETTERS, STORE_CELLS, Table, VARIABLES};
use marks::CALLS;
use operands::cells::Code;

// A chain that comes to no letter twice has no more calls than this.
const MOST_CALLS: usize = LETTERS - 1;

// Why there is no report of a letter: "13, 1, 10 in that order, then 29".
#[derive(Clone, Copy, Debug, PartialEq, Eq)]
pub enum ReachError {
    Refused(Refusal),
    Damaged,
}

impl ReachError {
    // The documents' number.
    pub fn number(self) -> u32
        ensures { result ≡ error_number self }
    {
        match self {
            ReachError::Refused(refusal) => refusal.number(),
            ReachError::Damaged => Ending::Damaged.number(),
        }
    }
}

impl From<Refusal> for ReachError {
    ghost from_gives = { λ r e. e ≡ Refused r };

    // A call that is refused like any other.
    fn from(refusal: Refusal) -> ReachError {
        ReachError::Refused(refusal)
    }
}

// 0, or the number of the error.
pub fn reach_number(answer: Result<(), ReachError>) -> u32
    ensures { result ≡ reach_number answer }
{
    match answer {
        Ok(()) => 0,
        Err(error) => error.number(),
    }
}

// ── the calls of all letters ────────────────────────────────────────────────────────────────────

// Reads the table of letter a, if it stands: whether it is undamaged. The letters that it calls are ticked in its row.
fn read_one(
    cells: &[i32; STORE_CELLS],
    used: &[usize; LETTERS],
    a: usize,
    calls: &mut [u8; CALLS],
) -> bool
    requires { Counted used.now a }
    ensures { ReadsOne (tables cells.now used.now) a calls.old result calls.new }
{
    let end = used[a];
    if end == 0 {
        return true;
    }
    let code = Code {
        base: a * Table::CELLS,
        end,
    };
    marks::read(cells, code, calls, a * LETTERS)
}

// Reads every standing table: whether all are undamaged. Then all rows are ticked.
fn read_all(cells: &[i32; STORE_CELLS], used: &[usize; LETTERS], calls: &mut [u8; CALLS]) -> bool
    requires { Clear used.now calls.old }
    ensures { ReadsAll (tables cells.now used.now) result calls.new }
{
    for letter in 0..LETTERS {
        if !read_one(cells, used, letter, calls) {
            return false; // damage
        }
    }
    true
}

// ── the letters that are reached ────────────────────────────────────────────────────────────────

// What is reached, and what the row of the calls that starts at `from` has.
fn with_row(calls: &[u8; CALLS], from: usize, reached: [bool; LETTERS]) -> [bool; LETTERS]
    requires { Row from }
    ensures { marks_of result ≡ with_row calls.now from (marks_of reached) }
{
    let mut next = reached;
    for b in 0..LETTERS {
        next[b] = reached[b] | (calls[from + b] == 1);
    }
    next
}

// A call further: what is reached, and what a letter that is reached calls.
fn spread(calls: &[u8; CALLS], reached: &[bool; LETTERS]) -> [bool; LETTERS]
    ensures { marks_of result ≡ spread (in_array calls.now) (marks_of reached.now) }
{
    let mut next = *reached;
    for a in 0..LETTERS {
        if reached[a] {
            let more = with_row(calls, a * LETTERS, next);
            next = more;
        }
    }
    next
}

// All that is reached from these letters.
fn follow(calls: &[u8; CALLS], start: [bool; LETTERS]) -> [bool; LETTERS]
    ensures { marks_of result ≡ spread_by (in_array calls.now) most_calls (marks_of start) }
{
    let mut reached = start;
    for _n in 0..MOST_CALLS {
        let next = spread(calls, &reached);
        if next == reached {
            return reached;
        }
        reached = next;
    }
    reached
}

// The letters reached that have no text.
fn without_text(used: &[usize; LETTERS], reached: &[bool; LETTERS]) -> [bool; LETTERS]
    ensures { marks_of result ≡ missing_of used.now (marks_of reached.now) }
{
    let mut missing = [false; LETTERS];
    for b in 0..LETTERS {
        missing[b] = reached[b] & (used[b] == 0);
    }
    missing
}

// The marks of these letters: 1, and of every other 0.
fn marks(letters: [bool; LETTERS]) -> [u8; LETTERS]
    ensures { result ≡ marks_of letters }
{
    let mut marks = [0; LETTERS];
    for b in 0..LETTERS {
        marks[b] = u8::from(letters[b]);
    }
    marks
}

// ── the report ──────────────────────────────────────────────────────────────────────────────────

// The letters that a letter reaches, and those of them that have no text, marked 1 in the two arrays. Where there is no report, both arrays stay as they
// were.
pub fn reach(
    cells: &[i32; STORE_CELLS],
    used: &[usize; LETTERS],
    permissions: &[u32; LETTERS],
    vars: &[i32; VARIABLES],
    letter: u32,
    reached: &mut [u8; LETTERS],
    missing: &mut [u8; LETTERS],
) -> Result<(), ReachError>
    ensures { reports (reach_number result) reached.new missing.new
        ≡ reach (store_of cells.now used.now permissions.now vars.now) letter reached.old missing.old }
{
    let view = View {
        used,
        permissions,
        vars,
    };
    view.text(letter)?;
    let a = admission::index(letter);
    // The array is what `marks::read` ticks, in flags of 0 and 1.
    let mut calls = [0; CALLS];
    if !read_all(cells, used, &mut calls) {
        return Err(ReachError::Damaged);
    }
    let mut start = [false; LETTERS];
    start[a] = true;
    let found = follow(&calls, start);
    *reached = marks(found);
    *missing = marks(without_text(used, &found));
    Ok(())
}
