// A code table read mark after mark: whether any cell that is met is damaged, and which letters it calls.
#![tactic(auto)]

ghost use Rattle.std.specs.Prelude.{◌≡◌, []};
ghost use Rattle.language.specs.Machine.{decode};
ghost use Rattle.operands.specs.Operands.{table_in};
ghost use Rattle.operands.specs.Ready.{Inside};
ghost use Rattle.marks.specs.Formats.{format_of, end_of, mark_end, called_of, ticked, Row, Standing, Reads, Found};

use language::{CONSTANT_CODE, LETTERS, PRINT_CODE, STORE_CELLS, Table};
use operands::cells::{Code, Due};
use validation::is_value;

// The calls of all letters by all letters: the place 26 a + b is 1 where a calls b. Numbers in one array, as the clause `Reads` says it of a list.
pub const CALLS: usize = LETTERS * LETTERS;

// A mark's format, of document 01's list of marks and their cells: "code", "code, digit", "code, the value", "code, false", a counter's "-36, -n,
// its order .., false", a print's "code, length, bytes"; or none, where a byte is no code.
#[derive(Clone, Copy, Debug, PartialEq, Eq)]
enum Format {
    Bare,
    Digit,
    Value,
    Exit,
    Counter,
    Bytes,
    NoCode,
}

// The format of the mark whose code is this byte.
#[tactic(auto, unfolding(crate::specs::Formats::format_of, language::specs::Machine::kind))]
fn format_of(b: u8) -> Format
    ensures { result ≡ format_of b }
{
    match b {
        b'A' | b'L' | b'M' | b'P' | b'O' | b'X' | b'I' | b'+' | b'-' | b'*' | b'/' => Format::Bare,
        b'F' | b'S' => Format::Digit,
        CONSTANT_CODE => Format::Value,
        b'N' | b'0' | b'J' | b'a'..=b'z' => Format::Exit,
        b'$' => Format::Counter,
        PRINT_CODE => Format::Bytes,
        _ => Format::NoCode,
    }
}

// The cell after the mark of that format at the due cell.
#[tactic(auto, unfolding(crate::specs::Formats::mark_end))]
fn mark_end(cells: &[i32; STORE_CELLS], code: Code, at: usize, format: Format) -> Option<usize>
    requires { Inside code at }
    ensures { result ≡ mark_end cells.now code at format }
{
    match format {
        Format::Bare => Some(at + 1),
        Format::Digit => {
            code.digit_at(cells, at)?;
            Some(at + 2)
        }
        Format::Value => {
            let value = code.second_cell(cells, at)?;
            if is_value(value) {
                Some(at + 2) // code and value
            } else {
                None
            }
        }
        Format::Exit => {
            code.exit_of(cells, at)?;
            Some(at + 2)
        }
        Format::Counter => {
            code.counter_at(cells, at)?;
            Some(at + 4) // code, number, order and false
        }
        Format::Bytes => {
            let n = code.print_at(cells, at)?;
            Some(at + 2 + n)
        }
        Format::NoCode => None,
    }
}

// The cell after the instruction at the due cell, which holds `due`; none where a cell of it is damaged.
fn next_cell(cells: &[i32; STORE_CELLS], code: Code, at: usize, due: Due) -> Option<usize>
    requires { Found cells.now code at due }
    ensures { result ≡ end_of (decode (table_in cells.now code) at) at }
{
    match due {
        Due::Mark(b) => mark_end(cells, code, at, format_of(b)),
        Due::Transfer => {
            code.target(code.cell(cells, at))?;
            Some(at + 1) // one cell
        }
        Due::End => None,
    }
}

// The place of the letter that a due cell calls, in the row of the calls that starts at `from`, becomes 1. Where it calls none, nothing changes.
fn tick(calls: &mut [u8; CALLS], from: usize, due: Due)
    requires { Row from }
    ensures { calls.new ≡ ticked calls.old from (called_of due []) }
{
    if let Due::Mark(b) = due
        && b.is_ascii_lowercase()
    {
        calls[from + (b - b'a') as usize] = 1;
    }
}

// Reads the table at `code`. The answer is whether no cell that is met is damaged; the letters that it calls up to there are ticked in the row of the
// calls that starts at `from`.
pub fn read(cells: &[i32; STORE_CELLS], code: Code, calls: &mut [u8; CALLS], from: usize) -> bool
    requires { Standing code from }
    ensures { Reads (table_in cells.now code) calls.old from result calls.new }
{
    let mut at = Table::CODE_START;
    while at + 1 < code.end {
        let due = code.byte_at(cells, at);
        let Some(next) = next_cell(cells, code, at, due) else {
            return false;
        };
        tick(calls, from, due);
        at = next;
    }
    if code.cell(cells, at) != 0 {
        return false;
    }
    code.cell(cells, at + 1) == 1
}
