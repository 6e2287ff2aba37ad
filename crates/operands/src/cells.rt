// What the cells of a table say, read as plain numbers: each reader answers `None` where the cell is damaged. `at` is the due cell.
ghost use Rattle.std.specs.Prelude.{◌≡◌, ◌<◌, ◌+◌, ◌≤◌};
ghost use Rattle.language.specs.Limits.{max_cells, store_cells};
ghost use Rattle.language.specs.Machine.{cell};
ghost use Rattle.operands.specs.Operands.{byte_of, byte_at, target_of, second_cell, second_at, exit_of, bounded_of, digit_at, negated_of, counter_at, print_at};
ghost use Rattle.operands.specs.Operands.{table_in, holds_print_byte, printable};
ghost use Rattle.operands.specs.Ready.{Placed, Inside};

use language::{CONSTANT_CODE, STORE_CELLS, Table, VARIABLES};

// The highest number of a counter: "an n outside 1 to 9999".
const MOST_LIMIT: u16 = 9999;

// A counter's last order.
const LAST_ORDER: usize = Table::COUNTERS - 1;

// Where a letter's code table stands in the store's cells: the index of its first cell, and its used-cell count.
#[derive(Clone, Copy, Debug, PartialEq, Eq)]
pub struct Code {
    pub base: usize,
    pub end: usize,
}

// What a due cell holds: a mark, by its byte, a transfer, or neither.
#[derive(Clone, Copy, Debug, PartialEq, Eq)]
pub enum Due {
    Mark(u8),
    Transfer,
    End,
}

// A counter: its number, "its order in the text from 0", and its false exit.
#[derive(Clone, Copy, Debug, PartialEq, Eq)]
pub struct Counter {
    pub limit: usize,
    pub order: usize,
    pub exit: usize,
}

// A number of 1 to `most`, which its cell holds negated: a mark's byte, a counter's number.
#[tactic(auto, unfolding(crate::specs::Operands::negated_of))]
fn negated(x: i32, most: u16) -> Option<usize>
    ensures { result ≡ negated_of most x }
{
    if 0 <= x {
        return None;
    }
    let n = x.unsigned_abs();
    if n <= u32::from(most) {
        Some(n as usize)
    } else {
        None
    }
}

// A number of `least` to `most`: a cell's number, a variable's digit, a counter's order, a print's length.
#[tactic(auto, unfolding(crate::specs::Operands::bounded_of))]
fn bounded(x: i32, least: usize, most: usize) -> Option<usize>
    ensures { result ≡ bounded_of least most x }
{
    if x < 0 {
        return None;
    }
    let n = x as usize;
    if n < least || most < n { None } else { Some(n) }
}

// A mark's byte, a transfer, or neither.
#[tactic(auto, unfolding(crate::specs::Operands::byte_of, crate::specs::Operands::negated_of))]
fn byte(x: i32) -> Due
    ensures { result ≡ byte_of x }
{
    if 0 < x {
        return Due::Transfer;
    }
    match negated(x, u16::from(CONSTANT_CODE)) {
        Some(b) => Due::Mark(b as u8),
        None => Due::End,
    }
}

// Whether a cell holds a byte of a print, 32 to 126 other than `'`.
#[tactic(auto, unfolding(crate::specs::Operands::holds_print_byte))]
fn holds_print_byte(x: i32) -> bool
    ensures { result ≡ holds_print_byte x }
{
    matches!(x, 32..=126) && x != i32::from(b'\'')
}

// Whether n cells from an index on are bytes of a print.
#[tactic(auto, unfolding(crate::specs::Operands::printable))]
fn prints(cells: &[i32; STORE_CELLS], from: usize, n: usize) -> bool
    requires { from + n ≤ store_cells }
    ensures { result ≡ printable cells.now from n }
{
    for i in from..from + n {
        if !holds_print_byte(cells[i]) {
            return false;
        }
    }
    true
}

impl Code {
    // The cell with this number, the first being 1.
    pub fn cell(self, cells: &[i32; STORE_CELLS], number: usize) -> i32
        requires placed { Placed self }
        requires some { 0 < number }
        requires within { number ≤ max_cells }
        ensures { result ≡ cell (table_in cells.now self) number }
    {
        cells[self.base + (number - 1)]
    }

    // What the due cell holds; neither a mark nor a transfer for the last two cells, and for what is outside 2 to used.
    #[tactic(auto, unfolding(crate::specs::Operands::byte_at))]
    pub fn byte_at(self, cells: &[i32; STORE_CELLS], at: usize) -> Due
        requires { Placed self }
        ensures { result ≡ byte_at (table_in cells.now self) at }
    {
        let last = self.end.saturating_sub(2);
        if at < Table::CODE_START || last < at {
            Due::End
        } else {
            byte(self.cell(cells, at))
        }
    }

    // A cell number within 2 to used.
    pub fn target(self, x: i32) -> Option<usize>
        ensures { result ≡ target_of x self.end }
    {
        bounded(x, Table::CODE_START, self.end)
    }

    // The second cell of a mark of two cells.
    #[tactic(auto, unfolding(crate::specs::Operands::second_cell))]
    pub fn second_cell(self, cells: &[i32; STORE_CELLS], at: usize) -> Option<i32>
        requires { Inside self at }
        ensures { result ≡ second_cell (table_in cells.now self) at }
    {
        if self.end < at + 3 {
            None
        } else {
            Some(self.cell(cells, at + 1))
        }
    }

    // The number of `least` to `most` that it holds.
    #[tactic(auto, unfolding(crate::specs::Operands::second_at))]
    fn second_at(
        self,
        cells: &[i32; STORE_CELLS],
        at: usize,
        least: usize,
        most: usize,
    ) -> Option<usize>
        requires { Inside self at }
        ensures { result ≡ second_at least most (table_in cells.now self) at }
    {
        let x = self.second_cell(cells, at)?;
        bounded(x, least, most)
    }

    // The false exit of a mark of two cells.
    pub fn exit_of(self, cells: &[i32; STORE_CELLS], at: usize) -> Option<usize>
        requires { Inside self at }
        ensures { result ≡ exit_of (table_in cells.now self) at }
    {
        self.second_at(cells, at, Table::CODE_START, self.end)
    }

    // The digit of a variable, 1 to 10.
    pub fn digit_at(self, cells: &[i32; STORE_CELLS], at: usize) -> Option<usize>
        requires { Inside self at }
        ensures { result ≡ digit_at (table_in cells.now self) at }
    {
        self.second_at(cells, at, 1, VARIABLES)
    }

    // A counter's number, order and false exit.
    #[tactic(auto, unfolding(crate::specs::Operands::counter_at))]
    pub fn counter_at(self, cells: &[i32; STORE_CELLS], at: usize) -> Option<Counter>
        requires { Inside self at }
        ensures { result ≡ counter_at (table_in cells.now self) at }
    {
        if self.end < at + 5 {
            return None;
        }
        let limit = negated(self.cell(cells, at + 1), MOST_LIMIT)?;
        let order = bounded(self.cell(cells, at + 2), 0, LAST_ORDER)?;
        let exit = self.target(self.cell(cells, at + 3))?;
        Some(Counter { limit, order, exit })
    }

    // The length of a print, whose bytes each have their form. The first of them stands at the index `base + at + 1`.
    #[tactic(auto, unfolding(crate::specs::Operands::print_at))]
    pub fn print_at(self, cells: &[i32; STORE_CELLS], at: usize) -> Option<usize>
        requires { Inside self at }
        ensures { result ≡ print_at cells.now self at }
    {
        let n = self.second_at(cells, at, 0, Table::CELLS)?;
        if self.end < at + 3 + n {
            return None;
        }
        if prints(cells, self.base + at + 1, n) {
            Some(n)
        } else {
            None
        }
    }
}
