// `O`, `X` and prints: what writes to the caller's output. "paper out: the bytes of a print, `O` or `X` do not all fit"
ghost use Rattle.std.specs.Prelude.{◌≡◌};
ghost use Rattle.std.proofs.Math.Seq.{paste};
ghost use Rattle.language.specs.Effects.{column};
ghost use Rattle.language.specs.Syntax.{write, newline};
ghost use Rattle.language.specs.Machine.{is_print};
ghost use Rattle.numerals.specs.Numerals.{wrote, written};
ghost use Rattle.operands.specs.Held.{printing, writing};
ghost use Rattle.operands.specs.Operands.{prints_from};
ghost use Rattle.operands.specs.Turns.{Turns, operator_turn, mark_at};
ghost use Rattle.operands.specs.Ready.{Writing, Printing};
ghost use Rattle.paper.specs.Copies.{Copying};

use language::{Ending, HEIGHT, STORE_CELLS, WRITE_WIDTH};
use numerals::{money_column, write_bytes};
use operands::Machine;
use operands::cells::Code;

// The bytes of a print.
fn copy_cells(output: &mut [u8], to: usize, cells: &[i32; STORE_CELLS], from: usize, n: usize)
    requires { Copying output.old to cells.now from n }
    ensures { output.new ≡ paste output.old to (prints_from cells.now from n) n }
{
    for i in 0..n {
        output[to + i] = cells[from + i] as u8;
    }
}

// A value's columns at a place of the output: the place after them.
fn put_column(output: &mut [u8], at: usize, value: i32) -> usize
    ensures { wrote result output.new ≡ written output.old at (column value) }
{
    let text = money_column(value);
    write_bytes(output, at, &text)
}

// The mark `O`.
#[tactic(auto, unfolding(language::specs::Effects::perform))]
pub fn write(m: Machine, list: &[i32; HEIGHT], output: &mut [u8]) -> Machine
    requires { Writing m output.old }
    ensures { Turns (operator_turn write)
        (writing m list.now output.old) (writing result list.now output.new) }
{
    if m.left == 0 {
        return m.stop(Ending::Spent);
    }
    let h = m.height;
    if h < 1 {
        return m.stop(Ending::ListEmpty);
    }
    let w = m.written;
    if output.len() - w < WRITE_WIDTH {
        return m.stop(Ending::PaperOut);
    }
    let written = put_column(output, w, list[h - 1]);
    Machine { written, ..m }.go(m.at + 1, h)
}

// The mark `X`.
#[tactic(auto, unfolding(language::specs::Effects::perform))]
pub fn newline(m: Machine, output: &mut [u8]) -> Machine
    requires { Writing m output.old }
    ensures { Turns (operator_turn newline) (printing m output.old) (printing result output.new) }
{
    if m.left == 0 {
        return m.stop(Ending::Spent);
    }
    let w = m.written;
    if w < output.len() {
        output[w] = b'\n';
        return Machine {
            written: w + 1,
            ..m
        }
        .go(m.at + 1, m.height);
    }
    m.stop(Ending::PaperOut)
}

// A print: its length and the form of each byte, then the allowance, then the room.
pub fn print(m: Machine, cells: &[i32; STORE_CELLS], code: Code, output: &mut [u8]) -> Machine
    requires { Printing code m output.old }
    ensures { Turns (mark_at cells.now code is_print) (printing m output.old) (printing result output.new) }
{
    let at = m.at;
    let Some(n) = code.print_at(cells, at) else {
        return m.stop(Ending::Damaged);
    };
    if m.left == 0 {
        return m.stop(Ending::Spent);
    }
    let w = m.written;
    if output.len() - w < n {
        return m.stop(Ending::PaperOut);
    }
    copy_cells(output, w, cells, code.base + at + 1, n);
    Machine {
        written: w + n,
        ..m
    }
    .go(at + 2 + n, m.height)
}
