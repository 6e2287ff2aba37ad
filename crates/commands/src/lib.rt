// One desk line over a store that the caller lends: the call it asks for, done, and the bytes that it prints.
#![tactic(auto)]

ghost use Rattle.std.specs.Prelude.{◌≡◌, ◌≤◌, length};
ghost use Rattle.numerals.specs.Numerals.{wrote, written};
ghost use Rattle.columns.specs.Printed.{columns, plain_columns};
ghost use Rattle.book.specs.Store.{store_call};
ghost use Rattle.engine.specs.Stored.{stored};
ghost use Rattle.lines.specs.Lines.{run};
ghost use Rattle.commands.specs.Served.{paper_bytes, granted, printed, performs, performed};

use book::answer_number;
use columns::{LineColumns, top, write_columns, write_output};
use engine::Store;
use language::{CASHIER, HEIGHT, OPEN};
use lines::{BAD_LINE, Command, FIELD_START, INPUTS, parse};

// "a run's output (4,096 bytes lent)"
const OUTPUT: usize = 4096;

// Room for what a line can print: its columns, a run's output and a newline.
pub const PAPER: usize = 4200;

// "zeros for `D` and `X` and for refusals"
fn tell(paper: &mut [u8], line: u32, answer: u32) -> usize
    ensures { wrote result paper.new ≡ written paper.old 0 (columns (plain_columns line answer)) }
{
    let f = LineColumns {
        line,
        answer,
        truth: false,
        steps: 0,
        height: 0,
        top: 0,
    };
    write_columns(paper, 0, f)
}

// `R` letter allowance inputs: "`R` runs as a cashier".
fn execute(
    store: &mut Store,
    line: u32,
    letter: u32,
    allowance: u32,
    inputs: &[i32],
    paper: &mut [u8],
) -> usize
    requires { paper_bytes ≤ length paper.old }
    ensures { performs (stored store.new) result paper.new
        ≡ printed paper.old (granted store_call (stored store.old) line (run letter allowance inputs.now)) }
{
    let mut list = [0i32; HEIGHT];
    let mut output = [0u8; OUTPUT];
    let report = runner::run(
        &store.cells,
        &store.used,
        &store.permissions,
        &mut store.vars,
        letter,
        CASHIER,
        allowance,
        inputs,
        &mut list,
        &mut output,
    );
    let height = report.height;
    let f = LineColumns {
        line,
        answer: report.number,
        truth: report.truth,
        steps: report.steps,
        height: height as u32,
        top: top(&list, height),
    };
    let end = write_columns(paper, 0, f);
    write_output(paper, end, &output[..report.written])
}

// One desk line, without its newline: what it prints stands at the start of the paper, and the answer is how many bytes that is. A paper without room
// for any line has nothing done and nothing printed.
pub fn perform(store: &mut Store, number: u32, line: &[u8], paper: &mut [u8]) -> usize
    ensures { performs (stored store.new) result paper.new ≡ performed (stored store.old) number line.now paper.old }
{
    if paper.len() < PAPER {
        return 0;
    }
    let mut inputs = [0i32; INPUTS];
    match parse(line, &mut inputs) {
        Some(Command::Define(letter)) => {
            let answer = lent::define(
                &mut store.cells,
                &mut store.used,
                &mut store.permissions,
                &store.vars,
                u32::from(letter),
                OPEN,
                &line[FIELD_START..],
            );
            tell(paper, number, answer_number(answer))
        }
        Some(Command::Withdraw(letter)) => {
            let answer = lent::withdraw(
                &mut store.cells,
                &mut store.used,
                &mut store.permissions,
                &store.vars,
                u32::from(letter),
            );
            tell(paper, number, answer_number(answer))
        }
        Some(Command::Run(letter, allowance, count)) => {
            execute(
                store,
                number,
                u32::from(letter),
                allowance,
                &inputs[..count],
                paper,
            )
        }
        None => tell(paper, number, BAD_LINE),
    }
}
