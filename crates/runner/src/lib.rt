// A run over a store's arrays, as document 01's "Run" asks: its refusals in their order, then the interpreter.
#![tactic(auto)]

ghost use Rattle.std.specs.Prelude.{◌≡◌, ◌≤◌};
ghost use Rattle.book.specs.Calls.{running};
ghost use Rattle.book.specs.Store.{store_of, store_call, answered};
ghost use Rattle.runner.specs.Figures.{Admitted, Ended, returns, returned};

use admission::View;
use book::Report;
use interpreter::cycle::{drive, report};
use language::{LETTERS, STORE_CELLS, VARIABLES};
use operands::{Machine, Status};

// The figures of a run beside its number.
pub const FIGURES: usize = 5;

// What a run comes to once the loop is over. "Only a finished run changes variables; any other leaves them as before it."
fn ended(
    m: Machine,
    allowance: u32,
    before: [i32; VARIABLES],
    vars: &mut [i32; VARIABLES],
) -> Report
    requires { m.left ≤ allowance }
    ensures { Ended allowance m before vars.old result vars.new }
{
    if let Status::Stopped(_) = m.status {
        *vars = before;
    }
    report(m, allowance)
}

// A run that no refusal meets: the loop over copies of the store's counts and permissions, and its report. It stays apart from the tests before it, which
// would cost the loop registers (docs/PERFORMANCE.md).
#[inline(never)]
fn execute(
    cells: &[i32; STORE_CELLS],
    used: &[usize; LETTERS],
    permissions: &[u32; LETTERS],
    vars: &mut [i32; VARIABLES],
    letter: u32,
    role: u32,
    allowance: u32,
    inputs: &[i32],
    list: &mut [i32],
    output: &mut [u8],
) -> Report
    requires { Admitted (store_of cells.now used.now permissions.now vars.old) (running letter role allowance inputs.now list.old output.old) }
    ensures { answered (store_of cells.now used.now permissions.now vars.new) result list.new output.new
        ≡ store_call (store_of cells.now used.now permissions.now vars.old)
        (running letter role allowance inputs.now list.old output.old) }
{
    let before = *vars;
    let counts = *used;
    let guards = *permissions;
    let k = admission::index(letter);
    let m = drive(
        cells,
        &counts,
        &guards,
        role, // of the caller
        inputs,
        k,
        allowance as usize,
        vars,
        list,
        output,
    );
    ended(m, allowance, before, vars)
}

// A run of any store by a caller with this role. The cells of letter a are those from 250 a on. The role is written nowhere.
pub fn run(
    cells: &[i32; STORE_CELLS],
    used: &[usize; LETTERS],
    permissions: &[u32; LETTERS],
    vars: &mut [i32; VARIABLES],
    letter: u32,
    role: u32,
    allowance: u32,
    inputs: &[i32],
    list: &mut [i32],
    output: &mut [u8],
) -> Report
    ensures { answered (store_of cells.now used.now permissions.now vars.new) result list.new output.new
        ≡ store_call (store_of cells.now used.now permissions.now vars.old)
        (running letter role allowance inputs.now list.old output.old) }
{
    let view = View {
        used,
        permissions,
        vars,
    };
    if let Err(refusal) = view.run(letter, role, inputs, list) {
        return Report::plain(refusal.number());
    }
    execute(
        cells,
        used,
        permissions,
        vars,
        letter,
        role,
        allowance,
        inputs,
        list,
        output,
    )
}

// ── for C ───────────────────────────────────────────────────────────────────────────────────────

// The same run for C: the number, and truth, steps, list height, inputs taken and output length beside it.
pub fn run_into(
    cells: &[i32; STORE_CELLS],
    used: &[usize; LETTERS],
    permissions: &[u32; LETTERS],
    vars: &mut [i32; VARIABLES],
    letter: u32,
    role: u32,
    allowance: u32,
    inputs: &[i32],
    list: &mut [i32],
    output: &mut [u8],
    figures: &mut [usize; FIGURES],
) -> u32
    ensures { returns (store_of cells.now used.now permissions.now vars.new) result list.new output.new figures.new
        ≡ returned (store_call (store_of cells.now used.now permissions.now vars.old)
        (running letter role allowance inputs.now list.old output.old)) }
{
    let report = run(
        cells,
        used,
        permissions,
        vars,
        letter,
        role,
        allowance,
        inputs,
        list,
        output,
    );
    *figures = [
        usize::from(report.truth),
        report.steps as usize,
        report.height,
        report.taken,
        report.written,
    ];
    report.number
}
