// The fetch and execute cycle: turns of the machine, from cell 2 of a letter until the run ends or stops.
ghost use Rattle.std.specs.Prelude.{◌≡◌, ◌<◌, ◌≤◌};
ghost use Rattle.language.specs.Limits.{max_letters};
ghost use Rattle.book.specs.Store.{store_of};
ghost use Rattle.operands.specs.Held.{held};
ghost use Rattle.dispatch.specs.Turning.{Turned};
ghost use Rattle.interpreter.specs.Runs.{Startable, Driven, report_from, ran};
ghost use Rattle.interpreter.specs.Fetching.{fetched, Obeying};

use book::Report;
use dispatch::machine::turn;
use language::{COUNTS, HEIGHT, LETTERS, STORE_CELLS, Table, VARIABLES};
use operands::cells::Code;
use operands::{Frame, Machine, Status};

// "the letter's used-cell count and its start in the store": the one place where they are fetched.
fn fetch(used: &[usize; LETTERS], letter: usize) -> Code
    requires { letter < max_letters }
    ensures { result ≡ fetched used.now letter }
{
    Code {
        base: letter * Table::CELLS,
        end: used[letter],
    }
}

// A mark is obeyed, or a return made: "before every mark the fetched pair is the store's for the letter then obeyed", and that letter is for the caller.
fn obey<'a>(
    m: Machine,
    cells: &'a [i32; STORE_CELLS],
    used: &'a [usize; LETTERS],
    permissions: &'a [u32; LETTERS],
    role: u32,
    pair: Code,
    inputs: &[i32],
    frames: &mut [Frame; Table::CALLS],
    counts: &mut [u32; COUNTS],
    vars: &mut [i32; VARIABLES],
    list: &mut [i32; HEIGHT],
    output: &mut [u8],
) -> Machine
    requires { Obeying used.now permissions.now role pair m frames.old output.old }
    ensures { Turned pair
        (held m cells.now used.now permissions.now role inputs.now frames.old counts.old
        vars.old list.old output.old)
        (held result cells.now used.now permissions.now role inputs.now frames.new counts.new
        vars.new list.new output.new) }
{
    turn(
        m,
        cells,
        used,
        permissions,
        role,
        pair,
        inputs,
        frames,
        counts,
        vars,
        list,
        output,
    )
}

// A run: whenever it enters a letter's code, when it starts, at a call and at a return, the letter's start and used-cell count are fetched; then marks are
// obeyed until it enters another, ends or stops. The operand stack is the function's own until then.
pub fn drive<'a>(
    cells: &'a [i32; STORE_CELLS],
    used: &'a [usize; LETTERS],
    permissions: &'a [u32; LETTERS],
    role: u32,
    inputs: &[i32],
    letter: usize,
    allowance: usize,
    vars: &mut [i32; VARIABLES],
    list: &mut [i32],
    output: &mut [u8],
) -> Machine
    requires { Startable letter used.now permissions.now role list.old }
    ensures { Driven allowance
        (ran (store_of cells.now used.now permissions.now vars.old)
        (record { letter = letter; role = role; allowance = allowance; inputs = inputs.now; output = output.old }))
        result vars.new list.new output.new }
{
    let none = Frame {
        letter: 0,
        next: 0,
        exit: 0,
    };
    let mut frames = [none; Table::CALLS];
    let mut counts = [0u32; COUNTS];
    let mut slots = [0i32; HEIGHT];
    let mut m = Machine {
        letter,
        at: Table::CODE_START,
        height: 0,
        depth: 0,
        taken: 0,
        written: 0,
        left: allowance,
        status: Status::Enters,
    };
    while let Status::Enters = m.status {
        let pair = fetch(used, m.letter);
        m.status = Status::Goes;
        while let Status::Goes = m.status {
            m = obey(
                m,
                cells,
                used,
                permissions,
                role,
                pair,
                inputs,
                &mut frames,
                &mut counts,
                vars,
                &mut slots,
                output,
            );
        }
    }
    list.copy_from_slice(&slots);
    m
}

// The report of a run that is over.
pub fn report(m: Machine, allowance: u32) -> Report
    requires { m.left ≤ allowance }
    ensures { result ≡ report_from allowance m }
{
    let report = Report {
        number: 0,
        truth: false,
        steps: ((allowance as usize) - m.left) as u32,
        height: m.height,
        taken: m.taken,
        written: m.written,
    };
    match m.status {
        Status::Stopped(ending) => Report {
            number: ending.number(),
            ..report
        },
        Status::Over(truth) => Report { truth, ..report },
        Status::Goes | Status::Enters => report,
    }
}
