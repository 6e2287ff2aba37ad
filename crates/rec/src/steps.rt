// The tie between demand 3 and the library. Each function calls one function that librec.a exports, with any arguments, and its step is one that
// `Promised` asks for: a contract that promised less would not prove it. Nothing calls them.
ghost use Rattle.std.specs.Prelude.{◌≡◌, [], ◌∷◌};
ghost use Rattle.book.specs.Calls.{defines, withdraws, running};
ghost use Rattle.book.specs.Store.{store_of, fresh_store};
ghost use Rattle.reach.specs.Reach.{reports, reach};
ghost use Rattle.rec.specs.Sessions.{Keeps, changing, ran};

use super::{rec_lent_define, rec_lent_fresh, rec_lent_reach, rec_lent_run, rec_lent_withdraw};
use language::{LETTERS, STORE_CELLS, VARIABLES};
use runner::FIGURES;

// What a session starts from.
fn fresh(
    cells: &mut [i32; STORE_CELLS],
    used: &mut [usize; LETTERS],
    marks: &mut [u32; LETTERS],
    vars: &mut [i32; VARIABLES],
)
    ensures { store_of cells.new used.new marks.new vars.new ≡ fresh_store }
{
    rec_lent_fresh(cells, used, marks, vars)
}

// A step that defines.
fn define(
    cells: &mut [i32; STORE_CELLS],
    used: &mut [usize; LETTERS],
    marks: &mut [u32; LETTERS],
    vars: &[i32; VARIABLES],
    letter: u8,
    mark: u32,
    text: &[u8],
) -> u32
    ensures { Keeps (store_of cells.old used.old marks.old vars.now)
        (changing (defines letter mark text.now) (store_of cells.new used.new marks.new vars.now) result) }
{
    rec_lent_define(cells, used, marks, vars, letter, mark, text)
}

// A step that withdraws.
fn withdraw(
    cells: &mut [i32; STORE_CELLS],
    used: &mut [usize; LETTERS],
    marks: &mut [u32; LETTERS],
    vars: &[i32; VARIABLES],
    letter: u8,
) -> u32
    ensures { Keeps (store_of cells.old used.old marks.old vars.now)
        (changing (withdraws letter) (store_of cells.new used.new marks.new vars.now) result) }
{
    rec_lent_withdraw(cells, used, marks, vars, letter)
}

// A step that runs.
fn run(
    cells: &[i32; STORE_CELLS],
    used: &[usize; LETTERS],
    marks: &[u32; LETTERS],
    vars: &mut [i32; VARIABLES],
    letter: u8,
    role: u32,
    allowance: u32,
    inputs: &[i32],
    list: &mut [i32],
    output: &mut [u8],
    figures: &mut [usize; FIGURES],
) -> u32
    ensures { Keeps (store_of cells.now used.now marks.now vars.old)
        (ran (running letter role allowance inputs.now list.old output.old)
        (store_of cells.now used.now marks.now vars.new) result list.new output.new figures.new) }
{
    rec_lent_run(
        cells, used, marks, vars, letter, role, allowance, inputs, list, output, figures,
    )
}

// The report of a store that a session left, of which document 02, U2, speaks (`EndsNoText` of reach/specs/Claims); the store is only read.
fn reach(
    cells: &[i32; STORE_CELLS],
    used: &[usize; LETTERS],
    marks: &[u32; LETTERS],
    vars: &[i32; VARIABLES],
    letter: u8,
    reached: &mut [u8; LETTERS],
    missing: &mut [u8; LETTERS],
) -> u32
    ensures { reports result reached.new missing.new
        ≡ reach (store_of cells.now used.now marks.now vars.now) letter reached.old missing.old }
{
    rec_lent_reach(cells, used, marks, vars, letter, reached, missing)
}
