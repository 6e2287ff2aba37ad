// Define and withdraw over a store whose arrays the caller lends: no copy of the store is made. They stay four parameters, as the C interface lends them.
#![tactic(auto)]

ghost use Rattle.std.specs.Prelude.{◌≡◌, ◌<◌};
ghost use Rattle.language.specs.Limits.{max_letters};
ghost use Rattle.language.specs.Reading.{read};
ghost use Rattle.linker.specs.Linked.{linked};
ghost use Rattle.book.specs.Calls.{defines, withdraws};
ghost use Rattle.book.specs.Refusals.{answer_number};
ghost use Rattle.book.specs.Store.{store_of, fresh_store, store_call, changed};
ghost use Rattle.lent.specs.Lent.{Puts, PutsText};

use admission::View;
use book::Refusal;
use language::{Fault, LETTERS, OPEN, STORE_CELLS, Table, VARIABLES};

// The entry of letter `k` is replaced: its table, its used-cell count and its permission.
fn put(
    cells: &mut [i32; STORE_CELLS],
    used: &mut [usize; LETTERS],
    permissions: &mut [u32; LETTERS],
    k: usize,
    table: Table,
    permission: u32,
)
    requires { k < max_letters }
    ensures { Puts cells.old used.old permissions.old k table permission cells.new used.new permissions.new }
{
    let base = k * Table::CELLS;
    cells[base..base + Table::CELLS].copy_from_slice(&table.cells);
    used[k] = table.used;
    permissions[k] = permission;
}

// The same with the table of a text, or the text's first fault, and nothing is replaced. The cells are linked into their place.
fn put_text(
    cells: &mut [i32; STORE_CELLS],
    used: &mut [usize; LETTERS],
    permissions: &mut [u32; LETTERS],
    k: usize,
    text: &[u8],
    permission: u32,
) -> Result<(), Fault>
    requires { k < max_letters }
    ensures { PutsText cells.old used.old permissions.old k (linked (read text.now)) permission result cells.new used.new permissions.new }
{
    let base = k * Table::CELLS;
    let count = linker::link_over(text, &mut cells[base..base + Table::CELLS])?;
    used[k] = count;
    permissions[k] = permission;
    Ok(())
}

// Every letter cleared and open, every variable 0, whatever the arrays held.
#[tactic(auto, unfolding(book::specs::Store::fresh_store))]
pub fn fresh(
    cells: &mut [i32; STORE_CELLS],
    used: &mut [usize; LETTERS],
    permissions: &mut [u32; LETTERS],
    vars: &mut [i32; VARIABLES],
)
    ensures { store_of cells.new used.new permissions.new vars.new ≡ fresh_store }
{
    *cells = [0; STORE_CELLS];
    *used = [0; LETTERS];
    *permissions = [OPEN; LETTERS];
    *vars = [0; VARIABLES];
}

// The letter's table becomes that of the text, and its permission the one given.
pub fn define(
    cells: &mut [i32; STORE_CELLS],
    used: &mut [usize; LETTERS],
    permissions: &mut [u32; LETTERS],
    vars: &[i32; VARIABLES],
    letter: u32,
    permission: u32,
    text: &[u8],
) -> Result<(), Refusal>
    ensures { changed (store_of cells.new used.new permissions.new vars.now) (answer_number result) (defines letter permission text.now)
        ≡ store_call (store_of cells.old used.old permissions.old vars.now) (defines letter permission text.now) }
{
    View {
        used,
        permissions,
        vars,
    }
    .define(letter, permission)?;
    let k = admission::index(letter);
    put_text(cells, used, permissions, k, text, permission)?;
    Ok(())
}

// The letter's text goes, and its permission is open.
pub fn withdraw(
    cells: &mut [i32; STORE_CELLS],
    used: &mut [usize; LETTERS],
    permissions: &mut [u32; LETTERS],
    vars: &[i32; VARIABLES],
    letter: u32,
) -> Result<(), Refusal>
    ensures { changed (store_of cells.new used.new permissions.new vars.now) (answer_number result) (withdraws letter)
        ≡ store_call (store_of cells.old used.old permissions.old vars.now) (withdraws letter) }
{
    View {
        used,
        permissions,
        vars,
    }
    .text(letter)?;
    let k = admission::index(letter);
    put(cells, used, permissions, k, Table::fresh(), OPEN);
    Ok(())
}
