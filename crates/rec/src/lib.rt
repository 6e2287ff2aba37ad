// The C library: every `extern "C"` function of the product. Each calls one function with the same contract; of define, withdraw and reach the answer is
// then made a number. include/rec.h is the header; its inline functions take a store apart for those here, and put figures into a report. Letters are
// bytes here, and what is no letter is refused below.
#![tactic(auto)]

ghost use Rattle.std.specs.Prelude.{◌≡◌};
ghost use Rattle.language.specs.Reading.{read};
ghost use Rattle.linker.specs.Linked.{linked, link_number};
ghost use Rattle.linker.specs.Into.{links_into, linked_into};
ghost use Rattle.numerals.specs.Numerals.{delivers};
ghost use Rattle.faircopy.specs.FairCopy.{copied};
ghost use Rattle.dividend.specs.Dividend.{SettledInto};
ghost use Rattle.book.specs.Calls.{defines, withdraws, running};
ghost use Rattle.book.specs.Store.{store_of, fresh_store, store_call, changed};
ghost use Rattle.runner.specs.Figures.{returns, returned};
ghost use Rattle.reach.specs.Reach.{reports, reach};
ghost use Rattle.console.specs.Day.{day_of};
ghost use Rattle.day.specs.Played.{played};

use dividend::FIGURES as PAYOUT_FIGURES;
use language::{LETTERS, STORE_CELLS, VARIABLES};
use runner::FIGURES;

mod steps;

// ── a store of lent arrays ──────────────────────────────────────────────────────────────────────

// Every letter cleared and open, every variable 0, whatever the arrays held.
#[unsafe(no_mangle)]
pub extern "C" fn rec_lent_fresh(
    cells: &mut [i32; STORE_CELLS],
    used: &mut [usize; LETTERS],
    marks: &mut [u32; LETTERS],
    vars: &mut [i32; VARIABLES],
)
    ensures { store_of cells.new used.new marks.new vars.new ≡ fresh_store }
{
    lent::fresh(cells, used, marks, vars)
}

// The letter's table becomes that of the text, and its mark the one given: 0, or the refusal's number.
#[unsafe(no_mangle)]
pub extern "C" fn rec_lent_define(
    cells: &mut [i32; STORE_CELLS],
    used: &mut [usize; LETTERS],
    marks: &mut [u32; LETTERS],
    vars: &[i32; VARIABLES],
    letter: u8,
    mark: u32,
    text: &[u8],
) -> u32
    ensures { changed (store_of cells.new used.new marks.new vars.now) result (defines letter mark text.now)
        ≡ store_call (store_of cells.old used.old marks.old vars.now) (defines letter mark text.now) }
{
    let answer = lent::define(cells, used, marks, vars, u32::from(letter), mark, text);
    book::answer_number(answer)
}

// The letter's text goes, and its mark is open: 0, or the refusal's number.
#[unsafe(no_mangle)]
pub extern "C" fn rec_lent_withdraw(
    cells: &mut [i32; STORE_CELLS],
    used: &mut [usize; LETTERS],
    marks: &mut [u32; LETTERS],
    vars: &[i32; VARIABLES],
    letter: u8,
) -> u32
    ensures { changed (store_of cells.new used.new marks.new vars.now) result (withdraws letter)
        ≡ store_call (store_of cells.old used.old marks.old vars.now) (withdraws letter) }
{
    let answer = lent::withdraw(cells, used, marks, vars, u32::from(letter));
    book::answer_number(answer)
}

// The answer's number, for a caller with this role. Cells, counts and marks are read only: "No run changes a table." The variables, the list and the output
// are left as the run leaves them; the figures are truth, steps, list height, inputs taken and output length.
#[unsafe(no_mangle)]
pub extern "C" fn rec_lent_run(
    cells: &[i32; STORE_CELLS],
    used: &[usize; LETTERS],
    marks: &[u32; LETTERS],
    vars: &mut [i32; VARIABLES],
    letter: u8,
    role: u32,
    allowance: u32,
    inputs: &[i32],
    list: &mut [i32],
    output: &mut [u8],
    figures: &mut [usize; FIGURES],
) -> u32
    ensures { returns (store_of cells.now used.now marks.now vars.new) result list.new output.new figures.new
        ≡ returned (store_call (store_of cells.now used.now marks.now vars.old)
        (running letter role allowance inputs.now list.old output.old)) }
{
    runner::run_into(
        cells,
        used,
        marks,
        vars,
        u32::from(letter),
        role,
        allowance,
        inputs,
        list,
        output,
        figures,
    )
}

// The letters that the letter reaches, and those of them that have no text, marked 1 and every other letter 0: 0. Where the call is refused, the number
// of the refusal, and both arrays stay as they were.
#[unsafe(no_mangle)]
pub extern "C" fn rec_lent_reach(
    cells: &[i32; STORE_CELLS],
    used: &[usize; LETTERS],
    marks: &[u32; LETTERS],
    vars: &[i32; VARIABLES],
    letter: u8,
    reached: &mut [u8; LETTERS],
    missing: &mut [u8; LETTERS],
) -> u32
    ensures { reports result reached.new missing.new
        ≡ reach (store_of cells.now used.now marks.now vars.now) letter reached.old missing.old }
{
    let letter = u32::from(letter);
    let answer = reach::reach(cells, used, marks, vars, letter, reached, missing);
    reach::reach_number(answer)
}

// ── a text alone ────────────────────────────────────────────────────────────────────────────────

// 0, or the number of the text's first fault.
#[unsafe(no_mangle)]
pub extern "C" fn rec_check(text: &[u8]) -> u32
    ensures { result ≡ link_number (linked (read text.now)) }
{
    linker::check(text)
}

// The same number. An accepted text gives its used-cell count, and its table's cells in the places that are lent, up to 250 of them; the other places
// stay as they were. A refused one gives a count of 0, and every place stays.
#[unsafe(no_mangle)]
pub extern "C" fn rec_link(text: &[u8], cells: &mut [i32], used: &mut usize) -> u32
    ensures { links_into result used.new cells.new ≡ linked_into cells.old (read text.now) }
{
    linker::link_into(text, cells, used)
}

// The text's fair copy at the start of the paper: 0 and its length. Where the text is refused, or the copy does not all fit, its number and 0, and the
// paper stays as it was.
#[unsafe(no_mangle)]
pub extern "C" fn rec_fair_copy(text: &[u8], paper: &mut [u8], written: &mut usize) -> u32
    ensures { delivers result written.new paper.new ≡ copied paper.old (read text.now) }
{
    faircopy::copy_into(text, paper, written)
}

// ── a pool ──────────────────────────────────────────────────────────────────────────────────────

// What a pool pays: 0, and takeout, net, dividend, payments and breakage. Where it is refused, its number and five zeros.
#[unsafe(no_mangle)]
pub extern "C" fn rec_dividend_figures(
    pool: u32,
    rate: u32,
    stakes: u32,
    figures: &mut [u64; PAYOUT_FIGURES],
) -> u32
    ensures { SettledInto pool rate stakes result figures.new }
{
    dividend::settle_into(pool, rate, stakes, figures)
}

// ── a day ───────────────────────────────────────────────────────────────────────────────────────

// All that the desk prints for an input, from a fresh store: 0 and how many bytes that is, at the start of the output. Where they do not all fit, the
// number of a short output and 0, and the output stays as it was.
#[unsafe(no_mangle)]
pub extern "C" fn rec_day(input: &[u8], output: &mut [u8], written: &mut usize) -> u32
    ensures { delivers result written.new output.new ≡ played output.old (day_of input.now) }
{
    day::play_into(input, output, written)
}
