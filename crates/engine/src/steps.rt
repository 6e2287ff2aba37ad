// The tie between demand 3 and `Store`. Each function calls one function of `Store`, with any arguments, and its step is one that `Promised` asks for: a
// contract that promised less would not prove it. Nothing calls them.
ghost use Rattle.std.specs.Prelude.{◌≡◌};
ghost use Rattle.book.specs.Calls.{defines, withdraws, running};
ghost use Rattle.book.specs.Store.{fresh_store};
ghost use Rattle.engine.specs.Stored.{stored, Keeps, changing, ran};

use super::{Answer, Changed, Store};

// What a session starts from.
fn fresh() -> Store
    ensures { stored result ≡ fresh_store }
{
    Store::fresh()
}

// A step that defines.
fn define(s: Store, letter: u32, permission: u32, text: &[u8]) -> Changed
    ensures { Keeps s (changing (defines letter permission text.now) result) }
{
    s.define(letter, permission, text)
}

// A step that withdraws.
fn withdraw(s: Store, letter: u32) -> Changed
    ensures { Keeps s (changing (withdraws letter) result) }
{
    s.withdraw(letter)
}

// A step that runs.
fn run(
    s: Store,
    letter: u32,
    role: u32,
    allowance: u32,
    inputs: &[i32],
    list: &mut [i32],
    output: &mut [u8],
) -> Answer
    ensures { Keeps s
        (ran (running letter role allowance inputs.now list.old output.old) result list.new output.new) }
{
    s.run(letter, role, allowance, inputs, list, output)
}
