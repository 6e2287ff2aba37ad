// Document 01's form by value: a store of texts under the letters a to z, with define, withdraw and run.
#![tactic(auto)]

ghost use Rattle.std.specs.Prelude.{◌≡◌};
ghost use Rattle.book.specs.Calls.{defines, withdraws, running};
ghost use Rattle.book.specs.Store.{fresh_store, store_call};
ghost use Rattle.engine.specs.Stored.{stored, changed, answered};

use book::{Refusal, Report};
use language::{LETTERS, OPEN, STORE_CELLS, VARIABLES};

mod steps;

// 26 letters' tables with their used-cell counts and permissions, and ten variables. The cells of letter a are the first 250.
#[derive(Clone, Copy)]
pub struct Store {
    pub cells: [i32; STORE_CELLS],
    pub used: [usize; LETTERS],
    pub permissions: [u32; LETTERS],
    pub vars: [i32; VARIABLES],
}

// The store after a define or a withdraw, and Ok or the refusal.
#[derive(Clone, Copy)]
pub struct Changed {
    pub store: Store,
    pub answer: Result<(), Refusal>,
}

// The store after a run, and the figures that the run returns.
#[derive(Clone, Copy)]
pub struct Answer {
    pub store: Store,
    pub report: Report,
}

impl Store {
    // Every letter cleared and open, every variable 0.
    #[tactic(auto, unfolding(book::specs::Store::fresh_store))]
    pub fn fresh() -> Store
        ensures { stored result ≡ fresh_store }
    {
        Store {
            cells: [0; STORE_CELLS],
            used: [0; LETTERS],
            permissions: [OPEN; LETTERS],
            vars: [0; VARIABLES],
        }
    }

    // The letter's table becomes that of the text, and its permission the one given.
    pub fn define(self, letter: u32, permission: u32, text: &[u8]) -> Changed
        ensures { changed result (defines letter permission text.now) ≡ store_call (stored self) (defines letter permission text.now) }
    {
        let mut defined = self;
        let answer = lent::define(
            &mut defined.cells,
            &mut defined.used,
            &mut defined.permissions,
            &defined.vars,
            letter,
            permission,
            text,
        );
        Changed {
            store: defined,
            answer,
        }
    }

    // The letter's text goes, and its permission is open.
    pub fn withdraw(self, letter: u32) -> Changed
        ensures { changed result (withdraws letter) ≡ store_call (stored self) (withdraws letter) }
    {
        let mut cleared = self;
        let answer = lent::withdraw(
            &mut cleared.cells,
            &mut cleared.used,
            &mut cleared.permissions,
            &cleared.vars,
            letter,
        );
        Changed {
            store: cleared,
            answer,
        }
    }

    // The letter's text is obeyed for a caller with this role.
    pub fn run(
        self,
        letter: u32,
        role: u32,
        allowance: u32,
        inputs: &[i32],
        list: &mut [i32],
        output: &mut [u8],
    ) -> Answer
        ensures { answered result list.new output.new
            ≡ store_call (stored self) (running letter role allowance inputs.now list.old output.old) }
    {
        let mut store = self;
        let report = runner::run(
            &store.cells,
            &store.used,
            &store.permissions,
            &mut store.vars,
            letter,
            role,
            allowance,
            inputs,
            list,
            output,
        );
        Answer { store, report }
    }
}
