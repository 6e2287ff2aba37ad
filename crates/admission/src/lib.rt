// What refuses a call on a store, in document 01's order, once: 13 and 1 open every call's tests, 35 follows, and 10, 33, 11, 12 close those of a run.
#![tactic(auto)]

ghost use Rattle.std.specs.Prelude.{◌≡◌, true, OnOk, ◌++◌};
ghost use Rattle.language.specs.Letters.{is_letter, letter_index};
ghost use Rattle.book.specs.Refusals.{opening, mark_tests, role_tests, text_tests, closing};
ghost use Rattle.admission.specs.Admission.{Decides, run_by, Closes};

use book::Refusal;
use language::{FIRST_LETTER, HEIGHT, LETTERS, VARIABLES, bars};

// The index of a letter, a as 0.
pub fn index(letter: u32) -> usize
    requires { is_letter letter ≡ true }
    ensures { result ≡ letter_index letter }
{
    (letter - FIRST_LETTER) as usize
}

// What the tests of a call ask of a store: all but its cells.
#[derive(Clone, Copy)]
pub struct View<'a> {
    pub used: &'a [usize; LETTERS],
    pub permissions: &'a [u32; LETTERS],
    pub vars: &'a [i32; VARIABLES],
}

impl View<'_> {
    // "Order: 13, 1"
    #[tactic(auto, unfolding(book::specs::Store::sound_store))]
    fn opening(self, letter: u32) -> Result<(), Refusal>
        ensures decides { Decides self.entry (λ v. opening v letter) result }
        ensures letter { OnOk result (is_letter letter ≡ true) }
    {
        if !validation::sound_store(self.used, self.permissions, self.vars) {
            return Err(Refusal::BadStore);
        }
        if !validation::is_letter(letter) {
            return Err(Refusal::NoSuchLetter);
        }
        Ok(())
    }

    // 13, 1, 35: a define with this mark, before its text is read.
    pub fn define(self, letter: u32, permission: u32) -> Result<(), Refusal>
        ensures decides { Decides self.entry (λ v. mark_tests v letter permission) result }
        ensures letter { OnOk result (is_letter letter ≡ true) }
    {
        self.opening(letter)?;
        if !validation::is_permission(permission) {
            return Err(Refusal::BadMark); // a mark
        }
        Ok(())
    }

    // 13, 1, 10: a call that needs the letter's text.
    pub fn text(self, letter: u32) -> Result<(), Refusal>
        ensures decides { Decides self.entry (λ v. text_tests v letter) result }
        ensures letter { OnOk result (is_letter letter ≡ true) }
    {
        self.opening(letter)?;
        if self.used[index(letter)] == 0 {
            return Err(Refusal::NotStanding); // no text
        }
        Ok(())
    }

    // 13, 1, 35: a run by a caller with this role, before its letter's text is asked for.
    fn caller(self, letter: u32, role: u32) -> Result<(), Refusal>
        ensures decides { Decides self.entry (λ v. role_tests v letter role) result }
        ensures letter { OnOk result (is_letter letter ≡ true) }
    {
        self.opening(letter)?;
        if !validation::is_role(role) {
            return Err(Refusal::BadMark); // a role
        }
        Ok(())
    }

    // 10, 33, 11, 12: what closes the tests of a run.
    fn closing(self, letter: u32, role: u32, inputs: &[i32], list: &[i32]) -> Result<(), Refusal>
        requires { is_letter letter ≡ true }
        ensures { Closes self.entry (run_by letter role inputs.now list.now) result }
    {
        let k = index(letter);
        if self.used[k] == 0 {
            return Err(Refusal::NotStanding); // of a run
        }
        if bars(role, self.permissions[k]) {
            return Err(Refusal::NotForCashiers);
        }
        if !validation::lawful(inputs) {
            return Err(Refusal::BadInput);
        }
        if list.len() != HEIGHT {
            return Err(Refusal::BadList);
        }
        Ok(())
    }

    // 13, 1, 35, 10, 33, 11, 12: a run.
    pub fn run(self, letter: u32, role: u32, inputs: &[i32], list: &[i32]) -> Result<(), Refusal>
        ensures decides { Decides self.entry
            (λ v. role_tests v letter role ++ closing v (run_by letter role inputs.now list.now)) result }
        ensures letter { OnOk result (is_letter letter ≡ true) }
    {
        self.caller(letter, role)?;
        self.closing(letter, role, inputs, list)
    }
}
