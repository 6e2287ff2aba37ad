// A withdrawn letter pays no more through a letter that calls it. Letter p pays 5 and q calls p; p is withdrawn between two runs of q.
#![tactic(auto)]

ghost use Rattle.std.specs.Prelude.{◌≡◌, pos};

use engine::Store;
use language::{CASHIER, HEIGHT, OPEN};
use std::io;

// The letter p.
const LETTER_P: u32 = 112;

// The letter q.
const LETTER_Q: u32 = 113;

// The numbers of the three runs, and what the first one pays.
#[derive(Clone, Copy)]
pub struct Shown {
    pub before: u32,
    pub paid: i32,
    pub after: u32,
    pub withdrawn: u32,
}

// Define p, define q, run q, withdraw p, run q, run p.
pub fn session() -> Shown
    ensures { result ≡ record { before = 0; paid = pos 5; after = 27; withdrawn = 10 } }
{
    let none = [];
    let mut list = [0; HEIGHT];
    let mut list2 = [0; HEIGHT];
    let mut list3 = [0; HEIGHT];
    let mut output = [0; 16];
    let mut output2 = [0; 16];
    let mut output3 = [0; 16];
    let p = Store::fresh().define(LETTER_P, OPEN, b"('/5';)");
    let q = p.store.define(LETTER_Q, OPEN, b"(p;)");
    let first = q
        .store
        .run(LETTER_Q, CASHIER, 9, &none, &mut list, &mut output);
    let x = first.store.withdraw(LETTER_P);
    let second = x
        .store
        .run(LETTER_Q, CASHIER, 9, &none, &mut list2, &mut output2);
    let third = second
        .store
        .run(LETTER_P, CASHIER, 9, &none, &mut list3, &mut output3);
    Shown {
        before: first.report.number,
        paid: list[0],
        after: second.report.number,
        withdrawn: third.report.number,
    }
}

fn main(rt: HostRuntime) -> io::Result<()> {
    let Shown {
        before,
        paid,
        after,
        withdrawn,
    } = session();
    println!(rt; "run of q, p standing: {before}")?;
    println!(rt; "paid: {paid}")?;
    println!(rt; "run of q, p withdrawn: {after}")?;
    println!(rt; "run of p, withdrawn: {withdrawn}")
}
