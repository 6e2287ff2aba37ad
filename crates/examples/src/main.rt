// Document 01's examples that are not starred, each tried and printed beside what it should give. The last line counts the differences.
#![tactic(auto)]

ghost use Rattle.std.specs.Prelude.{◌+◌, ◌≤◌};

use book::answer_number;
use engine::Store;
use language::{CASHIER, FIRST_LETTER, HEIGHT, OPEN, TEXT};
use std::fmt::Display;
use std::io;

// The letter d.
const LETTER_D: u32 = 100;

// The letter m.
const LETTER_M: u32 = 109;

// What a run gave: its number, its steps and the top of its list, 0 if none.
#[derive(Clone, Copy)]
struct Given {
    number: u32,
    steps: u32,
    top: i32,
}

// What a define gave: its number, and the cells that letter a then uses.
#[derive(Clone, Copy)]
struct Linked {
    number: u32,
    cells: usize,
}

fn top(list: &[i32; HEIGHT], height: usize) -> i32 {
    if 0 < height && height <= HEIGHT {
        list[height - 1]
    } else {
        0
    }
}

// d doubles 1 as often as the top says, and m asks d for its input.
fn power(input: i32) -> Given {
    let inputs = [input];
    let mut list = [0; HEIGHT];
    let mut output = [0; 16];
    let d = Store::fresh().define(LETTER_D, OPEN, b"(0L'/1';'/1'-d'/2'*;)");
    let m = d.store.define(LETTER_M, OPEN, b"(Id;)");
    let r = m
        .store
        .run(LETTER_M, CASHIER, 1000, &inputs, &mut list, &mut output);
    let report = r.report;
    Given {
        number: report.number,
        steps: report.steps,
        top: top(&list, report.height),
    }
}

fn link(text: &[u8]) -> Linked {
    let a = Store::fresh().define(FIRST_LETTER, OPEN, text);
    Linked {
        number: answer_number(a.answer),
        cells: a.store.used[0],
    }
}

// So many N in one pair.
fn pair(n: usize) -> Linked
    requires { n + 2 ≤ TEXT }
{
    let mut text = [b'N'; TEXT];
    text[0] = b'(';
    text[n + 1] = b')';
    link(&text[..n + 2])
}

// The examples printed so far, and how many of them gave something else.
#[derive(Drop)]
struct Trials {
    rt: HostRuntime,
    differences: u32,
}

impl Trials {
    fn count(&mut self, same: bool) {
        self.differences = self.differences.saturating_add(u32::from(!same));
    }

    fn number(&mut self, what: &str, found: u32, should: u32) -> io::Result<()> {
        self.count(found == should);
        println!(self.rt; "{what}: number {found} (should be {should})")
    }

    // The number and a figure besides.
    fn figure<T: Display + PartialEq + Drop>(
        &mut self,
        what: &str,
        name: &str,
        found: (u32, T),
        should: (u32, T),
    ) -> io::Result<()> {
        self.count(found == should);
        let (number, figure) = found;
        let (wanted, due) = should;
        println!(self.rt; "{what}: number {number}, {name} {figure} (should be {wanted}, {due})")
    }

    fn runs(&mut self) -> io::Result<()> {
        let first = power(29);
        self.figure(
            "m with input 29",
            "top",
            (first.number, first.top),
            (0, 536870912),
        )?;
        self.number("m with input 30", power(30).number, 23)?;
        self.number("m with input 99", power(99).number, 23)?;
        let last = power(100);
        self.figure(
            "m with input 100",
            "steps",
            (last.number, last.steps),
            (28, 401),
        )
    }

    fn texts(&mut self) -> io::Result<()> {
        let many = pair(123);
        self.figure(
            "123 N in one pair",
            "cells",
            (many.number, many.cells),
            (0, 249),
        )?;
        self.number("124 N in one pair", pair(124).number, 8)?;
        self.number("$0$ in a pair", link(b"($0$)").number, 5)?;
        self.number("the empty text", link(b"").number, 7)?;
        let nested = link(b"((((((((((()))))))))))");
        self.number("eleven nested pairs", nested.number, 4)
    }
}

fn main(rt: HostRuntime) -> io::Result<()> {
    let mut trials = Trials { rt, differences: 0 };
    trials.runs()?;
    trials.texts()?;
    let differences = trials.differences;
    println!(rt; "differences: {differences}")
}
