// The desk program: lines from standard input, and what each prints to standard output. It is a loop over the console's steps, with read and write around
// it: what is written is what `serve` printed, and what is read goes to `serve` byte by byte.
#![tactic(auto)]

ghost use Rattle.std.specs.Prelude.{length, IfOk, IfErr};
ghost use Rattle.engine.specs.Stored.{stored};
ghost use Rattle.console.specs.Places.{progress, advances};
ghost use Rattle.desk.specs.Input.{Lent, Fresh, Undue, Serves, Relays};

use commands::PAPER;
use console::{Advance, KEPT, LINES, Place, finish, line_end, step};
use engine::Store;
use lines::{Command, INPUTS, parse};
use std::fmt;
use std::io::{IsTerminal, Print, Read};

// The bytes of output that are held before they are written.
const HELD: usize = 65536;

// The most bytes that one read gives.
const PART: usize = 65536;

// The steps that runs may take while an answer waits to be written: a few milliseconds.
const PATIENCE: u32 = 1000000;

// What has failed, and the last line that was obeyed.
#[derive(Clone, Copy, Debug, PartialEq, Eq)]
enum Failure {
    Unread(u32),
    Unwritten(u32),
}

impl fmt::Display for Failure {
    fn fmt<W: fmt::Write>(&self, f: &mut fmt::Formatter<W>) -> fmt::Result {
        match self {
            Failure::Unread(done) => write!(
                f,
                "the input cannot be read; stopped after line {done}"
            ),
            Failure::Unwritten(done) => write!(
                f,
                "the answers cannot be written; stopped after line {done}"
            ),
        }
    }
}

// The answers of a part cannot be written: where the day is then, and how many bytes of the part it took.
#[derive(Clone, Copy, Debug, PartialEq, Eq)]
struct Unwritten {
    place: Place,
    taken: usize,
}

impl From<Unwritten> for Failure {
    fn from(stopped: Unwritten) -> Failure {
        Failure::Unwritten(stopped.place.done)
    }
}

// The steps that the next line may take while answers wait: the allowance of a run.
fn asked(held: usize, rest: &[u8]) -> u32 {
    if held == 0 || !rest.starts_with(b"R") {
        return 0;
    }
    let end = line_end(rest);
    let mut inputs = [0i32; INPUTS];
    match parse(&rest[..end], &mut inputs) {
        Some(Command::Run(_, allowance, _)) => allowance,
        _ => 0,
    }
}

// Answers wait that are to be written before the next line is obeyed: a person types, or a line's answer might not find room after them, or they would
// wait for too many steps.
fn is_due(held: usize, person: bool, steps: u32) -> bool
    ensures { Undue held result }
{
    held > 0 && (person || HELD - PAPER < held || steps == PATIENCE)
}

// The desk's store, the bytes of the line so far, the answers that wait, and whether a person types.
// The memory is fixed: the answers that wait are the first bytes of an array, and `Advance` says how many.
#[derive(Drop)]
struct Desk {
    store: Store,
    line: [u8; KEPT],
    out: [u8; HELD],
    person: bool,
}

impl Desk {
    // Steps over a part of the input, until it is used up or what they printed is to be written.
    fn serve(&mut self, mut place: Place, part: &[u8]) -> Advance
        requires { Lent self.old.line self.old.out }
        ensures lent { Lent self.new.line self.new.out }
        ensures served { Serves part.now (progress (stored self.old.store) place self.old.line)
            (advances (progress (stored self.new.store) result.place self.new.line) result.taken result.printed self.new.out) }
    {
        // a step says how many bytes it took, and their sum is what `Serves` speaks of
        let mut at: usize = 0;
        let mut held: usize = 0;
        let mut steps: u32 = 0;
        while at < part.len() {
            steps = steps.saturating_add(asked(held, &part[at..])).min(PATIENCE);
            if is_due(held, self.person, steps) {
                break;
            }
            let a = step(
                &mut self.store,
                &mut self.line,
                place,
                &part[at..],
                &mut self.out[held..],
            );
            place = a.place;
            at += a.taken;
            held += a.printed;
        }
        Advance {
            place,
            taken: at,
            printed: held,
        }
    }

    // All of a part: what it prints is written before more is read. Where that fails, no later line is obeyed.
    fn relay(&mut self, rt: HostRuntime, mut place: Place, part: &[u8]) -> Result<Place, Unwritten>
        requires { Lent self.old.line self.old.out }
        ensures lent { Lent self.new.line self.new.out }
        ensures whole { IfOk result (λ end. Relays part.now (progress (stored self.old.store) place self.old.line)
            (progress (stored self.new.store) end self.new.line) (length part.now)) }
        ensures stopped { IfErr result (λ e. Relays part.now (progress (stored self.old.store) place self.old.line)
            (progress (stored self.new.store) e.place self.new.line) e.taken) }
    {
        let mut at: usize = 0;
        while at < part.len() {
            let a = self.serve(place, &part[at..]);
            place = a.place;
            at += a.taken; // the next steps of this part
            if rt.write_all(&self.out[..a.printed]).is_err() {
                return Err(Unwritten { place, taken: at });
            }
        }
        Ok(place)
    }

    // The whole input. Nothing says that it ends, so the reads are counted.
    fn attend(&mut self, rt: HostRuntime) -> Result<(), Failure>
        requires { Fresh (stored self.old.store) self.old.line self.old.out }
    {
        let mut input = rt.stdin();
        let mut buffer = [0u8; PART];
        let mut place = Place { done: 0, kept: 0 };
        for _ in 0..u64::MAX {
            if LINES <= place.done {
                break;
            }
            let Ok(n) = input.read(&mut buffer) else {
                return Err(Failure::Unread(place.done));
            };
            if n == 0 {
                // "the newline, which the last may lack"
                let e = finish(&mut self.store, &self.line, place, &mut self.out);
                if rt.write_all(&self.out[..e.printed]).is_err() {
                    return Err(Failure::Unwritten(e.place.done));
                }
                break;
            }
            place = self.relay(rt, place, &buffer[..n])?;
        }
        Ok(())
    }
}

fn main(rt: HostRuntime) {
    let mut desk = Desk {
        store: Store::fresh(),
        line: [0u8; KEPT],
        out: [0u8; HELD],
        person: rt.stdin().is_terminal(),
    };
    if let Err(failure) = desk.attend(rt) {
        // one line on standard error
        let _ = eprintln!(rt; "desk: {failure}");
    }
}
