// What the instructions share: the machine's numbers with its stops, steps and returns, and the readers of a table's cells.
#![tactic(auto)]

ghost use Rattle.std.specs.Prelude.{◌≡◌, ◌<◌};
ghost use Rattle.language.specs.Machine.{pick};
ghost use Rattle.operands.specs.Held.{framed, stopped_as, stepped};
ghost use Rattle.operands.specs.Turns.{Turns, returned};
ghost use Rattle.operands.specs.Ready.{Leaving};

use language::{Ending, Table};

pub mod cells;

// An open call: the letter that called, the cell after the call, and its false exit. Kept in half the width.
#[derive(Clone, Copy, Debug, PartialEq, Eq)]
pub struct Frame {
    pub letter: u32,
    pub next: u32,
    pub exit: u32,
}

impl Frame {
    // The cell where the letter that called goes on.
    #[tactic(auto, unfolding(language::specs::Machine::pick))]
    fn resumes(self, truth: bool) -> u32
        ensures { result ≡ pick truth self.next self.exit }
    {
        if truth { self.next } else { self.exit }
    }
}

// What the last turn came to: the run goes on in the same letter's code; it enters a letter's code, since it starts or a call or a return was made, and
// the letter's table is to be fetched; it has ended true or false; or it was stopped.
#[derive(Clone, Copy, Debug, PartialEq, Eq)]
pub enum Status {
    Goes,
    Enters,
    Over(bool),
    Stopped(Ending),
}

// The machine's numbers: the letter and the program counter, the stack's height, the open calls, the inputs taken, the bytes written, the steps
// left of the allowance, and the status.
#[derive(Clone, Copy)]
pub struct Machine {
    pub letter: usize,
    pub at: usize,
    pub height: usize,
    pub depth: usize,
    pub taken: usize,
    pub written: usize,
    pub left: usize,
    pub status: Status,
}

impl Machine {
    // The run stops: "A mark that stops a run changes nothing and is not counted."
    pub fn stop(self, ending: Ending) -> Machine
        ensures { result ≡ stopped_as self ending }
    {
        Machine {
            status: Status::Stopped(ending),
            ..self
        }
    }

    // A step, to a cell and a height.
    pub fn go(self, at: usize, height: usize) -> Machine
        requires { 0 < self.left }
        ensures { result ≡ stepped self at height }
    {
        Machine {
            at,
            height,
            left: self.left - 1,
            status: Status::Goes,
            ..self
        }
    }

    // The code of a letter ends true or false: its caller goes on, or the run is over.
    pub fn leave(self, frames: &[Frame; Table::CALLS], truth: bool) -> Machine
        requires { Leaving self }
        ensures { Turns (returned truth) (framed self frames.now) (framed result frames.now) }
    {
        if self.depth == 0 {
            return Machine {
                status: Status::Over(truth),
                ..self
            };
        }
        let depth = self.depth - 1;
        let frame = frames[depth];
        Machine {
            letter: frame.letter as usize,
            at: frame.resumes(truth) as usize,
            depth,
            status: Status::Enters,
            ..self
        }
    }
}
