// Calls, transfers (`:`, `;` and inner `)`), and the two last cells of a table.
#![tactic(auto)]

ghost use Rattle.language.specs.Machine.{is_call};
ghost use Rattle.operands.specs.Held.{on_machine, framed};
ghost use Rattle.operands.specs.Turns.{Turns, mark_at, due_at};
ghost use Rattle.operands.specs.Ready.{Calling, Transferring, Closing};
ghost use Rattle.control.specs.Calls.{Called};

use language::{Ending, LETTERS, STORE_CELLS, Table, bars};
use operands::cells::Code;
use operands::{Frame, Machine, Status};

// The call of letter a by a run whose caller has this role: 27, then 34, then 28.
pub fn call<'a>(
    m: Machine,
    cells: &'a [i32; STORE_CELLS],
    used: &'a [usize; LETTERS],
    permissions: &'a [u32; LETTERS],
    role: u32,
    code: Code,
    frames: &mut [Frame; Table::CALLS],
    a: usize,
) -> Machine
    requires { Calling code m a frames.old }
    ensures { Called (mark_at cells.now code (is_call a)) used.now permissions.now role m frames.old result frames.new }
{
    let Some(f) = code.exit_of(cells, m.at) else {
        return m.stop(Ending::Damaged);
    };
    if m.left == 0 {
        return m.stop(Ending::Spent);
    }
    if used[a] == 0 {
        return m.stop(Ending::NoText);
    }
    if bars(role, permissions[a]) {
        return m.stop(Ending::StewardCall);
    }
    let d = m.depth;
    if d < Table::CALLS {
        frames[d] = Frame {
            letter: m.letter as u32,
            next: (m.at + 2) as u32,
            exit: f as u32,
        };
        Machine {
            letter: a,
            at: Table::CODE_START,
            depth: d + 1,
            left: m.left - 1,
            status: Status::Enters,
            ..m
        }
    } else {
        m.stop(Ending::DeepCalls)
    }
}

// A transfer.
pub fn transfer(m: Machine, cells: &[i32; STORE_CELLS], code: Code) -> Machine
    requires { Transferring cells.now code m }
    ensures { Turns (due_at cells.now code) (on_machine m) (on_machine result) }
{
    let Some(n) = code.target(code.cell(cells, m.at)) else {
        return m.stop(Ending::Damaged);
    };
    if m.left == 0 {
        return m.stop(Ending::Spent);
    }
    m.go(n, m.height)
}

// A cell that is no mark and no transfer: the last, which returns true; the one before, the last `)`, a step that returns false; or damage.
pub fn end_of<'a>(
    m: Machine,
    cells: &'a [i32; STORE_CELLS],
    code: Code,
    frames: &'a [Frame; Table::CALLS],
) -> Machine
    requires { Closing cells.now code m }
    ensures { Turns (due_at cells.now code) (framed m frames.now) (framed result frames.now) }
{
    let at = m.at;
    if at < Table::CODE_START || code.end < at {
        return m.stop(Ending::Damaged);
    }
    match (code.end - at, code.cell(cells, at)) {
        (0, 1) => m.leave(frames, true),
        (1, 0) => {
            if m.left == 0 {
                return m.stop(Ending::Spent);
            }
            m.go(at, m.height).leave(frames, false)
        }
        _ => m.stop(Ending::Damaged),
    }
}
