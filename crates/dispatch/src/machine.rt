// One turn of the table machine, by the byte of the due cell.
ghost use Rattle.operands.specs.Held.{held};
ghost use Rattle.dispatch.specs.Turning.{Turning, Turned};

use arithmetic::{BinaryOperator, UnaryOperator};
use instructions::stack;
use instructions::stack::Access;
use language::{
    CONSTANT_CODE, COUNTS, Ending, HEIGHT, LETTERS, PRINT_CODE, STORE_CELLS, Table, VARIABLES,
};
use operands::cells::Code;
use operands::{Frame, Machine};
use predicates::conditions::Condition;
use predicates::{conditions, counters};

// The marks' codes: their bytes, negated. No match on the byte itself, which is slower (docs/DECISIONS.md, 33).
const ABSOLUTE: i32 = 0 - (b'A' as i32);

const NEGATE: i32 = 0 - (b'M' as i32);

const ADD: i32 = 0 - (b'+' as i32);

const SUBTRACT: i32 = 0 - (b'-' as i32);

const MULTIPLY: i32 = 0 - (b'*' as i32);

const DIVIDE: i32 = 0 - (b'/' as i32);

const DISCARD: i32 = 0 - (b'L' as i32);

const COPY: i32 = 0 - (b'P' as i32);

const INPUT: i32 = 0 - (b'I' as i32);

const FETCH: i32 = 0 - (b'F' as i32);

const SAVE: i32 = 0 - (b'S' as i32);

const WRITE: i32 = 0 - (b'O' as i32);

const NEWLINE: i32 = 0 - (b'X' as i32);

const NEGATIVE: i32 = 0 - (b'N' as i32);

const NULL: i32 = 0 - (b'0' as i32);

const EQUAL: i32 = 0 - (b'J' as i32);

const COUNTER: i32 = 0 - (b'$' as i32);

const CONSTANT: i32 = 0 - (CONSTANT_CODE as i32);

const PRINT: i32 = 0 - (PRINT_CODE as i32);

const FIRST_LETTER: i32 = 0 - (b'a' as i32);

const LAST_LETTER: i32 = 0 - (b'z' as i32);

// One turn: the instruction of the due cell, or a return. The table is the one that the caller has fetched; no count and no mark is read here but those of
// a letter that is called.
pub fn turn<'a>(
    m: Machine,
    cells: &'a [i32; STORE_CELLS],
    used: &'a [usize; LETTERS],
    permissions: &'a [u32; LETTERS],
    role: u32,
    code: Code,
    inputs: &[i32],
    frames: &mut [Frame; Table::CALLS],
    counts: &mut [u32; COUNTS],
    vars: &mut [i32; VARIABLES],
    list: &mut [i32; HEIGHT],
    output: &mut [u8],
) -> Machine
    requires { Turning code m frames.old output.old }
    ensures { Turned code
        (held m cells.now used.now permissions.now role inputs.now frames.old counts.old
        vars.old list.old output.old)
        (held result cells.now used.now permissions.now role inputs.now frames.new counts.new
        vars.new list.new output.new) }
{
    if code.end < m.at + 2 {
        control::end_of(m, cells, code, frames)
    } else {
        let x = code.cell(cells, m.at);
        if 1 < x {
            control::transfer(m, cells, code)
        } else {
            match x {
                ABSOLUTE => arithmetic::unary(m, list, UnaryOperator::Absolute),
                NEGATE => arithmetic::unary(m, list, UnaryOperator::Negate),
                ADD => arithmetic::binary(m, list, BinaryOperator::Add),
                SUBTRACT => arithmetic::binary(m, list, BinaryOperator::Subtract),
                MULTIPLY => arithmetic::binary(m, list, BinaryOperator::Multiply),
                DIVIDE => arithmetic::binary(m, list, BinaryOperator::Divide),
                DISCARD => stack::discard(m, list),
                COPY => stack::copy(m, list),
                INPUT => stack::input(m, inputs, list),
                FETCH => stack::variable(m, cells, code, vars, list, Access::Fetch),
                SAVE => stack::variable(m, cells, code, vars, list, Access::Save),
                CONSTANT => stack::constant(m, cells, code, list),
                WRITE => paper::output::write(m, list, output),
                NEWLINE => paper::output::newline(m, output),
                PRINT => paper::output::print(m, cells, code, output),
                NEGATIVE => conditions::test(m, cells, code, list, Condition::Negative),
                NULL => conditions::test(m, cells, code, list, Condition::Null),
                EQUAL => conditions::test(m, cells, code, list, Condition::Equal),
                COUNTER => counters::counter(m, cells, code, counts),
                LAST_LETTER..=FIRST_LETTER => control::call(
                    m,
                    cells,
                    used,
                    permissions,
                    role,
                    code,
                    frames,
                    (FIRST_LETTER - x) as usize,
                ),
                _ => m.stop(Ending::Damaged),
            }
        }
    }
}
