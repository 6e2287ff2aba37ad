// Counters: true goes on after the mark, false at its false exit.
ghost use Rattle.language.specs.Machine.{is_counter};
ghost use Rattle.operands.specs.Held.{counting};
ghost use Rattle.operands.specs.Turns.{Turns, mark_at};
ghost use Rattle.operands.specs.Ready.{Reading};

use language::{COUNTS, Ending, STORE_CELLS, Table};
use operands::Machine;
use operands::cells::{Code, Counter};

// A counter: "while its count of trues is below n it is true and the count rises by one, else it is false and the count is 0".
#[tactic(auto, using(crate::proofs::Effects::counted))]
pub fn counter(
    m: Machine,
    cells: &[i32; STORE_CELLS],
    code: Code,
    counts: &mut [u32; COUNTS],
) -> Machine
    requires { Reading code m }
    ensures { Turns (mark_at cells.now code is_counter) (counting m counts.old) (counting result counts.new) }
{
    let at = m.at;
    let Some(Counter { limit, order, exit }) = code.counter_at(cells, at) else {
        return m.stop(Ending::Damaged);
    };
    if m.left == 0 {
        return m.stop(Ending::Spent);
    }
    let i = m.letter * Table::COUNTERS + order;
    if (counts[i] as usize) < limit {
        counts[i] += 1;
        return m.go(at + 4, m.height);
    }
    // Never so. The test keeps this way a branch: a select of the two ways would wait for the count, at half the speed.
    if Table::CELLS < exit {
        return m.stop(Ending::Damaged);
    }
    counts[i] = 0;
    m.go(exit, m.height)
}
