// Working slips on a bench.
ghost use Rattle.std.specs.Prelude.{◌≡◌, IfOk, IfSome};
ghost use Rattle.arithmetic.specs.Setting.{Stays};
ghost use Rattle.bench.specs.Benches.{making_of, state_of, Keeps};
ghost use Rattle.calls.specs.Cells.{Leaves};
ghost use Rattle.calls.specs.Works.{Answers, GoesOn};
ghost use Rattle.sheet.specs.Reading.{told_task_of, told_slip};
ghost use Rattle.slips.specs.Book.{task_entries, slip_entries};
ghost use Rattle.slips.specs.Workings.{told_worked, working, IsAnswered, told_next, next_by, next_reading, stand, stand_by, entries_by_reading};

use crate::worked::Worked;
use arithmetic::Arithmetic;
use bench::Bench;
use calls::answer::Answer;
use calls::work::{add, ask, clear, examine};
use sheet::Reader;
use sheet::fault::SheetFault;
use sheet::slip::{Slip, Task};

// Asks an order, or examines a claim on it.
fn work_task<A: Arithmetic>(bench: &mut Bench<'_, A>, arith: &mut A, task: Task<'_>) -> Answer
    requires law { A.lawful arith.old }
    ensures answer { Answers (A.setting arith.old) bench.old (task_entries (told_task_of task.entry)) result }
    ensures goes_on { GoesOn (A.setting arith.old) bench.old bench.new (task_entries (told_task_of task.entry)) }
    ensures arith { Stays A.setting A.lawful arith.old arith.new }
{
    match task {
        Task::Ask { order } => ask(bench, arith, order.bytes[0]),
        Task::Examine {
            order,
            claim,
            tolerance,
        } => examine(bench, arith, order.bytes[0], claim.bytes, tolerance.bytes),
    }
}

// Works a slip: its zero, then its task; one that has neither clears.
#[tactic(auto, using(crate::proofs::Turns::goes_on_in_turn))]
pub fn work_slip<A: Arithmetic>(bench: &mut Bench<'_, A>, arith: &mut A, slip: Slip<'_>) -> Worked
    requires law { A.lawful arith.old }
    ensures answers { told_worked result ≡ working (told_slip slip.entry) (making_of (A.setting arith.old) bench.old) (state_of (A.setting arith.old) bench.old) }
    ensures some { IsAnswered result }
    ensures goes_on { GoesOn (A.setting arith.old) bench.old bench.new (slip_entries (told_slip slip.entry)) }
    ensures arith { Stays A.setting A.lawful arith.old arith.new }
{
    let mut worked = Worked {
        zero: None,
        task: None,
    };
    if let Some(zero) = slip.zero {
        worked.zero = Some(add(bench, arith, zero.bytes));
    }
    if let Some(task) = slip.task {
        worked.task = Some(work_task(bench, arith, task));
    } else if slip.zero.is_none() {
        worked.task = Some(clear(bench, arith));
    }
    worked
}

// Reads the next slip of a sheet and works it; none at the sheet's end. A slip with a fault stays unread, and then nothing changes.
pub fn work_next<A: Arithmetic>(
    reader: &mut Reader<'_>,
    bench: &mut Bench<'_, A>,
    arith: &mut A,
) -> Result<Option<Worked>, SheetFault>
    requires law { A.lawful arith.old }
    ensures answer { told_next result ≡ next_by (making_of (A.setting arith.old) bench.old) (state_of (A.setting arith.old) bench.old) (next_reading (A.setting arith.old) reader.old) }
    ensures then { stand (A.setting arith.old) reader.new bench.new ≡ stand_by (making_of (A.setting arith.old) bench.old) (stand (A.setting arith.old) reader.old bench.old) (next_reading (A.setting arith.old) reader.old) }
    ensures some { IfOk result (λ worked. IfSome worked IsAnswered) }
    ensures bytes { reader.new.bytes.now ≡ reader.old.bytes.now }
    ensures cells { Leaves (making_of (A.setting arith.old) bench.old).K (entries_by_reading (making_of (A.setting arith.old) bench.old) (state_of (A.setting arith.old) bench.old) (next_reading (A.setting arith.old) reader.old)) bench.old.row.now bench.new.row.now }
    ensures keeps { Keeps (A.setting arith.old) bench.old bench.new }
    ensures arith { Stays A.setting A.lawful arith.old arith.new }
{
    let Some(slip) = reader.next_slip(arith)? else {
        return Ok(None);
    };
    Ok(Some(work_slip(bench, arith, slip)))
}
