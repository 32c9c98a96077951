// The calls of interrupt lines: 5 and 10. Each is refused with nothing changed, or makes the steps of the
// machine's call in their order and ends in one choice of who runs.
#![tactic(auto)]

ghost use Rattle.std.specs.Prelude.{◌≤◌};
ghost use Rattle.calls.specs.Answers.{answer_of};
ghost use Rattle.machine.specs.Machine.{interrupt as interrupting, wait as waiting};
ghost use Rattle.store.specs.Steps.{Shown, Does};
ghost use Rattle.endings.specs.Results.{Asked, Calling, Performs};
ghost use Rattle.lines.specs.Firing.{firing};

use calls::codes::LINE_FIRED;
use calls::{Outcome, Refusal};
use layout::{Tables, codes};

// The waiter on line l is woken, or the line is pending.
fn fire(tables: &mut Tables, l: usize)
    requires { Shown tables.old (Asked (l ≤ 31)) }
    ensures { Does tables.old tables.new (Asked (l ≤ 31)) (firing l) }
{
    match store::line(tables, l) {
        codes::QUIET => store::set_line(tables, l, codes::PENDING),
        codes::PENDING => {}
        line => {
            store::set_line(tables, l, codes::QUIET);
            queues::wake(tables, (line - codes::AWAITED) as usize, LINE_FIRED, 0, 0);
        }
    }
}

// 5: an interrupt on line l.
pub fn interrupt(tables: &mut Tables, l: usize) -> Outcome
    requires { Shown tables.old (Asked (l ≤ 31)) }
    ensures { Performs tables.old tables.new (answer_of result) (Asked (l ≤ 31)) (interrupting l) }
{
    fire(tables, l);
    endings::done(tables)
}

// 10: the running thread t waits on line l; a pending interrupt is taken at once.
#[inline(always)]
pub fn wait(tables: &mut Tables, t: usize, l: usize) -> Outcome
    requires { Shown tables.old (Calling t (l ≤ 31)) }
    ensures { Performs tables.old tables.new (answer_of result) (Calling t (l ≤ 31)) (waiting t l) }
{
    match store::line(tables, l) {
        codes::QUIET => {
            debts::drop_debt(tables, t);
            store::set_line(tables, l, codes::AWAITED + t as u32);
            waiting::suspend(tables, t, codes::WAITING + l as u32, 0, 0)
        }
        codes::PENDING => {
            debts::drop_debt(tables, t);
            store::set_line(tables, l, codes::QUIET); // the interrupt is taken
            endings::done(tables)
        }
        _ => Err(Refusal::LineTaken),
    }
}
