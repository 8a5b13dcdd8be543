// A run, printed as it goes: a line for each step, then the last line (paper 01, "The program and its example"). The table is an image of a confluent model.
#![tactic(auto)]

ghost use Rattle.std.specs.Prelude.{◌≡◌, [], ◌∷◌, ◌≤◌, length};
ghost use Rattle.std.proofs.Math.Option.{none};
ghost use Rattle.answer.specs.Limits.{max_budget};
ghost use Rattle.answer.specs.State.{parts_of};
ghost use Rattle.answer.specs.Told.{tell};
ghost use Rattle.iosa.specs.Checks.{confluent_of};
ghost use Rattle.iosa.specs.Settle.{begin_fault, settle_of};
ghost use Rattle.answering.specs.Report.{refused_line, answer_lines};
ghost use Rattle.layout.specs.Image.{Image, model_of};
ghost use Rattle.settling.specs.Gives.{Ready};
ghost use Rattle.print.specs.Put.{Put};
ghost use Rattle.steplines.specs.Run.{most_bytes, run_text};

use answer::{Model, Place, Refusal, State};

// The widest set has all clocks: two digits and a comma for each, but for the 10 of one digit and the last comma.
const SET: usize = 3 * Model::CLOCKS - 10 - 1;

// The digits of the largest number of a state, and the widest state, each number behind a tab or a comma.
const STATE_DIGITS: usize = 3;

const STATE: usize = (1 + STATE_DIGITS) * Model::COMPONENTS;

// The widest step line has a count of four digits and an action of two, the widest last line as many steps.
const STEP_LINE: usize = 4 + (1 + 4) + (1 + 2) + (1 + SET) + STATE + 1;

const LAST_LINE: usize = 9 + (1 + 4) + (1 + SET) + STATE + 1;

// The longest report there can be: of the counts 1 to 4,096 lack 9, 99 and 999 a digit each.
pub const REPORT: usize = STEP_LINE * State::BUDGET - (9 + 99 + 999) + LAST_LINE;

// One step after the other, each printed as it is taken.
pub fn put_run(t: &[u64], x: State, budget: usize, out: &mut [u8]) -> usize
    requires { Ready t.now x × (budget ≤ max_budget) × (most_bytes ≤ length out.old) }
    ensures { Put out.old 0 (run_text (model_of t.now) (parts_of x) budget) out.new result }
{
    let mut cur = x;
    let mut resets = 0u64;
    let mut at = 0usize;
    for steps in 0..budget {
        let a = moves::lowest_all(t, cur);
        if Model::ACTIONS as u64 <= a {
            return tell::put_last(out, at, true, steps, resets, cur);
        }
        let m = moves::move_all(t, cur, a);
        at = tell::put_step(out, at, steps + 1, a, m.resets, m.state);
        resets = sets::union(resets, m.resets);
        cur = m.state;
    }
    let a = moves::lowest_all(t, cur);
    if Model::ACTIONS as u64 <= a {
        return tell::put_last(out, at, true, budget, resets, cur);
    }
    tell::put_last(out, at, false, budget, resets, cur)
}

// A refusal whose place is the whole.
pub fn put_whole(out: &mut [u8], number: u8) -> usize
    requires { most_bytes ≤ length out.old }
    ensures { Put out.old 0 (refused_line (tell number (0 ∷ []))) out.new result }
{
    tell::put_refused(
        out,
        0,
        Refusal {
            number,
            place: Place::Whole,
        },
    )
}

// In a state in which settling may begin: 22, and else the run.
pub fn put_settled(t: &[u64], x: State, budget: u64, out: &mut [u8]) -> usize
    requires { Image t.now × (confluent_of (model_of t.now) ≡ none) × (begin_fault (model_of t.now) (parts_of x) ≡ none) × (most_bytes ≤ length out.old) }
    ensures { Put out.old 0
        (answer_lines (model_of t.now) (parts_of x) (settle_of (model_of t.now) (parts_of x) budget budget))
        out.new result }
{
    if (State::BUDGET as u64) < budget {
        return put_whole(out, 22);
    }
    put_run(t, x, budget as usize, out)
}
