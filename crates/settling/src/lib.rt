// Steps and settling in a model that is accepted, from a state of it: the checks are the caller's.
#![tactic(auto)]

ghost use Rattle.std.specs.Prelude.{◌≡◌, ℕ, ◌≤◌, ◌<◌, length};
ghost use Rattle.answer.specs.State.{parts_of};
ghost use Rattle.layout.specs.Image.{model_of};
ghost use Rattle.settling.specs.Gives.{Ready, StepsBy, EndsAt, StepGives, StepAnswers, SettleGives, SettleAnswers, by_rule_of, by_name_of, TraceHolds, not_enabled_at};
ghost use Rattle.iosa.specs.Settle.{play};

use answer::{Model, Outcome, Place, Refusal, Settled, State, Stepped, Verdict};

// A step by an enabled urgent output.
fn moved_by(t: &[u64], x: State, a: u64) -> Stepped
    requires { Ready t.now x }
    ensures { StepsBy (model_of t.now) x a result }
{
    let m = moves::move_all(t, x, a);
    let next = m.state;
    Stepped {
        outcome: Outcome::Moved {
            action: a,
            resets: m.resets,
        },
        state: next,
    }
}

// One step by our rule: the lowest-numbered enabled urgent output, or stable.
pub fn rule_step(t: &[u64], x: State) -> Stepped
    requires { Ready t.now x }
    ensures { StepGives (by_rule_of (model_of t.now) (parts_of x)) x result }
{
    let a = moves::lowest_all(t, x);
    if a < Model::ACTIONS as u64 {
        moved_by(t, x, a)
    } else {
        Stepped {
            outcome: Outcome::Stable,
            state: x,
        }
    }
}

// 23: the answer where a listed action, or a named one, is not an enabled urgent output.
pub fn not_enabled(i: usize) -> Refusal
    ensures { result ≡ not_enabled_at i }
{
    Refusal {
        number: 23,
        place: Place::Index(i),
    }
}

// One step by a named action.
pub fn named_step(t: &[u64], x: State, a: u64) -> Result<Stepped, Refusal>
    requires { Ready t.now x }
    ensures { StepAnswers (by_name_of (model_of t.now) (parts_of x) a) x result }
{
    if !moves::offered(t, x, a) {
        return Err(not_enabled(0));
    }
    Ok(moved_by(t, x, a))
}

// What settling answers after so many steps, which led to this state: stable or unsettled.
fn ended(t: &[u64], cur: State, steps: usize, resets: u64) -> Settled
    requires { Ready t.now cur }
    ensures { EndsAt (model_of t.now) cur steps resets result }
{
    let a = moves::lowest_all(t, cur);
    Settled {
        verdict: if a < Model::ACTIONS as u64 {
            Verdict::Unsettled
        } else {
            Verdict::Stable
        },
        steps,
        resets,
        state: cur,
    }
}

// Settling by our rule, at most budget times; the actions taken at the front of the trace. The numbers stay in one place: a state handed on by value costs as much as a small step.
pub fn by_rule(t: &[u64], x: State, budget: usize, trace: &mut [u8]) -> Settled
    requires { Ready t.now x × (budget ≤ length trace.old) }
    ensures { SettleGives (model_of t.now) budget x result × TraceHolds (model_of t.now) budget x trace.old trace.new }
{
    let n = x.count;
    let mut parts = x.parts;
    let mut resets = 0u64;
    for steps in 0..budget {
        let a = moves::lowest_of(t, &parts, n);
        if Model::ACTIONS as u64 <= a {
            return ended(t, State { count: n, parts }, steps, resets);
        }
        let more = moves::move_in(t, &mut parts, n, a);
        trace[steps] = (a % 256) as u8;
        resets = sets::union(resets, more);
    }
    ended(t, State { count: n, parts }, budget, resets)
}

// The same without a trace: a round of a simulation keeps none.
pub fn untraced(t: &[u64], x: State, budget: usize) -> Settled
    requires { Ready t.now x }
    ensures { SettleGives (model_of t.now) budget x result }
{
    let n = x.count;
    let mut parts = x.parts;
    let mut resets = 0u64;
    for taken in 0..budget {
        let a = moves::lowest_of(t, &parts, n);
        if Model::ACTIONS as u64 <= a {
            return ended(t, State { count: n, parts }, taken, resets);
        }
        let reset = moves::move_in(t, &mut parts, n, a);
        resets = sets::union(resets, reset);
    }
    ended(t, State { count: n, parts }, budget, resets)
}

// Settling by a list: the listed actions in order.
pub fn by_list(t: &[u64], x: State, list: &[u8]) -> Result<Settled, Refusal>
    requires { Ready t.now x }
    ensures { SettleAnswers (play (model_of t.now) 0 list.now (parts_of x)) x result }
{
    let mut cur = x;
    let mut resets = 0u64;
    for i in 0..list.len() {
        let a = list[i] as u64;
        if !moves::offered(t, cur, a) {
            return Err(not_enabled(i));
        }
        let m = moves::move_all(t, cur, a);
        let next = m.state;
        resets = sets::union(resets, m.resets);
        cur = next;
    }
    Ok(ended(t, cur, list.len(), resets))
}
