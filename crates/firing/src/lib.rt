// The timed step in a model that is accepted, from a state of it: the clock that fires, and what each component does.
#![tactic(auto)]

ghost use Rattle.std.specs.Prelude.{◌≡◌, ℕ, ◌≤◌, ◌<◌, length};
ghost use Rattle.answer.specs.Limits.{max_clocks};
ghost use Rattle.answer.specs.State.{parts_of, with_parts};
ghost use Rattle.layout.specs.Layout.{count_of, block_word};
ghost use Rattle.layout.specs.Image.{Image, comp_of, model_of};
ghost use Rattle.std.proofs.Math.Option.{none};
ghost use Rattle.iosa.specs.Checks.{accept_of};
ghost use Rattle.rows.specs.Ranges.{found_of};
ghost use Rattle.timing.specs.Timed.{clock_row, clock_row_of, fire, timed_from, timed_of, enabling_all};
ghost use Rattle.moves.specs.Moves.{GoneTo, reset_by, after_by};
ghost use Rattle.moves.specs.Standing.{Standing};
ghost use Rattle.firing.specs.Fired.{by_clock, action_or, guarded_one, fired_one};
ghost use Rattle.firing.specs.Choices.{at_clock, choice_of};
ghost use Rattle.firing.specs.Shots.{TimingGives, TimingAnswers, Armed, Fireable, refused_with};

use answer::{Firing, Model, Place, Refusal, State, Timed};
use moves::{Move, Moved};

// The row that a clock guards in one component's state.
pub fn clock_row(t: &[u64], i: usize, s: u8, c: u64) -> Option<usize>
    requires { Image t.now × (i < count_of t.now) × (s < block_word t.now i 0) × (c < max_clocks) }
    ensures { result ≡ found_of (by_clock t.now i s c) }
{
    let at = s as usize;
    let lo = layout::first_of(t, i, at);
    let hi = layout::first_of(t, i, at + 1);
    rows::find_guard(t, lo, hi, c + 1)
}

// The action of the row that a clock guards in one component's state, or the limit.
pub fn action_in(t: &[u64], i: usize, s: u8, c: u64) -> u64
    requires { Image t.now × (i < count_of t.now) × (s < block_word t.now i 0) × (c < max_clocks) }
    ensures { result ≡ action_or (clock_row (comp_of t.now i) s c) }
{
    let f = clock_row(t, i, s, c);
    match f {
        Some(k) => layout::action_at(t, k),
        None => Model::ACTIONS as u64,
    }
}

// The action of the row that a clock guards in a composed state, or the limit.
pub fn action_of(t: &[u64], x: State, c: u64) -> u64
    requires { Standing t.now x × (c < max_clocks) }
    ensures { result ≡ action_or (clock_row_of (model_of t.now) (parts_of x) c) }
{
    let n = x.count;
    for i in 0..n {
        let a = action_in(t, i, x.parts[i], c);
        if a < Model::ACTIONS as u64 {
            return a;
        }
    }
    Model::ACTIONS as u64
}

// One component by the row that its clock guards.
pub fn guarded_move(t: &[u64], i: usize, s: u8, c: u64) -> Move
    requires { Image t.now × (i < count_of t.now) × (s < block_word t.now i 0) × (c < max_clocks) }
    ensures { GoneTo (guarded_one c (comp_of t.now i) s) result }
{
    let f = clock_row(t, i, s, c);
    moves::move_by(t, f, s)
}

// One component when a clock fires: its owner by that clock's row, another by the row's action.
pub fn fire_one(t: &[u64], i: usize, s: u8, c: u64, a: u64) -> Move
    requires { Image t.now × (i < count_of t.now) × (s < block_word t.now i 0) × (c < max_clocks) }
    ensures { GoneTo (fired_one c a (comp_of t.now i) s) result }
{
    if sets::has(layout::block_word(t, i, layout::CLOCKS), c) {
        guarded_move(t, i, s, c)
    } else {
        moves::move_one(t, i, s, a)
    }
}

// Every component when a clock fires.
pub fn fire_all(t: &[u64], x: State, c: u64, a: u64) -> Moved
    requires { Standing t.now x × (c < max_clocks) }
    ensures { (result.resets ≡ reset_by (fired_one c a) (model_of t.now) (parts_of x)) × (result.state ≡ with_parts x (after_by (fired_one c a) (model_of t.now) (parts_of x))) }
{
    let n = x.count;
    let mut next = x;
    let mut resets = 0u64;
    for i in 0..n {
        let m = fire_one(t, i, x.parts[i], c, a);
        next.parts[i] = m.target;
        resets = sets::union(resets, m.resets);
    }
    Moved {
        resets,
        state: next,
    }
}

// A refusal at a clock.
fn at_clock(number: u8, c: u64) -> Refusal
    ensures { result ≡ at_clock number c }
{
    Refusal {
        number,
        place: Place::Clock(c),
    }
}

// What the values of the enabling clocks decide: 29, 30, quiet, or the clock that fires.
pub fn choose(values: &[i64], e: u64) -> Result<Option<u64>, Refusal>
    requires { length values.now ≡ max_clocks }
    ensures { result ≡ choice_of e values.now }
{
    if let Some(c) = ticks::below_zero(values, e) {
        return Err(at_clock(29, c));
    }
    let Some(c) = ticks::least(values, e) else {
        return Ok(None);
    };
    if ticks::has_rival(values, e, c) {
        return Err(at_clock(30, c));
    }
    Ok(Some(c))
}

// A clock fires: every component moves, and every declared clock falls by its value.
pub fn fire(t: &[u64], x: State, values: &mut [i64], c: u64) -> Timed
    requires { Armed t.now x values.old × Fireable (model_of t.now) (parts_of x) values.old c }
    ensures { TimingGives (fire (model_of t.now) (parts_of x) values.old c) x result values.new }
{
    let v = values[c as usize];
    let a = action_of(t, x, c);
    let m = fire_all(t, x, c, a);
    let next = m.state;
    ticks::age(values, enabling::declared(t), v);
    Timed {
        firing: Firing::Fired {
            ticks: v as u64,
            action: a,
            resets: m.resets,
        },
        state: next,
    }
}

// 29 or 30, quiet, or the least clock fires.
pub fn shoot(t: &[u64], x: State, values: &mut [i64]) -> Result<Timed, Refusal>
    requires { Armed t.now x values.old }
    ensures { TimingAnswers (timed_from (model_of t.now) (parts_of x) values.old (enabling_all (model_of t.now) (parts_of x))) x values.old result values.new }
{
    let e = enabling::enabling_all(t, x);
    let d = choose(values, e)?;
    Ok(match d {
        Some(c) => fire(t, x, values, c),
        None => Timed {
            firing: Firing::Quiet,
            state: x,
        },
    })
}

// A refusal of the whole.
pub fn refused(number: u8) -> Refusal
    ensures { result ≡ refused_with number }
{
    Refusal {
        number,
        place: Place::Whole,
    }
}

// The call on an accepted model: 21, 27, 28, then the clocks decide.
pub fn accepted_step(t: &[u64], x: State, values: &mut [i64]) -> Result<Timed, Refusal>
    requires { Image t.now × (accept_of (model_of t.now) ≡ none) }
    ensures { TimingAnswers (timed_of (model_of t.now) (parts_of x) values.old) x values.old result values.new }
{
    if !moves::in_range(t, x) {
        return Err(refused(21));
    }
    if moves::lowest_all(t, x) < Model::ACTIONS as u64 {
        return Err(refused(27));
    }
    if values.len() != Model::CLOCKS {
        return Err(refused(28));
    }
    if ticks::any_outside(values, enabling::declared(t)) {
        return Err(refused(28));
    }
    shoot(t, x, values)
}
