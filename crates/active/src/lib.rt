// Condition (f): the greatest sets that the start, stability and the rows allow.
#![tactic(auto)]

ghost use Rattle.std.specs.Prelude.{◌≡◌, ◌≤◌, ◌<◌, length, get_or};
ghost use Rattle.answer.specs.Limits.{max_states, max_clocks};
ghost use Rattle.model.specs.Model.{guard_set};
ghost use Rattle.iosa.specs.Checks.{enabling_of, unstable, allowed};
ghost use Rattle.iosa.specs.Greatest.{Greatest};
ghost use Rattle.layout.specs.Layout.{count_of, block_word};
ghost use Rattle.layout.specs.Image.{Image, comp_of};
ghost use Rattle.active.specs.Narrowing.{narrow_state, pass, FirstSets, Fell};

use answer::Model;

// The guard of a row as a set: none, or one clock.
pub fn guard_set(g: u64) -> u64
    requires { g ≤ max_clocks }
    ensures { result ≡ guard_set g }
{
    if g == 0 { 0 } else { sets::single(g - 1) }
}

// The clocks that guard rows leaving s.
pub fn enabling(t: &[u64], i: usize, s: usize) -> u64
    requires { Image t.now × (i < count_of t.now) × (s < block_word t.now i 0) }
    ensures { result ≡ enabling_of (comp_of t.now i) s }
{
    let lo = layout::first_of(t, i, s);
    let hi = layout::first_of(t, i, s + 1);
    let mut all = 0u64;
    for k in lo..hi {
        all = sets::union(all, guard_set(layout::guard_at(t, k)));
    }
    all
}

// Whether a row with an urgent output leaves s.
pub fn is_unstable(t: &[u64], i: usize, s: usize) -> bool
    requires { Image t.now × (i < count_of t.now) × (s < block_word t.now i 0) }
    ensures { result ≡ unstable (comp_of t.now i) s }
{
    let lo = layout::first_of(t, i, s);
    let hi = layout::first_of(t, i, s + 1);
    let set = layout::block_word(t, i, layout::UOUTS);
    rows::find_in(t, lo, hi, set).is_some()
}

// What the start and stability allow at s.
fn first_set(t: &[u64], i: usize, s: usize) -> u64
    requires { Image t.now × (i < count_of t.now) × (s < block_word t.now i 0) }
    ensures { result ≡ allowed (comp_of t.now i) s }
{
    let clocks = layout::block_word(t, i, layout::CLOCKS);
    let started = layout::block_word(t, i, layout::STARTED);
    let start = layout::block_word(t, i, layout::START);
    let first = if s as u64 == start { started } else { clocks };
    let rest = if is_unstable(t, i, s) {
        clocks
    } else {
        enabling(t, i, s)
    };
    clocks & (first & rest)
}

// The sets to begin with.
fn first_sets(t: &[u64], i: usize, act: &mut [u64; Model::STATES])
    requires { Image t.now × (i < count_of t.now) × (length act.old ≡ max_states) }
    ensures { FirstSets (comp_of t.now i) act.new }
{
    let states = layout::block_word(t, i, layout::STATES) as usize;
    for s in 0..states {
        act[s] = first_set(t, i, s);
    }
}

// Once by every row that leaves s: its target keeps what the row hands on. Whether a set became smaller.
fn narrow_state(t: &[u64], i: usize, s: usize, act: &mut [u64; Model::STATES]) -> bool
    requires { Image t.now × (i < count_of t.now) × (s < block_word t.now i 0) }
    ensures { (act.new ≡ narrow_state t.now i s act.old) × Fell result act.old act.new }
{
    let lo = layout::first_of(t, i, s);
    let hi = layout::first_of(t, i, s + 1);
    let mut less = false;
    for k in lo..hi {
        let to = layout::target_at(t, k) as usize;
        let kept = sets::minus(act[s], guard_set(layout::guard_at(t, k)));
        let old = act[to];
        let new = old & sets::union(kept, layout::resets_at(t, k));
        act[to] = new;
        less = (new != old) | less;
    }
    less
}

// Once by every row. Whether a set became smaller.
fn pass_once(t: &[u64], i: usize, act: &mut [u64; Model::STATES]) -> bool
    requires { Image t.now × (i < count_of t.now) }
    ensures { (act.new ≡ pass t.now i act.old) × Fell result act.old act.new }
{
    let states = layout::block_word(t, i, layout::STATES) as usize;
    let mut less = false;
    for s in 0..states {
        less = narrow_state(t, i, s, act) | less;
    }
    less
}

// The greatest sets that the rows allow, worked out in the places that the caller lends.
pub fn solve(t: &[u64], i: usize, act: &mut [u64; Model::STATES])
    requires { Image t.now × (i < count_of t.now) × (length act.old ≡ max_states) }
    ensures { Greatest (comp_of t.now i) (λ s. get_or act.new s 0) }
{
    first_sets(t, i, act);
    while pass_once(t, i, act) {}
}
