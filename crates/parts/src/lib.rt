// One component's conditions, by its index: 10 to 14 in turn, each at the least place.
#![tactic(auto)]

ghost use Rattle.std.specs.Prelude.{◌≡◌, Bool, true, false, ℕ, ◌+◌, ◌≤◌, ◌<◌, length};
ghost use Rattle.answer.specs.Limits.{max_actions, max_rows};
ghost use Rattle.iosa.specs.Checks.{unclocked, fault_at};
ghost use Rattle.layout.specs.Layout.{image_words, count_of, block_word, first_of};
ghost use Rattle.layout.specs.Image.{Image, comp_of};
ghost use Rattle.parts.specs.Faults.{Says, bad_guard_by, fault10, fault14, actions_in, again_at, repeat_fault, lack_fault, twice_fault, LowAction};

use answer::{Model, Place, Refusal};

// The actions whose rows have no clock.
fn unclocked(t: &[u64], i: usize) -> u64
    requires { Image t.now × (i < count_of t.now) }
    ensures { result ≡ unclocked (comp_of t.now i) }
{
    let ins = layout::block_word(t, i, layout::INS);
    let uins = layout::block_word(t, i, layout::UINS);
    let uouts = layout::block_word(t, i, layout::UOUTS);
    sets::union(sets::union(ins, uins), sets::union(uins, uouts))
}

// Whether a guard goes against (a) or (b).
fn bad_guard(calm: u64, outs: u64, a: u64, g: u64) -> bool
    requires { a < max_actions }
    ensures { result ≡ bad_guard_by calm outs a g }
{
    if g == 0 {
        sets::has(outs, a)
    } else {
        sets::has(calm, a)
    }
}

// 10.
pub fn check_guards(t: &[u64], i: usize) -> Result<(), Refusal>
    requires { Image t.now × (i < count_of t.now) }
    ensures { Says result (fault10 (first_of t.now i 0) (comp_of t.now i)) }
{
    let calm = unclocked(t, i);
    let outs = layout::block_word(t, i, layout::OUTS);
    let states = layout::block_word(t, i, layout::STATES) as usize;
    let lo = layout::first_of(t, i, 0);
    let hi = layout::first_of(t, i, states);
    for k in lo..hi {
        if bad_guard(calm, outs, layout::action_at(t, k), layout::guard_at(t, k)) {
            return Err(Refusal {
                number: 10,
                place: Place::Row(k),
            });
        }
    }
    Ok(())
}

// 11 in state s: the clocks seen so far, as one set.
fn repeat_at(t: &[u64], i: usize, s: usize) -> Result<(), Refusal>
    requires { Image t.now × (i < count_of t.now) × (s < block_word t.now i 0) }
    ensures { Says result (repeat_fault t.now i s) }
{
    let lo = layout::first_of(t, i, s);
    let hi = layout::first_of(t, i, s + 1);
    let mut seen = 0u64;
    for r in lo..hi {
        let g = active::guard_set(layout::guard_at(t, r));
        if (seen & g) != 0 {
            return Err(Refusal {
                number: 11,
                place: Place::Row(r),
            });
        }
        seen = sets::union(seen, g);
    }
    Ok(())
}

// The actions that leave s, as one set.
fn actions_at(t: &[u64], i: usize, s: usize) -> u64
    requires { Image t.now × (i < count_of t.now) × (s < block_word t.now i 0) }
    ensures { result ≡ actions_in t.now i s }
{
    let lo = layout::first_of(t, i, s);
    let hi = layout::first_of(t, i, s + 1);
    let mut seen = 0u64;
    for k in lo..hi {
        seen = sets::union(seen, sets::single(layout::action_at(t, k)));
    }
    seen
}

// 12 in state s: the lowest input that does not leave it.
fn lack_at(t: &[u64], i: usize, s: usize) -> Result<(), Refusal>
    requires { Image t.now × (i < count_of t.now) × (s < block_word t.now i 0) }
    ensures { Says result (lack_fault t.now i s) }
{
    let ins = layout::block_word(t, i, layout::INS);
    let uins = layout::block_word(t, i, layout::UINS);
    let lacking = sets::minus(sets::union(ins, uins), actions_at(t, i, s));
    if lacking == 0 {
        return Ok(());
    }
    Err(Refusal {
        number: 12,
        place: Place::Cell {
            component: i,
            state: s,
            action: sets::lowest(lacking),
        },
    })
}

// Whether row k has the action of the row before it, one that has no clock.
fn again_at(t: &[u64], calm: u64, k: usize) -> bool
    requires { (image_words ≤ length t.now) × (1 ≤ k) × (k < max_rows) × LowAction t.now k }
    ensures { result ≡ again_at t.now calm k }
{
    let a = layout::action_at(t, k);
    a == layout::action_at(t, k - 1) && sets::has(calm, a)
}

// 13 in state s: its rows ascend by action, so rows with the same action are neighbours.
fn double_at(t: &[u64], i: usize, s: usize) -> Result<(), Refusal>
    requires { Image t.now × (i < count_of t.now) × (s < block_word t.now i 0) }
    ensures { Says result (twice_fault t.now i s) }
{
    let calm = unclocked(t, i);
    let second = layout::first_of(t, i, s) + 1;
    let hi = layout::first_of(t, i, s + 1);
    for k in second..hi {
        if again_at(t, calm, k) {
            return Err(Refusal {
                number: 13,
                place: Place::Cell {
                    component: i,
                    state: s,
                    action: layout::action_at(t, k),
                },
            });
        }
    }
    Ok(())
}

// 14: what guards a state's rows must be active there.
pub fn check_active(t: &[u64], i: usize) -> Result<(), Refusal>
    requires { Image t.now × (i < count_of t.now) }
    ensures { Says result (fault14 i (comp_of t.now i)) }
{
    let states = layout::block_word(t, i, layout::STATES) as usize;
    let mut greatest = [0u64; Model::STATES];
    active::solve(t, i, &mut greatest);
    for s in 0..states {
        if !sets::lies_in(active::enabling(t, i, s), greatest[s]) {
            return Err(Refusal {
                number: 14,
                place: Place::Component(i),
            });
        }
    }
    Ok(())
}

// One component's 10 to 14: of 11, 12 and 13 each the lowest state that has the fault.
pub fn check_component(t: &[u64], i: usize) -> Result<(), Refusal>
    requires { Image t.now × (i < count_of t.now) }
    ensures { Says result (fault_at i (first_of t.now i 0) (comp_of t.now i)) }
{
    check_guards(t, i)?;
    let states = layout::block_word(t, i, layout::STATES) as usize;
    (0..states).try_for_each(|s| repeat_at(t, i, s))?;
    (0..states).try_for_each(|s| lack_at(t, i, s))?;
    (0..states).try_for_each(|s| double_at(t, i, s))?;
    check_active(t, i)
}
