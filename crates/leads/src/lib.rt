// What each action triggers, what is in one set with it, and the actions that enable it: tables of 64 sets of actions, row by row.
#![tactic(auto)]

ghost use Rattle.std.specs.Prelude.{◌≡◌, cond, ℕ, ◌<◌, length};
ghost use Rattle.answer.specs.Limits.{max_actions};
ghost use Rattle.model.specs.Model.{urgents};
ghost use Rattle.layout.specs.Layout.{count_of, block_word};
ghost use Rattle.layout.specs.Image.{Image, comp_of, row_in};
ghost use Rattle.triggering.specs.Test.{crossed, uouts_at, stirred, woken};
ghost use Rattle.leads.specs.Learning.{AtRow, PairOf, learn_row};

use answer::Model;

// Which table.
#[derive(Clone, Copy)]
pub enum Kind {
    Triggers,
    Sets,
    Wakers,
}

// A state of a component, and whether the component can reach it.
#[derive(Clone, Copy)]
pub struct Spot {
    pub component: usize,
    pub state: usize,
    pub counts: bool,
}

// To the sets of these actions, these members.
#[derive(Drop)]
pub struct Pair {
    pub to: u64,
    pub new: u64,
}

// The set, or none.
pub fn pick(on: bool, s: u64) -> u64
    ensures { result ≡ cond on s 0 }
{
    if on { s } else { 0 }
}

// To the set of each member of `to` the members of `new`.
pub fn cross(table: &mut [u64; Model::ACTIONS], to: u64, new: u64)
    requires { length table.old ≡ max_actions }
    ensures { table.new ≡ crossed to new table.old }
{
    let mut left = to;
    while left != 0 {
        let x = sets::lowest(left);
        let a = x as usize;
        table[a] = sets::union(table[a], new);
        left = sets::minus(left, sets::single(x));
    }
}

// The urgent outputs that are enabled in s.
pub fn enabled_at(t: &[u64], i: usize, s: usize) -> u64
    requires { Image t.now × (i < count_of t.now) × (s < block_word t.now i 0) }
    ensures { result ≡ uouts_at (comp_of t.now i) s }
{
    let lo = layout::first_of(t, i, s);
    let hi = layout::first_of(t, i, s + 1);
    let mut all = 0u64;
    for r in lo..hi {
        all = sets::union(all, sets::single(layout::action_at(t, r)));
    }
    layout::block_word(t, i, layout::UOUTS) & all
}

// The urgent actions of component i.
fn urgent_of(t: &[u64], i: usize) -> u64
    requires { Image t.now × (i < count_of t.now) }
    ensures { result ≡ urgents (comp_of t.now i) }
{
    sets::union(
        layout::block_word(t, i, layout::UINS),
        layout::block_word(t, i, layout::UOUTS),
    )
}

// What a row triggers: what is enabled after it and, but for its own action, was not before.
fn stirred(t: &[u64], at: Spot, r: usize) -> u64
    requires { AtRow t.now at r }
    ensures { result ≡ stirred (comp_of t.now at.component) (row_in t.now at.state r) }
{
    let a = layout::action_at(t, r);
    let before = sets::minus(enabled_at(t, at.component, at.state), sets::single(a));
    let after = enabled_at(t, at.component, layout::target_at(t, r) as usize);
    let urgent = sets::has(urgent_of(t, at.component), a);
    pick(urgent & at.counts, sets::minus(after, before))
}

// What a row by a non-urgent action from a stable state enables.
fn woken(t: &[u64], at: Spot, r: usize) -> u64
    requires { AtRow t.now at r }
    ensures { result ≡ woken (comp_of t.now at.component) (row_in t.now at.state r) }
{
    let a = layout::action_at(t, r);
    let after = enabled_at(t, at.component, layout::target_at(t, r) as usize);
    let urgent = sets::has(urgent_of(t, at.component), a);
    let unstable = active::is_unstable(t, at.component, at.state);
    pick(!urgent & (at.counts & !unstable), after)
}

// What a row adds to a table.
fn pair_of(t: &[u64], at: Spot, r: usize, kind: Kind) -> Pair
    requires { AtRow t.now at r }
    ensures { PairOf kind (comp_of t.now at.component) (row_in t.now at.state r) result }
{
    let own = sets::single(layout::action_at(t, r));
    match kind {
        Kind::Triggers => Pair {
            to: own,
            new: stirred(t, at, r),
        },
        Kind::Sets => {
            let set = woken(t, at, r);
            Pair { to: set, new: set }
        }
        Kind::Wakers => Pair {
            to: woken(t, at, r),
            new: own,
        },
    }
}

// One row learnt.
pub fn learn_row(t: &[u64], at: Spot, r: usize, kind: Kind, table: &mut [u64; Model::ACTIONS])
    requires { AtRow t.now at r × (length table.old ≡ max_actions) }
    ensures { table.new ≡ learn_row kind (comp_of t.now at.component) (row_in t.now at.state r) table.old }
{
    let p = pair_of(t, at, r, kind);
    cross(table, p.to, p.new);
}
