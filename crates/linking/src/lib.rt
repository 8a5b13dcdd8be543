// The tables of a system, its rows one after the other; the pairs of actions that are led to.
#![tactic(auto)]

ghost use Rattle.std.specs.Prelude.{◌≡◌, ℕ, ◌<◌, length};
ghost use Rattle.std.proofs.Math.Option.{none};
ghost use Rattle.laws.specs.Sets.{only};
ghost use Rattle.laws.specs.Fold.{tab};
ghost use Rattle.answer.specs.Limits.{max_actions};
ghost use Rattle.iosa.specs.Checks.{accept_of};
ghost use Rattle.layout.specs.Layout.{count_of};
ghost use Rattle.layout.specs.Image.{Image, comp_of, model_of};
ghost use Rattle.triggering.specs.Test.{nothing, starts_of, own_of, sharing, elsewhere, together_of, spread_by};
ghost use Rattle.linking.specs.Linking.{LeadTable, LedTable, led_from};
ghost use Rattle.reach.specs.Marks.{Marked};
ghost use Rattle.leads.specs.Learning.{InState, learn_state, learn_in, learn_of};

use answer::Model;
use leads::{Kind, Spot};

// The rows of a state.
fn learn_state(t: &[u64], at: Spot, kind: Kind, table: &mut [u64; Model::ACTIONS])
    requires { InState t.now at × (length table.old ≡ max_actions) }
    ensures { table.new ≡ learn_state t.now at.component at.state kind table.old }
{
    let lo = layout::first_of(t, at.component, at.state);
    let hi = layout::first_of(t, at.component, at.state + 1);
    for r in lo..hi {
        leads::learn_row(t, at, r, kind, table);
    }
}

// The rows of a component, where it can get is marked.
fn learn_states(
    t: &[u64],
    i: usize,
    seen: &[u8; Model::STATES],
    kind: Kind,
    table: &mut [u64; Model::ACTIONS],
)
    requires { Image t.now × (i < count_of t.now) × Marked (comp_of t.now i) seen.now × (length table.old ≡ max_actions) }
    ensures { table.new ≡ learn_in kind (comp_of t.now i) table.old }
{
    let states = layout::block_word(t, i, layout::STATES) as usize;
    for s in 0..states {
        let at = Spot {
            component: i,
            state: s,
            counts: seen[s] != 0,
        };
        learn_state(t, at, kind, table);
    }
}

fn learn_component(t: &[u64], i: usize, kind: Kind, table: &mut [u64; Model::ACTIONS])
    requires { Image t.now × (i < count_of t.now) × (length table.old ≡ max_actions) }
    ensures { table.new ≡ learn_in kind (comp_of t.now i) table.old }
{
    let mut seen = [0u8; Model::STATES];
    reach::marks(t, i, &mut seen);
    learn_states(t, i, &seen, kind, table);
}

// The rows of a system.
pub fn learn(t: &[u64], kind: Kind, table: &mut [u64; Model::ACTIONS])
    requires { Image t.now × (length table.old ≡ max_actions) }
    ensures { table.new ≡ learn_of kind (model_of t.now) table.old }
{
    let n = layout::count_of(t) as usize;
    for i in 0..n {
        learn_component(t, i, kind, table);
    }
}

// What is enabled at the start.
fn starts(t: &[u64]) -> u64
    requires { Image t.now }
    ensures { result ≡ starts_of (model_of t.now) }
{
    let n = layout::count_of(t) as usize;
    let mut all = 0u64;
    for i in 0..n {
        let s = layout::block_word(t, i, layout::START) as usize;
        all = sets::union(all, leads::enabled_at(t, i, s));
    }
    all
}

// The urgent outputs of the component that outputs a.
fn own_of(t: &[u64], a: u64) -> u64
    requires { Image t.now × (a < max_actions) }
    ensures { result ≡ own_of (model_of t.now) a }
{
    let n = layout::count_of(t) as usize;
    let mut all = 0u64;
    for i in 0..n {
        let own = layout::block_word(t, i, layout::UOUTS);
        all = sets::union(all, leads::pick(sets::has(own, a), own));
    }
    all
}

// The actions whose sets share a member with that of a.
fn sharing(table: &[u64; Model::ACTIONS], a: usize) -> u64
    requires { (length table.now ≡ max_actions) × (a < max_actions) }
    ensures { result ≡ sharing table.now a }
{
    let mine = table[a];
    if mine == 0 {
        return 0;
    }
    let mut all = 0u64;
    for d in 0..Model::ACTIONS {
        all = sets::union(
            all,
            leads::pick(mine & table[d] != 0, sets::single(d as u64)),
        );
    }
    all
}

// What the members of x lead on to.
fn spread(lead: &[u64; Model::ACTIONS], x: u64) -> u64
    requires { length lead.now ≡ max_actions }
    ensures { result ≡ spread_by lead.now x }
{
    if x == 0 {
        return 0;
    }
    let mut all = 0u64;
    for d in 0..Model::ACTIONS {
        all = sets::union(all, leads::pick(sets::has(x, d as u64), lead[d]));
    }
    all
}

// Each action with those of other components that one and the same action enables.
fn add_elsewhere(t: &[u64], wakers: &[u64; Model::ACTIONS], table: &mut [u64; Model::ACTIONS])
    requires { Image t.now × (length wakers.now ≡ max_actions) × (length table.old ≡ max_actions) }
    ensures { table.new ≡ elsewhere (model_of t.now) wakers.now table.old }
{
    for a in 0..Model::ACTIONS {
        let others = sets::minus(sharing(wakers, a), own_of(t, a as u64));
        leads::cross(table, sets::single(a as u64), others);
    }
}

// In place, from what each action is together with: the set of each action that a leads on to takes in what those lead on to that a is with.
fn add_led(lead: &[u64; Model::ACTIONS], table: &mut [u64; Model::ACTIONS])
    requires { (length lead.now ≡ max_actions) × (length table.old ≡ max_actions) }
    ensures { table.new ≡ led_from lead.now table.old }
{
    for a in 0..Model::ACTIONS {
        let to = lead[a];
        let new = spread(lead, table[a]);
        leads::cross(table, to, new);
    }
}

// Each action leads on to itself.
fn singles(table: &mut [u64; Model::ACTIONS])
    requires { length table.old ≡ max_actions }
    ensures { table.new ≡ tab only 0 max_actions }
{
    for a in 0..Model::ACTIONS {
        table[a] = sets::single(a as u64);
    }
}

// What each action leads on to: the table of marks is closed.
fn lead_table(t: &[u64], table: &mut [u64; Model::ACTIONS])
    requires { Image t.now × (length table.old ≡ max_actions) }
    ensures { LeadTable (model_of t.now) table.new }
{
    singles(table);
    learn(t, Kind::Triggers, table);
    marks::close_sets(table);
}

// For each urgent output those that it is together with.
fn with_table(t: &[u64], table: &mut [u64; Model::ACTIONS])
    requires { Image t.now × (table.old ≡ nothing) }
    ensures { table.new ≡ together_of (model_of t.now) }
{
    let mut wakers = [0u64; Model::ACTIONS];
    learn(t, Kind::Wakers, &mut wakers);
    let s = starts(t);
    leads::cross(table, s, s);
    learn(t, Kind::Sets, table);
    add_elsewhere(t, &wakers, table);
}

// The pairs that are led to, once it is known which outputs are together.
fn led_from(t: &[u64], table: &mut [u64; Model::ACTIONS])
    requires { Image t.now × (accept_of (model_of t.now) ≡ none) × (table.old ≡ together_of (model_of t.now)) }
    ensures { LedTable (model_of t.now) table.new }
{
    let mut lead = [0u64; Model::ACTIONS];
    lead_table(t, &mut lead);
    add_led(&lead, table);
}

// The pairs of actions that are led to, in an empty table. Beside it one more lies on the stack at a time: 512 bytes each.
pub fn led_table(t: &[u64], table: &mut [u64; Model::ACTIONS])
    requires { Image t.now × (accept_of (model_of t.now) ≡ none) × (table.old ≡ nothing) }
    ensures { LedTable (model_of t.now) table.new }
{
    with_table(t, table);
    led_from(t, table);
}
