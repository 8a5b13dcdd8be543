// The rows that the states of a table's model lack for their inputs: one walk counts them, measures their lines and lists them, so that nothing is written
// before the whole is known to fit.
#![tactic(auto)]

ghost use Rattle.std.specs.Prelude.{◌≡◌, true, cond, ℕ, ◌+◌, ◌*◌, ◌≤◌, ◌<◌, length};
ghost use Rattle.std.proofs.lemmas.List.Edits.{sets};
ghost use Rattle.answer.specs.Limits.{max_rows, max_actions, max_components, max_states};
ghost use Rattle.layout.specs.Layout.{image_words, count_of, block_word, action_at};
ghost use Rattle.layout.specs.Image.{Image, model_of};
ghost use Rattle.lacking.specs.Repair.{cell, added_to};
ghost use Rattle.lacking.specs.Walk.{most_cells, cell_bytes, out_of, one_more, walked, Roomy, actions_from, lack_in, lack_of, cell_in, cells_in, cells_by};

use answer::Model;

// The rows so far, and the bytes of their lines.
#[derive(Drop)]
pub struct Tally {
    pub rows: usize,
    pub bytes: usize,
}

// A state and an action of a component.
#[derive(Clone, Copy)]
pub struct Cell {
    pub component: usize,
    pub state: usize,
    pub action: u64,
}

// The actions of the rows lo .. hi, as one set.
fn actions_from(t: &[u64], lo: usize, hi: usize) -> u64
    requires { (image_words ≤ length t.now) × (hi ≤ max_rows) × ((r : ℕ) → lo ≤ r → r < hi → action_at t.now r < max_actions) }
    ensures { result ≡ actions_from t.now lo hi }
{
    let mut seen = 0u64;
    for k in lo..hi {
        seen = sets::union(seen, sets::single(layout::action_at(t, k)));
    }
    seen
}

// The inputs of component i that no row of lo .. hi has.
pub fn lacking_in(t: &[u64], i: usize, lo: usize, hi: usize) -> u64
    requires { (image_words ≤ length t.now) × (i < max_components) × (hi ≤ max_rows) × ((r : ℕ) → lo ≤ r → r < hi → action_at t.now r < max_actions) }
    ensures { result ≡ lack_in t.now i lo hi }
{
    let ins = layout::block_word(t, i, layout::INS);
    let uins = layout::block_word(t, i, layout::UINS);
    sets::minus(sets::union(ins, uins), actions_from(t, lo, hi))
}

// The inputs that state s of component i lacks.
fn lacking_at(t: &[u64], i: usize, s: usize) -> u64
    requires { Image t.now × (i < count_of t.now) × (s < block_word t.now i 0) }
    ensures { result ≡ lack_of t.now i s }
{
    let lo = layout::first_of(t, i, s);
    let hi = layout::first_of(t, i, s + 1);
    lacking_in(t, i, lo, hi)
}

// The three bytes of a cell, behind so many others.
fn put_cell(list: &mut [u8], write: bool, rows: usize, x: Cell)
    requires { (x.component < 256) × (x.state < 256) × (x.action < 256) × (rows < most_cells) × (write ≡ true → cell_bytes * (rows + 1) ≤ length list.old) }
    ensures { list.new ≡ cond write (sets list.old (cell_bytes * rows) (cell x.component x.state x.action)) list.old }
{
    if write {
        let at = 3 * rows;
        list[at] = x.component as u8;
        list[at + 1] = x.state as u8;
        list[at + 2] = x.action as u8;
    }
}

// One row more.
fn walk_cell(list: &mut [u8], write: bool, n: Tally, x: Cell) -> Tally
    requires { (x.component < max_components) × (x.state < max_states) × (x.action < max_actions) × Roomy write (one_more write (cell x.component x.state x.action) (out_of n list.old)) }
    ensures { out_of result list.new ≡ one_more write (cell x.component x.state x.action) (out_of n list.old) }
{
    put_cell(list, write, n.rows, x);
    let s = x.state as u64;
    Tally {
        rows: n.rows + 1,
        bytes: n.bytes + measure::line_width(s, 0, x.action, 0, s),
    }
}

// Action x.action of a state, where the set has it.
fn walk_action(list: &mut [u8], write: bool, n: Tally, lacking: u64, x: Cell) -> Tally
    requires { (x.component < max_components) × (x.state < max_states) × (x.action < max_actions) × Roomy write (walked write (cell_in lacking x.component x.state x.action) (out_of n list.old)) }
    ensures { out_of result list.new ≡ walked write (cell_in lacking x.component x.state x.action) (out_of n list.old) }
{
    if sets::has(lacking, x.action) {
        walk_cell(list, write, n, x)
    } else {
        n
    }
}

// The actions of a set, in state s of component i.
fn walk_set(list: &mut [u8], write: bool, n: Tally, lacking: u64, i: usize, s: usize) -> Tally
    requires { (i < max_components) × (s < max_states) × Roomy write (walked write (cells_in lacking i s) (out_of n list.old)) }
    ensures { out_of result list.new ≡ walked write (cells_in lacking i s) (out_of n list.old) }
{
    let mut m = n;
    for a in 0..Model::ACTIONS {
        let x = Cell {
            component: i,
            state: s,
            action: a as u64,
        };
        m = walk_action(list, write, m, lacking, x);
    }
    m
}

// What state s lacks; most states lack nothing.
fn walk_state(t: &[u64], list: &mut [u8], write: bool, n: Tally, i: usize, s: usize) -> Tally
    requires { Image t.now × (i < count_of t.now) × (s < block_word t.now i 0) × Roomy write (walked write (cells_in (lack_of t.now i s) i s) (out_of n list.old)) }
    ensures { out_of result list.new ≡ walked write (cells_in (lack_of t.now i s) i s) (out_of n list.old) }
{
    let lacking = lacking_at(t, i, s);
    if lacking == 0 {
        return n;
    }
    walk_set(list, write, n, lacking, i, s)
}

// What component i lacks.
fn walk_component(t: &[u64], list: &mut [u8], write: bool, n: Tally, i: usize) -> Tally
    requires { Image t.now × (i < count_of t.now) × Roomy write (walked write (cells_by t.now i) (out_of n list.old)) }
    ensures { out_of result list.new ≡ walked write (cells_by t.now i) (out_of n list.old) }
{
    let states = layout::block_word(t, i, layout::STATES) as usize;
    let mut m = n;
    for s in 0..states {
        m = walk_state(t, list, write, m, i, s);
    }
    m
}

// What the model lacks.
pub fn walk(t: &[u64], list: &mut [u8], write: bool, n: Tally) -> Tally
    requires { Image t.now × Roomy write (walked write (added_to (model_of t.now)) (out_of n list.old)) }
    ensures { out_of result list.new ≡ walked write (added_to (model_of t.now)) (out_of n list.old) }
{
    let count = layout::count_of(t) as usize;
    let mut m = n;
    for i in 0..count {
        m = walk_component(t, list, write, m, i);
    }
    m
}
