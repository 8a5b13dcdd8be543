// The rows of a tree's model, line by line, state by state, action by action: one walk counts them, measures their lines, and writes those below a limit.
#![tactic(auto)]

ghost use Rattle.std.specs.Prelude.{◌≡◌, [], ◌∷◌, ℕ, ◌+◌, ◌*◌, ◌≤◌, ◌<◌, length};
ghost use Rattle.answer.specs.Limits.{max_rows, max_actions, max_elements, max_clocks};
ghost use Rattle.layout.specs.Layout.{image_words};
ghost use Rattle.product.specs.Walk.{out_of, written, listed};
ghost use Rattle.elements.specs.Parts.{meaning_at, element_of, Fit, move_by};
ghost use Rattle.roles.specs.Roles.{kind_is};
ghost use Rattle.treerows.specs.Rows.{row_by, state_rows, element_rows, Room};
ghost use Rattle.treerows.specs.KindSets.{kinds_on, kinds_below, word_kind};

use answer::Model;
use product::Tally;
use roles::Kind;
use treelines::Element;

// Row k of the table, where k is below the limit; with no limit the table may be short.
fn put_row(
    into: &mut [u64],
    limit: usize,
    k: usize,
    action: u64,
    guard: u64,
    resets: u64,
    target: u64,
)
    requires { (0 < limit → image_words ≤ length into.old) × (limit ≤ max_rows) }
    ensures { into.new ≡ written limit k (action ∷ guard ∷ resets ∷ target ∷ []) into.old }
{
    if k < limit {
        let at = layout::ROWS_AT + layout::ROW * k;
        into[at] = action;
        into[at + 1] = guard;
        into[at + 2] = resets;
        into[at + 3] = target;
    }
}

// The row of state s and action a, whose word is w, if there is one; k basic elements stand before the element.
fn emit_row(
    into: &mut [u64],
    limit: usize,
    n: Tally,
    e: Element,
    k: u64,
    s: u64,
    a: u64,
    w: u64,
) -> Tally
    requires { (limit ≤ max_rows) × Fit e × (2 * k + 1 < max_clocks) × (s < max_elements) × Room limit 1 (out_of n into.old) }
    ensures { out_of result into.new ≡ listed limit (row_by (move_by (element_of e) k s (meaning_at w)) s a) (out_of n into.old) }
{
    let Some(m) = elements::move_of(e, k, s, w) else {
        return n;
    };
    put_row(into, limit, n.rows, a, m.guard, m.resets, m.target);
    Tally {
        rows: n.rows + 1,
        bytes: n.bytes + measure::line_width(s, m.guard, a, m.resets, m.target),
    }
}

// The rows that leave state s, by every action.
pub fn emit_state(
    words: &[u64; Model::ACTIONS],
    count: usize,
    into: &mut [u64],
    limit: usize,
    n: Tally,
    e: Element,
    k: u64,
    s: u64,
) -> Tally
    requires { (length words.now ≡ max_actions) × (count ≤ max_actions) × (limit ≤ max_rows) × Fit e × (2 * k + 1 < max_clocks) × (s < max_elements) × Room limit count (out_of n into.old) }
    ensures { out_of result into.new ≡ listed limit (state_rows words.now count (element_of e) k s) (out_of n into.old) }
{
    let mut m = n;
    for a in 0..count {
        let next = emit_row(into, limit, m, e, k, s, a as u64, words[a]);
        m = next;
    }
    m
}

// The rows of an element's module, state by state.
pub fn emit_states(
    words: &[u64; Model::ACTIONS],
    count: usize,
    into: &mut [u64],
    limit: usize,
    n: Tally,
    e: Element,
    k: u64,
) -> Tally
    requires { (length words.now ≡ max_actions) × (count ≤ max_actions) × (limit ≤ max_rows) × Fit e × (2 * k + 1 < max_clocks) × Room limit (max_elements * max_actions) (out_of n into.old) }
    ensures { out_of result into.new ≡ listed limit (element_rows words.now count (element_of e) k) (out_of n into.old) }
{
    let states = elements::states_of(e);
    let mut m = n;
    for s in 0..states {
        let next = emit_state(words, count, into, limit, m, e, k, s as u64);
        m = next;
    }
    m
}

// The actions of a component, as four sets.
#[derive(Drop)]
pub struct Kinds {
    pub ins: u64,
    pub outs: u64,
    pub uins: u64,
    pub uouts: u64,
}

// One action more.
fn with_kind(h: Kinds, a: u64, kind: Option<Kind>) -> Kinds
    requires { a < max_actions }
    ensures { result ≡ kinds_on h a (kind_is kind) }
{
    let Some(k) = kind else {
        return h;
    };
    let one = sets::single(a);
    match k {
        Kind::In => Kinds {
            ins: sets::union(one, h.ins),
            ..h
        },
        Kind::Out => Kinds {
            outs: sets::union(one, h.outs),
            ..h
        },
        Kind::Uin => Kinds {
            uins: sets::union(one, h.uins),
            ..h
        },
        Kind::Uout => Kinds {
            uouts: sets::union(one, h.uouts),
            ..h
        },
    }
}

// What each action is to an element, as four sets.
pub fn kinds_of(words: &[u64; Model::ACTIONS], count: usize, e: Element) -> Kinds
    requires { (length words.now ≡ max_actions) × (count ≤ max_actions) × Fit e }
    ensures { result ≡ kinds_below (word_kind words.now (element_of e)) count }
{
    let mut h = Kinds {
        ins: 0,
        outs: 0,
        uins: 0,
        uouts: 0,
    };
    for a in 0..count {
        let kind = elements::kind_of(e, words[a]);
        let next = with_kind(h, a as u64, kind);
        h = next;
    }
    h
}
