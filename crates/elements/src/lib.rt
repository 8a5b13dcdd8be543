// An element of a tree as its module: how many states it has, what the action of a word is to it, and where that leads from a state.
#![tactic(auto)]

ghost use Rattle.std.specs.Prelude.{◌≡◌, ℕ, ◌+◌, ◌*◌, ◌/◌, ◌%◌, ◌≤◌, ◌<◌};
ghost use Rattle.sets.specs.Members.{or_end};
ghost use Rattle.answer.specs.Limits.{max_clocks, max_elements, max_inputs};
ghost use Rattle.trees.specs.Modules.{place_of};
ghost use Rattle.treecheck.specs.Numbers.{ins_in};
ghost use Rattle.roles.specs.Roles.{signal_is, kind_is, move_is, meant_as};
ghost use Rattle.elements.specs.Parts.{signal_no, meaning_at, element_of, Fit, states_by, move_by, kind_by, be_move_by, be_kind_by, box_move_by, box_kind_by};

use roles::{Kind, Move, Signal};
use treelines::{Element, Inputs, Sort};

// The signal of a word: 0 to 4 for fl, up, f, u, r.
pub fn signal_of(w: u64) -> Signal
    ensures { signal_is result ≡ signal_no (w % 8) }
{
    let k = w % 8;
    if k == 0 {
        return Signal::Fl;
    }
    if k == 1 {
        return Signal::Up;
    }
    if k == 2 {
        return Signal::F;
    }
    if k == 3 {
        return Signal::U;
    }
    Signal::R
}

// "No module has more than 64 states".
pub fn states_of(e: Element) -> usize
    requires { Fit e }
    ensures { result ≡ states_by (element_of e) }
{
    let count = e.inputs.count as u64;
    let sort = e.sort;
    match sort {
        Sort::Be => 9,
        Sort::And => 12,
        Sort::Or => 12,
        Sort::Pand => 20,
        Sort::Rbox => sets::single(count + 1) as usize,
    }
}

// The place of an element among the inputs, or their number.
fn place_of(i: Inputs, v: u64) -> usize
    ensures { result ≡ or_end (place_of v (ins_in i)) i.count }
{
    let count = i.count;
    for j in 0..count {
        let x = treecheck::input_at(i, j);
        if v == x {
            return j;
        }
    }
    count
}

// A basic element knows its own signals only.
fn be_part(number: u64, k: u64, s: u64, of: u64, signal: Signal) -> Option<Move>
    requires { (2 * k + 1 < max_clocks) × (s < max_elements) }
    ensures { move_is result ≡ be_move_by number k s (meant_as of signal) }
{
    if of == number {
        roles::be_move(k, s, signal)
    } else {
        None
    }
}

fn be_kind_part(number: u64, of: u64, signal: Signal) -> Option<Kind>
    ensures { kind_is result ≡ be_kind_by number (meant_as of signal) }
{
    if of == number {
        Some(roles::be_kind(signal))
    } else {
        None
    }
}

// A box knows the signals of its inputs.
fn box_part(i: Inputs, s: u64, of: u64, signal: Signal) -> Option<Move>
    requires { i.count ≤ max_inputs }
    ensures { move_is result ≡ box_move_by (ins_in i) s (meant_as of signal) }
{
    let p = place_of(i, of);
    if p < i.count {
        roles::box_move(i.count as u64, s, signal, p as u64)
    } else {
        None
    }
}

fn box_kind_part(i: Inputs, of: u64, signal: Signal) -> Option<Kind>
    ensures { kind_is result ≡ box_kind_by (ins_in i) (meant_as of signal) }
{
    let p = place_of(i, of);
    if p < i.count {
        roles::box_kind(signal)
    } else {
        None
    }
}

// Where the action of word w leads from state s; k basic elements stand before.
pub fn move_of(e: Element, k: u64, s: u64, w: u64) -> Option<Move>
    requires { Fit e × (2 * k + 1 < max_clocks) × (s < max_elements) }
    ensures { move_is result ≡ move_by (element_of e) k s (meaning_at w) }
{
    let i = e.inputs;
    let of = w / 8;
    let signal = signal_of(w);
    let gate = roles::gate_role(e.number, i.first, i.second, of, signal);
    let pand = roles::pand_role(e.number, i.first, i.second, of, signal);
    let sort = e.sort;
    match sort {
        Sort::Be => be_part(e.number, k, s, of, signal),
        Sort::And => roles::count_move(2, s, gate),
        Sort::Or => roles::count_move(1, s, gate),
        Sort::Pand => roles::pand_move(s, pand),
        Sort::Rbox => box_part(i, s, of, signal),
    }
}

// What kind the action of word w is to the element.
pub fn kind_of(e: Element, w: u64) -> Option<Kind>
    requires { Fit e }
    ensures { kind_is result ≡ kind_by (element_of e) (meaning_at w) }
{
    let i = e.inputs;
    let of = w / 8;
    let signal = signal_of(w);
    let gate = roles::gate_role(e.number, i.first, i.second, of, signal);
    let pand = roles::pand_role(e.number, i.first, i.second, of, signal);
    let sort = e.sort;
    match sort {
        Sort::Be => be_kind_part(e.number, of, signal),
        Sort::And => roles::gate_kind(gate),
        Sort::Or => roles::gate_kind(gate),
        Sort::Pand => roles::gate_kind(pand),
        Sort::Rbox => box_kind_part(i, of, signal),
    }
}
