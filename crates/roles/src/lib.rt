// What an action is to a module (000, section 5.5), and where it leads from a state: numbers and bits only, no tables.
#![tactic(auto)]

ghost use Rattle.std.specs.Prelude.{◌≡◌, ℕ, ◌+◌, ◌*◌, ◌-◌, ◌/◌, ◌%◌, ◌≤◌, ◌<◌};
ghost use Rattle.std.proofs.Math.Option.{some};
ghost use Rattle.laws.specs.Sets.{has};
ghost use Rattle.laws.specs.Search.{when, map_some, any};
ghost use Rattle.answer.specs.Limits.{max_clocks, max_inputs, max_elements};
ghost use Rattle.trees.specs.Tree.{r as begin};
ghost use Rattle.trees.specs.Modules.{be_kind, be_move, gate_kind, gate_role as gate_role_of, pand_role, f0, u0, f1, u1, tick};
ghost use Rattle.trees.specs.Modules.{one_more, one_less, count_move, pand_state, pand_move, box_kind, box-r, box_move, box_hears, bound, plain_move};
ghost use Rattle.roles.specs.Roles.{signal_is, kind_as, kind_is, move_is, gate_is, told_as, gate_of, meant_as};

// "fl", "up", "f", "u", "r": failure and repair by the clock, failure and repair told, start of repair.
#[derive(Clone, Copy)]
pub enum Signal {
    Fl,
    Up,
    F,
    U,
    R,
}

// What kind of action it is to a module.
#[derive(Clone, Copy)]
pub enum Kind {
    In,
    Out,
    Uin,
    Uout,
}

// What an action is to a gate: its own, of its first input, of its second, or, to PAND, any passing of time.
#[derive(Clone, Copy)]
pub enum GateRole {
    OwnF,
    OwnU,
    F0,
    U0,
    F1,
    U1,
    Tick,
}

// Where an action leads.
#[derive(Clone, Copy)]
pub struct Move {
    pub guard: u64,
    pub resets: u64,
    pub target: u64,
}

// A move with no guard and no resets, where there is one.
fn to(there: bool, target: u64) -> Option<Move>
    ensures { move_is result ≡ when there (plain_move target) }
{
    there.then_some(Move {
        guard: 0,
        resets: 0,
        target,
    })
}

// ---- BE: state = 3 signal + broken; clocks fc = 2 k and rc = 2 k + 1.
pub fn be_kind(signal: Signal) -> Kind
    ensures { kind_as result ≡ be_kind (signal_is signal) }
{
    match signal {
        Signal::Fl => Kind::Out,
        Signal::Up => Kind::Out,
        Signal::F => Kind::Uout,
        Signal::U => Kind::Uout,
        Signal::R => Kind::Uin,
    }
}

// The order to begin the repair is heard in every state, and followed where the element is broken.
fn ordered(k: u64, told: u64, broken: u64) -> Option<Move>
    requires { (2 * k + 1 < max_clocks) × (told < max_elements) × (broken < max_elements) }
    ensures { move_is result ≡ be_move k told broken begin }
{
    if broken == 1 {
        Some(Move {
            guard: 0,
            resets: sets::single(2 * k + 1),
            target: told * 3 + 2,
        })
    } else {
        to(true, told * 3 + broken)
    }
}

pub fn be_move(k: u64, s: u64, signal: Signal) -> Option<Move>
    requires { (2 * k + 1 < max_clocks) × (s < max_elements) }
    ensures { move_is result ≡ be_move k (s / 3) (s % 3) (signal_is signal) }
{
    let told = s / 3;
    let broken = s % 3;
    match signal {
        Signal::Fl => (broken == 0).then_some(Move {
            guard: 2 * k + 1,
            resets: 0,
            target: 4,
        }),
        Signal::Up => {
            let fc = sets::single(2 * k);
            (broken == 2).then_some(Move {
                guard: 2 * k + 1 + 1,
                resets: fc,
                target: 6,
            })
        }
        Signal::F => to(told == 1, broken),
        Signal::U => to(told == 2, broken),
        Signal::R => ordered(k, told, broken),
    }
}

// ---- gates
pub fn gate_kind(role: Option<GateRole>) -> Option<Kind>
    ensures { kind_is result ≡ map_some gate_kind (gate_is role) }
{
    let r = role?;
    match r {
        GateRole::OwnF => Some(Kind::Uout),
        GateRole::OwnU => Some(Kind::Uout),
        GateRole::F0 => Some(Kind::Uin),
        GateRole::U0 => Some(Kind::Uin),
        GateRole::F1 => Some(Kind::Uin),
        GateRole::U1 => Some(Kind::Uin),
        GateRole::Tick => Some(Kind::In),
    }
}

// Of an element's signals a gate hears failure and repair told.
fn told(f: GateRole, u: GateRole, signal: Signal) -> Option<GateRole>
    ensures { result ≡ told_as f u signal }
{
    match signal {
        Signal::F => Some(f),
        Signal::U => Some(u),
        _ => None,
    }
}

pub fn gate_role(number: u64, first: u64, second: u64, of: u64, signal: Signal) -> Option<GateRole>
    ensures { gate_is result ≡ gate_role_of (gate_of number first second) (meant_as of signal) }
{
    if of == number {
        return told(GateRole::OwnF, GateRole::OwnU, signal);
    }
    if of == first {
        return told(GateRole::F0, GateRole::U0, signal);
    }
    if of == second {
        return told(GateRole::F1, GateRole::U1, signal);
    }
    None
}

// "The PAND row for any passing of time becomes one input for every failure and repair of a basic element in the tree".
pub fn pand_role(number: u64, first: u64, second: u64, of: u64, signal: Signal) -> Option<GateRole>
    ensures { gate_is result ≡ pand_role (gate_of number first second) (meant_as of signal) }
{
    let role = gate_role(number, first, second, of, signal);
    match signal {
        Signal::Fl => Some(GateRole::Tick),
        Signal::Up => Some(GateRole::Tick),
        Signal::F => role,
        Signal::U => role,
        Signal::R => role,
    }
}

// AND and OR: state = 6 signalf + 3 signalu + count. An input fails: where it is the n-th to be down, the gate has to tell it.
fn one_more(n: u64, sf: u64, su: u64, c: u64) -> u64
    requires { (sf < max_elements) × (su < max_elements) × (c < max_elements) }
    ensures { result ≡ one_more n sf su c }
{
    if c == 2 {
        return sf * 6 + su * 3 + 2;
    }
    if c + 1 == n {
        return 6 + su * 3 + (c + 1);
    }
    sf * 6 + su * 3 + (c + 1)
}

// An input is repaired: where n were down, the gate has to tell it.
fn one_less(n: u64, sf: u64, su: u64, c: u64) -> u64
    requires { (sf < max_elements) × (su < max_elements) × (c < max_elements) }
    ensures { result ≡ one_less n sf su c }
{
    if c == 0 {
        return sf * 6 + su * 3;
    }
    if c == n {
        return sf * 6 + 3 + (c - 1);
    }
    sf * 6 + su * 3 + (c - 1)
}

// The gate is down where at least n inputs are: n is 2 for AND and 1 for OR.
pub fn count_move(n: u64, s: u64, role: Option<GateRole>) -> Option<Move>
    requires { s < max_elements }
    ensures { move_is result ≡ bound (gate_is role) (λ x. map_some plain_move (count_move n (s / 6) (s / 3 % 2) (s % 3) x)) }
{
    let sf = s / 6;
    let su = s / 3 % 2;
    let c = s % 3;
    let r = role?;
    match r {
        GateRole::OwnF => to((sf == 1) & (n <= c), su * 3 + c),
        GateRole::OwnU => to((su == 1) & (c < n), sf * 6 + c),
        GateRole::F0 => to(true, one_more(n, sf, su, c)),
        GateRole::U0 => to(true, one_less(n, sf, su, c)),
        GateRole::F1 => to(true, one_more(n, sf, su, c)),
        GateRole::U1 => to(true, one_less(n, sf, su, c)),
        GateRole::Tick => to(true, sf * 6 + su * 3 + c),
    }
}

// PAND: state = 10 f0 + 5 f1 + st, st 0 up, 1 inform fail, 2 failed, 3 inform up, 4 unbreakable.
fn pand_state(x: u64, y: u64, st: u64) -> u64
    requires { (x < max_elements) × (y < max_elements) × (st < max_elements) }
    ensures { result ≡ pand_state x y st }
{
    x * 10 + y * 5 + st
}

fn first_fails(x: u64, y: u64, st: u64) -> u64
    requires { (x < max_elements) × (y < max_elements) × (st < max_elements) }
    ensures { some result ≡ pand_move x y st f0 }
{
    if x == 1 {
        return pand_state(x, y, st);
    }
    if (st == 0) & (y == 1) {
        return pand_state(1, y, 1);
    }
    pand_state(1, y, st)
}

fn first_repaired(x: u64, y: u64, st: u64) -> u64
    requires { (x < max_elements) × (y < max_elements) × (st < max_elements) }
    ensures { some result ≡ pand_move x y st u0 }
{
    if x == 0 {
        return pand_state(x, y, st);
    }
    if st == 1 {
        return pand_state(0, y, 0);
    }
    pand_state(0, y, st)
}

fn second_fails(x: u64, y: u64, st: u64) -> u64
    requires { (x < max_elements) × (y < max_elements) × (st < max_elements) }
    ensures { some result ≡ pand_move x y st f1 }
{
    if y == 1 {
        return pand_state(x, y, st);
    }
    if (st == 0) & (x == 1) {
        return pand_state(x, 1, 1);
    }
    if st == 3 {
        return pand_state(x, 1, 2);
    }
    pand_state(x, 1, st)
}

fn second_repaired(x: u64, y: u64, st: u64) -> u64
    requires { (x < max_elements) × (y < max_elements) × (st < max_elements) }
    ensures { some result ≡ pand_move x y st u1 }
{
    if y == 0 {
        return pand_state(x, y, st);
    }
    if (st == 1) | (st == 4) {
        return pand_state(x, 0, 0);
    }
    if st == 2 {
        return pand_state(x, 0, 3);
    }
    pand_state(x, 0, st)
}

// Time passes: where only the second input is down, the gate can no longer fail.
fn time_passes(x: u64, y: u64, st: u64) -> u64
    requires { (x < max_elements) × (y < max_elements) × (st < max_elements) }
    ensures { some result ≡ pand_move x y st tick }
{
    if (st == 0) & ((y == 1) & (x == 0)) {
        return pand_state(x, y, 4);
    }
    pand_state(x, y, st)
}

pub fn pand_move(s: u64, role: Option<GateRole>) -> Option<Move>
    requires { s < max_elements }
    ensures { move_is result ≡ bound (gate_is role) (λ x. map_some plain_move (pand_move (s / 10) (s / 5 % 2) (s % 5) x)) }
{
    let x = s / 10;
    let y = s / 5 % 2;
    let st = s % 5;
    let r = role?;
    match r {
        GateRole::OwnF => to(st == 1, pand_state(x, y, 2)),
        GateRole::OwnU => to(st == 3, pand_state(x, y, 0)),
        GateRole::F0 => to(true, first_fails(x, y, st)),
        GateRole::U0 => to(true, first_repaired(x, y, st)),
        GateRole::F1 => to(true, second_fails(x, y, st)),
        GateRole::U1 => to(true, second_repaired(x, y, st)),
        GateRole::Tick => to(true, time_passes(x, y, st)),
    }
}

// ---- RBOX of n inputs: broken[i] is digit n - i of the state, busy digit 0.
pub fn box_kind(signal: Signal) -> Option<Kind>
    ensures { (i : ℕ) → kind_is result ≡ map_some box_kind (box_hears (signal_is signal) i) }
{
    match signal {
        Signal::Fl => Some(Kind::In),
        Signal::Up => Some(Kind::In),
        Signal::F => None,
        Signal::U => None,
        Signal::R => Some(Kind::Uout),
    }
}

// The digit of input i: an array's places follow their indices, "the first declared the highest place".
fn digit(n: u64, i: u64) -> u64
    requires { (i ≤ n) × (n ≤ max_inputs) }
    ensures { result ≡ n - i }
{
    n - i
}

// One of the inputs before input i is broken.
fn earlier(n: u64, s: u64, i: u64) -> bool
    requires { (i ≤ n) × (n ≤ max_inputs) }
    ensures { result ≡ any (λ j. has s (n - j)) i }
{
    for j in 0..i {
        if sets::has(s, digit(n, j)) {
            return true;
        }
    }
    false
}

// The box is not busy, and input i is the first of those that are broken: its repair begins.
fn begins(n: u64, s: u64, i: u64) -> Option<Move>
    requires { (i < n) × (n ≤ max_inputs) }
    ensures { move_is result ≡ map_some plain_move (box_move n s (box-r i)) }
{
    let busy = sets::has(s, 0);
    let broken = sets::has(s, digit(n, i));
    let before = earlier(n, s, i);
    to(!busy & (broken & !before), sets::union(s, 1))
}

pub fn box_move(n: u64, s: u64, signal: Signal, i: u64) -> Option<Move>
    requires { (i < n) × (n ≤ max_inputs) }
    ensures { move_is result ≡ bound (box_hears (signal_is signal) i) (λ x. map_some plain_move (box_move n s x)) }
{
    let place = sets::single(digit(n, i));
    match signal {
        Signal::Fl => to(true, sets::union(s, place)),
        Signal::Up => to(true, sets::minus(sets::minus(s, place), 1)),
        Signal::F => None,
        Signal::U => None,
        Signal::R => begins(n, s, i),
    }
}
