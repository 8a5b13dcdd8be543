// A line of good shape is judged, 3 to 7, against what stands before it, and taken in where it is faultless.
#![tactic(auto)]

ghost use Rattle.std.specs.Prelude.{◌≡◌, true, ◌≤◌, ◌<◌};
ghost use Rattle.answer.specs.Limits.{max_actions, max_clocks};
ghost use Rattle.judge.specs.Judged.{guard_number, last_plain, in_range, guard_named, named, comp_step, act_step, clk_step, row_step, step_of, beginning};

use answer::Model;
use fields::{Guard, Resets};
use lines::Line;

// What "`row` lines ascend strictly by", in this order: from, action, guard (0 for `-`, x + 1 for clock x), resets, target.
#[derive(Clone, Copy, PartialEq, Eq, PartialOrd, Ord)]
pub struct Key {
    pub from: u64,
    pub action: u64,
    pub guard: u64,
    pub resets: u64,
    pub target: u64,
}

// The last line: its turn (`comp` 0, `act` 1, `clk` 2, `row` 3; 4 before any line), its action or clock, and a row's key.
#[derive(Clone, Copy)]
pub struct Last {
    pub turn: u64,
    pub number: u64,
    pub key: Key,
}

// What stands before a line: the components and rows so far, and of the last component what a line is judged by.
#[derive(Clone, Copy)]
pub struct Progress {
    pub components: usize,
    pub rows: usize,
    pub states: u64,
    pub acts: u64,
    pub clocks: u64,
    pub last: Last,
}

// What may be wrong with a line of good shape, by its number (paper 01, "Refusal numbers").
#[derive(Clone, Copy, PartialEq, Eq)]
pub enum Fault {
    Turn = 3,
    Range = 4,
    Name = 5,
    Order = 6,
    Many = 7,
}

pub const COMP: u64 = 0;

pub const ACT: u64 = 1;

pub const CLK: u64 = 2;

pub const ROW: u64 = 3;

pub const NOTHING: u64 = 4;

// A guard as a number; every number that is no clock is one number above all clocks.
pub fn guard_number(g: Guard) -> u64
    ensures { result ≡ guard_number g }
{
    match g {
        Guard::Dash => 0,
        Guard::Clock(x) => x.min(Model::CLOCKS as u64) + 1,
    }
}

// The last line where it has no action, clock or row.
fn plain(turn: u64, number: u64) -> Last
    ensures { result ≡ last_plain turn number }
{
    Last {
        turn,
        number,
        key: Key {
            from: 0,
            action: 0,
            guard: 0,
            resets: 0,
            target: 0,
        },
    }
}

#[tactic(auto, unfolding(crate::specs::Judged::comp_step))]
fn comp_step(p: Progress, states: u64, start: u64) -> Result<Progress, Fault>
    ensures { result ≡ comp_step p states start }
{
    if states < 1 || (Model::STATES as u64) < states || states <= start {
        return Err(Fault::Range);
    }
    if Model::COMPONENTS <= p.components {
        return Err(Fault::Many);
    }
    let last = plain(COMP, 0);
    Ok(Progress {
        components: p.components + 1,
        states,
        acts: 0,
        clocks: 0,
        last,
        ..p
    })
}

#[tactic(auto, unfolding(crate::specs::Judged::act_step))]
fn act_step(p: Progress, action: u64) -> Result<Progress, Fault>
    ensures { result ≡ act_step p action }
{
    let before = p.last;
    if ACT < before.turn {
        return Err(Fault::Turn);
    }
    if Model::ACTIONS as u64 <= action {
        return Err(Fault::Range);
    }
    if before.turn == ACT && action <= before.number {
        return Err(Fault::Order);
    }
    let last = plain(ACT, action);
    let acts = sets::union(p.acts, sets::single(action));
    Ok(Progress { acts, last, ..p })
}

#[tactic(auto, unfolding(crate::specs::Judged::clk_step))]
fn clk_step(p: Progress, clock: u64, set: u64) -> Result<Progress, Fault>
    ensures { result ≡ clk_step p clock set }
{
    let before = p.last;
    if CLK < before.turn {
        return Err(Fault::Turn);
    }
    if Model::CLOCKS as u64 <= clock || 1 < set {
        return Err(Fault::Range);
    }
    if before.turn == CLK && clock <= before.number {
        return Err(Fault::Order);
    }
    let last = plain(CLK, clock);
    let clocks = sets::union(p.clocks, sets::single(clock));
    Ok(Progress { clocks, last, ..p })
}

#[tactic(auto, unfolding(crate::specs::Judged::in_range))]
fn in_range(states: u64, key: Key, clocks: bool) -> bool
    ensures { result ≡ in_range states key clocks }
{
    key.from < states
        && key.guard <= Model::CLOCKS as u64
        && key.action < Model::ACTIONS as u64
        && clocks
        && key.target < states
}

#[tactic(auto, unfolding(crate::specs::Judged::guard_named))]
fn guard_named(clocks: u64, guard: u64) -> bool
    requires { guard ≤ max_clocks }
    ensures { result ≡ guard_named clocks guard }
{
    guard == 0 || sets::has(clocks, guard - 1)
}

#[tactic(auto, unfolding(crate::specs::Judged::named))]
fn names_all(p: Progress, key: Key) -> bool
    requires { (key.guard ≤ max_clocks) × (key.action < max_actions) }
    ensures { result ≡ named p key }
{
    guard_named(p.clocks, key.guard)
        && sets::has(p.acts, key.action)
        && sets::lies_in(key.resets, p.clocks)
}

#[tactic(auto, using(crate::proofs::KeyLaws::key_less), unfolding(crate::specs::Judged::row_step))]
fn row_step(p: Progress, key: Key, clocks: bool, ascend: bool) -> Result<Progress, Fault>
    ensures { result ≡ row_step p key clocks ascend }
{
    let before = p.last;
    if ROW < before.turn {
        return Err(Fault::Turn);
    }
    if !in_range(p.states, key, clocks) {
        return Err(Fault::Range);
    }
    if !names_all(p, key) {
        return Err(Fault::Name);
    }
    if before.turn == ROW && !(before.key < key) {
        return Err(Fault::Order);
    }
    if !ascend {
        return Err(Fault::Order);
    }
    if Model::ROWS <= p.rows {
        return Err(Fault::Many);
    }
    Ok(Progress {
        rows: p.rows + 1,
        last: Last {
            turn: ROW,
            number: 0,
            key,
        },
        ..p
    })
}

pub fn step(p: Progress, l: Line) -> Result<Progress, Fault>
    ensures { result ≡ step_of p l }
{
    match l {
        Line::Comp { states, start } => comp_step(p, states, start),
        Line::Act { action, kind: _ } => act_step(p, action),
        Line::Clk { clock, set } => clk_step(p, clock, set),
        Line::Row {
            from,
            guard,
            action,
            resets,
            target,
        } => {
            let key = Key {
                from,
                action,
                guard: guard_number(guard),
                resets: resets.set,
                target,
            };
            row_step(p, key, resets.clocks, resets.ascend)
        }
    }
}

// Before any line.
pub fn at_start() -> Progress
    ensures { result ≡ beginning }
{
    let last = plain(NOTHING, 0);
    Progress {
        components: 0,
        rows: 0,
        states: 0,
        acts: 0,
        clocks: 0,
        last,
    }
}
