// What the engine answers: limits, composed states, refusals with their places, and what each kind of call gives where it is not refused.
#![tactic(auto)]

ghost use Rattle.std.specs.Prelude.{◌≡◌};
ghost use Rattle.answer.specs.Limits.{limits_of, no_state};

// The limits of a model (paper 01, "The model text"; components and states as request 12 has them). The model itself lies in a lent table.
#[derive(Drop)]
pub struct Model {}

impl Model {
    pub const COMPONENTS: usize = 32;

    pub const ROWS: usize = 1024;

    pub const STATES: usize = 128;

    pub const ACTIONS: usize = 64;

    pub const CLOCKS: usize = 64;

    pub const BYTES: usize = 32768;

    pub const REQUEST: usize = 256;
}

// A composed state: one number for each component. Places at and past `count` are no part of it.
#[derive(Clone, Copy)]
pub struct State {
    pub count: usize,
    pub parts: [u8; State::PARTS],
}

impl State {
    pub const PARTS: usize = Model::COMPONENTS;

    pub const BUDGET: usize = 4096;

    pub const TICKS: i64 = 1099511627776;
}

#[derive(Drop)]
pub struct Limits {
    pub components: usize,
    pub rows: usize,
    pub states: usize,
    pub actions: usize,
    pub clocks: usize,
    pub bytes: usize,
    pub request: usize,
    pub parts: usize,
    pub budget: usize,
    pub ticks: i64,
}

// Where a refusal points: a case for each shape of place in paper 01's table, line and column, bytes from 1, since request 2, an action since request 8, a condition's number since request 9.
#[derive(Clone, Copy)]
pub enum Place {
    Whole,
    Line(usize),
    Row(usize),
    Bytes(usize),
    Index(usize),
    Clock(u64),
    Component(usize),
    Cell {
        component: usize,
        state: usize,
        action: u64,
    },
    Clash {
        component: usize,
        state: usize,
        lower: u64,
        higher: u64,
    },
    SharedAction {
        action: u64,
        first: usize,
        second: usize,
    },
    SharedClock {
        clock: u64,
        first: usize,
        second: usize,
    },
    Spot {
        line: usize,
        column: usize,
    },
    Condition(usize),
    Action(u64),
}

#[derive(Clone, Copy)]
pub struct Refusal {
    pub number: u8,
    pub place: Place,
}

// What one step did.
#[derive(Clone, Copy)]
pub enum Outcome {
    Moved { action: u64, resets: u64 },
    Stable,
}

// What one step did, and the state after it.
#[derive(Clone, Copy)]
pub struct Stepped {
    pub outcome: Outcome,
    pub state: State,
}

// What settling says of the state reached.
#[derive(Clone, Copy)]
pub enum Verdict {
    Stable,
    Unsettled,
}

#[derive(Clone, Copy)]
pub struct Settled {
    pub verdict: Verdict,
    pub steps: usize,
    pub resets: u64,
    pub state: State,
}

// What the timed step did.
#[derive(Clone, Copy)]
pub enum Firing {
    Fired {
        ticks: u64,
        action: u64,
        resets: u64,
    },
    Quiet,
}

// What the timed step did, and the state after it.
#[derive(Clone, Copy)]
pub struct Timed {
    pub firing: Firing,
    pub state: State,
}

// How far a simulation came: the later rounds done, and the state after the last.
#[derive(Clone, Copy)]
pub struct Simulated {
    pub rounds: usize,
    pub state: State,
}

// The constants of the types are the limits that the definitions cite.
pub fn bounds() -> Limits
    ensures { result ≡ limits_of }
{
    Limits {
        components: Model::COMPONENTS,
        rows: Model::ROWS,
        states: Model::STATES,
        actions: Model::ACTIONS,
        clocks: Model::CLOCKS,
        bytes: Model::BYTES,
        request: Model::REQUEST,
        parts: State::PARTS,
        budget: State::BUDGET,
        ticks: State::TICKS,
    }
}

// No state: no component has a place in it.
pub fn no_state() -> State
    ensures { result ≡ no_state }
{
    State {
        count: 0,
        parts: [0; State::PARTS],
    }
}
