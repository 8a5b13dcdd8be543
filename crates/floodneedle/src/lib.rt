// The C library: the engine's calls over plain numbers and lent buffers (include/floodneedle.h says each call's promise in words).
// An answer comes back as words, always written; a refusal leaves every other buffer as it was.
#![tactic(auto)]

ghost use Rattle.std.specs.Prelude.{◌≡◌, ℕ};
ghost use Rattle.std.proofs.Math.Option.{some};
ghost use Rattle.answer.specs.Told.{Answer, says, done_of};
ghost use Rattle.words.specs.Words.{checked_words, written_words};
ghost use Rattle.words.specs.Version.{version_number};
ghost use Rattle.layout.specs.Lent.{table_after};
ghost use Rattle.outset.specs.Start.{start_on};
ghost use Rattle.reading.specs.Read.{read_on};
ghost use Rattle.plant.specs.ReadTreeCall.{read_tree_on};
ghost use Rattle.text.specs.Write.{write_on, text_after};
ghost use Rattle.merge.specs.Merging.{merge_on};
ghost use Rattle.repair.specs.Repairing.{repair_on, number_in, table_with, list_with};
ghost use Rattle.report.specs.Reported.{length_told, report_in};
ghost use Rattle.explain.specs.Explain.{text_explained, table_explained, length_in, buffer_with};
ghost use Rattle.names.specs.Names.{names_on, names_left, numbers_on, numbers_left};
ghost use Rattle.model.specs.Reading.{read_of};
ghost use Rattle.table.specs.IsImage.{is_image};
ghost use Rattle.words.specs.Bytes.{state_of, places_in};
ghost use Rattle.floodneedle.specs.Told.{component_on, compatible_on, accept_on, confluent_on, orderly_on, timed_on, StartTold, TimingTold, StepTold, AdvanceTold, SettlingTold, AfterTold, SimulationTold};
ghost use Rattle.after.specs.Calls.{settle_after_on, settle_list_after_on};
ghost use Rattle.simulate.specs.Simulate.{simulate_on};
ghost use Rattle.simulate_drawn.specs.SimulateDrawn.{simulate_drawn_on};
ghost use Rattle.run.specs.Calls.{step_on, step_by_on, settle_on, settle_list_on, trace_after};

use answer::{Refusal, Settled, Simulated, State, Stepped, Timed};
use words::Words;

// The places of the state that a call leaves, by its kind of answer; zeros beside a refusal.
fn stepped_places(r: &Result<Stepped, Refusal>) -> [u8; State::PARTS]
    ensures { result ≡ places_in (λ p. p.state) r.now }
{
    match r {
        Ok(s) => s.state.parts,
        Err(_) => [0; State::PARTS],
    }
}

fn settled_places(r: &Result<Settled, Refusal>) -> [u8; State::PARTS]
    ensures { result ≡ places_in (λ p. p.state) r.now }
{
    match r {
        Ok(s) => s.state.parts,
        Err(_) => [0; State::PARTS],
    }
}

fn timed_places(r: &Result<Timed, Refusal>) -> [u8; State::PARTS]
    ensures { result ≡ places_in (λ p. p.state) r.now }
{
    match r {
        Ok(t) => t.state.parts,
        Err(_) => [0; State::PARTS],
    }
}

fn simulated_places(r: &Result<Simulated, Refusal>) -> [u8; State::PARTS]
    ensures { result ≡ places_in (λ p. p.state) r.now }
{
    match r {
        Ok(s) => s.state.parts,
        Err(_) => [0; State::PARTS],
    }
}

// The version as one number.
#[unsafe(no_mangle)]
pub extern "C" fn floodneedle_version() -> u64
    ensures { result ≡ version_number }
{
    words::version()
}

// Whether the buffer's front is the image of a model.
#[unsafe(no_mangle)]
pub extern "C" fn floodneedle_recognise(table: &[u64]) -> bool
    ensures { result ≡ is_image table.now }
{
    table::recognise(table)
}

// Whether a text is a model's, and else its first fault.
#[unsafe(no_mangle)]
pub extern "C" fn floodneedle_check_text(text: &[u8], answer: &mut [u64; Words::COUNT])
    ensures { answer.new ≡ checked_words (done_of (read_of text.now)) }
{
    let checked = survey::check_text(text);
    *answer = words::checked_words(checked);
}

// Reads a text into the table.
#[unsafe(no_mangle)]
pub extern "C" fn floodneedle_read(text: &[u8], table: &mut [u64], answer: &mut [u64; Words::COUNT])
    ensures answer { answer.new ≡ checked_words (done_of (read_on text.now table.old)) }
    ensures buffer { table.new ≡ table_after (read_on text.now table.old) table.old }
{
    let checked = text::read(text, table);
    *answer = words::checked_words(checked);
}

// Reads the text of a repairable fault tree into the table, as its model.
#[unsafe(no_mangle)]
pub extern "C" fn floodneedle_read_tree(
    text: &[u8],
    table: &mut [u64],
    answer: &mut [u64; Words::COUNT],
)
    ensures answer { answer.new ≡ checked_words (done_of (read_tree_on text.now table.old)) }
    ensures buffer { table.new ≡ table_after (read_tree_on text.now table.old) table.old }
{
    let checked = plant::read_tree(text, table);
    *answer = words::checked_words(checked);
}

// Writes the one text of the table's model.
#[unsafe(no_mangle)]
pub extern "C" fn floodneedle_write(
    table: &[u64],
    text: &mut [u8],
    answer: &mut [u64; Words::COUNT],
)
    ensures answer { answer.new ≡ written_words (write_on table.now text.old) }
    ensures buffer { text.new ≡ text_after (write_on table.now text.old) table.now text.old }
{
    let written = text::write(table, text);
    *answer = words::written_words(written);
}

// Where the system of the table's model begins.
#[unsafe(no_mangle)]
pub extern "C" fn floodneedle_start(
    table: &[u64],
    after: &mut [u8; State::PARTS],
    answer: &mut [u64; Words::COUNT],
)
    ensures { StartTold (start_on table.now) after.new answer.new }
{
    match outset::start(table) {
        Ok(o) => {
            let parts = o.state.parts;
            *after = parts;
            *answer = words::started_words(Ok(()), o.state.count, o.started);
        }
        Err(f) => {
            *after = [0; State::PARTS];
            *answer = words::started_words(Err(f), 0, 0);
        }
    }
}

// Whether component i of the table's model meets (a) to (f) and the house rule.
#[unsafe(no_mangle)]
pub extern "C" fn floodneedle_component(table: &[u64], i: usize, answer: &mut [u64; Words::COUNT])
    ensures { answer.new ≡ checked_words (component_on table.now i) }
{
    let checked = admit::component(table, i);
    *answer = words::checked_words(checked);
}

// Whether its components are compatible.
#[unsafe(no_mangle)]
pub extern "C" fn floodneedle_compatible(table: &[u64], answer: &mut [u64; Words::COUNT])
    ensures { answer.new ≡ checked_words (compatible_on table.now) }
{
    let checked = admit::compatible(table);
    *answer = words::checked_words(checked);
}

// Whether the table's model meets (a) to (f), the house rule and compatibility.
#[unsafe(no_mangle)]
pub extern "C" fn floodneedle_accept(table: &[u64], answer: &mut [u64; Words::COUNT])
    ensures { answer.new ≡ checked_words (accept_on table.now) }
{
    let checked = admit::accept(table);
    *answer = words::checked_words(checked);
}

// Whether every component is confluent too.
#[unsafe(no_mangle)]
pub extern "C" fn floodneedle_confluent(table: &[u64], answer: &mut [u64; Words::COUNT])
    ensures { answer.new ≡ checked_words (confluent_on table.now) }
{
    let checked = admit::confluent(table);
    *answer = words::checked_words(checked);
}

// Replaces components i and i + 1 by their product, in a second table.
#[unsafe(no_mangle)]
pub extern "C" fn floodneedle_merge(
    table: &[u64],
    i: usize,
    into: &mut [u64],
    answer: &mut [u64; Words::COUNT],
)
    ensures answer { answer.new ≡ checked_words (done_of (merge_on table.now i into.old)) }
    ensures buffer { into.new ≡ table_after (merge_on table.now i into.old) into.old }
{
    let checked = merge::merge(table, i, into);
    *answer = words::checked_words(checked);
}

// Puts in the missing self-loops, in the lent table, and lists them.
#[unsafe(no_mangle)]
pub extern "C" fn floodneedle_repair(
    table: &mut [u64],
    list: &mut [u8],
    answer: &mut [u64; Words::COUNT],
)
    ensures answer { answer.new ≡ written_words (number_in (repair_on table.old list.old)) }
    ensures table { table.new ≡ table_with (repair_on table.old list.old) table.old }
    ensures list { list.new ≡ list_with (repair_on table.old list.old) list.old }
{
    let written = repair::repair(table, list);
    *answer = words::written_words(written);
}

// One timed step.
#[unsafe(no_mangle)]
pub extern "C" fn floodneedle_timed_step(
    table: &[u64],
    state: &[u8],
    clocks: &mut [i64],
    after: &mut [u8; State::PARTS],
    answer: &mut [u64; Words::COUNT],
)
    ensures { TimingTold (timed_on table.now (state_of state.now) clocks.old)
        (state_of state.now)
        clocks.old
        clocks.new
        after.new
        answer.new }
{
    let given = words::state_of(state);
    let r = timed::timed_step(table, given, clocks);
    *after = timed_places(&r);
    *answer = words::fired_words(&r);
}

// The later rounds done, told as a length is.
fn ended_words(r: &Result<Simulated, Refusal>) -> [u64; Words::COUNT]
    ensures { (a : Answer ℕ) → says (λ p. p.rounds) r.now ≡ some a → result ≡ written_words a }
{
    match r {
        Ok(s) => words::written_words(Ok(s.rounds)),
        Err(f) => words::written_words(Err(*f)),
    }
}

// A simulation over recorded samples.
#[unsafe(no_mangle)]
pub extern "C" fn floodneedle_simulate(
    table: &[u64],
    samples: &[u8],
    rounds: usize,
    clocks: &mut [i64],
    after: &mut [u8; State::PARTS],
    answer: &mut [u64; Words::COUNT],
)
    ensures { SimulationTold (simulate_on table.now samples.now rounds clocks.old)
        clocks.old
        clocks.new
        after.new
        answer.new }
{
    let r = simulate::simulate(table, samples, rounds, clocks);
    *after = simulated_places(&r);
    *answer = ended_words(&r);
}

// The same over draws from distributions, by lent numbers.
#[unsafe(no_mangle)]
pub extern "C" fn floodneedle_simulate_drawn(
    table: &[u64],
    laws: &[u8],
    numbers: &[u64],
    rounds: usize,
    clocks: &mut [i64],
    after: &mut [u8; State::PARTS],
    answer: &mut [u64; Words::COUNT],
)
    ensures { SimulationTold (simulate_drawn_on table.now laws.now numbers.now rounds clocks.old)
        clocks.old
        clocks.new
        after.new
        answer.new }
{
    let r = simulate_drawn::simulate_drawn(table, laws, numbers, rounds, clocks);
    *after = simulated_places(&r);
    *answer = ended_words(&r);
}

// One urgent step by our rule.
#[unsafe(no_mangle)]
pub extern "C" fn floodneedle_step(
    table: &[u64],
    state: &[u8],
    after: &mut [u8; State::PARTS],
    answer: &mut [u64; Words::COUNT],
)
    ensures { StepTold (step_on table.now (state_of state.now)) (state_of state.now) after.new answer.new }
{
    let given = words::state_of(state);
    let r = run::step(table, given);
    *after = stepped_places(&r);
    *answer = words::stepped_words(&r);
}

// The same on a state that is lent, and advanced there; where nothing moves, nothing is stored.
#[unsafe(no_mangle)]
pub extern "C" fn floodneedle_advance(
    table: &[u64],
    state: &mut [u8],
    answer: &mut [u64; Words::COUNT],
)
    ensures { AdvanceTold (step_on table.now (state_of state.old)) state.old state.new answer.new }
{
    let given = words::state_of(state);
    let r = panel::advanced(table, given);
    words::put_moved(state, &r);
    *answer = words::stepped_words(&r);
}

// One urgent step by a named action.
#[unsafe(no_mangle)]
pub extern "C" fn floodneedle_step_by(
    table: &[u64],
    state: &[u8],
    action: u64,
    after: &mut [u8; State::PARTS],
    answer: &mut [u64; Words::COUNT],
)
    ensures { StepTold (step_by_on table.now (state_of state.now) action) (state_of state.now) after.new answer.new }
{
    let given = words::state_of(state);
    let r = run::step_by(table, given, action);
    *after = stepped_places(&r);
    *answer = words::stepped_words(&r);
}

// Settling by our rule.
#[unsafe(no_mangle)]
pub extern "C" fn floodneedle_settle(
    table: &[u64],
    state: &[u8],
    budget: usize,
    trace: &mut [u8],
    after: &mut [u8; State::PARTS],
    answer: &mut [u64; Words::COUNT],
)
    ensures settling_told { SettlingTold (settle_on table.now (state_of state.now) budget trace.old) (state_of state.now) after.new answer.new }
    ensures trace_after { trace.new ≡ trace_after (settle_on table.now (state_of state.now) budget trace.old) trace.old }
{
    let given = words::state_of(state);
    let r = run::settle(table, given, budget, trace);
    *after = settled_places(&r);
    *answer = words::settled_words(&r);
}

// Settling by a list.
#[unsafe(no_mangle)]
pub extern "C" fn floodneedle_settle_list(
    table: &[u64],
    state: &[u8],
    list: &[u8],
    after: &mut [u8; State::PARTS],
    answer: &mut [u64; Words::COUNT],
)
    ensures { SettlingTold (settle_list_on table.now (state_of state.now) list.now) (state_of state.now) after.new answer.new }
{
    let given = words::state_of(state);
    let r = run::settle_list(table, given, list);
    *after = settled_places(&r);
    *answer = words::settled_words(&r);
}

// Whether the system passes the test for components that are not confluent alone.
#[unsafe(no_mangle)]
pub extern "C" fn floodneedle_orderly(table: &[u64], answer: &mut [u64; Words::COUNT])
    ensures { answer.new ≡ checked_words (orderly_on table.now) }
{
    let checked = orderly::orderly(table);
    *answer = words::checked_words(checked);
}

// Settling by our rule, after a path.
#[unsafe(no_mangle)]
pub extern "C" fn floodneedle_settle_after(
    table: &[u64],
    path: &[u8],
    budget: usize,
    trace: &mut [u8],
    after: &mut [u8; State::PARTS],
    answer: &mut [u64; Words::COUNT],
)
    ensures after_told { AfterTold (settle_after_on table.now path.now budget trace.old) after.new answer.new }
    ensures trace_after { trace.new ≡ trace_after (settle_after_on table.now path.now budget trace.old) trace.old }
{
    let r = after::settle_after(table, path, budget, trace);
    *after = settled_places(&r);
    *answer = words::settled_words(&r);
}

// Settling by a list, after a path.
#[unsafe(no_mangle)]
pub extern "C" fn floodneedle_settle_list_after(
    table: &[u64],
    path: &[u8],
    list: &[u8],
    after: &mut [u8; State::PARTS],
    answer: &mut [u64; Words::COUNT],
)
    ensures { AfterTold (settle_list_after_on table.now path.now list.now) after.new answer.new }
{
    let r = after::settle_list_after(table, path, list);
    *after = settled_places(&r);
    *answer = words::settled_words(&r);
}

// What the program prints for the input.
#[unsafe(no_mangle)]
pub extern "C" fn floodneedle_report(input: &[u8], out: &mut [u8], answer: &mut [u64; Words::COUNT])
    ensures answer { answer.new ≡ written_words (length_told input.now out.old) }
    ensures buffer { out.new ≡ report_in input.now out.old }
{
    let written = report::report(input, out);
    *answer = words::written_words(written);
}

// What the program `why` prints for the text.
#[unsafe(no_mangle)]
pub extern "C" fn floodneedle_explain(text: &[u8], out: &mut [u8], answer: &mut [u64; Words::COUNT])
    ensures answer { answer.new ≡ written_words (length_in (text_explained text.now out.old)) }
    ensures buffer { out.new ≡ buffer_with (text_explained text.now out.old) out.old }
{
    let written = explain::explain(text, out);
    *answer = words::written_words(written);
}

// The same of the table's model, once it is accepted.
#[unsafe(no_mangle)]
pub extern "C" fn floodneedle_explain_table(
    table: &[u64],
    out: &mut [u8],
    answer: &mut [u64; Words::COUNT],
)
    ensures answer { answer.new ≡ written_words (length_in (table_explained table.now out.old)) }
    ensures buffer { out.new ≡ buffer_with (table_explained table.now out.old) out.old }
{
    let written = explain::explain_table(table, out);
    *answer = words::written_words(written);
}

// Old to new (paper 02, request 7): the text of the old form, its numbers exchanged for the default names.
#[unsafe(no_mangle)]
pub extern "C" fn floodneedle_to_names(
    text: &[u8],
    new: &mut [u8],
    answer: &mut [u64; Words::COUNT],
)
    ensures answer { answer.new ≡ written_words (names_on text.now new.old) }
    ensures buffer { new.new ≡ names_left text.now new.old }
{
    let written = names::to_names(text, new);
    *answer = words::written_words(written);
}

// New to old (paper 02, request 7): the text of the second form, its names exchanged for their numbers.
#[unsafe(no_mangle)]
pub extern "C" fn floodneedle_to_numbers(
    text: &[u8],
    old: &mut [u8],
    answer: &mut [u64; Words::COUNT],
)
    ensures answer { answer.new ≡ written_words (numbers_on text.now old.old) }
    ensures buffer { old.new ≡ numbers_left text.now old.old }
{
    let written = names::to_numbers(text, old);
    *answer = words::written_words(written);
}
