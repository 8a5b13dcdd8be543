// What the program prints for its input (paper 01, "The program and its example").
#![tactic(auto)]

ghost use Rattle.std.specs.Prelude.{◌≤◌, length};
ghost use Rattle.answer.specs.State.{parts_of};
ghost use Rattle.iosa.specs.Settle.{settle_of};
ghost use Rattle.answering.specs.Report.{answer_lines, report_of};
ghost use Rattle.report.specs.Reported.{Reported};
ghost use Rattle.layout.specs.Image.{Image, model_of};
ghost use Rattle.print.specs.Put.{Put};
ghost use Rattle.steplines.specs.Run.{most_bytes};

use answer::{Place, Refusal, State};

// The checks of settling in order, and else the run: 10 to 18, 21, 19, 22.
fn put_answer(t: &[u64], x: State, budget: u64, out: &mut [u8]) -> usize
    requires { Image t.now × (most_bytes ≤ length out.old) }
    ensures { Put out.old 0
        (answer_lines (model_of t.now) (parts_of x) (settle_of (model_of t.now) (parts_of x) budget budget))
        out.new result }
{
    match entry::check_entry(t, x) {
        Err(f) => tell::put_refused(out, 0, f),
        Ok(()) => steplines::put_settled(t, x, budget, out),
    }
}

// The whole report: 9 first, then the text, then the run.
fn put_report(input: &[u8], out: &mut [u8]) -> usize
    requires { most_bytes ≤ length out.old }
    ensures { Put out.old 0 (report_of input.now) out.new result }
{
    let Some(asked) = request::request_of(input) else {
        return steplines::put_whole(out, 9);
    };
    let at = asked.at;
    let mut table = [0u64; layout::WORDS];
    match text::read(&input[at..], &mut table) {
        Err(f) => tell::put_refused(out, 0, f),
        Ok(()) => put_answer(&table, asked.state, asked.budget, out),
    }
}

// Fills a lent buffer with what the program prints for this input.
pub fn report(input: &[u8], out: &mut [u8]) -> Result<usize, Refusal>
    ensures { Reported input.now out.old out.new result }
{
    if out.len() < steplines::REPORT {
        return Err(Refusal {
            number: 24,
            place: Place::Bytes(steplines::REPORT),
        });
    }
    Ok(put_report(input, out))
}
