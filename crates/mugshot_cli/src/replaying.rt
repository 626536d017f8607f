// Replays a session, and prints the trace.
ghost use Rattle.std.specs.Prelude.{◌≡◌, ◌≤◌, ◌++◌, ℕ, List, [], ◌∷◌, length, IfErr, IfOk, IsErrOf};
ghost use Rattle.std.specs.Prelude.{IfSome, OnOk, Option};
ghost use Rattle.input_log.specs.declared.item.LogItem.TheVariants.{Head};
ghost use Rattle.input_log.specs.declared.item.TheConstants.{STEPS_LIMIT};
ghost use Rattle.mug_outside.specs.Told.{behind};
ghost use Rattle.mug_outside.specs.Cause.{Rose};
ghost use Rattle.session_store.specs.Recovery.{Recovers, Whole};
ghost use Rattle.capture_engine.specs.Acks.{text_of_lines};
ghost use Rattle.capture_engine.specs.Outside.{seen, shown};
ghost use Rattle.mugshot_cli.specs.Outside.{stream};
ghost use Rattle.mugshot_cli.specs.inner.Lines.{Adds, Broke, Puts};
ghost use Rattle.mugshot_cli.specs.Replaying.{Replayed, ReplayDid};
ghost use Rattle.mugshot_cli.specs.inner.Commands.{outcome_at};
ghost use Rattle.mugshot_cli.specs.ThinPage.inner.InputsState.{RanOut, lines_left};
ghost use Rattle.mugshot_cli.specs.ThinPage.Machine.{counts_of};
ghost use Rattle.mugshot_cli.specs.ThinPage.Run.{from_inputs};
ghost use Rattle.mugshot_cli.specs.ThinPage.Tracing.{last_lines, trace_text};

use crate::lines::{Lines, PrintFault};
use crate::session::{SessionRefusal, read_session, split_head};
use crate::thin_page::end::{End, Want};
use crate::thin_page::inputs_run::InputsRun;
use crate::thin_page::reading::{Statement, read_thin};
use crate::thin_page::tracing::{put_last, put_step};
use input_log::{LogItem, Word, inputs_of};
use mug_disk::Disk;
use mug_outside::Sink;
use mug_text::NoMemory;
use page_inputs::PageInput;
use std::alloc::Global;

/// What `replay` comes to.
#[derive(Clone, Copy, Debug, PartialEq, Eq)]
pub enum ReplayOutcome {
    Done,
    /// With the number of the budget's page steps.
    Budget {
        steps: u64,
    },
    /// With the number of the item, from 0.
    Diverged {
        entry: u64,
        wanted: Want,
        found: Word,
    },
    Refused(SessionRefusal),
    /// The session has no item.
    Headless,
    /// The head's page isn't thin.
    OtherPage,
    WriteFault,
    NoMemory,
}

// Runs on to the end, and puts the lines of each step.
fn put_steps<O: Sink>(
    lines: &mut Lines,
    out: &mut O,
    run: &mut InputsRun,
) -> Result<End, PrintFault>
    ensures over { IfOk result (λ end. RanOut end run.old run.new) }
    ensures ok { IfOk result
        (λ end. Adds
        (text_of_lines (lines_left run.old)) lines.old lines.new
        (stream O.Sink out.old) (stream O.Sink out.new)) }
    ensures err { IfErr result
        (λ fault. Broke fault
        (lines.old ++ text_of_lines (lines_left run.old))
        (stream O.Sink out.old) (stream O.Sink out.new)) }
    ensures rose { IsErrOf result PrintFault.WriteFault
        → Rose (O.faults out.old) (O.faults out.new) }
    ensures later { O.faults out.old ≤ O.faults out.new }
{
    'steps: loop {
        let turns = run.page().turns();
        let count = run.page().console().len();
        if let Some(end) = run.step()? {
            return Ok(end);
        }
        put_step(lines, out, run.page(), turns, count)?;
    }
}

// Puts the last line of a run that is at its end, and writes all that waits.
fn put_end<O: Sink>(
    lines: &mut Lines,
    out: &mut O,
    end: End,
    run: &InputsRun,
) -> Result<(), PrintFault>
    ensures puts { Puts result
        (text_of_lines (last_lines end run.now.state.turns (counts_of run.now.state)
        run.now.consumed)) lines.old lines.new (stream O.Sink out.old) (stream O.Sink out.new) }
    ensures none { OnOk result (lines.new ≡ []) }
{
    put_last(lines, out, end, run.page(), run.consumed())?;
    lines.flush(out)
}

// Runs a page over inputs, and prints the trace; the end, and the number of the inputs that were
// consumed.
fn print_trace<O: Sink>(
    alloc: Global,
    out: &mut O,
    statements: &[Statement],
    budget: u64,
    inputs: &[PageInput],
) -> Result<(End, u64), PrintFault>
    requires { budget ≤ STEPS_LIMIT }
    ensures end { IfOk result
        (λ pair. (from_inputs budget statements.now inputs.now).end ≡ pair.0) }
    ensures consumed { IfOk result
        (λ pair. pair.1 ≡ length (from_inputs budget statements.now inputs.now).inputs) }
    ensures few { IfOk result (λ pair. pair.1 ≤ STEPS_LIMIT) }
    ensures ok { IfOk result
        (λ pair. O.taken out.new ≡ behind
        (trace_text (from_inputs budget statements.now inputs.now)) (O.taken out.old)) }
    ensures err { IfErr result
        (λ fault. Broke fault (trace_text (from_inputs budget statements.now inputs.now))
        (stream O.Sink out.old) (stream O.Sink out.new)) }
    ensures rose { IsErrOf result PrintFault.WriteFault
        → Rose (O.faults out.old) (O.faults out.new) }
    ensures later { O.faults out.old ≤ O.faults out.new }
{
    let mut run = InputsRun::new(alloc, statements, inputs, budget)?;
    let mut lines = Lines::new();
    let end = put_steps(&mut lines, out, &mut run)?;
    put_end(&mut lines, out, end, &run)?;
    Ok((end, run.consumed()))
}

// What a run came to that was printed to its end.
fn outcome_at(end: End, budget: u64, consumed: u64) -> ReplayOutcome
    requires { consumed ≤ STEPS_LIMIT }
    ensures { result ≡ outcome_at end budget consumed }
{
    match end {
        End::Finished => ReplayOutcome::Done,
        End::Cut => ReplayOutcome::Done,
        End::Budget => ReplayOutcome::Budget { steps: budget },
        End::Diverged { wanted, found } => ReplayOutcome::Diverged {
            entry: 1 + consumed,
            wanted,
            found,
        },
    }
}

// Replays the page of a head.
fn replay_page<O: Sink>(
    alloc: Global,
    out: &mut O,
    page: &[u8],
    budget: u64,
    items: &[LogItem],
) -> ReplayOutcome
    requires { budget ≤ STEPS_LIMIT }
    ensures { (held held' : Option (List ℕ)) (moment moment' disk disk' : ℕ)
        → IfSome held
        (λ bytes. (base : List ℕ) × (place : ℕ)
        × Recovers bytes (Whole (Head base budget page.now ∷ items.now) place))
        → Replayed result (seen held moment (O.taken out.old) disk (O.faults out.old))
        (seen held' moment' (O.taken out.new) disk' (O.faults out.new)) }
{
    let statements = match read_thin(alloc, page) {
        Ok(Some(statements)) => statements,
        Ok(None) => return ReplayOutcome::OtherPage,
        Err(NoMemory) => return ReplayOutcome::NoMemory,
    };
    let listed = match inputs_of(alloc, items) {
        Ok(inputs) => inputs,
        Err(NoMemory) => return ReplayOutcome::NoMemory,
    };
    let inputs = listed.as_slice();
    match print_trace(alloc, out, statements.as_slice(), budget, inputs) {
        Ok((end, consumed)) => outcome_at(end, budget, consumed),
        Err(PrintFault::WriteFault) => ReplayOutcome::WriteFault,
        Err(PrintFault::NoMemory) => ReplayOutcome::NoMemory,
    }
}

/// The whole session is read before anything is run or printed.
pub fn replay<D: Disk, O: Sink>(alloc: Global, disk: &mut D, out: &mut O) -> ReplayOutcome
    ensures { ReplayDid result (shown D.Disk O.Sink disk.old out.old)
        (shown D.Disk O.Sink disk.new out.new) }
{
    let session = match read_session(alloc, disk) {
        Ok(session) => session,
        Err(why) => return ReplayOutcome::Refused(why),
    };
    match split_head(session.items()) {
        Some((page, budget, items)) => replay_page(alloc, out, page, budget, items),
        None => ReplayOutcome::Headless,
    }
}
