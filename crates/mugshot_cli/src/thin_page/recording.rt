// Records a run: its inputs in frames, and what they came to.
ghost use Rattle.std.specs.Prelude.{◌≡◌, ℕ, false, List, length, IfErr, OnOk};
ghost use Rattle.page_inputs.specs.Inputs.{IsInput};
ghost use Rattle.input_log.specs.Items.{IsItem};
ghost use Rattle.input_log.specs.Kinds.{is_input};
ghost use Rattle.input_log.specs.declared.item.LogItem.{LogItem};
ghost use Rattle.capture_engine.specs.Outside.{shown};
ghost use Rattle.capture_engine.specs.Recording.{IsRunning, inputs_in};
ghost use Rattle.mugshot_cli.specs.Capturing.{summary_line};
ghost use Rattle.mugshot_cli.specs.Outside.{stream};
ghost use Rattle.mugshot_cli.specs.ThinPage.Run.{Run};
ghost use Rattle.mugshot_cli.specs.ThinPage.inner.PlainState.{EndsIn, IsOver, rest_of, run_end};
ghost use Rattle.mugshot_cli.specs.inner.Recording.{Begins, Finishes, HaltsIn, InputHalts, LogsInput};
ghost use Rattle.mugshot_cli.specs.inner.Recording.{RecordsAll, RecordsRun, recorded_as};

use crate::thin_page::end::PlainEnd;
use crate::thin_page::plain_run::PlainRun;
use crate::thin_page::summary::Summary;
use capture_engine::{CaptureFault, Line, Recorder};
use input_log::LogItem;
use mug_disk::Disk;
use mug_outside::Sink;
use page_inputs::PageInput;
use std::alloc::Global;

/// What a recording comes to.
#[derive(Clone, Copy, Debug, PartialEq, Eq)]
pub enum RunOutcome {
    Done,
    /// With the number of the budget's page steps.
    Budget { steps: u64 },
    Halted(CaptureFault),
}

// Ends the turn that runs in front of an input that begins another.
fn begin<D: Disk, O: Sink>(
    recorder: &mut Recorder,
    disk: &mut D,
    out: &mut O,
    input: &PageInput,
) -> Result<(), CaptureFault>
    requires { IsRunning recorder.old (D.held disk.old) }
    ensures running { OnOk result (IsRunning recorder.new (D.held disk.new)) }
    ensures begins { OnOk result (Begins input.now (shown D.Disk O.Sink disk.old out.old)
        (shown D.Disk O.Sink disk.new out.new) recorder.old recorder.new) }
    ensures halts { IfErr result (λ fault. InputHalts input.now fault
        (shown D.Disk O.Sink disk.old out.old) (shown D.Disk O.Sink disk.new out.new)
        recorder.old) }
{
    if input.begins_turn() {
        recorder.end_turn(disk, out)?;
    }
    Ok(())
}

// Logs an input, in its turn.
fn log<D: Disk, O: Sink>(
    recorder: &mut Recorder,
    disk: &mut D,
    out: &mut O,
    input: &PageInput,
) -> Result<(), CaptureFault>
    requires running { IsRunning recorder.old (D.held disk.old) }
    requires valid { IsInput input.now }
    ensures running { OnOk result (IsRunning recorder.new (D.held disk.new)) }
    ensures logs { OnOk result (LogsInput input.now (shown D.Disk O.Sink disk.old out.old)
        (shown D.Disk O.Sink disk.new out.new) recorder.old recorder.new) }
    ensures halts { IfErr result (λ fault. InputHalts input.now fault
        (shown D.Disk O.Sink disk.old out.old) (shown D.Disk O.Sink disk.new out.new)
        recorder.old) }
{
    begin(recorder, disk, out, input)?;
    recorder.log(disk, out, &LogItem::of_input(input))?;
    Ok(())
}

// Runs to the end, and commits the frames of the inputs, turn by turn.
fn record_inputs<'a, D: Disk, O: Sink>(
    run: &mut PlainRun<'a>,
    recorder: &mut Recorder,
    disk: &mut D,
    out: &mut O,
) -> Result<(), CaptureFault>
    requires running { IsRunning recorder.old (D.held disk.old) }
    ensures records { OnOk result (RecordsAll (rest_of run.old).inputs
        (shown D.Disk O.Sink disk.old out.old) (shown D.Disk O.Sink disk.new out.new)
        recorder.old recorder.new) }
    ensures ended { OnOk result (EndsIn (rest_of run.old) run.new) }
    ensures halts { IfErr result (λ fault. HaltsIn (rest_of run.old).inputs fault
        (shown D.Disk O.Sink disk.old out.old) (shown D.Disk O.Sink disk.new out.new)
        recorder.old) }
{
    'inputs: while let Some(input) = run.next()? {
        log(recorder, disk, out, &input)?;
    }
    recorder.end_turn(disk, out)?;
    Ok(())
}

// How a run that is over has ended.
fn end_of<'a>(run: &PlainRun<'a>) -> PlainEnd
    requires { IsOver run.now }
    ensures { (whole : Run) → EndsIn whole run.now → run_end result ≡ whole.end }
{
    match run.end() {
        Some(end) => end,
        None => unreachable!(),
    }
}

// The last line of a run that is over.
fn last_line<'a>(run: &PlainRun<'a>, recorder: &Recorder) -> Line
    requires { IsOver run.now }
    ensures { (whole : Run) (frames : List (List LogItem)) → EndsIn whole run.now
        → inputs_in frames ≡ length whole.inputs → recorder.now.store.inputs ≡ inputs_in frames
        → recorder.now.store.frames ≡ length frames → result ≡ summary_line whole (length frames) }
{
    let summary = Summary {
        end: end_of(run),
        turns: run.page().turns(),
        dropped: 0, // A load is never dropped.
        counts: run.page().counts(),
        inputs: recorder.inputs(),
        frames: recorder.frames(),
    };
    summary.line()
}

// Writes the last line of a run that is over, and gives its end.
fn finish<'a, O: Sink>(
    run: &PlainRun<'a>,
    recorder: &Recorder,
    out: &mut O,
) -> Result<PlainEnd, CaptureFault>
    requires { IsOver run.now }
    ensures { Finishes result run.now recorder.now (stream O.Sink out.old) (stream O.Sink out.new) }
{
    last_line(run, recorder).write(out)?;
    Ok(end_of(run))
}

// Records a run from its head to its last line.
fn recorded<'a, D: Disk, O: Sink>(
    alloc: Global,
    head: &LogItem,
    run: &mut PlainRun<'a>,
    disk: &mut D,
    out: &mut O,
) -> Result<PlainEnd, CaptureFault>
    requires valid { IsItem head.now }
    requires alone { is_input head.now ≡ false }
    ensures { (budget : ℕ)
        → RecordsRun (recorded_as budget result) head.now budget (rest_of run.old)
        (shown D.Disk O.Sink disk.old out.old) (shown D.Disk O.Sink disk.new out.new) }
{
    let mut recorder = Recorder::start(alloc, head, disk, out)?;
    record_inputs(run, &mut recorder, disk, out)?;
    finish(run, &recorder, out)
}

/// Records a run in a session on an empty disk, behind this head, which has this budget.
pub fn record_run<'a, D: Disk, O: Sink>(
    alloc: Global,
    head: &LogItem,
    run: &mut PlainRun<'a>,
    budget: u64,
    disk: &mut D,
    out: &mut O,
) -> RunOutcome
    requires valid { IsItem head.now }
    requires alone { is_input head.now ≡ false }
    ensures { RecordsRun result head.now budget (rest_of run.old)
        (shown D.Disk O.Sink disk.old out.old) (shown D.Disk O.Sink disk.new out.new) }
{
    match recorded(alloc, head, run, disk, out) {
        Ok(PlainEnd::Finished) => RunOutcome::Done,
        Ok(PlainEnd::Budget) => RunOutcome::Budget { steps: budget },
        Err(fault) => RunOutcome::Halted(fault),
    }
}
