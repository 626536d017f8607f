// The top call: every command line, over any disk and any streams.
ghost use Rattle.std.specs.Prelude.{map, string_bytes};
ghost use Rattle.capture_engine.specs.Outside.{shown};
ghost use Rattle.mugshot_cli.specs.Outside.{Stream, outside, stream};
ghost use Rattle.mugshot_cli.specs.Top.{CaptureCompletes, ListCompletes, ReplayCompletes};
ghost use Rattle.mugshot_cli.specs.Top.{TopDid, WordsDid};

use crate::capturing::capture;
use crate::command::{Action, UsageFault, read_action};
use crate::listing::list;
use crate::outcome::{Outcome, Status, of_capture, of_list, of_replay};
use crate::refusal::say;
use crate::replaying::replay;
use mug_disk::Disk;
use mug_outside::{Sink, Source};
use std::alloc::Global;

fn run<P: Source, A: Source, D: Disk, O: Sink>(
    alloc: Global,
    words: &[String],
    page: &mut P,
    arrivals: &mut A,
    disk: &mut D,
    out: &mut O,
) -> Outcome
    ensures { (err err' : Stream) → WordsDid (map (λ word. string_bytes word) words.now) result
        (outside P.Source A.Source D.Disk O.Sink page.old arrivals.old disk.old out.old err)
        (outside P.Source A.Source D.Disk O.Sink page.new arrivals.new disk.new out.new err') }
{
    match read_action(alloc, words) {
        Ok(Action::List) => of_list(list(alloc, disk, out)),
        Ok(Action::Replay) => of_replay(replay(alloc, disk, out)),
        Ok(Action::Capture { steps }) => {
            of_capture(capture(alloc, steps, page, arrivals, disk, out))
        }
        Err(UsageFault::Usage) => Outcome::Usage,
        Err(UsageFault::NoMemory) => Outcome::NoMemory,
    }
}

/// Runs the command that the words spell. `words` come without the program's name; `page` and
/// `arrivals` are read by `capture` alone.
pub fn mugshot<P: Source, A: Source, D: Disk, O: Sink, E: Sink>(
    alloc: Global,
    words: &[String],
    page: &mut P,
    arrivals: &mut A,
    disk: &mut D,
    out: &mut O,
    err: &mut E,
) -> Status

    // The status and the line on `err` tell an outcome, and the words' command did what it says.
    ensures did { TopDid (map (λ word. string_bytes word) words.now) result
        (outside P.Source A.Source D.Disk O.Sink page.old arrivals.old disk.old out.old
        (stream E.Sink err.old))
        (outside P.Source A.Source D.Disk O.Sink page.new arrivals.new disk.new out.new
        (stream E.Sink err.new)) }

    // Where nothing fails, `list`, `replay` and `capture` do their work, or find no memory.
    ensures list_completes { ListCompletes (map (λ word. string_bytes word) words.now) result
        (shown D.Disk O.Sink disk.old out.old) (shown D.Disk O.Sink disk.new out.new) }
    ensures replay_completes { ReplayCompletes (map (λ word. string_bytes word) words.now) result
        (shown D.Disk O.Sink disk.old out.old) (shown D.Disk O.Sink disk.new out.new) }
    ensures capture_completes { CaptureCompletes (map (λ word. string_bytes word) words.now) result
        (outside P.Source A.Source D.Disk O.Sink page.old arrivals.old disk.old out.old
        (stream E.Sink err.old))
        (outside P.Source A.Source D.Disk O.Sink page.new arrivals.new disk.new out.new
        (stream E.Sink err.new)) }
{
    let outcome = run(alloc, words, page, arrivals, disk, out);
    say(err, outcome);
    outcome.status()
}
