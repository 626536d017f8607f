// The lines of a replay.
ghost use Rattle.std.specs.Prelude.{◌≡◌, ◌≤◌, drop, flat_map, length, MatchOption};
ghost use Rattle.capture_engine.specs.Acks.{text_of_lines};
ghost use Rattle.mugshot_cli.specs.Outside.{stream};
ghost use Rattle.mugshot_cli.specs.inner.Lines.{Puts};
ghost use Rattle.mugshot_cli.specs.ThinPage.Machine.{counts_of};
ghost use Rattle.mugshot_cli.specs.ThinPage.Tracing.{last_line, last_lines, log_line, step_lines};
ghost use Rattle.mugshot_cli.specs.ThinPage.Tracing.{turn_line, turn_lines};
ghost use Rattle.mugshot_cli.specs.ThinPage.inner.LastLine.{HasLine, HasNoLine};

use crate::counts::{Counts, push_counts};
use crate::lines::{Lines, PrintFault};
use crate::thin_page::end::End;
use crate::thin_page::page::ThinPage;
use capture_engine::Line;
use mug_outside::Sink;
use mug_text::Bytes;

// `turn I load T`
fn turn_line(turns: u64, clock: u64) -> Line
    ensures { result ≡ turn_line turns clock }
{
    let mut line = Line::new();
    line.push(b"turn ");
    line.push_number(turns);
    line.push(b" load ");
    line.push_number(clock);
    line.push(b"\n");
    line
}

// `end turns=A steps=C hidden=D calls=E nested=F inputs=G`, with its first word
fn last_line(word: &[u8], turns: u64, counts: Counts, inputs: u64) -> Line
    requires { length word.now ≤ 40 }
    ensures { result ≡ last_line word.now turns counts inputs }
{
    let mut line = Line::new();
    line.push(word);
    line.push(b" turns=");
    line.push_number(turns);
    push_counts(&mut line, counts);
    line.push(b" inputs=");
    line.push_number(inputs);
    line.push(b"\n");
    line
}

// The lines after the first `count`.
fn after(lines: &[Bytes], count: usize) -> &[Bytes]
    ensures { result.now ≡ drop count lines.now }
{
    &lines[count.min(lines.len())..]
}

// The line of the last turn, where more were started than before.
fn put_turn<O: Sink>(
    lines: &mut Lines,
    out: &mut O,
    page: &ThinPage,
    turns: u64,
) -> Result<(), PrintFault>
    ensures { Puts result (text_of_lines (turn_lines turns page.now)) lines.old lines.new
        (stream O.Sink out.old) (stream O.Sink out.new) }
{
    if page.turns() <= turns {
        return Ok(());
    }
    lines.put(out, turn_line(page.turns(), page.clock()).as_slice())
}

// `log TEXT`
fn put_log<O: Sink>(lines: &mut Lines, out: &mut O, text: &[u8]) -> Result<(), PrintFault>
    ensures { Puts result (log_line text.now) lines.old lines.new (stream O.Sink out.old)
        (stream O.Sink out.new) }
{
    lines.put(out, b"log ")?;
    lines.put(out, text)?;
    lines.put(out, b"\n")
}

fn put_logs<O: Sink>(lines: &mut Lines, out: &mut O, texts: &[Bytes]) -> Result<(), PrintFault>
    ensures { Puts result (flat_map log_line texts.now) lines.old lines.new (stream O.Sink out.old)
        (stream O.Sink out.new) }
{
    for text in texts {
        put_log(lines, out, text.as_slice())?;
    }
    Ok(())
}

/// The lines of a step, before which so many turns were started and so many lines logged.
pub fn put_step<O: Sink>(
    lines: &mut Lines,
    out: &mut O,
    page: &ThinPage,
    turns: u64,
    count: usize,
) -> Result<(), PrintFault>
    ensures { Puts result (text_of_lines (step_lines turns count page.now)) lines.old lines.new
        (stream O.Sink out.old) (stream O.Sink out.new) }
{
    put_turn(lines, out, page, turns)?;
    put_logs(lines, out, after(page.console(), count))
}

// The first word of the last line; a run that diverges has none.
fn end_word(end: End) -> Option<&'static [u8]>
    ensures { MatchOption result (HasNoLine end) (λ word. HasLine word.now end) }
{
    match end {
        End::Finished => Some(b"end"),
        End::Cut => Some(b"cut"),
        End::Budget => Some(b"budget"),
        End::Diverged {
            wanted: _,
            found: _,
        } => None,
    }
}

/// The last line, by the run's end; a run that diverges has none.
pub fn put_last<O: Sink>(
    lines: &mut Lines,
    out: &mut O,
    end: End,
    page: &ThinPage,
    inputs: u64,
) -> Result<(), PrintFault>
    ensures { Puts result
        (text_of_lines (last_lines end page.now.turns (counts_of page.now) inputs))
        lines.old lines.new (stream O.Sink out.old) (stream O.Sink out.new) }
{
    let Some(word) = end_word(end) else {
        return Ok(());
    };
    let line = last_line(word, page.turns(), page.counts(), inputs);
    lines.put(out, line.as_slice())
}
