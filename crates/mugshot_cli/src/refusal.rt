// The line of a refusal, made without memory.
ghost use Rattle.std.specs.Prelude.{◌≡◌, ◌+◌, ◌≤◌, ◌++◌, length, decimal};
ghost use Rattle.mugshot_cli.specs.Outside.{stream};
ghost use Rattle.mugshot_cli.specs.Outcome.{TookLine, kind_text, line_of, refusal_line, want_text};
ghost use Rattle.mugshot_cli.specs.Outcome.{word_text};
ghost use Rattle.mugshot_cli.specs.declared.outcome.Outcome.{Outcome};

use crate::outcome::Outcome;
use crate::thin_page::end::Want;
use arrival_file::ArrivalKind;
use capture_engine::Line;
use input_log::Word;
use mug_outside::Sink;

fn plain(text: &[u8]) -> Line
    requires { length text.now ≤ 40 }
    ensures { result ≡ refusal_line text.now }
{
    let mut line = Line::new();
    line.push(b"mugshot: ");
    line.push(text);
    line.push(b"\n");
    line
}

// A text with a number in it.
fn numbered(before: &[u8], n: u64, after: &[u8]) -> Line
    requires short { length before.now ≤ 40 }
    requires short_after { length after.now ≤ 40 }
    ensures { result ≡ refusal_line (before.now ++ decimal n ++ after.now) }
{
    let mut line = Line::new();
    line.push(b"mugshot: ");
    line.push(before);
    line.push_number(n);
    line.push(after);
    line.push(b"\n");
    line
}

fn kind_text(kind: ArrivalKind) -> &'static [u8]
    ensures { result.now ≡ kind_text kind }
{
    match kind {
        ArrivalKind::Form => b"form",
        ArrivalKind::Number => b"number",
        ArrivalKind::Size => b"size",
        ArrivalKind::Url => b"url",
        ArrivalKind::Twice => b"twice",
        ArrivalKind::Order => b"order",
        ArrivalKind::Length => b"length",
        ArrivalKind::Utf8 => b"utf8",
    }
}

fn want_text(want: Want) -> &'static [u8]
    ensures { result.now ≡ want_text want }
{
    match want {
        Want::Load => b"load",
        Want::Turn => b"turn",
        Want::Now => b"now",
        Want::Rand => b"rand",
    }
}

fn word_text(word: Word) -> &'static [u8]
    ensures { result.now ≡ word_text word }
{
    match word {
        Word::Head => b"head",
        Word::Load => b"load",
        Word::Now => b"now",
        Word::Rand => b"rand",
    }
}

fn bad_arrivals(number: u64, kind: ArrivalKind) -> Line
    ensures { result ≡ line_of (Outcome.BadArrivals number kind) }
{
    let mut line = Line::new();
    line.push(b"mugshot: bad arrivals: line ");
    line.push_number(number);
    line.push(b": ");
    line.push(kind_text(kind));
    line.push(b"\n");
    line
}

fn diverged(entry: u64, wanted: Want, found: Word) -> Line
    ensures { result ≡ line_of (Outcome.Diverged entry wanted found) }
{
    let mut line = Line::new();
    line.push(b"mugshot: diverged at record ");
    line.push_number(entry);
    line.push(b": wanted ");
    line.push(want_text(wanted));
    line.push(b", found ");
    line.push(word_text(found));
    line.push(b"\n");
    line
}

fn line_for(outcome: Outcome) -> Line
    ensures { result ≡ line_of outcome }
{
    match outcome {
        Outcome::Done => Line::new(),
        Outcome::Usage => plain(b"usage"),
        Outcome::PageTooLarge => plain(b"bad page: too large"),
        Outcome::PageNotUtf8 { at } => numbered(b"bad page: not utf-8 at ", at, b""),
        Outcome::BadArrivals { line, kind } => bad_arrivals(line, kind),
        Outcome::Budget { steps } => numbered(b"budget of ", steps, b" steps is used up"),
        Outcome::NotEmpty => plain(b"session is not empty"),
        Outcome::NotASession => plain(b"not a session"),
        Outcome::Damaged { at } => numbered(b"damaged session at ", at, b""),
        Outcome::Diverged {
            entry,
            wanted,
            found,
        } => diverged(entry, wanted, found),
        Outcome::Full => plain(b"session is full"),
        Outcome::ReadFault => plain(b"read fault"),
        Outcome::NotBuilt => plain(b"not built yet"),
        Outcome::DiskFault => plain(b"disk fault"),
        Outcome::WriteFault => plain(b"write fault"),
        Outcome::NoMemory => plain(b"out of memory"),
    }
}

/// Writes the outcome's line; where `err` fails, nothing more is said.
pub fn say<E: Sink>(err: &mut E, outcome: Outcome)
    ensures { TookLine (line_of outcome) (stream E.Sink err.old) (stream E.Sink err.new) }
{
    let line = line_for(outcome);
    let _ = line.write(err);
}
