// The lines of a list.
ghost use Rattle.std.specs.Prelude.{◌≡◌, count_by, flat_map, IfOk};
ghost use Rattle.input_log.specs.Kinds.{is_input};
ghost use Rattle.mugshot_cli.specs.Listing.{head_line, item_line, list_text, records_line};
ghost use Rattle.mugshot_cli.specs.Outside.{stream};
ghost use Rattle.mugshot_cli.specs.inner.Lines.{Prints, Puts};

use crate::lines::{Lines, PrintFault};
use capture_engine::Line;
use input_log::LogItem;
use itoa::Buffer;
use mug_outside::Sink;
use mug_text::{JText, NoMemory};
use std::alloc::Global;

// `records N inputs M`
fn records(records: u64, inputs: u64) -> Line
    ensures { result ≡ records_line records inputs }
{
    let mut line = Line::new();
    line.push(b"records ");
    line.push_number(records);
    line.push(b" inputs ");
    line.push_number(inputs);
    line.push(b"\n");
    line
}

// `head BASE BUDGET LEN`
fn head(alloc: Global, base: &JText, budget: u64, page_len: usize) -> Result<Vec<u8>, NoMemory>
    ensures { IfOk result (λ line. line.items ≡ head_line base.now budget page_len) }
{
    let mut line = Vec::from_slice(alloc, b"head ")?;
    base.shown(&mut line)?;
    line.extend_from_slice(b" ")?;
    line.extend_from_slice(Buffer::new().format(budget).as_bytes())?;
    line.extend_from_slice(b" ")?;
    line.extend_from_slice(Buffer::new().format(page_len).as_bytes())?;
    line.extend_from_slice(b"\n")?;
    Ok(line)
}

// The line of a head. It alone takes memory, since a base may be long.
fn put_head<O: Sink>(
    alloc: Global,
    lines: &mut Lines,
    out: &mut O,
    base: &JText,
    budget: u64,
    page_len: usize,
) -> Result<(), PrintFault>
    ensures { Puts result (head_line base.now budget page_len) lines.old lines.new
        (stream O.Sink out.old) (stream O.Sink out.new) }
{
    let line = head(alloc, base, budget, page_len)?;
    lines.put(out, &line)
}

// The line of an item.
fn put_item<O: Sink>(
    alloc: Global,
    lines: &mut Lines,
    out: &mut O,
    item: &LogItem,
) -> Result<(), PrintFault>
    ensures { Puts result (item_line item.now) lines.old lines.new (stream O.Sink out.old)
        (stream O.Sink out.new) }
{
    match item {
        LogItem::Head { base, budget, page } => {
            put_head(alloc, lines, out, base, *budget, page.as_slice().len())
        }
        LogItem::Load { t } => lines.put_numbered(out, b"load ", *t),
        LogItem::Now { v } => lines.put_numbered(out, b"now ", *v),
        LogItem::Rand { w } => lines.put_numbered(out, b"rand ", *w as u64),
    }
}

fn count_inputs(items: &[LogItem]) -> usize
    ensures { result ≡ count_by is_input items.now }
{
    items.iter().filter(|item| item.is_input()).count()
}

// A line for each item.
fn put_items<O: Sink>(
    alloc: Global,
    lines: &mut Lines,
    out: &mut O,
    items: &[LogItem],
) -> Result<(), PrintFault>
    ensures { Puts result (flat_map item_line items.now) lines.old lines.new (stream O.Sink out.old)
        (stream O.Sink out.new) }
{
    for item in items {
        put_item(alloc, lines, out, item)?;
    }
    Ok(())
}

/// A line for each item, and the line of their numbers.
pub fn print_items<O: Sink>(alloc: Global, out: &mut O, items: &[LogItem]) -> Result<(), PrintFault>
    ensures { Prints result (list_text items.now) (stream O.Sink out.old) (stream O.Sink out.new) }
{
    let mut lines = Lines::new();
    put_items(alloc, &mut lines, out, items)?;
    let last = records(items.len() as u64, count_inputs(items) as u64);
    lines.put(out, last.as_slice())?;
    lines.flush(out)
}
