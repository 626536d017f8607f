// Items from bytes.
ghost use Rattle.std.specs.Prelude.{IfOk, MatchOption};
ghost use Rattle.input_log.specs.Items.{BeginsWith, BeginsWithNone};
ghost use Rattle.input_log.specs.inner.Heads.{BeginsWithLong, BeginsWithSized, BeginsWithTime, BeginsWithWord, HasHead, HasNoHead, HasNoLong, HasNoSized, HasNoTime, HasNoWord};

use crate::{HEAD_PAGE_LIMIT, LogItem, STEPS_LIMIT};
use mug_text::{Bytes, JText, NoMemory, SAFE_END, TextFault};
use std::alloc::Global;

/// The fewest page steps that a budget has.
const BUDGET_LEAST: u64 = 1;

// The number in the first four bytes, and the bytes after them.
fn word_at(bytes: &[u8]) -> Option<(u32, &[u8])>
    ensures { MatchOption result (HasNoWord bytes.now)
        (λ pair. BeginsWithWord bytes.now pair.0 pair.1.now) }
{
    match bytes {
        [a, b, c, d, rest @ ..] => Some((u32::from_be_bytes([*a, *b, *c, *d]), rest)),
        _ => None,
    }
}

// The number in the first eight bytes, and the bytes after them.
fn long_at(bytes: &[u8]) -> Option<(u64, &[u8])>
    ensures { MatchOption result (HasNoLong bytes.now)
        (λ pair. BeginsWithLong bytes.now pair.0 pair.1.now) }
{
    match bytes {
        [a, b, c, d, e, f, g, h, rest @ ..] => Some((
            u64::from_be_bytes([*a, *b, *c, *d, *e, *f, *g, *h]),
            rest,
        )),
        _ => None,
    }
}

// The bytes after their number, and those after them.
fn sized_at(bytes: &[u8]) -> Option<(&[u8], &[u8])>
    ensures { MatchOption result (HasNoSized bytes.now)
        (λ pair. BeginsWithSized bytes.now pair.0.now pair.1.now) }
{
    let (size, rest) = word_at(bytes)?;
    let size = size as usize;
    if rest.len() < size {
        return None;
    }
    Some(rest.split_at(size))
}

// A moment or a reading of the clock.
fn time_at(bytes: &[u8]) -> Option<u64>
    ensures { MatchOption result (HasNoTime bytes.now) (λ t. BeginsWithTime bytes.now t) }
{
    let (t, _) = long_at(bytes)?;
    if t < SAFE_END { Some(t) } else { None }
}

// A head from the bytes after its first, and the number of all its bytes.
fn head_at(alloc: Global, bytes: &[u8]) -> Result<Option<(LogItem, usize)>, NoMemory>
    ensures { IfOk result (λ found. MatchOption found (HasNoHead bytes.now)
        (λ pair. HasHead bytes.now pair.0 pair.1)) }
{
    let Some((base, rest)) = sized_at(bytes) else {
        return Ok(None);
    };
    let Some((budget, rest)) = long_at(rest) else {
        return Ok(None);
    };
    let Some((page, _)) = sized_at(rest) else {
        return Ok(None);
    };
    if budget < BUDGET_LEAST || budget > STEPS_LIMIT || page.len() > HEAD_PAGE_LIMIT {
        return Ok(None);
    }
    let size = 17 + base.len() + page.len();
    let base = match JText::from_utf8(alloc, base) {
        Ok(base) => base,
        Err(TextFault::NotUtf8 { at: _ }) => return Ok(None),
        Err(TextFault::NoMemory) => return Err(NoMemory),
    };
    let page = Bytes::of(alloc, page)?;
    Ok(Some((LogItem::Head { base, budget, page }, size)))
}

/// The item that the bytes begin with and the number of its bytes, or none where they begin with no
/// item.
pub fn decode(alloc: Global, bytes: &[u8]) -> Result<Option<(LogItem, usize)>, NoMemory>
    ensures { IfOk result (λ found. MatchOption found (BeginsWithNone bytes.now)
        (λ pair. BeginsWith bytes.now pair.0 pair.1)) }
{
    match bytes {
        [0, rest @ ..] => head_at(alloc, rest),
        [3, rest @ ..] => match time_at(rest) {
            Some(t) => Ok(Some((LogItem::Load { t }, 9))),
            None => Ok(None),
        },
        [9, rest @ ..] => match time_at(rest) {
            Some(v) => Ok(Some((LogItem::Now { v }, 9))),
            None => Ok(None),
        },
        [10, rest @ ..] => match word_at(rest) {
            Some((w, _)) => Ok(Some((LogItem::Rand { w }, 5))),
            None => Ok(None),
        },
        _ => Ok(None),
    }
}
