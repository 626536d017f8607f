// Items to bytes.
ghost use Rattle.std.specs.Prelude.{◌≡◌, ◌<◌, ◌^◌, ◌∷◌, ◌++◌, length, take, OnOk, OnErr};
ghost use Rattle.std.specs.Int.{to_be_bytes, w64};
ghost use Rattle.mug_text.specs.Text.{utf8_of};
ghost use Rattle.input_log.specs.Items.{IsItem, encoding, sized};

use crate::LogItem;
use mug_text::{JText, NoMemory};

// Appends the number of the bytes in four bytes, and the bytes. On `Err` some of it may be there.
fn push_sized(bytes: &[u8], out: &mut Vec<u8>) -> Result<(), NoMemory>
    requires { length bytes.now < 2 ^ 32 }
    ensures ok { OnOk result (out.new.items ≡ out.old.items ++ sized bytes.now) }
    ensures kept { take (length out.old.items) out.new.items ≡ out.old.items }
{
    let size = bytes.len() as u32;
    out.extend_from_slice(&size.to_be_bytes())?;
    out.extend_from_slice(bytes)?;
    Ok(())
}

// The same of a text's bytes.
fn push_text(text: &JText, out: &mut Vec<u8>) -> Result<(), NoMemory>
    requires { length (utf8_of text.now) < 2 ^ 32 }
    ensures ok { OnOk result (out.new.items ≡ out.old.items ++ sized (utf8_of text.now)) }
    ensures kept { take (length out.old.items) out.new.items ≡ out.old.items }
{
    let size = text.utf8_len() as u32;
    out.extend_from_slice(&size.to_be_bytes())?;
    text.to_utf8(out)
}

// Appends a first byte and a number in eight bytes. On `Err` some of it may be there.
fn push_long(first: u8, number: u64, out: &mut Vec<u8>) -> Result<(), NoMemory>
    ensures ok { OnOk result (out.new.items ≡ out.old.items ++ first ∷ to_be_bytes w64 number) }
    ensures kept { take (length out.old.items) out.new.items ≡ out.old.items }
{
    out.extend_from_slice(&[first])?;
    out.extend_from_slice(&number.to_be_bytes())?;
    Ok(())
}

// Appends an item's bytes. On `Err` some of them may be there.
fn push_item(item: &LogItem, out: &mut Vec<u8>) -> Result<(), NoMemory>
    requires { IsItem item.now }
    ensures ok { OnOk result (out.new.items ≡ out.old.items ++ encoding item.now) }
    ensures kept { take (length out.old.items) out.new.items ≡ out.old.items }
{
    match item {
        LogItem::Head { base, budget, page } => {
            out.extend_from_slice(&[0])?;
            push_text(base, out)?;
            out.extend_from_slice(&budget.to_be_bytes())?;
            push_sized(page.as_slice(), out)
        }
        LogItem::Load { t } => push_long(3, *t, out),
        LogItem::Now { v } => push_long(9, *v, out),
        LogItem::Rand { w } => {
            out.extend_from_slice(&[10])?;
            out.extend_from_slice(&w.to_be_bytes())?;
            Ok(())
        }
    }
}

/// Appends the item's bytes.
pub fn encode(item: &LogItem, out: &mut Vec<u8>) -> Result<(), NoMemory>
    requires { IsItem item.now }
    ensures ok { OnOk result (out.new.items ≡ out.old.items ++ encoding item.now) }
    ensures err { OnErr result (out.new.items ≡ out.old.items) }
{
    let before = out.len();
    let pushed = push_item(item, out);
    if pushed.is_err() {
        out.truncate(before);
    }
    pushed
}

/// The number of bytes that `encode` appends.
pub fn encoded_len(item: &LogItem) -> usize
    requires { IsItem item.now }
    ensures { result ≡ length (encoding item.now) }
{
    match item {
        LogItem::Head {
            base,
            budget: _,
            page,
        } => 17 + base.utf8_len() + page.as_slice().len(),
        LogItem::Load { t: _ } | LogItem::Now { v: _ } => 9,
        LogItem::Rand { w: _ } => 5,
    }
}
