// Bytes as they are printed.
use mug_text::NoMemory;
use std::alloc::Global;

const DIGITS: [char; 16] = [
    '0', '1', '2', '3', '4', '5', '6', '7', '8', '9', 'A', 'B', 'C', 'D', 'E', 'F',
];

fn push_shown(out: &mut String, byte: u8) -> Result<(), NoMemory> {
    match byte {
        b'\n' => out.push_str("\\n")?,
        b'\\' => out.push_str("\\\\")?,
        b' '..=b'~' => out.push(char::from(byte))?,
        _ => {
            out.push_str("\\x")?;
            out.push(DIGITS[usize::from(byte >> 4)])?;
            out.push(DIGITS[usize::from(byte & 15)])?;
        }
    }
    Ok(())
}

/// The bytes as a line of cases would write them.
pub fn shown(alloc: Global, bytes: &[u8]) -> Result<String, NoMemory> {
    let mut out = String::new(alloc);
    for byte in bytes {
        push_shown(&mut out, *byte)?;
    }
    Ok(out)
}
