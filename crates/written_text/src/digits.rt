// Hexadecimal digits of an escape.
ghost use Rattle.std.specs.Prelude.{◌≡◌, ◌<◌};
ghost use Rattle.written_text.specs.Escapes as spec;

// The value of a hexadecimal digit; 0 of what is none.
pub(crate) fn hexadecimal(unit: u16) -> u16
    ensures value { result ≡ spec.hexadecimal unit }
    ensures small { result < 16 }
{
    let value = mug_text::digit_value(unit);
    if value < 16 { value as u16 } else { 0 }
}
