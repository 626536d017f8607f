// Arithmetic on numbers.
ghost use Rattle.std.specs.Prelude.{◌≡◌, ◌-ℤ◌, ◌*ℤ◌};
ghost use Rattle.std.specs.Option.{option_and_then};
ghost use Rattle.js_value.specs.Number.{in_profile};
ghost use Rattle.js_value.specs.Range.{IsSafe};
ghost use Rattle.js_ops.specs.Numbers as spec;

use js_value::{Integer, Num};

/// `-`, `*`, `/` and `%`.
#[derive(Clone, Copy, Debug, PartialEq, Eq)]
pub enum Arith {
    Sub,
    Mul,
    Div,
    Rem,
}

/// `&`, `|`, `^`, `<<`, `>>` and `>>>`.
#[derive(Clone, Copy, Debug, PartialEq, Eq)]
pub enum Bits {
    Both,
    Either,
    Unlike,
    Left,
    Right,
    Zero,
}

// The sum, where it is in the profile.
pub(crate) fn sum(a: Num, b: Num) -> Option<Num>
    ensures { result ≡ option_and_then in_profile (spec.wholes spec.sum a b) }
{
    let Num::Whole(a) = a else {
        return Some(Num::NaN);
    };
    let Num::Whole(b) = b else {
        return Some(Num::NaN);
    };
    Num::whole(i128::from(a.get()) + i128::from(b.get()))
}

// The result, where it is whole and in the profile, or NaN.
pub(crate) fn compute(op: Arith, a: Num, b: Num) -> Option<Num>
    ensures { result ≡ option_and_then in_profile (spec.wholes (spec.whole_result op) a b) }
{
    let Num::Whole(a) = a else {
        return Some(Num::NaN);
    };
    let Num::Whole(b) = b else {
        return Some(Num::NaN);
    };
    match op {
        Arith::Sub => difference(a, b),
        Arith::Mul => product(a, b),
        Arith::Div => quotient(a.get(), b.get()),
        Arith::Rem => remainder(a.get(), b.get()),
    }
}

fn difference(a: Integer, b: Integer) -> Option<Num>
    ensures { result ≡ in_profile (Num.Whole (a -ℤ b)) }
{
    Num::whole(i128::from(a.get()) - i128::from(b.get()))
}

fn product(a: Integer, b: Integer) -> Option<Num>
    ensures { result ≡ in_profile (Num.Whole (a *ℤ b)) }
{
    Num::whole(i128::from(a.get()) * i128::from(b.get()))
}

fn quotient(a: i64, b: i64) -> Option<Num>
    requires { IsSafe a }
    ensures { result ≡ option_and_then in_profile (spec.quotient a b) }
{
    if b == 0 {
        return if a == 0 { Some(Num::NaN) } else { None };
    }
    if a % b != 0 {
        return None;
    }
    Num::whole(i128::from(a / b))
}

fn remainder(a: i64, b: i64) -> Option<Num>
    requires { IsSafe a }
    ensures { result ≡ option_and_then in_profile (spec.remainder a b) }
{
    if b == 0 {
        return Some(Num::NaN);
    }
    Num::whole(i128::from(a % b))
}

/// ToInteger (ECMA-262 edition 5.1, 9.4): 0 of NaN.
pub fn to_integer(number: Num) -> Integer
    ensures { result ≡ spec.to_integer number }
{
    match number {
        Num::Whole(n) => n,
        Num::NaN => Integer::from(0i32),
    }
}

/// ToInt32 (9.5): modulo 2^32, from -2^31 on, and 0 of NaN.
pub fn to_int32(number: Num) -> i32
    ensures { result ≡ spec.to_int32 number }
{
    to_uint32(number).cast_signed()
}

/// ToUint32 (9.6): modulo 2^32, and 0 of NaN.
pub fn to_uint32(number: Num) -> u32
    ensures { result ≡ spec.to_uint32 number }
{
    match number {
        Num::Whole(n) => n.get().rem_euclid(1 << 32) as u32,
        Num::NaN => 0,
    }
}

// The result on 32 bits.
pub(crate) fn combine(op: Bits, x: u32, y: u32) -> Integer
    ensures { result ≡ spec.bits_result op x y }
{
    match op {
        Bits::Both => Integer::from((x & y).cast_signed()),
        Bits::Either => Integer::from((x | y).cast_signed()),
        Bits::Unlike => Integer::from((x ^ y).cast_signed()),
        Bits::Left => Integer::from(x.wrapping_shl(y).cast_signed()),
        Bits::Right => Integer::from(x.cast_signed().wrapping_shr(y)),
        Bits::Zero => Integer::from(x.wrapping_shr(y)),
    }
}

// Whether a is below b; none where NaN takes part.
pub(crate) fn is_below(a: Num, b: Num) -> Option<bool>
    ensures { result ≡ spec.number_less a b }
{
    let Num::Whole(a) = a else {
        return None;
    };
    let Num::Whole(b) = b else {
        return None;
    };
    Some(a.get() < b.get())
}
