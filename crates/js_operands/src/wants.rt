// Which operands of a node are converted.
ghost use Rattle.std.specs.Prelude.{◌≡◌, ◌<◌, ◌∷◌, ℕ, Some, IfNone, IfSome, length, not};
ghost use Rattle.js_value.specs.Image.{IsPrimitive, is_primitive};
ghost use Rattle.js_host.specs.Natives as natives;
ghost use Rattle.js_operands.specs.Conversions as spec;
ghost use Rattle.js_operands.specs.Steps.{operand_at};

use js_host::native_of;
use js_ops::Hint;
use js_term::Operands;
use js_value::NativeId;

/// An operand that is to be converted: its place among all, and the hint.
#[derive(Clone, Copy, Debug, PartialEq, Eq)]
pub struct Wanted {
    pub place: usize,
    pub by: Hint,
}

/// By which hints the operands of a node are converted.
#[derive(Clone, Copy, Debug)]
pub enum Wants {
    /// The operand at a place, and the next.
    At(usize, Option<Hint>, Option<Hint>),
    /// The operands of a call, behind the callee, which is this native or none.
    Call(Option<NativeId>),
    /// The same of a `new`.
    New(Option<NativeId>),
}

// The hint of a native's `this`, at position 0, or of an argument.
fn native_wants(native: Option<NativeId>, by_new: bool, position: usize) -> Option<Hint>
    ensures { result ≡ spec.native_hint natives.wants native by_new position }
{
    let row = native_of(native?)?;
    if row.construct.refuses(by_new) {
        return None;
    }
    row.hint(position)
}

// The hint of the operand of a call at a place, behind the callee.
fn call_hint(native: Option<NativeId>, place: usize) -> Option<Hint>
    ensures { result ≡ spec.hints natives.wants (Wants.Call native) place }
{
    if place == 0 {
        return None;
    }
    native_wants(native, false, place - 1)
}

// The same of a `new`.
fn new_hint(native: Option<NativeId>, place: usize) -> Option<Hint>
    ensures { result ≡ spec.hints natives.wants (Wants.New native) place }
{
    if place == 0 {
        return None;
    }
    native_wants(native, true, place)
}

impl Wants {
    // The hint of the operand at a place.
    fn hint(self, place: usize) -> Option<Hint>
        ensures { result ≡ spec.hints natives.wants self place }
    {
        match self {
            Wants::At(first, hint, _) if place == first => hint,
            Wants::At(first, _, hint) if place > 0 && place - 1 == first => hint,
            Wants::At(_, _, _) => None,
            Wants::Call(native) => call_hint(native, place),
            Wants::New(native) => new_hint(native, place),
        }
    }
}

// The hint by which the operand at a place is to be converted.
fn wanted_hint(operands: &Operands, wants: Wants, place: usize) -> Option<Hint>
    ensures { result ≡ spec.wanted_hint (spec.hints natives.wants wants place)
        (operand_at operands.now.done place) }
{
    let by = wants.hint(place)?;
    if is_object(operands, place) {
        return Some(by);
    }
    None
}

// Whether the operand at a place is no primitive value.
fn is_object(operands: &Operands, place: usize) -> bool
    ensures { result ≡ not (is_primitive (operand_at operands.now.done place)) }
{
    match operands.value(place) {
        Some(value) => !value.is_primitive(),
        None => false,
    }
}

/// The first operand that is to be converted.
pub(crate) fn first_wanted(operands: &Operands, wants: Wants) -> Option<Wanted>
    ensures first { result ≡
        spec.first_wanted (spec.hints natives.wants wants) 0 operands.now.done }
    ensures there { IfSome result (λ k. k.place < length operands.now.done) }
    ensures converted { IfNone result ((n : ℕ) (k : Hint) →
        spec.hints natives.wants wants n ≡ Some k → IsPrimitive (operand_at operands.now.done n)) }
{
    for place in 0..operands.value_count() {
        if let Some(by) = wanted_hint(operands, wants, place) {
            return Some(Wanted { place, by });
        }
    }
    None
}
