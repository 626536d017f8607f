// The array natives.
ghost use Rattle.std.specs.Prelude.{◌≡◌};
ghost use Rattle.js_native_array.specs.Natives as spec;

use js_host::{Builtin, native_of};
use js_value::NativeId;

/// The natives that call a function for each element.
#[derive(Clone, Copy, Debug, PartialEq, Eq)]
pub enum Walking {
    ForEach,
    Map,
    Filter,
    /// `some`
    Any,
    Every,
    Reduce,
}

/// The array natives (ECMA-262 edition 5.1, 15.4).
#[derive(Clone, Copy, Debug, PartialEq, Eq)]
pub enum ArrayNative {
    Array,
    IsArray,
    Push,
    Pop,
    Shift,
    Unshift,
    Splice,
    Reverse,
    Slice,
    Concat,
    /// `join`, which is also `toString`.
    Join,
    IndexOf,
    Walk(Walking),
}

// Those among the natives.
fn array_native_named(name: Builtin) -> Option<ArrayNative>
    ensures { result ≡ spec.array_native_named name }
{
    match name {
        Builtin::Array => Some(ArrayNative::Array),
        Builtin::ArrayIsArray => Some(ArrayNative::IsArray),
        Builtin::ArrayPush => Some(ArrayNative::Push),
        Builtin::ArrayPop => Some(ArrayNative::Pop),
        Builtin::ArrayShift => Some(ArrayNative::Shift),
        Builtin::ArrayUnshift => Some(ArrayNative::Unshift),
        Builtin::ArraySplice => Some(ArrayNative::Splice),
        Builtin::ArrayReverse => Some(ArrayNative::Reverse),
        Builtin::ArraySlice => Some(ArrayNative::Slice),
        Builtin::ArrayConcat => Some(ArrayNative::Concat),
        Builtin::ArrayJoin => Some(ArrayNative::Join),
        Builtin::ArrayIndexOf => Some(ArrayNative::IndexOf),
        Builtin::ArrayForEach => Some(ArrayNative::Walk(Walking::ForEach)),
        Builtin::ArrayMap => Some(ArrayNative::Walk(Walking::Map)),
        Builtin::ArrayFilter => Some(ArrayNative::Walk(Walking::Filter)),
        Builtin::ArraySome => Some(ArrayNative::Walk(Walking::Any)),
        Builtin::ArrayEvery => Some(ArrayNative::Walk(Walking::Every)),
        Builtin::ArrayReduce => Some(ArrayNative::Walk(Walking::Reduce)),
        _ => None,
    }
}

/// The array native of this number.
pub fn array_native_of(id: NativeId) -> Option<ArrayNative>
    ensures { result ≡ spec.array_native_at id.number }
{
    match native_of(id) {
        Some(row) => array_native_named(row.name),
        None => None,
    }
}
