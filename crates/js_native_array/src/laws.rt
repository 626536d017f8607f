// What the rows come to on worked cases, by their definitions alone. These functions do nothing:
// their clauses are the laws.
ghost use Rattle.std.specs.Prelude.{◌≡◌, true, false, [], ◌∷◌, None, codes, negsuc};
ghost use Rattle.js_value.specs.declared.number.Num.TheVariants.{Whole};
ghost use Rattle.js_value.specs.declared.value.Value.TheVariants.{Bool, Num, Text, Undefined};
ghost use Rattle.js_host.specs.Numbers.{number_of};
ghost use Rattle.js_host.specs.declared.call.Outcome.TheVariants.{Value};
ghost use Rattle.js_host.specs.declared.native.Builtin.{Builtin};
ghost use Rattle.js_native_array.specs.Edits as edits;
ghost use Rattle.js_native_array.specs.Joins as joins;
ghost use Rattle.js_native_array.specs.Makers as makers;
ghost use Rattle.js_native_array.specs.Natives.{array_native_at, array_native_named};
ghost use Rattle.js_native_array.specs.Rows.{count};
ghost use Rattle.js_native_array.specs.Walks as walks;
ghost use Rattle.js_native_array.specs.declared.native.Walking.TheVariants.{Every, ForEach};
ghost use Rattle.js_native_array.specs.inner.Worked as worked;

use js_host::natives_are_numbered_apart;

/// The natives that change an array: what they give, and what the array holds then; `_` is a hole.
pub fn edits_on_worked_cases()
    ensures push { worked.left (edits.push_row (worked.held (worked.one 1 ∷ []) 2)
        (worked.call (count 7 ∷ [])))
        ≡ worked.given (count 3) (worked.one 1 ∷ None ∷ worked.one 7 ∷ []) }
    ensures pop { worked.left (edits.pop_row (worked.held (worked.one 1 ∷ worked.one 2 ∷ []) 2)
        (worked.call [])) ≡ worked.given (count 2) (worked.one 1 ∷ []) }
    ensures shift { worked.left (edits.shift_row
        (worked.held (worked.one 1 ∷ None ∷ worked.one 3 ∷ []) 3) (worked.call []))
        ≡ worked.given (count 1) (None ∷ worked.one 3 ∷ []) }
    ensures unshift { worked.left (edits.unshift_row (worked.held (worked.one 1 ∷ []) 2)
        (worked.call (count 8 ∷ count 9 ∷ [])))
        ≡ worked.given (count 4) (worked.one 8 ∷ worked.one 9 ∷ worked.one 1 ∷ None ∷ []) }
    ensures unshift_order { worked.order (edits.unshift_row
        (worked.held (worked.one 1 ∷ worked.one 2 ∷ []) 2) (worked.call (count 8 ∷ count 9 ∷ [])))
        ≡ codes "0" ∷ codes "1" ∷ codes "3" ∷ codes "2" ∷ [] }
    ensures splice { worked.both (edits.splice_row
        (worked.held (worked.one 1 ∷ worked.one 2 ∷ worked.one 3 ∷ worked.one 4 ∷ []) 4)
        (worked.call (count 1 ∷ count 2 ∷ Text (codes "a") ∷ [])))
        ≡ (
          worked.one 2 ∷ worked.one 3 ∷ [],
          worked.one 1 ∷ worked.letter (codes "a") ∷ worked.one 4 ∷ [],
        ) }
    ensures splice_one { worked.both (edits.splice_row
        (worked.held (worked.one 1 ∷ worked.one 2 ∷ []) 2) (worked.call (count 1 ∷ [])))
        ≡ ([], worked.one 1 ∷ worked.one 2 ∷ []) }
    ensures reverse { worked.left (edits.reverse_row
        (worked.held (worked.one 1 ∷ worked.one 2 ∷ []) 3) (worked.call []))
        ≡ worked.given worked.self (None ∷ worked.one 2 ∷ worked.one 1 ∷ []) }
{}

/// The natives that look at an array and make new ones.
pub fn makers_on_worked_cases()
    ensures slice { worked.both (makers.slice_row
        (worked.held (None ∷ worked.one 2 ∷ worked.one 3 ∷ []) 5)
        (worked.call (Num (Whole (negsuc 3)) ∷ [])))
        ≡ (
          worked.one 2 ∷ worked.one 3 ∷ [],
          None ∷ worked.one 2 ∷ worked.one 3 ∷ None ∷ None ∷ [],
        ) }
    ensures concat { worked.both (makers.concat_row (worked.held (worked.one 1 ∷ []) 2)
        (worked.call (count 5 ∷ worked.self ∷ [])))
        ≡ (worked.one 1 ∷ None ∷ worked.one 5 ∷ worked.one 1 ∷ [], worked.one 1 ∷ None ∷ []) }
    ensures index_of { (makers.index_of_row
        (worked.held (worked.one 1 ∷ worked.one 2 ∷ worked.one 1 ∷ []) 3)
        (worked.call (count 1 ∷ Num (Whole (negsuc 0)) ∷ []))).0 ≡ Value (count 2) }
{}

/// The natives that wait for callbacks.
pub fn waits_on_worked_cases()
    ensures join { (joins.join_row (worked.native 28)
        (worked.held (worked.one 1 ∷ None ∷ []) 2) (worked.call [])).0
        ≡ Value (Text (codes "1,")) }
    ensures hole { (walks.walk_row (worked.native 30) ForEach
        (worked.held (None ∷ worked.one 5 ∷ []) 2) (worked.call (worked.function ∷ []))).0
        ≡ worked.waits (worked.native 30) 1 (count 5 ∷ count 1 ∷ worked.self ∷ [])
        (worked.self ∷ count 2 ∷ worked.function ∷ Undefined ∷ Undefined ∷ count 5 ∷ []) }
    ensures every { (walks.walk_resumed Every (worked.held (worked.one 5 ∷ []) 1)
        (worked.point (worked.native 34) 0
        (worked.self ∷ count 1 ∷ worked.function ∷ Undefined ∷ Bool true ∷ count 5 ∷ []))
        (count 0)).0 ≡ Value (Bool false) }
    ensures reduce { (walks.reduce_row (worked.native 35)
        (worked.held (worked.one 5 ∷ worked.one 6 ∷ []) 2) (worked.call (worked.function ∷ []))).0
        ≡ worked.waits (worked.native 35) 1 (count 5 ∷ count 6 ∷ count 1 ∷ worked.self ∷ [])
        (worked.self ∷ count 2 ∷ worked.function ∷ Undefined ∷ count 5 ∷ count 6 ∷ []) }
{}

/// The array natives by number are those by name, each at its number in the table of natives.
pub fn array_natives_by_number()
    ensures { (b : Builtin) → array_native_at (number_of b) ≡ array_native_named b }
{
    natives_are_numbered_apart();
}
