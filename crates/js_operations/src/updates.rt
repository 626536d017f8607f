// What `++` and `--` write.
ghost use Rattle.std.specs.Prelude.{◌≡◌};
ghost use Rattle.std.specs.Option.{option_map};
ghost use Rattle.js_value.specs.declared.value.Value.TheVariants as value;
ghost use Rattle.js_operations.specs.NextNumbers as next_numbers;

use js_tree::UpdateOperator;
use js_value::Num;

/// The next number (ECMA-262 edition 5.1, 11.3, 11.4.4, 11.4.5), where it is in the profile.
pub fn next_number(operator: UpdateOperator, number: Num) -> Option<Num>
    ensures { option_map value.Num result ≡ next_numbers.next_number operator number }
{
    let Num::Whole(whole) = number else {
        return Some(Num::NaN);
    };
    match operator {
        UpdateOperator::Increment => Num::whole(i128::from(whole.get()) + 1),
        UpdateOperator::Decrement => Num::whole(i128::from(whole.get()) - 1),
    }
}
