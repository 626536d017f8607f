// What holds of values by the definitions alone. These functions do nothing: their clauses are the laws.
ghost use Rattle.std.specs.Prelude.{◌≡◌, Some, is_some, not};
ghost use Rattle.js_value.specs.Callable.{callable_in, callable_value};
ghost use Rattle.js_value.specs.Image.{image, is_primitive, to_boolean};
ghost use Rattle.js_value.specs.Same.{same};
ghost use Rattle.js_value.specs.declared.callable.Callable.{Callable};
ghost use Rattle.js_value.specs.declared.value.Value.{Value};

/// Nothing here tells a wrap from its image.
pub fn wraps_act_as_their_images()
    ensures once { (v : Value) → image (image v) ≡ image v }
    ensures primitive { (v : Value) → is_primitive (image v) ≡ is_primitive v }
    ensures truth { (v : Value) → to_boolean (image v) ≡ to_boolean v }
    ensures same_left { (v w : Value) → same (image v) w ≡ same v w }
    ensures same_right { (v w : Value) → same v (image w) ≡ same v w }
{}

/// What may be called is a value that is not primitive, and every such value.
pub fn callables_are_values()
    ensures back { (c : Callable) → callable_in (callable_value c) ≡ Some c }
    ensures same { (v : Value) (c : Callable) → callable_in v ≡ Some c → callable_value c ≡ v }
    ensures which { (v : Value) → is_some (callable_in v) ≡ not (is_primitive v) }
{}
