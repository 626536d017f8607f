// What the table comes to, by the definitions alone. This function does nothing: its clauses are the laws.
ghost use Rattle.std.specs.Prelude.{◌≡◌, [], ◌∷◌, Some, codes};
ghost use Rattle.js_value.specs.declared.value.Value.TheVariants.{Ref, Text, Undefined};
ghost use Rattle.js_heap.specs.Roots.{id_of};
ghost use Rattle.js_rows.specs.inner.Counts.{lines_after, thrown_after, whole};
ghost use Rattle.js_rows.specs.inner.Scripts as scripts;

/// Scripts over a host with `console.log` take so many steps, and no other number, and leave these lines.
pub fn scripts_take_their_steps()
    ensures recursion { lines_after 60 scripts.recursion ≡ Some ((whole 5 ∷ []) ∷ []) }
    ensures completions { lines_after 68 scripts.completions ≡
        Some ((whole 2 ∷ whole 3 ∷ Text (codes "1d2") ∷ Text (codes "2") ∷ Text (codes "d2") ∷ []) ∷ []) }
    ensures semicolons { lines_after 17 scripts.inserted_semicolons ≡ Some ((Undefined ∷ whole 1 ∷ whole 3 ∷ []) ∷ []) }
    ensures order { lines_after 31 scripts.property_order ≡ Some ((Text (codes "acb") ∷ []) ∷ []) }
    ensures conversion { lines_after 19 scripts.conversion ≡ Some ((whole 8 ∷ []) ∷ []) }
    ensures counting { lines_after 39 scripts.counting ≡ Some ((whole 0 ∷ []) ∷ (whole 1 ∷ []) ∷ (whole 2 ∷ []) ∷ []) }
    ensures caught { lines_after 12 scripts.caught ≡ Some ((Text (codes "object") ∷ []) ∷ (Text (codes "f") ∷ []) ∷ []) }
    ensures member { lines_after 3 scripts.member_target ≡ Some [] }
    ensures null { thrown_after 2 scripts.null_target ≡ Some (Ref (id_of 27)) }
{}
