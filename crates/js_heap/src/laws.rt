// What holds of the worlds of heaps. This function does nothing: its clauses are the laws.
ghost use Rattle.std.specs.Prelude.{◌≡◌, ◌<◌, ℕ, Some, slice_get};
ghost use Rattle.js_heap.specs.Chains.{LeadsOn};
ghost use Rattle.js_heap.specs.Closed.{IsClosed};
ghost use Rattle.js_heap.specs.Objects.{prototype_number};
ghost use Rattle.js_heap.specs.Scopes.{parent_number};
ghost use Rattle.js_heap.specs.World.{Object, Scope, World};

/// A prototype has a lower number than its object, and the scope around a scope a lower one than
/// that. So each chain, of prototypes or of scopes, is its first number, and then the chain of what
/// that one leads to, and it ends.
pub fn chains_lead_on()
    ensures prototype_before { (w : World) → IsClosed w → (n m : ℕ) (o : Object) →
        slice_get w.objects n ≡ Some o → prototype_number o ≡ Some m → m < n }
    ensures parent_before { (w : World) → IsClosed w → (n m : ℕ) (s : Scope) →
        slice_get w.scopes n ≡ Some s → parent_number s ≡ Some m → m < n }
    ensures prototypes { (w : World) → IsClosed w → LeadsOn prototype_number w.objects }
    ensures scopes { (w : World) → IsClosed w → LeadsOn parent_number w.scopes }
{}
