// What holds of every host, by its laws alone. These functions do nothing: their clauses are laws.
ghost use Rattle.std.specs.Prelude.{◌≡◌, ◌↔◌, ℕ, List, Some, slice_get};
ghost use Rattle.std.specs.Option.{option_map};
ghost use Rattle.js_value.specs.Image.{image};
ghost use Rattle.js_value.specs.declared.value.ObjId.{ObjId};
ghost use Rattle.js_value.specs.declared.value.Value.{Value};
ghost use Rattle.js_heap.specs.Closed.{IsThere};
ghost use Rattle.js_heap.specs.Objects.{get};
ghost use Rattle.js_value.specs.declared.value.NativeId.{NativeId};
ghost use Rattle.js_heap.specs.World.{World, classes};
ghost use Rattle.js_heap.specs.declared.class.Class.{Class};
ghost use Rattle.js_host.specs.Images.{plain_world};
ghost use Rattle.js_host.specs.Keeps.{AllPass, Lasting, Passes};
ghost use Rattle.js_host.specs.Shown.{shown};
ghost use Rattle.js_host.specs.Names.{call_names, outcome_names};
ghost use Rattle.js_host.specs.Tests.{PassAfter, calm, there};
ghost use Rattle.js_host.specs.declared.call.NativeCall.{NativeCall};

use crate::Host;

/// What a call of a native names is there, where all that it was given is.
pub fn names_are_there<H: Host>()
    ensures { (w : World) (h : H) (id : NativeId) (c : NativeCall) →
        AllPass there w (call_names c (H.names.host h)) →
        let r = H.rows.native w h id c in
        AllPass there r.1 (outcome_names r.0 (H.names.host r.2)) }
{}

/// A call of a native changes no object's class, and no scope.
pub fn classes_and_scopes_stay<H: Host>()
    ensures classes { (w : World) (h : H) (id : NativeId) (c : NativeCall) (n : ℕ) (k : Class) →
        slice_get (classes w) n ≡ Some k →
        slice_get (classes (H.rows.native w h id c).1) n ≡ Some k }
    ensures scopes { (w : World) (h : H) (id : NativeId) (c : NativeCall) →
        (H.rows.native w h id c).1.scopes ≡ w.scopes }
{}

/// Where nothing that asks stands outside a wrap, a call of a native brings out none.
pub fn nothing_that_asks_comes_out<H: Host>()
    ensures { (w : World) (h : H) (id : NativeId) (c : NativeCall) →
        AllPass calm w (call_names c (H.names.host h)) →
        let r = H.rows.native w h id c in
        AllPass calm r.1 (outcome_names r.0 (H.names.host r.2)) }
{}

/// What is shown of a value is shown of its image, and `get` commutes with the image.
pub fn images_are_shown_and_read()
    ensures shown { (w : World) (v : Value) → shown (plain_world w) (image v) ≡ shown w v }
    ensures read { (w : World) (o : ObjId) (x : List ℕ) →
        get (plain_world w) o x ≡ option_map image (get w o x) }
{}

/// The test of what is there is what the heap means by it.
pub fn there_is_among_the_objects()
    ensures { (w : World) (v : Value) → Passes there w v ↔ IsThere w v }
{}

/// That what a value names is there, and that it asks nothing, are tests that calls keep.
pub fn tests_last()
    ensures there { Lasting there }
    ensures calm { Lasting calm }
{}
