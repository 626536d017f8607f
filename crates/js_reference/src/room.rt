// How many more objects and scopes there may be.
ghost use Rattle.std.specs.Prelude.{◌≡◌};
ghost use Rattle.js_reference.specs.Room as room;

use js_heap::{COUNT_LIMIT, Heap};

// So many more fit behind these.
fn fits(count: usize, more: usize) -> bool
    ensures { result ≡ room.fit count more }
{
    more <= COUNT_LIMIT && count <= COUNT_LIMIT - more
}

/// Whether so many more objects fit. A step whose new ones don't all fit makes none of them.
pub fn objects_fit(heap: &Heap, more: usize) -> bool
    ensures { result ≡ room.objects_fit heap.now more }
{
    fits(heap.object_count(), more)
}

/// Whether so many more scopes fit.
pub fn scopes_fit(heap: &Heap, more: usize) -> bool
    ensures { result ≡ room.scopes_fit heap.now more }
{
    fits(heap.scope_count(), more)
}
