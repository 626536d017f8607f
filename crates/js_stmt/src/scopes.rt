// New scopes.
ghost use Rattle.std.specs.Prelude.{◌≡◌, ◌<◌, IfOk, OnOk, length};
ghost use Rattle.std.specs.Option.{option_map};
ghost use Rattle.js_heap.specs.Chains.{IsBelow};
ghost use Rattle.js_heap.specs.Scopes.{scope_number, with_scope};
ghost use Rattle.js_heap.specs.declared.fault.TheConstants.{COUNT_LIMIT};
ghost use Rattle.js_stmt.specs.Tries.{next_scope};

use js_heap::{Heap, HeapFault, ScopeId};
use mug_text::NoMemory;

/// A new scope, which fits.
pub fn new_scope(heap: &mut Heap, parent: Option<ScopeId>) -> Result<ScopeId, NoMemory>
    requires fits { length heap.old.scopes < COUNT_LIMIT }
    requires parent { IsBelow (length heap.old.scopes) (option_map scope_number parent) }
    ensures number { IfOk result (λ s. s ≡ next_scope heap.old) }
    ensures made { OnOk result (heap.new ≡ with_scope heap.old parent) }
{
    match heap.new_scope(parent) {
        Ok(scope) => Ok(scope),
        Err(HeapFault::Full) => unreachable!(),
        Err(HeapFault::NoMemory) => Err(NoMemory),
    }
}
