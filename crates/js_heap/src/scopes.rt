// Scopes, and the chain of scopes around a scope.
ghost use Rattle.std.specs.Prelude.{◌≡◌, ◌<◌, ◌++◌, ◌∷◌, [], Some, true, is_some, length, IfSome, OnOk, OnErr};
ghost use Rattle.std.specs.Option.{option_copied, option_map};
ghost use Rattle.js_heap.specs.Chains.{LeadsBack};
ghost use Rattle.js_heap.specs.Names.{value_bound};
ghost use Rattle.js_heap.specs.Scopes as spec;

use crate::ScopeId;
use crate::scope::Scope;
use js_value::Value;
use mug_text::{JText, NoMemory};

// Puts a scope behind the others.
pub(crate) fn push_scope(scopes: &mut Vec<Scope>, scope: Scope) -> Result<(), NoMemory>
    ensures ok { OnOk result (scopes.new.items ≡ scopes.old.items ++ scope ∷ []) }
    ensures err { OnErr result (scopes.new.items ≡ scopes.old.items) }
{
    scopes.push(scope)?;
    Ok(())
}

// The value of the name in the nearest scope that has it.
pub(crate) fn value_along<'a>(
    scopes: &'a [Scope],
    scope: ScopeId,
    name: &[u16],
) -> Option<&'a Value>
    requires back { LeadsBack spec.parent_number scopes.now }
    requires there { scope.number < length scopes.now }
    ensures { option_copied result ≡ spec.value_along scopes.now (Some scope.number) name.now }
{
    let mut at = scope;
    loop {
        let here = &scopes[at.number as usize];
        if let Some(value) = here.names.get(name) {
            return Some(value);
        }
        match here.parent {
            Some(parent) => at = parent,
            None => return None,
        }
    }
}

// The nearest scope that has the name.
pub(crate) fn holder(scopes: &[Scope], scope: ScopeId, name: &[u16]) -> Option<ScopeId>
    requires back { LeadsBack spec.parent_number scopes.now }
    requires there { scope.number < length scopes.now }
    ensures holder { option_map spec.scope_number result ≡
        spec.holder scopes.now (Some scope.number) name.now }
    ensures within { IfSome result (λ s. s.number < length scopes.now) }
    ensures named { IfSome result (λ s.
        is_some (value_bound name.now (spec.names_in scopes.now s.number)) ≡ true) }
{
    let mut at = scope;
    loop {
        let here = &scopes[at.number as usize];
        if here.names.get(name).is_some() {
            return Some(at);
        }
        match here.parent {
            Some(parent) => at = parent,
            None => return None,
        }
    }
}

// Gives a value to a name of the scope.
pub(crate) fn name_scope(
    scopes: &mut Vec<Scope>,
    scope: ScopeId,
    name: &JText,
    value: Value,
) -> Result<(), NoMemory>
    requires { scope.number < length scopes.old.items }
    ensures ok { OnOk result (scopes.new.items ≡
        spec.named_in scopes.old.items scope.number name.now value) }
    ensures err { OnErr result (scopes.new.items ≡ scopes.old.items) }
{
    scopes[scope.number as usize].names.put(name, value)
}

// Gives another value to a name that the scope has.
pub(crate) fn rename(scopes: &mut Vec<Scope>, scope: ScopeId, name: &JText, value: Value)
    requires there { scope.number < length scopes.old.items }
    requires named { is_some (value_bound name.now
        (spec.names_in scopes.old.items scope.number)) ≡ true }
    ensures { scopes.new.items ≡ spec.named_in scopes.old.items scope.number name.now value }
{
    scopes[scope.number as usize]
        .names
        .replace(name.as_slice(), value);
}
