// The calls of the small host.
ghost use Rattle.std.specs.Prelude.{◌↔◌, IsTrue};
ghost use Rattle.js_heap.specs.Closed.{IsThere};
ghost use Rattle.js_value.specs.declared.value.Value.TheVariants.{Ref};

use console_host::ConsoleHost;
use js_heap::{Heap, HeapFault, Root};
use js_host::{DispatchAt, Host, HostPut, NextCall, Outcome, Resume};
use js_value::{NativeId, ObjId, Value};
use mug_text::{JText, Listed, NoMemory};
use std::alloc::Global;
use written_text::written_text;

// What the answer of a resumed native is.
fn resumed(alloc: Global, heap: &mut Heap) -> Result<bool, NoMemory> {
    let mut host = ConsoleHost::new(alloc);
    let point = Resume {
        id: NativeId { number: 0 },
        stage: 0,
        kept: Listed::new(alloc),
    };
    match host.resume(heap, point, &Value::Null) {
        Outcome::Value(Value::Null) => Ok(true),
        _ => Err(NoMemory),
    }
}

// Whether the window has no property of the host's own, neither to read nor to write.
fn is_bare(alloc: Global, heap: &mut Heap, key: &JText) -> Result<bool, NoMemory> {
    let mut host = ConsoleHost::new(alloc);
    let window = heap.root(Root::Window);
    if host.get_own(heap, window, key)?.is_some() || host.is_handler(heap, window, key) {
        return Ok(false);
    }
    match host.put_own(heap, window, key, &Value::Null) {
        HostPut::NotHost => Ok(true),
        _ => Ok(false),
    }
}

// The event of a fresh dispatch, where it fits.
fn fresh(alloc: Global, heap: &mut Heap, kind: &JText) -> Result<Option<DispatchAt>, NoMemory> {
    let mut host = ConsoleHost::new(alloc);
    let window = heap.root(Root::Window);
    match host.fresh(heap, window, kind, true, true) {
        Ok(dispatch) => Ok(Some(dispatch)),
        Err(HeapFault::Full) => Ok(None),
        Err(HeapFault::NoMemory) => Err(NoMemory),
    }
}

fn is_here(heap: &Heap, object: ObjId) -> bool
    ensures { IsTrue result ↔ IsThere heap.now (Ref object) }
{
    heap.is_there(&Value::Ref(object))
}

// Whether a dispatch calls nothing and keeps its default.
fn ends(alloc: Global, heap: &mut Heap, at: &DispatchAt) -> Result<bool, NoMemory> {
    if !is_here(heap, at.target) || !is_here(heap, at.event) {
        return Ok(false);
    }
    let mut host = ConsoleHost::new(alloc);
    let mut dispatch = host.dispatch_start(heap, at)?;
    match host.dispatch_next(heap, &mut dispatch, None)? {
        NextCall::End { kept } => Ok(kept),
        NextCall::Call { .. } => Ok(false),
    }
}

/// What the calls give that the three rows don't make.
pub fn told(alloc: Global, heap: &mut Heap) -> Result<String, NoMemory> {
    let kind = written_text(alloc, "click")?;
    let Some(dispatch) = fresh(alloc, heap, &kind)? else {
        return Ok(String::from_str(alloc, "full")?);
    };
    let event = dispatch.event.number;
    let is_bare = is_bare(alloc, heap, &kind)?;
    let ends = ends(alloc, heap, &dispatch)?;
    let resumed = resumed(alloc, heap)?;
    Ok(format!(in alloc; "event {event}, bare {is_bare}, ends {ends}, resumed {resumed}")?)
}
