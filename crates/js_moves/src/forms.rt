// Forms that no text has: what stands in their places.
ghost use Rattle.std.specs.Prelude.{◌≡◌, [], Some, List, OnOk};
ghost use Rattle.js_value.specs.declared.value.Value.{Value as Held};
ghost use Rattle.js_heap.specs.World.{World};
ghost use Rattle.js_host.specs.Names.{next_names};
ghost use Rattle.js_host.specs.There.{AreThere};
ghost use Rattle.js_host.specs.declared.call.NextCall.TheVariants as next_call;
ghost use Rattle.js_term.specs.Term.Terms.{Nil};
ghost use Rattle.js_rows.specs.Forms.{Form};
ghost use Rattle.js_rows.specs.Hosted.{form};
ghost use Rattle.js_frames.specs.Arenas.{Arenas};
ghost use Rattle.js_frames.specs.Names.{work_names};
ghost use Rattle.js_moves.specs.inner.FormPlaces.{form_of, next_term};
ghost use Rattle.js_moves.specs.inner.Places.{Puts, Stands};

use crate::calls::put_call;
use crate::parts::{awaiting, form_frame, put_frame, put_value, put_waiting};
use js_frames::{Stack, Work};
use js_host::NextCall;
use js_term::Operands;
use js_value::{ObjId, Value};
use mug_text::NoMemory;
use std::alloc::Global;

/// A form without operands stands above the frames.
pub fn put_form<D: Drop>(alloc: Global, stack: &mut Stack<D>, work: Work<D>) -> Result<(), NoMemory>
    ensures { (dispatched : D → List Held) (ts : Arenas) (w : World) (x : Form D) →
        Stands dispatched ts w stack.old.frames.items stack.old → form_of work ≡ Some x →
        AreThere w (work_names dispatched work []) →
        OnOk result (Puts dispatched ts w stack.old.base stack.old.frames.items
        (form x Nil) stack.new) }
{
    put_frame(stack, form_frame(work, Operands::new(alloc)))
}

// A dispatch waits for the call of its listener.
fn put_listener<D: Drop>(
    alloc: Global,
    stack: &mut Stack<D>,
    dispatch: D,
    f: Value,
    this: Value,
    event: ObjId,
) -> Result<(), NoMemory>
    ensures { (dispatched : D → List Held) (ts : Arenas) (w : World) →
        Stands dispatched ts w stack.old.frames.items stack.old →
        AreThere w (next_names (next_call.Call f this event) (dispatched dispatch)) →
        OnOk result (Puts dispatched ts w stack.old.base stack.old.frames.items
        (next_term dispatch (next_call.Call f this event)) stack.new) }
{
    let operands = awaiting(alloc, &[])?;
    put_waiting(stack, form_frame(Work::Dispatch(dispatch), operands))?;
    put_call(alloc, stack, None, f, this, &[Value::Ref(event)])
}

/// The next call of a dispatch stands above the frames, or its end.
pub fn put_next<D: Drop>(
    alloc: Global,
    stack: &mut Stack<D>,
    dispatch: D,
    next: NextCall,
) -> Result<(), NoMemory>
    ensures { (dispatched : D → List Held) (ts : Arenas) (w : World) →
        Stands dispatched ts w stack.old.frames.items stack.old →
        AreThere w (next_names next (dispatched dispatch)) →
        OnOk result (Puts dispatched ts w stack.old.base stack.old.frames.items
        (next_term dispatch next) stack.new) }
{
    match next {
        NextCall::Call { f, this, event } => {
            put_listener(alloc, stack, dispatch, f, this, event)
        }
        NextCall::End { kept } => {
            put_value(stack, Value::Bool(kept));
            Ok(())
        }
    }
}
