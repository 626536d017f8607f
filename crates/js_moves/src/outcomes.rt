// What natives come to, and what they enter.
ghost use Rattle.std.specs.Prelude.{◌≡◌, [], true, List, OnOk};
ghost use Rattle.js_value.specs.declared.value.Value.{Value as Held};
ghost use Rattle.js_heap.specs.World.{World};
ghost use Rattle.js_host.specs.Asking.{goes_on};
ghost use Rattle.js_host.specs.Names.{callback_names, outcome_names, resume_names};
ghost use Rattle.js_host.specs.There.{AreThere};
ghost use Rattle.js_rows.specs.Hosted.{entered, waits};
ghost use Rattle.js_frames.specs.Arenas.{Arenas};
ghost use Rattle.js_moves.specs.inner.FormPlaces.{PutsOutcome};
ghost use Rattle.js_moves.specs.inner.Places.{Puts, Stands};

use crate::calls::{enter_conversion, put_call};
use crate::forms::put_form;
use crate::parts::{awaiting, boxed, form_frame, put_completion, put_value, put_waiting};
use js_frames::{Stack, Work};
use js_host::{Callback, Outcome, Resume};
use js_term::Completion;
use js_value::Value;
use mug_text::NoMemory;
use std::alloc::Global;

/// What a native enters stands above the frames.
pub fn enter_callback<D: Drop>(
    alloc: Global,
    stack: &mut Stack<D>,
    callback: Callback,
) -> Result<(), NoMemory>
    ensures { (dispatched : D → List Held) (ts : Arenas) (w : World) →
        Stands dispatched ts w stack.old.frames.items stack.old →
        AreThere w (callback_names callback []) →
        OnOk result (Puts dispatched ts w stack.old.base stack.old.frames.items
        (entered callback) stack.new) }
{
    match callback {
        Callback::Call { f, this, args } => {
            put_call(alloc, stack, None, f, this, args.as_slice())
        }
        Callback::Dispatch(at) => put_form(alloc, stack, Work::Begin(at)),
        Callback::Convert { text, value } => enter_conversion(alloc, stack, text, value),
    }
}

/// A native waits for its callback, above the frames.
pub fn put_wait<D: Drop>(
    alloc: Global,
    stack: &mut Stack<D>,
    callback: Callback,
    point: Resume,
) -> Result<(), NoMemory>
    ensures { (dispatched : D → List Held) (ts : Arenas) (w : World) →
        Stands dispatched ts w stack.old.frames.items stack.old →
        AreThere w (callback_names callback (resume_names point [])) →
        OnOk result (Puts dispatched ts w stack.old.base stack.old.frames.items
        (waits callback point) stack.new) }
{
    let point = boxed(alloc, point)?;
    let operands = awaiting(alloc, &[])?;
    put_waiting(stack, form_frame(Work::Native(point), operands))?;
    enter_callback(alloc, stack, callback)
}

/// What a native comes to stands above the frames. There is no memory for a question, which only a
/// call may ask.
pub fn put_outcome<D: Drop>(
    alloc: Global,
    stack: &mut Stack<D>,
    outcome: Outcome,
) -> Result<(), NoMemory>
    ensures goes_on { OnOk result (goes_on outcome ≡ true) }
    ensures puts { (dispatched : D → List Held) (ts : Arenas) (w : World) →
        Stands dispatched ts w stack.old.frames.items stack.old →
        AreThere w (outcome_names outcome []) →
        OnOk result (PutsOutcome dispatched ts w stack.old.base stack.old.frames.items
        stack.new outcome) }
{
    match outcome {
        Outcome::Value(value) => {
            put_value(stack, value);
            Ok(())
        }
        Outcome::Throw(value) => {
            put_completion(stack, Completion::Throw(value));
            Ok(())
        }
        Outcome::Enter(callback, point) => put_wait(alloc, stack, callback, point),
        Outcome::Needs(_) => Err(NoMemory),
        Outcome::NoMemory => Err(NoMemory),
    }
}
