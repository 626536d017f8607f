// What the step of an expression leaves in its frame's place.
ghost use Rattle.std.specs.Prelude.{◌≡◌, ◌++◌, ◌∷◌, [], List, Some, OnOk};
ghost use Rattle.js_value.specs.declared.value.Value.{Value as Held};
ghost use Rattle.js_heap.specs.Closed.{IsThere};
ghost use Rattle.js_heap.specs.World.{World};
ghost use Rattle.js_host.specs.There.{AreThere};
ghost use Rattle.js_operands.specs.ExprMoves.{conversion_as, conversion_names};
ghost use Rattle.js_term.specs.Term.Term.{Stop, Val};
ghost use Rattle.js_term.specs.declared.completion.Completion.TheVariants.{Throw};
ghost use Rattle.js_frames.specs.Arenas.{Arenas};
ghost use Rattle.js_frames.specs.Reading.{last};
ghost use Rattle.js_frames.specs.declared.frame.Focus.TheVariants as focus;
ghost use Rattle.js_frames.specs.declared.frame.Frame.{Frame as OneFrame};
ghost use Rattle.js_frames.specs.inner.Advances.{front};
ghost use Rattle.js_frames.specs.Soundness.{HasNode};
ghost use Rattle.js_moves.specs.inner.ExprPlaces.{MayConvert, MayMove, awaiting_term, behind};
ghost use Rattle.js_moves.specs.inner.ExprPlaces.{in_phase, move_term, part_term};
ghost use Rattle.js_moves.specs.inner.Places.{Puts, Stands};
ghost use Rattle.js_moves.specs.inner.Terms.{conversion_term, expression_place};

use crate::conversions::put_conversion;
use crate::parts::{put_completion, put_part, put_value};
use js_frames::{Focus, Frame, Site, Stack, Texts, Work};
use js_operands::{Conversion, ExprMove, Phase};
use js_term::Completion;
use js_tree::NodeId;
use js_value::Value;
use mug_text::NoMemory;
use std::alloc::Global;

// The last frame goes on in another phase.
fn set_phase<D: Drop>(frames: &mut Vec<Frame<D>>, phase: Phase)
    ensures { (f : OneFrame D) → last frames.old.items ≡ Some f
        → frames.new.items ≡ front frames.old.items ++ in_phase f phase ∷ [] }
{
    if let Some(frame) = frames.last_mut() {
        frame.work = Work::Expression(phase);
    }
}

// The last frame rests, in another phase.
fn go_on<D: Drop>(stack: &mut Stack<D>, phase: Phase)
    ensures frames { (f : OneFrame D) → last stack.old.frames.items ≡ Some f
        → stack.new.frames.items ≡ front stack.old.frames.items ++ in_phase f phase ∷ [] }
    ensures focus { stack.new.focus ≡ focus.Resting }
    ensures context { stack.new.context ≡ stack.old.context }
    ensures base { stack.new.base ≡ stack.old.base }
{
    set_phase(&mut stack.frames, phase);
    stack.set_focus(Focus::Resting);
}

// The same where there is another phase.
fn go_on_in<D: Drop>(stack: &mut Stack<D>, phase: Option<Phase>)
    ensures frames { (f : OneFrame D) → last stack.old.frames.items ≡ Some f
        → stack.new.frames.items ≡ front stack.old.frames.items ++ behind f phase ∷ [] }
    ensures context { stack.new.context ≡ stack.old.context }
    ensures base { stack.new.base ≡ stack.old.base }
{
    if let Some(phase) = phase {
        go_on(stack, phase);
    }
}

// A value stands in the last frame's place.
fn give<D: Drop>(stack: &mut Stack<D>, value: Value)
    ensures { (dispatched : D → List Held) (ts : Arenas) (w : World) →
        Stands dispatched ts w (front stack.old.frames.items) stack.old → IsThere w value →
        Puts dispatched ts w stack.old.base (front stack.old.frames.items) (Val value) stack.new }
{
    stack.leave();
    put_value(stack, value);
}

// A throw does.
fn throw<D: Drop>(stack: &mut Stack<D>, value: Value)
    ensures { (dispatched : D → List Held) (ts : Arenas) (w : World) →
        Stands dispatched ts w (front stack.old.frames.items) stack.old → IsThere w value →
        Puts dispatched ts w stack.old.base (front stack.old.frames.items) (Stop (Throw value))
        stack.new }
{
    stack.leave();
    put_completion(stack, Completion::Throw(value));
}

// A part of the site's text does, where it has one.
fn become_part<D: Drop>(
    alloc: Global,
    stack: &mut Stack<D>,
    texts: &Texts,
    site: Option<Site>,
    node: NodeId,
) -> Result<(), NoMemory>
    ensures { (dispatched : D → List Held) (w : World) →
        Stands dispatched texts.now w (front stack.old.frames.items) stack.old →
        OnOk result (Puts dispatched texts.now w stack.old.base (front stack.old.frames.items)
        (part_term texts.now site node) stack.new) }
{
    stack.leave();
    match site {
        Some(site) => put_part(alloc, stack, texts, site.text, node),
        None => {
            put_value(stack, Value::Undefined);
            Ok(())
        }
    }
}

// A conversion does.
fn convert<D: Drop>(
    alloc: Global,
    stack: &mut Stack<D>,
    site: Option<Site>,
    conversion: Conversion,
) -> Result<(), NoMemory>
    ensures { (dispatched : D → List Held) (ts : Arenas) (w : World) →
        Stands dispatched ts w (front stack.old.frames.items) stack.old → HasNode ts site →
        AreThere w (conversion_names conversion []) →
        OnOk result (Puts dispatched ts w stack.old.base (front stack.old.frames.items)
        (conversion_term (expression_place ts site) (conversion_as conversion)) stack.new) }
{
    stack.leave();
    put_conversion(alloc, stack, site, conversion)
}

// The last frame, in another phase where there is one, waits for its next operand, which is in
// conversion.
fn await_conversion<D: Drop>(
    alloc: Global,
    stack: &mut Stack<D>,
    site: Option<Site>,
    phase: Option<Phase>,
    conversion: Conversion,
) -> Result<(), NoMemory>
    ensures { (dispatched : D → List Held) (ts : Arenas) (w : World) (f : OneFrame D) →
        last stack.old.frames.items ≡ Some f → f.site ≡ site →
        Stands dispatched ts w (front stack.old.frames.items) stack.old →
        MayConvert dispatched ts w stack.old.context (behind f phase) conversion →
        OnOk result (Puts dispatched ts w stack.old.base (front stack.old.frames.items)
        (awaiting_term ts (behind f phase) conversion) stack.new) }
{
    go_on_in(stack, phase);
    put_conversion(alloc, stack, site, conversion)
}

/// What the step of the last frame, an expression at this site, leaves in its place or above it. A
/// call leaves nothing of its own: it is made.
pub fn put_move<D: Drop>(
    alloc: Global,
    stack: &mut Stack<D>,
    texts: &Texts,
    site: Option<Site>,
    step: ExprMove,
) -> Result<(), NoMemory>
    ensures { (dispatched : D → List Held) (w : World) (f : OneFrame D) →
        last stack.old.frames.items ≡ Some f → f.site ≡ site →
        Stands dispatched texts.now w (front stack.old.frames.items) stack.old →
        MayMove dispatched texts.now w stack.old.context f step →
        OnOk result (Puts dispatched texts.now w stack.old.base (front stack.old.frames.items)
        (move_term texts.now f step) stack.new) }
{
    match step {
        ExprMove::Value(value) => give(stack, value),
        ExprMove::Throws(value) => throw(stack, value),
        ExprMove::Becomes(node) => return become_part(alloc, stack, texts, site, node),
        ExprMove::Converting(conversion) => return convert(alloc, stack, site, conversion),
        ExprMove::GoesOn(phase) => go_on(stack, phase),
        ExprMove::Converts(phase, conversion) => {
            return await_conversion(alloc, stack, site, phase, conversion);
        }
        ExprMove::Calls { .. } => return Err(NoMemory),
    }
    Ok(())
}
