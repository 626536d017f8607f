// What the steps of statements make of the last frame.
ghost use Rattle.std.specs.Prelude.{◌≡◌, ℕ, ◌++◌, ◌∷◌, [], List, Option, None, Some, OnOk, IfOk};
ghost use Rattle.std.specs.Option.{option_map};
ghost use Rattle.js_value.specs.declared.value.Value.{Value as Held};
ghost use Rattle.js_heap.specs.World.{World};
ghost use Rattle.js_host.specs.Names.{option_names};
ghost use Rattle.js_host.specs.There.{AreThere};
ghost use Rattle.js_operands.specs.ExprMoves.{operand_names};
ghost use Rattle.js_stmt.specs.Lent.{kept_over as held_over};
ghost use Rattle.js_stmt.specs.NodeRows.{kept_object as object_kept};
ghost use Rattle.js_stmt.specs.declared.stmt_move.StmtMove.TheVariants as moves;
ghost use Rattle.js_term.specs.declared.context.Context.{Context as At};
ghost use Rattle.js_frames.specs.Arenas.{Arenas};
ghost use Rattle.js_frames.specs.Names.{ContextIsThere, names_kept};
ghost use Rattle.js_frames.specs.Reading.{last};
ghost use Rattle.js_frames.specs.Soundness.{HasNode};
ghost use Rattle.js_frames.specs.declared.frame.Frame.{Frame as OneFrame};
ghost use Rattle.js_moves.specs.inner.Places.{Puts, Stands};
ghost use Rattle.js_moves.specs.inner.StmtPlaces.{IsBody, LastMoves, Moves, body_term, in_phase};
ghost use Rattle.js_moves.specs.inner.StmtPlaces.{keeping, moved_contexts, moved_work, text_at};
ghost use Rattle.js_moves.specs.inner.StmtPlaces.{phase_contexts as contexts_in};

use crate::parts::{boxed, put_part};
use js_frames::{Contexts, Frame, Site, Stack, StmtState, Texts, Work, copied_context};
use js_heap::ScopeId;
use js_stmt::{StmtKept, StmtMove, StmtPhase};
use js_term::{Completion, Context, Operands};
use js_tree::NodeId;
use js_value::Value;
use mug_text::{JText, Listed, NoMemory};
use std::alloc::Global;

// The contexts of a catch that runs in this scope.
fn catch_contexts(
    alloc: Global,
    context: &Context,
    scope: ScopeId,
) -> Result<Box<Contexts>, NoMemory>
    ensures { IfOk result (λ b. b.value ≡ record {
      inner = record { text = context.now.text; scope = Some scope; this = context.now.this };
      outer = context.now;
    }) }
{
    let outer = copied_context(context)?;
    let inner = Context {
        text: context.text,
        scope: Some(scope),
        this: context.this.copy()?,
    };
    boxed(alloc, Contexts { inner, outer })
}

// The contexts of a statement in a phase.
fn phase_contexts(
    alloc: Global,
    context: &Context,
    phase: StmtPhase,
) -> Result<Option<Box<Contexts>>, NoMemory>
    ensures { IfOk result (λ b. option_map (λ x. x.value) b ≡ contexts_in phase context.now) }
{
    match phase {
        StmtPhase::Catch(scope) => Ok(Some(catch_contexts(alloc, context, scope)?)),
        _ => Ok(None),
    }
}

// A statement in another phase.
fn set_phase<D>(work: &mut Work<D>, phase: StmtPhase)
    ensures { work.new ≡ in_phase phase work.old }
{
    if let Work::Statement(state, _) = work {
        state.phase = phase;
    }
}

// A statement in another phase, which keeps this.
fn set_kept<D>(work: &mut Work<D>, phase: StmtPhase, kept: StmtKept)
    ensures { work.new ≡ keeping phase kept work.old }
{
    if let Work::Statement(state, old) = work {
        state.phase = phase;
        *old = kept;
    }
}

// The last frame's statement goes on in another phase, in these contexts.
fn move_last<D>(frames: &mut Vec<Frame<D>>, phase: StmtPhase, contexts: Option<Box<Contexts>>)
    ensures { (c : At) (f : OneFrame D) → last frames.old.items ≡ Some f →
        option_map (λ x. x.value) contexts ≡ contexts_in phase c →
        LastMoves c (moves.GoesOn phase) f frames.old.items frames.new.items }
{
    if let Some(frame) = frames.last_mut() {
        set_phase(&mut frame.work, phase);
        frame.contexts = contexts;
    }
}

// The last frame's statement goes on in another phase, and keeps what it kept.
fn go_on<D: Drop>(alloc: Global, stack: &mut Stack<D>, phase: StmtPhase) -> Result<(), NoMemory>
    ensures { (dispatched : D → List Held) (ts : Arenas) (w : World) → OnOk result
        (Moves dispatched ts w stack.old (moves.GoesOn phase) stack.new) }
{
    let contexts = phase_contexts(alloc, &stack.context, phase)?;
    move_last(&mut stack.frames, phase, contexts);
    Ok(())
}

// The last frame's statement goes on in another phase, and keeps this.
fn keep_last<D>(frames: &mut Vec<Frame<D>>, phase: StmtPhase, kept: StmtKept)
    ensures { (c : At) (m : StmtMove) (f : OneFrame D) → last frames.old.items ≡ Some f →
        keeping phase kept f.work ≡ moved_work m f.work → moved_contexts m c ≡ None →
        LastMoves c m f frames.old.items frames.new.items }
{
    if let Some(frame) = frames.last_mut() {
        set_kept(&mut frame.work, phase, kept);
        frame.contexts = None;
    }
}

// A for-in goes on with these names of a value.
fn go_on_names<D: Drop>(stack: &mut Stack<D>, object: Value, names: Listed<JText>)
    ensures { (dispatched : D → List Held) (ts : Arenas) (w : World) →
        Moves dispatched ts w stack.old (moves.Names object names) stack.new }
{
    let kept = StmtKept::Names { object, names };
    keep_last(&mut stack.frames, StmtPhase::Names(0), kept);
}

// What is kept over `finally`.
fn kept_over(kept: Option<Completion>) -> StmtKept
    ensures { result ≡ held_over kept }
{
    match kept {
        Some(completion) => StmtKept::Completion(completion),
        None => StmtKept::Nothing,
    }
}

// A try goes on in its `finally`, with the completion that is kept.
fn go_on_finally<D: Drop>(stack: &mut Stack<D>, kept: Option<Completion>)
    ensures { (dispatched : D → List Held) (ts : Arenas) (w : World) →
        Moves dispatched ts w stack.old (moves.Finally kept) stack.new }
{
    keep_last(&mut stack.frames, StmtPhase::Finally, kept_over(kept));
}

// The text of the last frame's node.
fn last_text<D>(frames: &[Frame<D>]) -> u32
    ensures { (f : OneFrame D) → last frames.now ≡ Some f → result ≡ text_at f.site }
{
    match frames.last() {
        Some(frame) => match frame.site {
            Some(site) => site.text,
            None => 0,
        },
        None => 0,
    }
}

// A part of the text stands in the last frame's place.
fn become_part<D: Drop>(
    alloc: Global,
    stack: &mut Stack<D>,
    texts: &Texts,
    node: NodeId,
) -> Result<(), NoMemory>
    ensures { (dispatched : D → List Held) (w : World) → OnOk result
        (Moves dispatched texts.now w stack.old (moves.Becomes (Some node)) stack.new) }
{
    let text = last_text(&stack.frames);
    stack.leave();
    put_part(alloc, stack, texts, text, node)
}

// A part of the text, or nothing, stands in the last frame's place.
fn become_perhaps<D: Drop>(
    alloc: Global,
    stack: &mut Stack<D>,
    texts: &Texts,
    part: Option<NodeId>,
) -> Result<(), NoMemory>
    ensures { (dispatched : D → List Held) (w : World) → OnOk result
        (Moves dispatched texts.now w stack.old (moves.Becomes part) stack.new) }
{
    match part {
        Some(node) => become_part(alloc, stack, texts, node),
        None => {
            stack.give(Value::Undefined);
            Ok(())
        }
    }
}

/// What a move of the last frame, which rests over the operands that its step has left, makes of it.
pub fn move_statement<D: Drop>(
    alloc: Global,
    stack: &mut Stack<D>,
    texts: &Texts,
    step: StmtMove,
) -> Result<(), NoMemory>
    ensures { (dispatched : D → List Held) (w : World) →
        OnOk result (Moves dispatched texts.now w stack.old step stack.new) }
{
    match step {
        StmtMove::Finished => stack.give(Value::Undefined),
        StmtMove::Value(value) => stack.give(value),
        StmtMove::Abrupt(completion) => stack.stop(completion),
        StmtMove::Becomes(part) => return become_perhaps(alloc, stack, texts, part),
        StmtMove::GoesOn(phase) => return go_on(alloc, stack, phase),
        StmtMove::Names { object, names } => go_on_names(stack, object, names),
        StmtMove::Finally(kept) => go_on_finally(stack, kept),
    }
    Ok(())
}

// The object that `new` made, where it did.
fn kept_object(made: Option<Value>) -> StmtKept
    ensures same { object_kept result ≡ made }
    ensures names { names_kept result [] ≡ option_names made [] }
{
    match made {
        Some(object) => StmtKept::Made(object),
        None => StmtKept::Nothing,
    }
}

// The frame of a body.
fn body_frame<D>(
    site: Site,
    contexts: Box<Contexts>,
    made: Option<Value>,
    operands: Operands,
) -> Frame<D>
    ensures { IsBody site contexts.value made operands result }
{
    let state = StmtState {
        phase: StmtPhase::Body,
        outermost: site.node,
    };
    Frame {
        site: Some(site),
        work: Work::Statement(state, kept_object(made)),
        operands,
        contexts: Some(contexts),
    }
}

/// The body of the function at a node comes to rest above the frames, over its statements, in this
/// context; `new` made this object.
pub fn enter_body<D: Drop>(
    alloc: Global,
    stack: &mut Stack<D>,
    site: Site,
    inner: Context,
    made: Option<Value>,
    operands: Operands,
) -> Result<(), NoMemory>
    ensures { (dispatched : D → List Held) (ts : Arenas) (w : World) →
        Stands dispatched ts w stack.old.frames.items stack.old → HasNode ts (Some site) →
        AreThere w (option_names made []) → AreThere w (operand_names operands []) →
        ContextIsThere w inner →
        OnOk result (Puts dispatched ts w stack.old.base stack.old.frames.items
        (body_term ts site inner made operands) stack.new) }
{
    let outer = copied_context(&stack.context)?;
    let contexts = boxed(alloc, Contexts { inner, outer })?;
    stack.rest(body_frame(site, contexts, made, operands))
}
