// Operands that are values, frames, and what stands above frames that wait.
ghost use Rattle.std.specs.Prelude.{◌≡◌, ◌++◌, ◌∷◌, [], None, List, OnOk, IfOk};
ghost use Rattle.js_value.specs.declared.value.Value.{Value as Held};
ghost use Rattle.js_value.specs.declared.value.Value.TheVariants.{Undefined};
ghost use Rattle.js_heap.specs.Closed.{IsThere};
ghost use Rattle.js_heap.specs.World.{World};
ghost use Rattle.js_host.specs.There.{AreThere};
ghost use Rattle.js_stmt.specs.CodeRows.{completion_names};
ghost use Rattle.js_term.specs.Place.Place.{At};
ghost use Rattle.js_term.specs.Term.Term.{Stop, Val};
ghost use Rattle.js_term.specs.declared.operands.Operand.TheVariants as operand;
ghost use Rattle.js_tree.specs.TreeAt.{tree_at};
ghost use Rattle.js_rows.specs.Syntax.{term_at};
ghost use Rattle.js_frames.specs.Arenas.{Arenas, arena_of};
ghost use Rattle.js_frames.specs.Soundness.{contexts_of};
ghost use Rattle.js_frames.specs.declared.frame.Work.TheVariants as works;
ghost use Rattle.js_moves.specs.inner.Places.{MayRest, MayWait, Puts, Stands, frame_term};

use js_frames::{Focus, Frame, Site, Stack, Texts, Work};
use js_operands::{Phase, add_value};
use js_term::{Completion, Operand, Operands};
use js_tree::NodeId;
use js_value::Value;
use mug_text::NoMemory;
use std::alloc::Global;

/// More operands that are values.
pub fn push_values(operands: &mut Operands, values: &[Value]) -> Result<(), NoMemory>
    requires { operands.old.todo ≡ [] }
    ensures { OnOk result (operands.new
        ≡ record { done = operands.old.done ++ values.now; todo = [] }) }
{
    for value in values {
        add_value(operands, value.copy()?)?;
    }
    Ok(())
}

/// Operands that are values.
pub fn valued(alloc: Global, values: &[Value]) -> Result<Operands, NoMemory>
    ensures { IfOk result (λ e. e ≡ record { done = values.now; todo = [] }) }
{
    let mut operands = Operands::new(alloc);
    push_values(&mut operands, values)?;
    Ok(operands)
}

/// These values, and one operand to come, for which a frame waits.
pub fn awaiting(alloc: Global, values: &[Value]) -> Result<Operands, NoMemory>
    ensures { IfOk result (λ e. e
        ≡ record { done = values.now; todo = operand.Value Undefined ∷ [] }) }
{
    let mut operands = valued(alloc, values)?;
    operands.push(Operand::Value(Value::Undefined))?;
    Ok(operands)
}

/// An expression in a phase.
pub fn expression_frame<D>(site: Option<Site>, phase: Phase, operands: Operands) -> Frame<D>
    ensures { result ≡ record {
      site = site;
      work = works.Expression phase;
      operands = operands;
      contexts = None;
    } }
{
    Frame {
        site,
        work: Work::Expression(phase),
        operands,
        contexts: None,
    }
}

/// A frame of the host.
pub fn form_frame<D>(work: Work<D>, operands: Operands) -> Frame<D>
    ensures { result ≡ record { site = None; work = work; operands = operands; contexts = None } }
{
    Frame {
        site: None,
        work,
        operands,
        contexts: None,
    }
}

/// On the heap.
pub fn boxed<T: Drop>(alloc: Global, value: T) -> Result<Box<T>, NoMemory>
    ensures { IfOk result (λ b. b.value ≡ value) }
{
    match Box::new(alloc, value) {
        Ok(value) => Ok(value),
        Err(_) => Err(NoMemory),
    }
}

/// A value stands above the frames.
pub fn put_value<D: Drop>(stack: &mut Stack<D>, value: Value)
    ensures { (dispatched : D → List Held) (ts : Arenas) (w : World) →
        Stands dispatched ts w stack.old.frames.items stack.old → IsThere w value →
        Puts dispatched ts w stack.old.base stack.old.frames.items (Val value) stack.new }
{
    stack.set_focus(Focus::Value(value));
}

/// A completion stands above the frames.
pub fn put_completion<D: Drop>(stack: &mut Stack<D>, completion: Completion)
    ensures { (dispatched : D → List Held) (ts : Arenas) (w : World) →
        Stands dispatched ts w stack.old.frames.items stack.old →
        AreThere w (completion_names completion []) →
        Puts dispatched ts w stack.old.base stack.old.frames.items (Stop completion) stack.new }
{
    stack.set_focus(Focus::Abrupt(completion));
}

/// A part of a text stands above the frames.
pub fn put_part<D: Drop>(
    alloc: Global,
    stack: &mut Stack<D>,
    texts: &Texts,
    text: u32,
    node: NodeId,
) -> Result<(), NoMemory>
    ensures { (dispatched : D → List Held) (w : World) →
        Stands dispatched texts.now w stack.old.frames.items stack.old →
        OnOk result (Puts dispatched texts.now w stack.old.base stack.old.frames.items
        (term_at (At text 0) (tree_at (arena_of texts.now text) node)) stack.new) }
{
    let _texts = texts.count();
    stack.begin(alloc, texts, Site { text, node }, node)
}

/// A frame rests above the frames.
pub fn put_frame<D: Drop>(stack: &mut Stack<D>, frame: Frame<D>) -> Result<(), NoMemory>
    ensures { (dispatched : D → List Held) (ts : Arenas) (w : World) →
        Stands dispatched ts w stack.old.frames.items stack.old →
        MayRest dispatched ts w stack.old.context frame →
        OnOk result (Puts dispatched ts w stack.old.base stack.old.frames.items
        (frame_term ts frame) stack.new) }
{
    stack.rest(frame)
}

/// A frame that has no contexts waits above the frames, for its next operand.
pub fn put_waiting<D: Drop>(stack: &mut Stack<D>, frame: Frame<D>) -> Result<(), NoMemory>
    ensures frames { OnOk result
        (stack.new.frames.items ≡ stack.old.frames.items ++ frame ∷ []) }
    ensures stands { (dispatched : D → List Held) (ts : Arenas) (w : World) →
        Stands dispatched ts w stack.old.frames.items stack.old → contexts_of frame ≡ None →
        MayWait dispatched ts w stack.old.context frame →
        OnOk result (Stands dispatched ts w stack.new.frames.items stack.new) }
    ensures base { stack.new.base ≡ stack.old.base }
    ensures context { stack.new.context ≡ stack.old.context }
{
    stack.rest(frame)
}
