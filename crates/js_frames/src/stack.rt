// The stack: frames, of which each but the last waits for the first of its operands to come.
ghost use Rattle.std.specs.Prelude.{◌≡◌, ◌++◌, ◌∷◌, List, [], Option, None, Some, IfOk, OnOk, length, ◌<◌};
ghost use Rattle.js_frames.specs.Begun.{begun_focus, begun_frames, begun_work};
ghost use Rattle.js_frames.specs.Arenas.{arena_of};
ghost use Rattle.js_frames.specs.Reading.{last};
ghost use Rattle.js_frames.specs.inner.Advances.{front, inner_in, outer_in, with_value};
ghost use Rattle.js_operands.specs.ArenaRows.{row_in};
ghost use Rattle.js_operands.specs.declared.row.Phase.TheVariants as expr_phase;
ghost use Rattle.js_frames.specs.declared.frame.Frame.{Frame as OneFrame};
ghost use Rattle.js_term.specs.ArenaOperands.{begun_as};
ghost use Rattle.js_frames.specs.declared.frame.Focus.TheVariants as focus;
ghost use Rattle.js_frames.specs.Begun.{focus_by, frames_by};
ghost use Rattle.js_tree.specs.Arena.{Arena};

use crate::frame::{Focus, Frame, Site, StmtState, Work};
use crate::texts::Texts;
use js_operands::{Phase, expr_row_of};
use js_stmt::{StmtKept, StmtPhase};
use js_term::{Begun, Completion, Context, begin};
use js_tree::{NodeId, Script};
use js_value::Value;
use mug_text::NoMemory;
use std::alloc::Global;

/// Frames, what stands at their top, and the context there. What stands lowest is evaluated in the
/// base.
#[derive(Drop)]
pub struct Stack<D> {
    pub frames: Vec<Frame<D>>,
    pub focus: Focus,
    pub context: Context,
    pub base: Context,
}

/// An equal context.
pub fn copied_context(context: &Context) -> Result<Context, NoMemory>
    ensures { IfOk result (λ c. c ≡ context.now) }
{
    Ok(Context {
        text: context.text,
        scope: context.scope,
        this: context.this.copy()?,
    })
}

// The context of a frame's operands, where it has one of its own, and that around it.
fn inner_context<D>(frame: &Frame<D>, context: &mut Context) -> Result<(), NoMemory>
    ensures { OnOk result (context.new ≡ inner_in frame.now context.old) }
{
    if let Some(contexts) = &frame.contexts {
        *context = copied_context(&contexts.inner)?;
    }
    Ok(())
}

fn outer_context<D>(frame: &Frame<D>, context: &mut Context) -> Result<(), NoMemory>
    ensures { OnOk result (context.new ≡ outer_in frame.now context.old) }
{
    if let Some(contexts) = &frame.contexts {
        *context = copied_context(&contexts.outer)?;
    }
    Ok(())
}

// The last frame takes the value of its next operand.
fn take_last<D>(frames: &mut Vec<Frame<D>>, value: Value)
    requires { (f : OneFrame D) → last frames.old.items ≡ Some f → 0 < length f.operands.todo }
    ensures { (f : OneFrame D) → last frames.old.items ≡ Some f
        → frames.new.items ≡ front frames.old.items ++ with_value value f ∷ [] }
{
    if let Some(frame) = frames.last_mut() {
        frame.operands.take(value);
    }
}

// What a node that begins does.
fn begun_work<D>(script: &Script, node: NodeId, outermost: NodeId) -> Work<D>
    requires { node.number < length script.now.kept }
    ensures { result ≡ begun_work outermost (row_in script.now node expr_phase.Begun) }
{
    match expr_row_of(script, node, Phase::Begun) {
        Some(_) => Work::Expression(Phase::Begun),
        None => {
            let state = StmtState {
                phase: StmtPhase::Begun,
                outermost,
            };
            Work::Statement(state, StmtKept::Nothing)
        }
    }
}

impl<D: Drop> Stack<D> {
    /// Puts a value, a completion or nothing above the frames.
    pub fn set_focus(&mut self, focus: Focus)
        ensures frames { self.new.frames.items ≡ self.old.frames.items }
        ensures focus { self.new.focus ≡ focus }
        ensures context { self.new.context ≡ self.old.context }
        ensures base { self.new.base ≡ self.old.base }
    {
        self.focus = focus;
    }

    /// No frames, over a value, in this context.
    pub fn new(alloc: Global, base: Context) -> Result<Stack<D>, NoMemory>
        ensures frames { IfOk result (λ s. s.frames.items ≡ []) }
        ensures context { IfOk result (λ s. s.context ≡ base) }
        ensures base { IfOk result (λ s. s.base ≡ base) }
    {
        let context = copied_context(&base)?;
        Ok(Stack {
            frames: Vec::new(alloc),
            focus: Focus::Value(Value::Undefined),
            context,
            base,
        })
    }

    /// Puts a frame on top, which rests.
    pub fn rest(&mut self, frame: Frame<D>) -> Result<(), NoMemory>
        ensures frames { OnOk result
            (self.new.frames.items ≡ self.old.frames.items ++ frame ∷ []) }
        ensures focus { OnOk result (self.new.focus ≡ focus.Resting) }
        ensures context { self.new.context ≡ self.old.context }
        ensures base { self.new.base ≡ self.old.base }
    {
        match self.frames.push(frame) {
            Ok(()) => {
                self.set_focus(Focus::Resting);
                Ok(())
            }
            Err(_) => Err(NoMemory),
        }
    }

    /// Lets the last frame go.
    pub fn leave(&mut self)
        ensures frames { self.new.frames.items ≡ front self.old.frames.items }
        ensures focus { self.new.focus ≡ self.old.focus }
        ensures context { self.new.context ≡ self.old.context }
        ensures base { self.new.base ≡ self.old.base }
    {
        let _frame = self.frames.pop();
    }

    /// The last frame is gone, and a value stands in its place.
    pub fn give(&mut self, value: Value)
        ensures frames { self.new.frames.items ≡ front self.old.frames.items }
        ensures focus { self.new.focus ≡ focus.Value value }
        ensures context { self.new.context ≡ self.old.context }
        ensures base { self.new.base ≡ self.old.base }
    {
        self.leave();
        self.set_focus(Focus::Value(value));
    }

    /// The last frame is gone, and a completion stands in its place.
    pub fn stop(&mut self, completion: Completion)
        ensures frames { self.new.frames.items ≡ front self.old.frames.items }
        ensures focus { self.new.focus ≡ focus.Abrupt completion }
        ensures context { self.new.context ≡ self.old.context }
        ensures base { self.new.base ≡ self.old.base }
    {
        self.leave();
        self.set_focus(Focus::Abrupt(completion));
    }

    /// The last frame begins to wait: its operands are evaluated in its own context, where it has
    /// one.
    pub fn wait(&mut self) -> Result<(), NoMemory>
        ensures frames { self.new.frames.items ≡ self.old.frames.items }
        ensures focus { self.new.focus ≡ self.old.focus }
        ensures context { (f : OneFrame D) → last self.old.frames.items ≡ Some f →
            OnOk result (self.new.context ≡ inner_in f self.old.context) }
        ensures base { self.new.base ≡ self.old.base }
    {
        match self.frames.last() {
            Some(frame) => inner_context(frame, &mut self.context),
            None => Ok(()),
        }
    }

    /// The last frame has waited: it stands in the context around its own.
    pub fn wake(&mut self) -> Result<(), NoMemory>
        ensures frames { self.new.frames.items ≡ self.old.frames.items }
        ensures focus { self.new.focus ≡ self.old.focus }
        ensures context { (f : OneFrame D) → last self.old.frames.items ≡ Some f →
            OnOk result (self.new.context ≡ outer_in f self.old.context) }
        ensures base { self.new.base ≡ self.old.base }
    {
        match self.frames.last() {
            Some(frame) => outer_context(frame, &mut self.context),
            None => Ok(()),
        }
    }

    /// The last frame rests, with the value of its next operand.
    pub fn take(&mut self, value: Value)
        requires { (f : OneFrame D) → last self.old.frames.items ≡ Some f
            → 0 < length f.operands.todo }
        ensures frames { (f : OneFrame D) → last self.old.frames.items ≡ Some f
            → self.new.frames.items ≡ front self.old.frames.items ++ with_value value f ∷ [] }
        ensures focus { self.new.focus ≡ focus.Resting }
        ensures context { self.new.context ≡ self.old.context }
        ensures base { self.new.base ≡ self.old.base }
    {
        take_last(&mut self.frames, value);
        self.set_focus(Focus::Resting);
    }

    // What a node that is there has begun as comes on top.
    fn begin_as(
        &mut self,
        script: &Script,
        site: Site,
        outermost: NodeId,
        begun: Begun,
    ) -> Result<(), NoMemory>
        requires { site.node.number < length script.now.kept }
        ensures frames { (ts : List (Option Arena)) → arena_of ts site.text ≡ script.now →
            OnOk result (self.new.frames.items
            ≡ self.old.frames.items ++ frames_by ts site outermost begun) }
        ensures focus { OnOk result (self.new.focus ≡ focus_by begun) }
        ensures context { self.new.context ≡ self.old.context }
        ensures base { self.new.base ≡ self.old.base }
    {
        match begun {
            Begun::Value(value) => {
                self.set_focus(Focus::Value(value));
                Ok(())
            }
            Begun::Operands(operands) => self.rest(Frame {
                site: Some(site),
                work: begun_work(script, site.node, outermost),
                operands,
                contexts: None,
            }),
        }
    }

    // The same of a text's script.
    fn begin_node(
        &mut self,
        alloc: Global,
        script: &Script,
        site: Site,
        outermost: NodeId,
    ) -> Result<(), NoMemory>
        ensures frames { (ts : List (Option Arena)) → arena_of ts site.text ≡ script.now →
            OnOk result (self.new.frames.items
            ≡ self.old.frames.items ++ begun_frames ts site outermost) }
        ensures focus { OnOk result (self.new.focus ≡ focus_by (begun_as script.now site.node)) }
        ensures context { self.new.context ≡ self.old.context }
        ensures base { self.new.base ≡ self.old.base }
    {
        if site.node.number as usize >= script.count() {
            self.set_focus(Focus::Value(Value::Undefined));
            return Ok(());
        }
        let begun = begin(alloc, script, site.node)?;
        self.begin_as(script, site, outermost, begun)
    }

    /// A node of a text begins: its value, or its frame, comes on top. The labelled statement is the
    /// outermost one directly around it, or it itself.
    pub fn begin(
        &mut self,
        alloc: Global,
        texts: &Texts,
        site: Site,
        outermost: NodeId,
    ) -> Result<(), NoMemory>
        ensures frames { OnOk result (self.new.frames.items
            ≡ self.old.frames.items ++ begun_frames texts.now site outermost) }
        ensures focus { OnOk result (self.new.focus ≡ begun_focus texts.now site) }
        ensures context { self.new.context ≡ self.old.context }
        ensures base { self.new.base ≡ self.old.base }
    {
        match texts.script(site.text) {
            Some(script) => self.begin_node(alloc, script, site, outermost),
            None => {
                self.set_focus(Focus::Value(Value::Undefined));
                Ok(())
            }
        }
    }
}
