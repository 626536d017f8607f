// The moves of a stack that cost nothing.
ghost use Rattle.std.specs.Prelude.{◌≡◌, ◌<◌, ◌++◌, ◌∷◌, List, [], Option, Some, IfOk, OnOk, length};
ghost use Rattle.js_value.specs.declared.value.Value.{Value as Val};
ghost use Rattle.js_heap.specs.World.{World};
ghost use Rattle.js_tree.specs.Arena.{Arena};
ghost use Rattle.js_frames.specs.Begun.{begun_focus, begun_frames};
ghost use Rattle.js_frames.specs.Dues.{IsDue, due_of};
ghost use Rattle.js_frames.specs.Names.{StackIsThere};
ghost use Rattle.js_frames.specs.Reading.{last, term};
ghost use Rattle.js_frames.specs.Soundness.{HasNode, IsSound};
ghost use Rattle.js_frames.specs.declared.frame.Focus.TheVariants as focus;
ghost use Rattle.js_frames.specs.declared.frame.Frame.{Frame as OneFrame};
ghost use Rattle.js_frames.specs.inner.Advances.{Advanced, MovesBy, front, inner_in, is_labelled};
ghost use Rattle.js_frames.specs.inner.Advances.{move_of, node_in, outer_in, outermost_of, site_of};
ghost use Rattle.js_frames.specs.inner.Advances.{with_value};

use crate::due::Due;
use crate::frame::{Focus, Frame, Site, StmtState, Work};
use crate::rows::{is_early_next, is_free};
use crate::stack::Stack;
use crate::texts::Texts;
use js_stmt::StmtPhase;
use js_term::Operand;
use js_tree::{Node, NodeId};
use js_value::Value;
use mug_text::NoMemory;
use std::alloc::Global;

/// What a frame that rests does next: its row's step; it is finished without one; or its next
/// operand is a value, or begins.
#[derive(Drop)]
pub(crate) enum NextMove {
    Step,
    Finish,
    Take(Value),
    Begin(NodeId),
}

fn operand_move(operand: &Operand) -> Result<NextMove, NoMemory>
    ensures { IfOk result (λ m. m ≡ move_of operand.now) }
{
    match operand {
        Operand::Value(value) => Ok(NextMove::Take(value.copy()?)),
        Operand::Node(node) => Ok(NextMove::Begin(*node)),
    }
}

fn next_move<D>(frame: &Frame<D>, texts: &Texts) -> Result<NextMove, NoMemory>
    requires { HasNode texts.now frame.now.site }
    ensures { IfOk result (λ m. MovesBy texts.now frame.now m) }
{
    match frame.operands.next() {
        None => {
            if is_free(frame, texts) {
                Ok(NextMove::Finish)
            } else {
                Ok(NextMove::Step)
            }
        }
        Some(operand) => {
            if is_early_next(frame, texts) {
                return Ok(NextMove::Step);
            }
            operand_move(operand)
        }
    }
}

// What a frame's step is of.
fn due_of<D>(work: &Work<D>) -> Due
    ensures { result ≡ due_of work.now }
{
    match work {
        Work::Expression(phase) => Due::Expression(*phase),
        Work::Statement(state, _) => Due::Statement(*state),
        Work::Native(_) => Due::Native,
        Work::Begin(at) => Due::Begin(*at),
        Work::Fresh(_) => Due::Fresh,
        Work::Dispatch(_) => Due::Dispatch,
    }
}

// Whether a frame's node is a labelled statement, which begins.
fn is_labelled(texts: &Texts, site: Option<Site>, phase: StmtPhase) -> bool
    requires { HasNode texts.now site }
    ensures { result ≡ is_labelled (node_in texts.now site) phase }
{
    let Some(site) = site else {
        return false;
    };
    let Some(script) = texts.script(site.text) else {
        return false;
    };
    match phase {
        StmtPhase::Begun => match script.node(site.node) {
            Node::Labelled { .. } => true,
            _ => false,
        },
        _ => false,
    }
}

// The outermost labelled statement directly around an operand, or the operand itself.
fn outermost_around<D>(frame: &Frame<D>, texts: &Texts, node: NodeId) -> NodeId
    requires { HasNode texts.now frame.now.site }
    ensures { result ≡ outermost_of texts.now frame.now node }
{
    match &frame.work {
        Work::Statement(state, _) => {
            if is_labelled(texts, frame.site, state.phase) {
                state.outermost
            } else {
                node
            }
        }
        _ => node,
    }
}

// Where an operand stands.
fn operand_site<D>(frame: &Frame<D>, node: NodeId) -> Site
    ensures { (ts : List (Option Arena)) → result ≡ site_of ts frame.now node }
{
    match frame.site {
        Some(site) => Site {
            text: site.text,
            node,
        },
        None => Site { text: 0, node },
    }
}

impl<D: Drop> Stack<D> {
    // The last frame waits for its next operand, which begins.
    fn begin_next(
        &mut self,
        alloc: Global,
        texts: &Texts,
        site: Site,
        outermost: NodeId,
    ) -> Result<(), NoMemory>
        ensures frames { OnOk result (self.new.frames.items
            ≡ self.old.frames.items ++ begun_frames texts.now site outermost) }
        ensures focus { OnOk result (self.new.focus ≡ begun_focus texts.now site) }
        ensures context { (f : OneFrame D) → last self.old.frames.items ≡ Some f →
            OnOk result (self.new.context ≡ inner_in f self.old.context) }
        ensures base { self.new.base ≡ self.old.base }
    {
        self.wait()?;
        self.begin(alloc, texts, site, outermost)
    }

    // The last frame has the value that it has waited for, and rests.
    fn take_value(&mut self, value: Value) -> Result<(), NoMemory>
        requires { (f : OneFrame D) → last self.old.frames.items ≡ Some f
            → 0 < length f.operands.todo }
        ensures frames { (f : OneFrame D) → last self.old.frames.items ≡ Some f →
            OnOk result (self.new.frames.items
            ≡ front self.old.frames.items ++ with_value value f ∷ []) }
        ensures focus { OnOk result (self.new.focus ≡ focus.Resting) }
        ensures context { (f : OneFrame D) → last self.old.frames.items ≡ Some f →
            OnOk result (self.new.context ≡ outer_in f self.old.context) }
        ensures base { self.new.base ≡ self.old.base }
    {
        self.wake()?;
        self.take(value);
        Ok(())
    }

    // A free move of the last frame, which rests, or what it does next.
    fn advance_frame(&mut self, alloc: Global, texts: &Texts) -> Result<Option<Due>, NoMemory>
        requires sound { IsSound texts.now self.old }
        requires rests { self.old.focus ≡ focus.Resting }
        ensures { IfOk result (λ d. Advanced texts.now self.old self.new d) }
    {
        let _texts = texts.count();
        let Some(frame) = self.frames.last() else {
            return Ok(Some(Due::Ends));
        };
        match next_move(frame, texts)? {
            NextMove::Step => Ok(Some(due_of(&frame.work))),
            NextMove::Finish => {
                self.give(Value::Undefined);
                Ok(None)
            }
            NextMove::Take(value) => {
                self.take(value);
                Ok(None)
            }
            NextMove::Begin(node) => {
                let site = operand_site(frame, node);
                let outermost = outermost_around(frame, texts, node);
                self.begin_next(alloc, texts, site, outermost)?;
                Ok(None)
            }
        }
    }

    // A free move, or what is done next.
    fn advance(&mut self, alloc: Global, texts: &Texts) -> Result<Option<Due>, NoMemory>
        requires { IsSound texts.now self.old }
        ensures { IfOk result (λ d. Advanced texts.now self.old self.new d) }
    {
        let _texts = texts.count();
        match &self.focus {
            Focus::Resting => self.advance_frame(alloc, texts),
            Focus::Value(value) => {
                if self.frames.is_empty() {
                    return Ok(Some(Due::Ends));
                }
                let value = value.copy()?;
                self.take_value(value)?;
                Ok(None)
            }
            Focus::Abrupt(_) => {
                if self.frames.is_empty() {
                    return Ok(Some(Due::Ends));
                }
                Ok(Some(Due::Meets))
            }
        }
    }

    /// Makes the moves that cost nothing, up to what is due: the term that the stack stands for stays
    /// as it was.
    pub fn find_due(&mut self, alloc: Global, texts: &Texts) -> Result<Due, NoMemory>
        requires { IsSound texts.now self.old }
        ensures same { OnOk result (term texts.now self.new ≡ term texts.now self.old) }
        ensures sound { OnOk result (IsSound texts.now self.new) }
        ensures there { (dispatched : D → List Val) (w : World) → OnOk result
            (StackIsThere dispatched w self.old → StackIsThere dispatched w self.new) }
        ensures base { OnOk result (self.new.base ≡ self.old.base) }
        ensures due { IfOk result (λ d. IsDue texts.now self.new d) }
    {
        loop {
            if let Some(due) = self.advance(alloc, texts)? {
                return Ok(due);
            }
        }
    }
}
