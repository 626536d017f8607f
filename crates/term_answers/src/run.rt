// Runs a text's last node by the three rows.
ghost use Rattle.std.specs.Prelude.{◌≡◌, false, IsTrue};
ghost use Rattle.js_heap.specs.Closed.{IsThere};
ghost use Rattle.js_host.specs.There.{AreThere};

use crate::lines::print_lines;
use crate::rows::{Row, row_of, step};
use console_host::{ConsoleHost, Line};
use js_heap::Heap;
use js_host::{Host, NativeCall, Order, Outcome};
use js_term::{
    Begun, CalledFunction, Completion, Move, Operand, Operands, begin, called_function, is_refused,
};
use js_tree::{NodeId, Script};
use js_value::{NativeId, Value};
use mug_text::{Listed, NoMemory};
use std::alloc::Global;

// A row with its operands.
#[derive(Drop)]
struct Frame {
    row: Row,
    operands: Operands,
}

// What stands at the top: a value, a completion, or a row whose next operand hasn't begun.
#[derive(Drop)]
enum Top {
    Value(Value),
    Abrupt(Completion),
    Resting(Frame),
}

/// A run: what it has left below its top, the steps that it has made, and what they printed.
#[derive(Drop)]
pub struct Run {
    frames: Vec<Frame>,
    steps: u32,
    printed: String,
}

fn nothing() -> Top {
    Top::Value(Value::Undefined)
}

// The node of a text, which has begun.
fn node_top(alloc: Global, script: &Script, id: NodeId) -> Result<Top, NoMemory> {
    if id.number as usize >= script.count() {
        return Ok(nothing());
    }
    match begin(alloc, script, id)? {
        Begun::Value(value) => Ok(Top::Value(value)),
        Begun::Operands(operands) => Ok(Top::Resting(Frame {
            row: row_of(script.node(id)),
            operands,
        })),
    }
}

fn operand_top(alloc: Global, script: &Script, operand: &Operand) -> Result<Top, NoMemory> {
    match operand {
        Operand::Value(value) => Ok(Top::Value(value.copy()?)),
        Operand::Node(id) => node_top(alloc, script, *id),
    }
}

fn is_missing(heap: &Heap, value: &Value) -> bool
    ensures { result ≡ false → IsThere heap.now value.now }
{
    !heap.is_there(value)
}

// Whether what these values name is there.
fn are_there(heap: &Heap, values: &[Value]) -> bool
    ensures { IsTrue result → AreThere heap.now values.now }
{
    for value in values {
        if is_missing(heap, value) {
            return false;
        }
    }
    true
}

// The lines that a native keeps, and what it comes to.
#[tactic(auto, using(crate::proofs::There::call_there))]
fn called(
    alloc: Global,
    heap: &mut Heap,
    id: NativeId,
    call: &NativeCall,
) -> (Outcome, Listed<Line>)
    requires arguments { AreThere heap.old call.now.args }
    requires this { IsThere heap.old call.now.this }
{
    let mut host = ConsoleHost::new(alloc);
    let outcome = host.native(heap, id, call);
    (outcome, host.lines)
}

fn outcome_top(outcome: Outcome) -> Result<Top, NoMemory> {
    match outcome {
        Outcome::Value(value) => Ok(Top::Value(value)),
        Outcome::Throw(value) => Ok(Top::Abrupt(Completion::Throw(value))),
        _ => Err(NoMemory),
    }
}

impl Run {
    pub fn new(alloc: Global) -> Run {
        Run {
            frames: Vec::new(alloc),
            steps: 0,
            printed: String::new(alloc),
        }
    }

    fn count(&mut self) {
        self.steps = self.steps.saturating_add(1);
    }

    fn push(&mut self, frame: Frame) -> Result<(), NoMemory> {
        self.frames.reserve(1)?;
        self.frames.push_reserved(frame);
        Ok(())
    }

    fn native(
        &mut self,
        alloc: Global,
        heap: &mut Heap,
        id: NativeId,
        call: &NativeCall,
    ) -> Result<Top, NoMemory> {
        if is_refused(id, call.construct) {
            return Ok(Top::Abrupt(Completion::Throw(Value::Undefined)));
        }
        if !are_there(heap, call.args.as_slice()) || !heap.is_there(&call.this) {
            return Ok(nothing());
        }
        let (outcome, lines) = called(alloc, heap, id, call);
        print_lines(alloc, heap, &lines, &mut self.printed)?;
        outcome_top(outcome)
    }

    fn call(
        &mut self,
        alloc: Global,
        heap: &mut Heap,
        f: &Value,
        call: &NativeCall,
    ) -> Result<Top, NoMemory> {
        if !heap.is_there(f) {
            return Ok(nothing());
        }
        match called_function(heap, f) {
            CalledFunction::Native(id) => self.native(alloc, heap, id, call),
            _ => Ok(Top::Abrupt(Completion::Throw(Value::Undefined))),
        }
    }

    fn moved(&mut self, alloc: Global, heap: &mut Heap, made: Move) -> Result<Top, NoMemory> {
        match made {
            Move::Value(value) => Ok(Top::Value(value)),
            Move::Abrupt(completion) => Ok(Top::Abrupt(completion)),
            Move::Call { f, call } => self.call(alloc, heap, &f, &call),
            _ => Ok(nothing()),
        }
    }

    // The next operand of a row begins, or its step is made.
    fn rest(
        &mut self,
        alloc: Global,
        script: &Script,
        heap: &mut Heap,
        frame: Frame,
    ) -> Result<Top, NoMemory> {
        match frame.operands.next() {
            Some(operand) => {
                let top = operand_top(alloc, script, operand)?;
                self.push(frame)?;
                Ok(top)
            }
            None => self.make(alloc, heap, &frame),
        }
    }

    fn make(&mut self, alloc: Global, heap: &mut Heap, frame: &Frame) -> Result<Top, NoMemory> {
        if !matches!(frame.row, Row::Statements) {
            self.count();
        }
        let made = step(alloc, frame.row, &frame.operands)?;
        self.moved(alloc, heap, made)
    }

    // The frame below takes the value.
    fn take(&mut self, value: Value) -> Option<Top> {
        let mut frame = self.frames.pop()?;
        if frame.operands.next().is_some() {
            frame.operands.take(value);
        }
        Some(Top::Resting(frame))
    }

    // The frame below meets the completion.
    fn meet(&mut self, completion: &Completion) -> Result<Option<Top>, NoMemory> {
        if self.frames.pop().is_none() {
            return Ok(None);
        }
        self.count();
        Ok(Some(Top::Abrupt(completion.copy()?)))
    }

    // What nothing caught.
    fn uncaught(
        &mut self,
        alloc: Global,
        heap: &mut Heap,
        completion: Completion,
    ) -> Result<(), NoMemory> {
        let Completion::Throw(value) = completion else {
            return Ok(());
        };
        if !heap.is_there(&value) {
            return Ok(());
        }
        let mut host = ConsoleHost::new(alloc);
        host.order(heap, Order::Uncaught(value))?;
        print_lines(alloc, heap, &host.lines, &mut self.printed)
    }

    fn advance(
        &mut self,
        alloc: Global,
        script: &Script,
        heap: &mut Heap,
        top: Top,
    ) -> Result<Option<Top>, NoMemory> {
        match top {
            Top::Value(value) => Ok(self.take(value)),
            Top::Resting(frame) => Ok(Some(self.rest(alloc, script, heap, frame)?)),
            Top::Abrupt(completion) => match self.meet(&completion)? {
                Some(top) => Ok(Some(top)),
                None => {
                    self.uncaught(alloc, heap, completion)?;
                    Ok(None)
                }
            },
        }
    }

    /// Runs the text's last node, and tells its steps and the lines that they printed.
    pub fn run(
        mut self,
        alloc: Global,
        script: &Script,
        heap: &mut Heap,
    ) -> Result<String, NoMemory> {
        let mut top = Some(node_top(alloc, script, last(script))?);
        for _ in 0..100_000 {
            match top {
                Some(now) => top = self.advance(alloc, script, heap, now)?,
                None => break,
            }
        }
        Ok(format!(in alloc; "{}{}", self.steps, self.printed)?)
    }
}

/// The number of a text's last node.
pub fn last(script: &Script) -> NodeId {
    NodeId {
        number: (script.count() as u32).saturating_sub(1),
    }
}
