// Three rows over the small host, in code.
ghost use Rattle.std.specs.Prelude.{◌≡◌, IfOk};
ghost use Rattle.js_heap.specs.World.{World};
ghost use Rattle.js_term.specs.FrameMoves.{moved};
ghost use Rattle.js_term.specs.Place.{Place, Placed};
ghost use Rattle.js_term.specs.Term.{Term};
ghost use Rattle.js_term.specs.declared.operands.Operand.{Operand as ToCome};
ghost use Rattle.js_tree.specs.Trees.{production_of};
ghost use Rattle.console_host.specs.declared.host.ConsoleHost.{ConsoleHost};
ghost use Rattle.term_answers.specs.ThreeRows.{answers, calling, is_statements, made_row, row_of};

use console_host::CONSOLE_LOG;
use js_host::NativeCall;
use js_term::{Completion, Move, Operands};
use js_tree::Node;
use js_value::{NativeId, Value};
use mug_text::NoMemory;
use std::alloc::Global;

/// A row of the table.
#[derive(Clone, Copy, Debug, PartialEq, Eq)]
pub enum Row {
    /// Statements and whatever has no step.
    Statements,
    /// A line of the console.
    Log,
    Throw,
}

/// The row of a node.
pub fn row_of(node: &Node) -> Row
    ensures { result ≡ row_of (production_of node.now) }
{
    match node {
        Node::Array(_) => Row::Log,
        Node::Throw(_) => Row::Throw,
        _ => Row::Statements,
    }
}

fn log(alloc: Global, operands: &Operands) -> Result<Move, NoMemory>
    ensures { IfOk result (λ m. (term : Placed Row → ToCome → Term (Placed Row)) (p : Place)
        (w : World) (h : ConsoleHost) → moved calling answers is_statements term p
        (record { place = p; row = Row.Log }) operands.now m w h
        ≡ made_row p w h Row.Log operands.now.done) }
{
    let args = operands.values(alloc)?;
    Ok(Move::Call {
        f: Value::Native(NativeId {
            number: CONSOLE_LOG,
        }),
        call: NativeCall {
            construct: false,
            this: Value::Undefined,
            args,
        },
    })
}

fn throw(operands: &Operands) -> Result<Move, NoMemory>
    ensures { IfOk result (λ m. (term : Placed Row → ToCome → Term (Placed Row)) (p : Place)
        (w : World) (h : ConsoleHost) → moved calling answers is_statements term p
        (record { place = p; row = Row.Throw }) operands.now m w h
        ≡ made_row p w h Row.Throw operands.now.done) }
{
    match operands.value(0) {
        Some(value) => Ok(Move::Abrupt(Completion::Throw(value.copy()?))),
        None => Ok(Move::Abrupt(Completion::Throw(Value::Undefined))),
    }
}

/// What the step of a row gives whose operands are values.
pub fn step(alloc: Global, row: Row, operands: &Operands) -> Result<Move, NoMemory>
    ensures { IfOk result (λ m. (term : Placed Row → ToCome → Term (Placed Row)) (p : Place)
        (w : World) (h : ConsoleHost) → moved calling answers is_statements term p
        (record { place = p; row = row }) operands.now m w h
        ≡ made_row p w h row operands.now.done) }
{
    match row {
        Row::Statements => Ok(Move::Finished),
        Row::Log => log(alloc, operands),
        Row::Throw => throw(operands),
    }
}
