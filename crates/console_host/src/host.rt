// The host.
ghost use Rattle.std.specs.Prelude.{◌≡◌, [], OnOk};
ghost use Rattle.console_host.specs.Console.{with_line};

use crate::line::copies;
use crate::{CONSOLE_LOG, Line};
use js_heap::{Class, Heap, HeapFault, Root};
use js_host::{DispatchAt, Host, HostPut, Input, NativeCall, NextCall, Order, Outcome, Resume};
use js_value::{NativeId, ObjId, Value};
use mug_text::{JText, Listed, NoMemory};
use std::alloc::Global;

/// A host of one native, `console.log`, which keeps its arguments. It has no properties of its own,
/// and its dispatches call nothing.
#[derive(Drop)]
pub struct ConsoleHost {
    pub lines: Listed<Line>,
    pub alloc: Global,
}

impl ConsoleHost {
    /// Without lines.
    pub fn new(alloc: Global) -> ConsoleHost
        ensures { result.lines ≡ [] }
    {
        ConsoleHost {
            lines: Listed::new(alloc),
            alloc,
        }
    }

    // Adds a line.
    fn add(&mut self, line: Line) -> Result<(), NoMemory>
        ensures { OnOk result (self.new ≡ with_line self.old line) }
    {
        self.lines.push(line)
    }

    // Adds the line of these values.
    fn log(&mut self, args: &Listed<Value>) -> Result<(), NoMemory>
        ensures { OnOk result (self.new ≡ with_line self.old (Line.Log args.now)) }
    {
        let args = copies(self.alloc, args)?;
        self.add(Line::Log(args))
    }
}

impl Host for ConsoleHost {
    type Dispatch = DispatchAt;

    ghost use Rattle.js_host.specs.Gives.{OutcomeGives};
    ghost use Rattle.console_host.specs.Console.{console_images, console_names, console_rows};
    ghost use Rattle.console_host.specs.inner.Keeps.{console_keeps};
    ghost use Rattle.console_host.specs.inner.Answers.{console_answers};
    ghost use Rattle.console_host.specs.inner.Images.{console_commutes};

    ghost rows = { console_rows };

    ghost names = { console_names };

    ghost images = { console_images };

    fn native(&mut self, _heap: &mut Heap, id: NativeId, call: &NativeCall) -> Outcome {
        if id.number != CONSOLE_LOG {
            return Outcome::Throw(Value::Undefined);
        }
        match self.log(&call.args) {
            Ok(()) => Outcome::Value(Value::Undefined),
            Err(_) => Outcome::NoMemory,
        }
    }

    // No native of this host asks, so this asks for no question.
    fn give(
        &mut self,
        _heap: &mut Heap,
        _id: NativeId,
        _call: &NativeCall,
        _input: &Input,
    ) -> Outcome
        ensures { OutcomeGives (console_rows.give _heap.old self.old _id _call.now _input.now)
            result _heap.new self.new }
    {
        Outcome::Value(Value::Undefined)
    }

    fn resume(&mut self, _heap: &mut Heap, _point: Resume, answer: &Value) -> Outcome {
        match answer.copy() {
            Ok(value) => Outcome::Value(value),
            Err(_) => Outcome::NoMemory,
        }
    }

    fn get_own(&self, _heap: &Heap, _obj: ObjId, _key: &JText) -> Result<Option<Value>, NoMemory> {
        Ok(None)
    }

    fn put_own(&mut self, _heap: &mut Heap, _obj: ObjId, _key: &JText, _value: &Value) -> HostPut {
        HostPut::NotHost
    }

    fn dispatch_start(&mut self, _heap: &mut Heap, d: &DispatchAt) -> Result<DispatchAt, NoMemory> {
        Ok(*d)
    }

    fn dispatch_next(
        &mut self,
        _heap: &mut Heap,
        _d: &mut DispatchAt,
        _last: Option<&Value>,
    ) -> Result<NextCall, NoMemory> {
        Ok(NextCall::End { kept: true })
    }

    fn fresh(
        &mut self,
        heap: &mut Heap,
        target: ObjId,
        _kind: &JText,
        _bubbles: bool,
        _cancelable: bool,
    ) -> Result<DispatchAt, HeapFault> {
        let prototype = heap.root(Root::EventPrototype);
        let event = heap.new_object(Class::Event, Some(prototype))?;
        Ok(DispatchAt { target, event })
    }

    fn is_handler(&self, _heap: &Heap, _obj: ObjId, _key: &JText) -> bool {
        false
    }

    fn order(&mut self, _heap: &mut Heap, o: Order) -> Result<Option<Value>, NoMemory> {
        if let Order::Uncaught(value) = o {
            self.add(Line::Uncaught(value))?;
        }
        Ok(None)
    }

    ghost keeps = { console_keeps };

    ghost answers = { console_answers };

    ghost commutes = { console_commutes };
}
