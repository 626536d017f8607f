// Hosts.
ghost use Rattle.std.specs.Prelude.{◌≡◌, ◌∷◌, ◌++◌, true, IfOk};
ghost use Rattle.std.specs.Option.{option_copied};
ghost use Rattle.js_value.specs.declared.value.Value.TheVariants.{Ref};
ghost use Rattle.js_host.specs.Asking.{RowsAnswer};
ghost use Rattle.js_host.specs.Gives.{FreshGives, OutcomeGives, PutGives};
ghost use Rattle.js_host.specs.Images.{HostImages, RowsCommute};
ghost use Rattle.js_host.specs.Keeps.{HostNames, RowsKeep};
ghost use Rattle.js_host.specs.Names.{call_names, dispatch_names, option_names};
ghost use Rattle.js_host.specs.Names.{order_names, resume_names};
ghost use Rattle.js_host.specs.Rows.{HostRows, IsAsked, IsInput};
ghost use Rattle.js_host.specs.There.{AreThere};

use crate::{DispatchAt, HostPut, Input, NativeCall, NextCall, Order, Outcome, Resume};
use js_heap::{Heap, HeapFault};
use js_value::{NativeId, ObjId, Value};
use mug_text::{JText, NoMemory};

/// What a page's programs reach beside their heap: native functions, and objects with properties of
/// the host's own. A host's value is the part of the world that it holds. Each call gives what its
/// definition gives for heap, host and arguments as they are, or there is no memory.
pub trait Host: Sized {
    /// A dispatch in progress.
    type Dispatch: Drop;

    /// The definitions of the calls, and the orders that the host takes.
    ghost rows: { HostRows Self Self.Dispatch };

    /// The values that a host and a dispatch in progress hold.
    ghost names: { HostNames Self Self.Dispatch };

    /// What is left of a host and of a dispatch in progress without wraps.
    ghost images: { HostImages Self Self.Dispatch };

    /// Calls a native, or makes its `new`. What its row converts is converted.
    fn native(&mut self, heap: &mut Heap, id: NativeId, call: &NativeCall) -> Outcome
        requires { AreThere heap.old (call_names call.now (names.host self.old)) }
        ensures { OutcomeGives (rows.native heap.old self.old id call.now)
            result heap.new self.new };

    /// The same call, with the answer to its question.
    fn give(&mut self, heap: &mut Heap, id: NativeId, call: &NativeCall, input: &Input) -> Outcome
        requires there { AreThere heap.old (call_names call.now (names.host self.old)) }
        requires asked { IsAsked rows heap.old self.old id call.now input.now }
        requires input { IsInput input.now }
        ensures { OutcomeGives (rows.give heap.old self.old id call.now input.now)
            result heap.new self.new };

    /// Goes on with a native, whose callback gave a value.
    fn resume(&mut self, heap: &mut Heap, point: Resume, answer: &Value) -> Outcome
        requires { AreThere heap.old (answer.now ∷ resume_names point (names.host self.old)) }
        ensures { OutcomeGives (rows.resume heap.old self.old point answer.now)
            result heap.new self.new };

    /// The value of a property of the host's own, where the object has it.
    fn get_own(&self, heap: &Heap, obj: ObjId, key: &JText) -> Result<Option<Value>, NoMemory>
        requires { AreThere heap.now (Ref obj ∷ names.host self.now) }
        ensures { IfOk result (λ v. rows.get_own heap.now self.now obj key.now ≡ v) };

    /// Writes to a property of the host's own, where the object has it.
    fn put_own(&mut self, heap: &mut Heap, obj: ObjId, key: &JText, value: &Value) -> HostPut
        requires { AreThere heap.old (Ref obj ∷ value.now ∷ names.host self.old) }
        ensures { PutGives (rows.put_own heap.old self.old obj key.now value.now)
            result heap.new self.new };

    /// Begins a dispatch.
    fn dispatch_start(
        &mut self,
        heap: &mut Heap,
        d: &DispatchAt,
    ) -> Result<Self::Dispatch, NoMemory>
        requires { AreThere heap.old (dispatch_names d.now (names.host self.old)) }
        ensures { IfOk result (λ e. rows.start heap.old self.old d.now
            ≡ (e, heap.new, self.new)) };

    /// The dispatch's next call; `last` is the value that the last one gave, none where it threw or
    /// there was none.
    fn dispatch_next(
        &mut self,
        heap: &mut Heap,
        d: &mut Self::Dispatch,
        last: Option<&Value>,
    ) -> Result<NextCall, NoMemory>
        requires { AreThere heap.old
            (option_names (option_copied last) (names.dispatch d.old ++ names.host self.old)) }
        ensures { IfOk result (λ n. rows.next heap.old self.old d.old (option_copied last.entry)
            ≡ (n, d.new, heap.new, self.new)) };

    /// Makes an event object, which is trusted to be dispatched at the target.
    fn fresh(
        &mut self,
        heap: &mut Heap,
        target: ObjId,
        kind: &JText,
        bubbles: bool,
        cancelable: bool,
    ) -> Result<DispatchAt, HeapFault>
        requires { AreThere heap.old (Ref target ∷ names.host self.old) }
        ensures { FreshGives (rows.fresh heap.old self.old target kind.now bubbles cancelable)
            result heap.new self.new };

    /// Whether a write to the property sets a handler.
    fn is_handler(&self, heap: &Heap, obj: ObjId, key: &JText) -> bool
        requires { AreThere heap.now (Ref obj ∷ names.host self.now) }
        ensures { result ≡ rows.is_handler heap.now self.now obj key.now };

    /// Makes a change that no page code asked for.
    fn order(&mut self, heap: &mut Heap, o: Order) -> Result<Option<Value>, NoMemory>
        requires there { AreThere heap.old (order_names o (names.host self.old)) }
        requires taken { rows.takes heap.old self.old o ≡ true }
        ensures { IfOk result (λ v. rows.order heap.old self.old o ≡ (v, heap.new, self.new)) };

    /// No call changes a scope or an object's class, makes a function, names what isn't there, or
    /// brings out a native that asks.
    ghost keeps: { RowsKeep names rows };

    /// Only `native` asks, and that changes nothing; its answer brings a value. A write to what is
    /// none of the host's properties changes nothing. A handler is taken for each property that
    /// sets one.
    ghost answers: { RowsAnswer rows };

    /// Each definition commutes with the plain image.
    ghost commutes: { RowsCommute images rows };
}
