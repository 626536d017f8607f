// The operands of a frame.
ghost use Rattle.std.specs.Prelude.{◌≡◌, ◌<◌, ◌≤◌, ◌∷◌, ◌++◌, [], length, slice_get, slice_set};
ghost use Rattle.std.specs.Prelude.{IfOk, OnErr, OnOk};
ghost use Rattle.std.specs.Option.{option_copied};
ghost use Rattle.js_term.specs.Evaluation.{again, and_then, nothing, taken};
ghost use Rattle.js_term.specs.inner.Values.{value_in, values_in};

use js_tree::NodeId;
use js_value::Value;
use mug_text::{Listed, NoMemory};
use smallvec::SmallVec;
use std::alloc::Global;
use std::marker::Model;

/// An operand: a value, or a node of the text to which its row belongs.
#[derive(Debug, Drop)]
pub enum Operand {
    Value(Value),
    Node(NodeId),
}

impl Default for Operand {
    fn default() -> Operand {
        Operand::Value(Value::Undefined)
    }
}

// The operand at this place becomes this value.
fn put_value(all: &mut SmallVec<Operand, 3>, index: usize, value: Value)
    ensures { index < length all.old.items →
        all.new.items ≡ slice_set all.old.items index (Operand.Value value) }
{
    if let Some(operand) = all.get_mut(index) {
        *operand = Operand::Value(value);
    }
}

// The value that the operand at this place is.
fn value_at(operands: &[Operand], index: usize) -> Option<&Value>
    ensures { option_copied result ≡ value_in (slice_get operands.now index) }
{
    match operands.get(index)? {
        Operand::Value(value) => Some(value),
        Operand::Node(_) => None,
    }
}

// Puts a copy of the value that the operand is, where it is one, behind these.
fn push_value(values: &mut Listed<Value>, operand: &Operand) -> Result<(), NoMemory>
    ensures { OnOk result (values.new ≡ values.old ++ values_in (operand.now ∷ [])) }
{
    match operand {
        Operand::Value(value) => values.push(value.copy()?),
        Operand::Node(_) => Ok(()),
    }
}

// Copies of the values among these.
fn copies(alloc: Global, operands: &[Operand]) -> Result<Listed<Value>, NoMemory>
    ensures { IfOk result (λ vs. vs ≡ values_in operands.now) }
{
    let mut values = Listed::new(alloc);
    for operand in operands {
        push_value(&mut values, operand)?;
    }
    Ok(values)
}

/// The operands of a frame in their order: those that are values by now, and those to come, of
/// which the first is the next. Up to three stand in the struct itself.
#[derive(Drop)]
pub struct Operands {
    all: SmallVec<Operand, 3>,
    // How many of them are values by now.
    count: usize,
}

impl Model for Operands {
    ghost use Rattle.std.specs.Prelude.{◌≡◌, ◌≤◌, true, drop, length, take};
    ghost use Rattle.js_term.specs.Evaluation.{Evaluation};
    ghost use Rattle.js_term.specs.inner.Values.{all_values, values_in};

    ghost Value = { Evaluation };

    ghost view = { λ o. record {
      done = values_in (take o.count o.all.items);
      todo = drop o.count o.all.items;
    } };

    ghost invariant = { λ o. (o.count ≤ length o.all.items)
        × (all_values (take o.count o.all.items) ≡ true) };
}

impl Operands {
    /// None.
    pub fn new(alloc: Global) -> Operands
        ensures { result ≡ nothing }
    {
        Operands {
            all: SmallVec::new(alloc),
            count: 0,
        }
    }

    /// Puts one behind those to come.
    pub fn push(&mut self, operand: Operand) -> Result<(), NoMemory>
        ensures ok { OnOk result (self.new ≡ and_then (operand ∷ []) self.old) }
        ensures err { OnErr result (self.new ≡ self.old) }
    {
        match self.all.push(operand) {
            Ok(()) => Ok(()),
            Err(_) => Err(NoMemory),
        }
    }

    /// The next of those to come.
    pub fn next(&self) -> Option<&Operand>
        ensures { option_copied result ≡ slice_get self.now.todo 0 }
    {
        self.all.as_slice().get(self.count)
    }

    /// Takes the value of the next one.
    pub fn take(&mut self, value: Value)
        requires { 0 < length self.old.todo }
        ensures { self.new ≡ taken value self.old }
    {
        let _len = self.all.len();
        put_value(&mut self.all, self.count, value);
        self.count += 1;
    }

    /// How many are values by now.
    pub fn value_count(&self) -> usize
        ensures { result ≡ length self.now.done }
    {
        self.count
    }

    /// The value at this place among those that are values by now.
    pub fn value(&self, index: usize) -> Option<&Value>
        ensures { option_copied result ≡ slice_get self.now.done index }
    {
        if index >= self.count {
            return None;
        }
        value_at(self.all.as_slice(), index)
    }

    /// Copies of those that are values by now.
    pub fn values(&self, alloc: Global) -> Result<Listed<Value>, NoMemory>
        ensures { IfOk result (λ vs. vs ≡ self.now.done) }
    {
        let (done, _todo) = self.all.as_slice().split_at(self.count);
        copies(alloc, done)
    }

    /// Has the values from this place on come again.
    pub fn turn_back(&mut self, index: usize)
        requires { index ≤ length self.old.done }
        ensures { self.new ≡ again index self.old }
    {
        self.count = index;
    }
}
