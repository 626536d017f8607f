// The step of a node, by its row.
ghost use Rattle.std.specs.Prelude.{◌≡◌, ◌∷◌, [], List, IfOk, OnOk, length};
ghost use Rattle.std.specs.Prelude.{Option};
ghost use Rattle.std.specs.Option.{option_map};
ghost use Rattle.js_value.specs.declared.value.Value.{Value as Held};
ghost use Rattle.js_heap.specs.Chains.{IsBelow};
ghost use Rattle.js_heap.specs.Scopes.{scope_number};
ghost use Rattle.js_heap.specs.World.{World};
ghost use Rattle.js_host.specs.There.{AreThere};
ghost use Rattle.js_reference.specs.Later.{IsLater};
ghost use Rattle.js_term.specs.declared.context.Context.{Context as Around};
ghost use Rattle.js_term.specs.Place.{Place};
ghost use Rattle.js_term.specs.Place.Place.{At};
ghost use Rattle.js_tree.specs.Arena.{Arena};
ghost use Rattle.js_operands.specs.ExprMoves.{made_of, move_names, operand_names, row_as};
ghost use Rattle.js_operands.specs.Hosted.{facts};
ghost use Rattle.js_control.specs.Make as make;
ghost use Rattle.js_control.specs.inner.Kinds.{row_kind};
ghost use Rattle.js_operands.specs.Shapes.{IsShaped, next_phase};
ghost use Rattle.js_operands.specs.declared.row.Phase.{Phase as PhaseKind};
ghost use Rattle.js_term.specs.Evaluation.{Evaluation};

use crate::accesses::{delete_index, delete_member, index, member, name};
use crate::assignments::{
    assign_index, assign_member, assign_name, compute, revise_index, revise_member, revise_name,
};
use crate::calls::{call, call_index, call_member, call_on, new_object};
use crate::choices::{and, comma, conditional, or};
use crate::literals::{array, function, object, this};
use crate::operators::{binary, type_of_name, unary};
use crate::updates::{
    store_index, store_member, store_name, update_index, update_member, update_name,
};
use js_heap::Heap;
use js_host::Host;
use js_operands::{ExprMove, ExprRow, convert_row, converting_row};
use js_reference::FunctionNames;
use js_term::{Context, Operands};
use mug_text::NoMemory;
use std::alloc::Global;

/// What the step of a row does.
#[derive(Clone, Copy, Debug)]
pub(crate) enum Kind {
    /// `this`, a literal or a function.
    Literal,
    /// A name or a property is read or deleted.
    Access,
    /// A call or `new`.
    Call,
    /// An operator, or a conversion.
    Operator,
    /// A part stands in the node's place, or the first operand does.
    Choice,
    /// `op=` reads its target, or computes.
    Revision,
    /// `++` or `--` reads its target.
    Update,
    /// An assignment, or `++` or `--`, writes.
    Write,
}

fn kind_of(row: ExprRow<'_>) -> Kind
    ensures { result ≡ row_kind row.entry }
{
    match row {
        ExprRow::This | ExprRow::Array(_) | ExprRow::Object(_) | ExprRow::Function => Kind::Literal,
        ExprRow::Name(_)
        | ExprRow::Member(_)
        | ExprRow::Index
        | ExprRow::DeleteMember(_)
        | ExprRow::DeleteIndex
        | ExprRow::TypeOfName(_) => Kind::Access,
        ExprRow::Call
        | ExprRow::CallOn
        | ExprRow::CallMember(_, _)
        | ExprRow::CallIndex(_)
        | ExprRow::New => Kind::Call,
        ExprRow::ReviseName(_, _, _)
        | ExprRow::ReviseMember(_, _, _)
        | ExprRow::ReviseIndex(_, _)
        | ExprRow::ComputeName(_, _)
        | ExprRow::ComputeMember(_, _)
        | ExprRow::ComputeIndex(_) => Kind::Revision,
        ExprRow::UpdateName(_, _, _)
        | ExprRow::UpdateMember(_, _, _)
        | ExprRow::UpdateIndex(_, _) => Kind::Update,
        ExprRow::Unary(_) | ExprRow::Binary(_) | ExprRow::Convert(_) | ExprRow::Converting(_) =>
            Kind::Operator,
        ExprRow::And(_) | ExprRow::Or(_) | ExprRow::Conditional(_, _) | ExprRow::Comma(_) =>
            Kind::Choice,
        _ => Kind::Write,
    }
}

// The step of a name, or of a property that is read or deleted.
fn access<H: Host>(
    alloc: Global,
    row: ExprRow<'_>,
    at: &Context,
    operands: &mut Operands,
    heap: &mut Heap,
    host: &H,
) -> Result<ExprMove, NoMemory>
    requires kind { row_kind row ≡ Kind.Access }
    requires there { AreThere heap.old (operand_names operands.old (H.names.host host.now)) }
    requires coming { operands.old.todo ≡ [] }
    requires scope { IsBelow (length heap.old.scopes) (option_map scope_number at.now.scope) }
    ensures value { (a : Arena) (p : Place) → IfOk result (λ m. make.made_expr (facts H.rows)
        p at.now heap.old host.now (row_as a row.entry) operands.old.done
        ≡ made_of a (row_as a row.entry) operands.new m heap.new host.now) }
    ensures there { IfOk result (λ m.
        AreThere heap.new (move_names m (operand_names operands.new (H.names.host host.now)))) }
    ensures more { OnOk result (IsLater heap.old heap.new) }
    ensures shape { (a : Arena) → IfOk result (λ m.
        IsShaped (next_phase (row_as a row.entry)) operands.old operands.new m) }
{
    match row {
        ExprRow::Name(key) => name(alloc, key, at, operands, heap, host),
        ExprRow::Member(key) => member(alloc, key, operands, heap, host),
        ExprRow::Index => index(alloc, operands, heap, host),
        ExprRow::DeleteMember(key) => delete_member(alloc, key, operands, heap, host),
        ExprRow::DeleteIndex => delete_index(alloc, operands, heap, host),
        ExprRow::TypeOfName(key) => type_of_name(alloc, key, at, operands, heap, host),
        _ => unreachable!(),
    }
}

// The step of a call or `new`.
fn request<H: Host>(
    alloc: Global,
    row: ExprRow<'_>,
    operands: &mut Operands,
    heap: &mut Heap,
    host: &H,
) -> Result<ExprMove, NoMemory>
    requires kind { row_kind row ≡ Kind.Call }
    requires there { AreThere heap.old (operand_names operands.old (H.names.host host.now)) }
    requires coming { operands.old.todo ≡ [] }
    ensures value { (a : Arena) (p : Place) (c : Around) → IfOk result (λ m.
        make.made_expr (facts H.rows) p c heap.old host.now (row_as a row.entry) operands.old.done
        ≡ made_of a (row_as a row.entry) operands.new m heap.new host.now) }
    ensures there { IfOk result (λ m.
        AreThere heap.new (move_names m (operand_names operands.new (H.names.host host.now)))) }
    ensures more { OnOk result (IsLater heap.old heap.new) }
    ensures shape { (a : Arena) → IfOk result (λ m.
        IsShaped (next_phase (row_as a row.entry)) operands.old operands.new m) }
{
    match row {
        ExprRow::Call => call(alloc, operands, heap, host),
        ExprRow::CallOn => call_on(alloc, operands, heap, host),
        ExprRow::CallMember(key, arguments) => {
            call_member(alloc, key, arguments, operands, heap, host)
        }
        ExprRow::CallIndex(arguments) => call_index(alloc, arguments, operands, heap, host),
        ExprRow::New => new_object(alloc, operands, heap, host),
        _ => unreachable!(),
    }
}

// The step of an operator, or of a conversion.
fn operate_on<H: Host>(
    alloc: Global,
    row: ExprRow<'_>,
    operands: &mut Operands,
    heap: &mut Heap,
    host: &H,
) -> Result<ExprMove, NoMemory>
    requires kind { row_kind row ≡ Kind.Operator }
    requires there { AreThere heap.old (operand_names operands.old (H.names.host host.now)) }
    requires coming { operands.old.todo ≡ [] }
    ensures value { (a : Arena) (p : Place) (c : Around) → IfOk result (λ m.
        make.made_expr (facts H.rows) p c heap.old host.now (row_as a row.entry) operands.old.done
        ≡ made_of a (row_as a row.entry) operands.new m heap.new host.now) }
    ensures there { IfOk result (λ m.
        AreThere heap.new (move_names m (operand_names operands.new (H.names.host host.now)))) }
    ensures more { OnOk result (IsLater heap.old heap.new) }
    ensures shape { (a : Arena) → IfOk result (λ m.
        IsShaped (next_phase (row_as a row.entry)) operands.old operands.new m) }
{
    match row {
        ExprRow::Unary(operator) => unary(alloc, operator, operands, heap, host),
        ExprRow::Binary(operator) => binary(alloc, operator, operands, heap, host),
        ExprRow::Convert(hint) => convert_row(alloc, hint, operands, heap, host),
        ExprRow::Converting(left) => converting_row(alloc, left, operands, heap, host),
        _ => unreachable!(),
    }
}

// The step of `op=` that reads its target, or computes what is written.
fn revise<H: Host>(
    alloc: Global,
    row: ExprRow<'_>,
    at: &Context,
    operands: &mut Operands,
    heap: &mut Heap,
    host: &H,
) -> Result<ExprMove, NoMemory>
    requires kind { row_kind row ≡ Kind.Revision }
    requires there { AreThere heap.old (operand_names operands.old (H.names.host host.now)) }
    requires coming { operands.old.todo ≡ [] }
    requires scope { IsBelow (length heap.old.scopes) (option_map scope_number at.now.scope) }
    ensures value { (a : Arena) (p : Place) → IfOk result (λ m. make.made_expr (facts H.rows)
        p at.now heap.old host.now (row_as a row.entry) operands.old.done
        ≡ made_of a (row_as a row.entry) operands.new m heap.new host.now) }
    ensures there { IfOk result (λ m.
        AreThere heap.new (move_names m (operand_names operands.new (H.names.host host.now)))) }
    ensures more { OnOk result (IsLater heap.old heap.new) }
    ensures shape { (a : Arena) → IfOk result (λ m.
        IsShaped (next_phase (row_as a row.entry)) operands.old operands.new m) }
{
    match row {
        ExprRow::ReviseName(_, key, right) => {
            revise_name(alloc, key, right, at, operands, heap, host)
        }
        ExprRow::ReviseMember(_, key, right) => {
            revise_member(alloc, key, right, operands, heap, host)
        }
        ExprRow::ReviseIndex(_, right) => revise_index(alloc, right, operands, heap, host),
        ExprRow::ComputeName(operator, _) => compute(alloc, operator, 0, operands, heap, host),
        ExprRow::ComputeMember(operator, _) => compute(alloc, operator, 1, operands, heap, host),
        ExprRow::ComputeIndex(operator) => compute(alloc, operator, 2, operands, heap, host),
        _ => unreachable!(),
    }
}

// The step of `++` or `--` that reads its target.
fn update<H: Host>(
    alloc: Global,
    row: ExprRow<'_>,
    at: &Context,
    operands: &mut Operands,
    heap: &mut Heap,
    host: &H,
) -> Result<ExprMove, NoMemory>
    requires kind { row_kind row ≡ Kind.Update }
    requires there { AreThere heap.old (operand_names operands.old (H.names.host host.now)) }
    requires coming { operands.old.todo ≡ [] }
    requires scope { IsBelow (length heap.old.scopes) (option_map scope_number at.now.scope) }
    ensures value { (a : Arena) (p : Place) → IfOk result (λ m. make.made_expr (facts H.rows)
        p at.now heap.old host.now (row_as a row.entry) operands.old.done
        ≡ made_of a (row_as a row.entry) operands.new m heap.new host.now) }
    ensures there { IfOk result (λ m.
        AreThere heap.new (move_names m (operand_names operands.new (H.names.host host.now)))) }
    ensures more { OnOk result (IsLater heap.old heap.new) }
    ensures shape { (a : Arena) → IfOk result (λ m.
        IsShaped (next_phase (row_as a row.entry)) operands.old operands.new m) }
{
    match row {
        ExprRow::UpdateName(_, _, key) => update_name(alloc, key, at, operands, heap, host),
        ExprRow::UpdateMember(_, _, key) => update_member(alloc, key, operands, heap, host),
        ExprRow::UpdateIndex(_, _) => update_index(alloc, operands, heap, host),
        _ => unreachable!(),
    }
}

// The step that writes.
fn write_target<H: Host>(
    alloc: Global,
    row: ExprRow<'_>,
    at: &Context,
    operands: &mut Operands,
    heap: &mut Heap,
    host: &mut H,
) -> Result<ExprMove, NoMemory>
    requires kind { row_kind row ≡ Kind.Write }
    requires there { AreThere heap.old (operand_names operands.old (H.names.host host.old)) }
    requires coming { operands.old.todo ≡ [] }
    requires scope { IsBelow (length heap.old.scopes) (option_map scope_number at.now.scope) }
    ensures value { (a : Arena) (p : Place) → IfOk result (λ m. make.made_expr (facts H.rows)
        p at.now heap.old host.old (row_as a row.entry) operands.old.done
        ≡ made_of a (row_as a row.entry) operands.new m heap.new host.new) }
    ensures there { IfOk result (λ m.
        AreThere heap.new (move_names m (operand_names operands.new (H.names.host host.new)))) }
    ensures more { OnOk result (IsLater heap.old heap.new) }
    ensures shape { (a : Arena) → IfOk result (λ m.
        IsShaped (next_phase (row_as a row.entry)) operands.old operands.new m) }
{
    match row {
        ExprRow::AssignName(key) => assign_name(alloc, key, at, operands, heap, host),
        ExprRow::AssignMember(key) => assign_member(alloc, key, operands, heap, host),
        ExprRow::AssignIndex => assign_index(alloc, operands, heap, host),
        ExprRow::StoreName(operator, side, key) => {
            store_name(alloc, operator, side, key, at, operands, heap, host)
        }
        ExprRow::StoreMember(operator, side, key) => {
            store_member(alloc, operator, side, key, operands, heap, host)
        }
        ExprRow::StoreIndex(operator, side) => {
            store_index(alloc, operator, side, operands, heap, host)
        }
        _ => unreachable!(),
    }
}

// The step that chooses what stands in the node's place.
fn choose<H: Host>(row: ExprRow<'_>, operands: &Operands) -> Result<ExprMove, NoMemory>
    requires kind { row_kind row ≡ Kind.Choice }
    ensures value { (a : Arena) (p : Place) (c : Around) (w : World) (h : H) → IfOk result (λ m.
        make.made_expr (facts H.rows) p c w h (row_as a row.entry) operands.now.done
        ≡ made_of a (row_as a row.entry) operands.now m w h) }
    ensures there { (w : World) (vs : List Held) → AreThere w (operand_names operands.now vs)
        → IfOk result (λ m. AreThere w (move_names m (operand_names operands.now vs))) }
    ensures shape { (n : Option PhaseKind) (e f : Evaluation) → IfOk result (λ m.
        IsShaped n e f m) }
{
    match row {
        ExprRow::And(right) => and::<H>(right, operands),
        ExprRow::Or(right) => or::<H>(right, operands),
        ExprRow::Conditional(chosen, otherwise) => conditional::<H>(chosen, otherwise, operands),
        ExprRow::Comma(right) => Ok(comma::<H>(right)),
        _ => unreachable!(),
    }
}

// The step of `this`, of a literal, or of a function that begins at the unit of the text.
fn literal<H: Host>(
    alloc: Global,
    row: ExprRow<'_>,
    text: u32,
    unit: u32,
    names: &FunctionNames,
    at: &Context,
    operands: &Operands,
    heap: &mut Heap,
    host: &H,
) -> Result<ExprMove, NoMemory>
    requires kind { row_kind row ≡ Kind.Literal }
    requires there { AreThere heap.old
        (at.now.this ∷ operand_names operands.now (H.names.host host.now)) }
    requires scope { IsBelow (length heap.old.scopes) (option_map scope_number at.now.scope) }
    ensures value { (a : Arena) → IfOk result (λ m. make.made_expr (facts H.rows)
        (At text unit) at.now heap.old host.now (row_as a row.entry) operands.now.done
        ≡ made_of a (row_as a row.entry) operands.now m heap.new host.now) }
    ensures there { IfOk result (λ m.
        AreThere heap.new (move_names m (operand_names operands.now (H.names.host host.now)))) }
    ensures more { OnOk result (IsLater heap.old heap.new) }
    ensures shape { (n : Option PhaseKind) (e f : Evaluation) → IfOk result (λ m.
        IsShaped n e f m) }
{
    match row {
        ExprRow::This => this(at),
        ExprRow::Array(elements) => array(alloc, elements, operands, heap, host),
        ExprRow::Object(entries) => object(alloc, entries, operands, heap, host),
        ExprRow::Function => function(alloc, names, text, unit, at, heap, host),
        _ => unreachable!(),
    }
}

/// The step of a node whose operands are values, by its row (ECMA-262 edition 5.1, 11). It begins
/// at a unit of a text; both are looked at where it is a function.
pub fn contract_expr<H: Host>(
    alloc: Global,
    row: ExprRow<'_>,
    text: u32,
    unit: u32,
    names: &FunctionNames,
    at: &Context,
    operands: &mut Operands,
    heap: &mut Heap,
    host: &mut H,
) -> Result<ExprMove, NoMemory>
    requires there { AreThere heap.old
        (at.now.this ∷ operand_names operands.old (H.names.host host.old)) }
    requires coming { operands.old.todo ≡ [] }
    requires scope { IsBelow (length heap.old.scopes) (option_map scope_number at.now.scope) }
    ensures value { (a : Arena) → IfOk result (λ m. make.made_expr (facts H.rows)
        (At text unit) at.now heap.old host.old (row_as a row.entry) operands.old.done
        ≡ made_of a (row_as a row.entry) operands.new m heap.new host.new) }
    ensures there { IfOk result (λ m.
        AreThere heap.new (move_names m (operand_names operands.new (H.names.host host.new)))) }
    ensures more { OnOk result (IsLater heap.old heap.new) }
    ensures shape { (a : Arena) → IfOk result (λ m.
        IsShaped (next_phase (row_as a row.entry)) operands.old operands.new m) }
{
    match kind_of(row) {
        Kind::Literal => literal(alloc, row, text, unit, names, at, operands, heap, host),
        Kind::Access => access(alloc, row, at, operands, heap, host),
        Kind::Call => request(alloc, row, operands, heap, host),
        Kind::Operator => operate_on(alloc, row, operands, heap, host),
        Kind::Choice => choose::<H>(row, operands),
        Kind::Revision => revise(alloc, row, at, operands, heap, host),
        Kind::Update => update(alloc, row, at, operands, heap, host),
        Kind::Write => write_target(alloc, row, at, operands, heap, host),
    }
}
