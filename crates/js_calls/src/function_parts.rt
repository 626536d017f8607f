// What a function of a text is made of.
ghost use Rattle.std.specs.Prelude.{◌≡◌, ◌<◌, IfSome, Some, length, slice_get};
ghost use Rattle.std.specs.Option.{option_copied};
ghost use Rattle.js_calls.specs.Calls.{function_in};
ghost use Rattle.js_calls.specs.Entered.{function_as, parameter_names};
ghost use Rattle.js_calls.specs.Texts.{IsRead};
ghost use Rattle.js_stmt.specs.Parts.{IsHeld};
ghost use Rattle.js_tree.specs.Arena.{scope as scope_in, scope_of_body};
ghost use Rattle.js_tree.specs.TreeAt.{body_at, tree_at, tree_of};
ghost use Rattle.js_tree.specs.Trees.{nodes};
ghost use Rattle.js_calls.specs.Calls as calls;

use js_tree::{BodyId, Node, NodeId, Scope, Script};
use mug_text::JText;

/// A function's parameters: those that its head lists, or a handler's, which is `event`.
#[derive(Clone, Copy)]
pub(crate) enum Parameters<'a> {
    Listed(&'a [JText]),
    Event,
}

/// What a function is made of: its own name, where it is a named function expression, its
/// parameters, its statements, and what its scope has.
#[derive(Clone, Copy)]
pub(crate) struct FunctionParts<'a> {
    pub(crate) own: Option<&'a JText>,
    pub(crate) parameters: Parameters<'a>,
    pub(crate) statements: &'a [NodeId],
    pub(crate) scope: &'a Scope,
}

// With this body.
fn with_body<'a>(
    script: &'a Script,
    own: Option<&'a JText>,
    parameters: &'a [JText],
    body: BodyId,
) -> Option<FunctionParts<'a>>
    requires there { body.number < length script.now.pending }
    requires read { IsRead script.now }
    ensures own { IfSome result (λ p. option_copied p.own ≡ option_copied own.entry) }
    ensures parameters { IfSome result (λ p. parameter_names p.parameters ≡ parameters.now) }
    ensures statements { IfSome result (λ p. tree_of script.now (nodes p.statements.now)
        ≡ calls.statements_in (body_at script.now body.number)) }
    ensures held { IfSome result (λ p. IsHeld script.now (nodes p.statements.now)) }
    ensures scope { IfSome result (λ p. Some p.scope.now
        ≡ scope_of_body script.now (slice_get script.now.filled body.number)) }
{
    let _nodes = script.count();
    let id = script.body(body)?;
    match script.node(id) {
        Node::Body { statements, scope } => Some(FunctionParts {
            own,
            parameters: Parameters::Listed(parameters),
            statements: statements.as_slice(),
            scope,
        }),
        _ => None,
    }
}

/// The parts of the function at a node; none of what is no function, or has no body yet.
pub(crate) fn function_parts(script: &Script, id: NodeId) -> Option<FunctionParts<'_>>
    requires there { id.number < length script.now.kept }
    requires read { IsRead script.now }
    ensures is { IfSome result (λ p.
        function_as script.now p ≡ function_in (tree_at script.now id)) }
    ensures held { IfSome result (λ p. IsHeld script.now (nodes p.statements.now)) }
    ensures scope { IfSome result (λ p. Some p.scope.now ≡ scope_in script.now id) }
{
    let _nodes = script.count();
    match script.node(id) {
        Node::Function { head, body } => with_body(
            script,
            head.name.as_ref(),
            head.parameters.as_slice(),
            *body,
        ),
        Node::Declaration { head, body } => {
            with_body(script, None, head.parameters.as_slice(), *body)
        }
        Node::Handler { statements, scope } => Some(FunctionParts {
            own: None,
            parameters: Parameters::Event,
            statements: statements.as_slice(),
            scope,
        }),
        _ => None,
    }
}
