// The labels directly around a statement.
ghost use Rattle.std.specs.Prelude.{◌≡◌, ◌<◌, IfSome, None, Some, length};
ghost use Rattle.js_tree.specs.Names.{is_among};
ghost use Rattle.js_term.specs.Operands.{Labels};
ghost use Rattle.js_stmt.specs.CodeRows.{labels_around, with_label};
ghost use Rattle.js_stmt.specs.Steps.{takes as takes_label};

use crate::Labelling;
use js_tree::{Node, NodeId, Script};
use mug_text::JText;

// What a labelled statement is made of.
#[derive(Clone, Copy)]
struct LabelledParts<'a> {
    label: &'a JText,
    body: NodeId,
}

fn labelled_parts(node: &Node) -> Option<LabelledParts<'_>>
    ensures none { result ≡ None → (f : NodeId → Labels → Labels) (ls : Labels)
        → with_label f (Some node.now) ls ≡ ls }
    ensures some { IfSome result (λ p. node.now ≡ Node.Labelled p.label.now p.body) }
{
    match node {
        Node::Labelled { label, body } => Some(LabelledParts { label, body: *body }),
        _ => None,
    }
}

// Whether one of them is this label.
fn has_label(script: &Script, labelling: Labelling, label: &JText) -> bool
    requires { labelling.outermost.number < length script.now.kept }
    ensures { result ≡ is_among label.now (labels_around script.now labelling) }
{
    let _nodes = script.count();
    let mut at = labelling.outermost;
    while at.number != labelling.statement.number {
        match labelled_parts(script.node(at)) {
            None => return false,
            Some(parts) => {
                if label == parts.label {
                    return true;
                }
                at = parts.body;
            }
        }
    }
    false
}

// Whether a jump is for the statement.
pub(crate) fn takes(script: &Script, labelling: Labelling, label: &Option<JText>) -> bool
    requires { labelling.outermost.number < length script.now.kept }
    ensures { result ≡ takes_label (labels_around script.now labelling) label.now }
{
    match label {
        Some(label) => has_label(script, labelling, label),
        None => true,
    }
}
