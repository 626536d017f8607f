// The path of an event.
ghost use Rattle.std.specs.Prelude.{◌≡◌, ◌++◌, ◌∷◌, [], ◌<◌, map, length, IfOk, OnOk};
ghost use Rattle.dom_tree.specs.Nodes.{ancestors};
ghost use Rattle.event_dispatch.specs.Path.{path_of, window_behind, IsThere};

use dom_tree::Dom;
use mug_text::{JText, Listed, NoMemory};
use std::alloc::{AllocError, Global};

/// What an event is dispatched at.
#[derive(Clone, Copy, Debug, PartialEq, Eq)]
pub enum Target {
    Window,
    /// The node of this number.
    Node(u32),
    /// The request object of this number.
    Request(u32),
}

// `load`
const LOAD: [u16; 4] = [0x6C, 0x6F, 0x61, 0x64];

fn push(path: &mut Vec<Target>, target: Target) -> Result<(), AllocError>
    ensures { OnOk result (path.new.items ≡ path.old.items ++ target ∷ []) }
{
    path.push(target)?;
    Ok(())
}

// Puts a node's ancestors behind, nearest first.
fn push_ancestors(dom: &Dom, node: u32, path: &mut Vec<Target>) -> Result<(), AllocError>
    requires { node < length dom.now }
    ensures { OnOk result (path.new.items
        ≡ path.old.items ++ map Target.Node (ancestors dom.now node)) }
{
    let count = dom.count();
    let mut above = dom.node(node).parent;
    for _step in 0..count {
        let Some(parent) = above else { return Ok(()) };
        push(path, Target::Node(parent))?;
        above = dom.node(parent).parent;
    }
    Ok(())
}

// Puts the window behind, where the type isn't `load`.
fn push_window(kind: &JText, path: &mut Vec<Target>) -> Result<(), AllocError>
    ensures { OnOk result (path.new.items ≡ path.old.items ++ window_behind kind.now) }
{
    if kind.as_slice() == LOAD.as_slice() {
        return Ok(());
    }
    push(path, Target::Window)
}

/// The path of an event of this type: the target, a node's ancestors, and the window, but not for
/// `load` at a node.
pub fn path(
    alloc: Global,
    dom: &Dom,
    target: Target,
    kind: &JText,
) -> Result<Listed<Target>, NoMemory>
    requires { IsThere dom.now target }
    ensures { IfOk result (λ path. path ≡ path_of dom.now target kind.now) }
{
    let mut path = Vec::new(alloc);
    push(&mut path, target)?;
    if let Target::Node(node) = target {
        push_ancestors(dom, node, &mut path)?;
        push_window(kind, &mut path)?;
    }
    Ok(Listed::of(path))
}
