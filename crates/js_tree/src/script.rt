// Scripts: an arena of nodes.
ghost use Rattle.std.specs.Prelude.{◌≡◌, ◌+◌, ◌<◌, Some, length, slice_get, IfOk, IfSome, OnOk, OnErr};
ghost use Rattle.js_tree.specs.Trees.{parts};
ghost use Rattle.std.specs.Option.{option_copied};
ghost use Rattle.js_tree.specs.Indexed.{KeepsFunctions, PutsFunction};
ghost use Rattle.js_tree.specs.Arena.{IsOrdered, IsWithin, declared, empty, function_at, function_of, handler_among, node_at, scope, scope_of_body, span_at, with_body, with_function, with_node};

use crate::node::{BodyId, DeclarationHead, ExpressionHead, Node, NodeId, Scope};
use mug_text::{INDEX_END, JText, NoMemory};
use std::alloc::{AllocError, Global};
use std::collections::BTreeMap;
use std::marker::Model;

/// A script has at most so many nodes, and at most so many bodies.
pub const NODES_END: usize = INDEX_END as usize;

/// A node with its span: its first unit, and the unit behind its last.
#[derive(Debug, Drop)]
pub struct Kept {
    pub node: Node,
    pub from: u32,
    pub to: u32,
}

/// A function's body that has still to be read.
#[derive(Clone, Copy, Debug, PartialEq, Eq)]
pub struct Pending {
    /// The function.
    pub node: NodeId,
    /// The place, among the tokens, of the body's opening brace.
    pub from: usize,
    /// That of its closing brace, or the number of the tokens where it has none.
    pub to: usize,
    /// The nesting at the opening brace.
    pub level: u32,
}

/// Where a function's body stands.
#[derive(Clone, Copy, Debug, PartialEq, Eq)]
pub struct Braces {
    /// The place, among the tokens, of the opening brace.
    pub from: usize,
    /// That of the closing brace, or the number of the tokens where there is none.
    pub to: usize,
    /// The nesting at the opening brace.
    pub level: u32,
}

/// What stands in front of a function's body.
#[derive(Debug, Drop)]
pub enum FunctionHead {
    Expression(Box<ExpressionHead>),
    Declaration(Box<DeclarationHead>),
}

impl FunctionHead {
    fn with_body(self, body: BodyId) -> Node
        ensures { result ≡ function_of self body }
    {
        match self {
            FunctionHead::Expression(head) => Node::Function { head, body },
            FunctionHead::Declaration(head) => Node::Declaration { head, body },
        }
    }
}

// Puts a function into an index, where its unit finds it from now on.
fn put_function(index: &mut BTreeMap<u32, NodeId>, unit: u32, id: NodeId) -> Result<(), AllocError>
    ensures ok { OnOk result (PutsFunction unit id index.old index.new) }
    ensures err { OnErr result (KeepsFunctions index.old index.new) }
{
    let _ = index.insert(unit, id)?;
    Ok(())
}

/// A tree in the making.
#[derive(Debug, Drop)]
pub struct Script {
    nodes: Vec<Kept>,
    pending: Vec<Pending>,
    filled: Vec<Option<NodeId>>,
    // The functions by their first units.
    functions: BTreeMap<u32, NodeId>,
}

impl Model for Script {
    ghost use Rattle.js_tree.specs.Arena.{Arena, IsOrdered};
    ghost use Rattle.js_tree.specs.Indexed.{IsIndexed};

    ghost Value = { Arena };

    ghost view = { λ s. record { kept = s.nodes.items; pending = s.pending.items; filled = s.filled.items } };

    ghost invariant = { λ s. IsOrdered (record { kept = s.nodes.items; pending = s.pending.items; filled = s.filled.items }) × IsIndexed s.nodes.items s.pending.items s.functions };
}

impl Script {
    /// No node.
    pub fn new(alloc: Global) -> Script
        ensures { result ≡ empty }
    {
        Script {
            nodes: Vec::new(alloc),
            pending: Vec::new(alloc),
            filled: Vec::new(alloc),
            functions: BTreeMap::new(alloc),
        }
    }

    /// How many nodes there are.
    pub fn count(&self) -> usize
        ensures is { result ≡ length self.now.kept }
        ensures ordered { IsOrdered self.now }
    {
        self.nodes.len()
    }

    /// Puts a node behind the others. Behind `NODES_END` nodes one more is answered as want of memory.
    pub fn add(&mut self, node: Node, from: u32, to: u32) -> Result<NodeId, NoMemory>
        requires { IsWithin (length self.old.kept) (length self.old.pending) (parts node) }
        ensures number { IfOk result (λ id. id.number ≡ length self.old.kept) }
        ensures ok { OnOk result (self.new ≡ with_node (record { node = node; from = from; to = to }) self.old) }
        ensures err { OnErr result (self.new ≡ self.old) }
    {
        let number = self.nodes.len();
        if number >= NODES_END {
            return Err(NoMemory);
        }
        self.nodes.reserve(1)?;
        let kept = Kept { node, from, to };
        self.nodes.push_reserved(kept);
        Ok(NodeId {
            number: number as u32,
        })
    }

    /// Puts a function behind the other nodes; its body is the last of those that have to be read. Behind `NODES_END` nodes or
    /// bodies one more is answered as want of memory.
    pub fn add_function(
        &mut self,
        head: FunctionHead,
        from: u32,
        to: u32,
        braces: Braces,
    ) -> Result<NodeId, NoMemory>
        ensures number { IfOk result (λ id. id.number ≡ length self.old.kept) }
        ensures ok { OnOk result (self.new ≡ with_function head from to braces self.old) }
        ensures err { OnErr result (self.new ≡ self.old) }
    {
        let number = self.nodes.len();
        let body = self.pending.len();
        if number >= NODES_END || body >= NODES_END {
            return Err(NoMemory);
        }
        self.nodes.reserve(1)?;
        self.pending.reserve(1)?;
        self.filled.reserve(1)?;
        let id = NodeId {
            number: number as u32,
        };
        let node = head.with_body(BodyId {
            number: body as u32,
        });
        put_function(&mut self.functions, from, id)?;
        self.nodes.push_reserved(Kept { node, from, to });
        self.pending.push_reserved(Pending {
            node: id,
            from: braces.from,
            to: braces.to,
            level: braces.level,
        });
        self.filled.push_reserved(None);
        Ok(id)
    }

    /// The node that was added last.
    pub fn root(&self) -> NodeId
        requires { 0 < length self.now.kept }
        ensures { result.number + 1 ≡ length self.now.kept }
    {
        NodeId {
            number: (self.nodes.len() - 1) as u32,
        }
    }

    /// The node of this number.
    pub fn node(&self, id: NodeId) -> &Node
        requires { id.number < length self.now.kept }
        ensures is { node_at self.now id ≡ Some result.now }
        ensures within { IsWithin id.number (length self.now.pending) (parts result.now) }
    {
        &self.nodes[id.number as usize].node
    }

    /// The first unit of a node, and the unit behind its last.
    pub fn span(&self, id: NodeId) -> (u32, u32)
        requires { id.number < length self.now.kept }
        ensures { span_at self.now id ≡ Some result }
    {
        let kept = &self.nodes[id.number as usize];
        (kept.from, kept.to)
    }

    /// The bodies, each with its function.
    pub fn pending(&self) -> &[Pending]
        ensures { result.now ≡ self.now.pending }
    {
        &self.pending
    }

    /// The node that a body was read as.
    pub fn body(&self, id: BodyId) -> Option<NodeId>
        requires { id.number < length self.now.pending }
        ensures is { slice_get self.now.filled id.number ≡ Some result }
        ensures within { IfSome result (λ body. body.number < length self.now.kept) }
    {
        self.filled[id.number as usize]
    }

    /// Says which node a body was read as.
    pub fn fill(&mut self, k: usize, body: NodeId)
        requires body { k < length self.old.pending }
        requires node { body.number < length self.old.kept }
        ensures { self.new ≡ with_body k body self.old }
    {
        self.filled[k] = Some(body);
    }

    /// The function that a unit names, in at most logarithmic time: a function by its first unit, and the handler that was added
    /// last by the unit behind it.
    pub fn function_at(&self, unit: u32) -> Option<NodeId>
        ensures is { result ≡ function_at self.now unit }
        ensures within { IfSome result (λ id. id.number < length self.now.kept) }
    {
        match self.handler_to(unit) {
            Some(id) => Some(id),
            None => self.functions.get(&unit).copied(),
        }
    }

    // The node that was added last, where it is a handler that ends there.
    fn handler_to(&self, unit: u32) -> Option<NodeId>
        ensures is { result ≡ handler_among self.now.kept unit }
        ensures within { IfSome result (λ id. id.number < length self.now.kept) }
    {
        let last = self.nodes.last()?;
        if last.node.is_handler() && last.to == unit {
            Some(self.root())
        } else {
            None
        }
    }

    /// The names that a program, a handler or a function's body declares; of a function those that its body does, once it is read.
    pub fn declared(&self, id: NodeId) -> &[JText]
        requires { id.number < length self.now.kept }
        ensures { result.now ≡ declared self.now id }
    {
        match self.scope(id) {
            Some(scope) => scope.names.as_slice(),
            None => &[],
        }
    }

    /// The scope of a program, a handler or a function's body; of a function that of its body, once it is read.
    pub fn scope(&self, id: NodeId) -> Option<&Scope>
        requires { id.number < length self.now.kept }
        ensures { option_copied result ≡ scope self.now id }
    {
        let node = self.node(id);
        match node {
            Node::Function { body, .. } => self.scope_of_body(*body),
            Node::Declaration { body, .. } => self.scope_of_body(*body),
            _ => node.scope(),
        }
    }

    // The scope that the body carries.
    fn scope_of_body(&self, id: BodyId) -> Option<&Scope>
        requires { id.number < length self.now.pending }
        ensures { option_copied result ≡ scope_of_body self.now (slice_get self.now.filled id.number) }
    {
        let body = self.filled[id.number as usize]?;
        self.nodes[body.number as usize].node.scope()
    }
}
