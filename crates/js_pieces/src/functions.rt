// Functions, and whole texts (ECMA-262 edition 5.1, clauses 13 and 14).
ghost use Rattle.std.specs.Prelude.{◌≡◌, ℕ, ◌+◌, [], ◌∷◌, length, IfOk, OnOk};
ghost use Rattle.std.specs.Global.{Box};
ghost use Rattle.js_tree.specs.declared.node.Scope.{Scope};
ghost use Rattle.js_tree.specs.declared.production.Production.TheVariants as production;
ghost use Rattle.js_tree.specs.Trees.{Tree, Holds, nodes};
ghost use Rattle.js_grammar.specs.declared.symbol.Start.TheVariants as start;
ghost use Rattle.js_grammar.specs.inner.Sorts as sort;
ghost use Rattle.js_pieces.specs.Functions.{AddsFunction, AddsText, Encloses, Finishes, LastIsText};
ghost use Rattle.js_pieces.specs.Functions.{HasNodes, HasStatements, TextAdded};
ghost use Rattle.js_pieces.specs.Functions.{declaring, text_scope};
ghost use Rattle.js_pieces.specs.Pieces.{Fits};

use crate::pieces::{Piece, Pieces, ReadBody, WholeText};
use js_tree::{
    Braces, DeclarationHead, ExpressionHead, FunctionHead, Node, NodeId, Production, Scope, Script,
};
use mug_text::{JText, Listed, NoMemory};
use std::alloc::Global;

// `event`
const EVENT: [u16; 5] = [0x65, 0x76, 0x65, 0x6E, 0x74];

impl Pieces {
    /// A function's body. Its node stands in the arena only with its function, whose scope it
    /// carries.
    pub fn body(&mut self, from: u32, to: u32, braces: Braces) -> Result<(), NoMemory>
        requires { Fits (sort.Nodes ∷ []) self.old }
        ensures { OnOk result (Encloses from to braces self.old self.new) }
    {
        let statements = self.pop_nodes();
        self.push(Piece::Body(ReadBody {
            statements,
            from,
            to,
            braces,
        }))
    }

    /// A whole text. Its node stands in the arena only when its end is read.
    pub fn whole(&mut self, production: Production, from: u32, to: u32) -> Result<(), NoMemory>
        requires { Fits (sort.Nodes ∷ []) self.old }
        ensures { OnOk result (Finishes production from to self.old self.new) }
    {
        let statements = self.pop_nodes();
        self.push(Piece::Whole(WholeText {
            production,
            statements,
            from,
            to,
        }))
    }

    /// A function expression, with its body (clause 13).
    pub fn function(
        &mut self,
        alloc: Global,
        script: &mut Script,
        from: u32,
        to: u32,
    ) -> Result<NodeId, NoMemory>
        requires fits { Fits (sort.Body ∷ sort.Words ∷ sort.Maybe_text ∷ []) self.old }
        requires there { HasStatements script.old self.old }
        ensures { IfOk result (λ id.
            AddsFunction production.Function from to script.old self.old id script.new self.new) }
    {
        let body = self.pop_body();
        let parameters = self.pop_words();
        let name = self.pop_maybe_text();
        let scope = script.call_scope(
            alloc,
            parameters.as_slice(),
            name.as_ref(),
            body.statements.as_slice(),
        )?;
        let head = Box::new(alloc, ExpressionHead { name, parameters })?;
        let head = FunctionHead::Expression(head);
        add_function(alloc, script, head, scope, body, from, to)
    }

    /// A function declaration, with its body (clause 13).
    pub fn declaration(
        &mut self,
        alloc: Global,
        script: &mut Script,
        from: u32,
        to: u32,
    ) -> Result<NodeId, NoMemory>
        requires fits { Fits (sort.Body ∷ sort.Words ∷ sort.Text ∷ []) self.old }
        requires there { HasStatements script.old self.old }
        ensures { IfOk result (λ id.
            AddsFunction production.Declaration from to script.old self.old id script.new self.new) }
    {
        let body = self.pop_body();
        let parameters = self.pop_words();
        let name = self.pop_text();
        let scope = script.call_scope(
            alloc,
            parameters.as_slice(),
            None,
            body.statements.as_slice(),
        )?;
        let head = Box::new(alloc, DeclarationHead { name, parameters })?;
        let head = FunctionHead::Declaration(head);
        add_function(alloc, script, head, scope, body, from, to)
    }

    /// The node of a program or a handler, behind the others (clause 14).
    pub fn finish(&mut self, alloc: Global, script: &mut Script) -> Result<(), NoMemory>
        requires text { LastIsText self.old }
        requires there { HasStatements script.old self.old }
        ensures { OnOk result (AddsText script.old self.old script.new self.new) }
    {
        let text = self.pop_whole();
        match text.production {
            Production::Program => add_program(alloc, script, text),
            Production::Handler => add_handler(alloc, script, text),
            _ => unreachable!(),
        }
    }
}

// The body's node, then the function, and that the one is the other's body.
fn add_function(
    alloc: Global,
    script: &mut Script,
    head: FunctionHead,
    scope: Scope,
    body: ReadBody,
    from: u32,
    to: u32,
) -> Result<NodeId, NoMemory>
    requires { HasNodes script.old body.statements }
    ensures added { OnOk result ((s : Box Scope) × (s.value ≡ scope) ×
        (script.new ≡ declaring head s body from to script.old)) }
    ensures number { IfOk result (λ id. id.number ≡ length script.old.kept + 1) }
{
    let ReadBody {
        statements,
        from: body_from,
        to: body_to,
        braces,
    } = body;
    let scope = Box::new(alloc, scope)?;
    let filled = script.add(Node::Body { statements, scope }, body_from, body_to)?;
    let number = script.pending().len();
    let id = script.add_function(head, from, to, braces)?;
    script.fill(number, filled);
    Ok(id)
}

fn add_program(alloc: Global, script: &mut Script, text: WholeText) -> Result<(), NoMemory>
    requires { HasNodes script.old text.statements }
    ensures { OnOk result (TextAdded start.Program text script.old script.new) }
{
    let WholeText {
        production: _,
        statements,
        from,
        to,
    } = text;
    let scope = script.program_scope(alloc, statements.as_slice())?;
    let scope = Box::new(alloc, scope)?;
    let _ = script.add(Node::Program { statements, scope }, from, to)?;
    Ok(())
}

fn add_handler(alloc: Global, script: &mut Script, text: WholeText) -> Result<(), NoMemory>
    requires { HasNodes script.old text.statements }
    ensures { OnOk result (TextAdded start.Handler text script.old script.new) }
{
    let WholeText {
        production: _,
        statements,
        from,
        to,
    } = text;
    let scope = handler_scope(alloc, script, statements.as_slice())?;
    let scope = Box::new(alloc, scope)?;
    let _ = script.add(Node::Handler { statements, scope }, from, to)?;
    Ok(())
}

// A handler is a function of the one parameter `event`.
fn handler_scope(alloc: Global, script: &Script, statements: &[NodeId]) -> Result<Scope, NoMemory>
    requires { HasNodes script.now statements.now }
    ensures { IfOk result (λ scope. (bodies : ℕ → Tree) (t : Tree) →
        Holds bodies script.now.kept (nodes statements.now) t →
        scope ≡ text_scope start.Handler t) }
{
    let event = JText::from_units(alloc, &EVENT)?;
    let mut parameters = Listed::new(alloc);
    parameters.push(event)?;
    script.call_scope(alloc, parameters.as_slice(), None, statements)
}
