// Nodes of statements, of what was read last (ECMA-262 edition 5.1, clause 12).
ghost use Rattle.std.specs.Prelude.{[], ◌∷◌, IfOk};
ghost use Rattle.js_tree.specs.declared.production.Production.TheVariants as production;
ghost use Rattle.js_grammar.specs.inner.Sorts as sort;
ghost use Rattle.js_pieces.specs.Pieces.{Fits};
ghost use Rattle.js_pieces.specs.Nodes.{Makes};

use crate::pieces::Pieces;
use js_tree::{Guarded, Node};
use mug_text::NoMemory;
use std::alloc::Global;

impl Pieces {
    pub(crate) fn block(&mut self) -> Node
        requires { Fits (sort.Nodes ∷ []) self.old }
        ensures { Makes production.Block self.old result self.new }
    {
        Node::Block(self.pop_nodes())
    }

    pub(crate) fn var(&mut self) -> Node
        requires { Fits (sort.Declarators ∷ []) self.old }
        ensures { Makes production.Var self.old result self.new }
    {
        Node::Var(self.pop_declarators())
    }

    pub(crate) fn expression(&mut self) -> Node
        requires { Fits (sort.Node ∷ []) self.old }
        ensures { Makes production.Expression self.old result self.new }
    {
        Node::Expression(self.pop_node())
    }

    pub(crate) fn choice(&mut self) -> Node
        requires { Fits (sort.Maybe_node ∷ sort.Node ∷ sort.Node ∷ []) self.old }
        ensures { Makes production.If self.old result self.new }
    {
        let otherwise = self.pop_maybe_node();
        let then = self.pop_node();
        let test = self.pop_node();
        Node::If {
            test,
            then,
            otherwise,
        }
    }

    pub(crate) fn do_while(&mut self) -> Node
        requires { Fits (sort.Node ∷ sort.Node ∷ []) self.old }
        ensures { Makes production.DoWhile self.old result self.new }
    {
        let test = self.pop_node();
        let body = self.pop_node();
        Node::DoWhile { body, test }
    }

    pub(crate) fn while_loop(&mut self) -> Node
        requires { Fits (sort.Node ∷ sort.Node ∷ []) self.old }
        ensures { Makes production.While self.old result self.new }
    {
        let body = self.pop_node();
        let test = self.pop_node();
        Node::While { test, body }
    }

    pub(crate) fn for_loop(&mut self) -> Node
        requires { Fits (sort.Node ∷ sort.Maybe_node ∷ sort.Maybe_node ∷ sort.Maybe_node ∷
            []) self.old }
        ensures { Makes production.For self.old result self.new }
    {
        let body = self.pop_node();
        let update = self.pop_maybe_node();
        let test = self.pop_maybe_node();
        let start = self.pop_maybe_node();
        Node::For {
            start,
            test,
            update,
            body,
        }
    }

    pub(crate) fn for_in(&mut self) -> Node
        requires { Fits (sort.Node ∷ sort.Node ∷ sort.Node ∷ []) self.old }
        ensures { Makes production.ForIn self.old result self.new }
    {
        let body = self.pop_node();
        let object = self.pop_node();
        let target = self.pop_node();
        Node::ForIn {
            target,
            object,
            body,
        }
    }

    pub(crate) fn continued(&mut self) -> Node
        requires { Fits (sort.Maybe_text ∷ []) self.old }
        ensures { Makes production.Continue self.old result self.new }
    {
        Node::Continue(self.pop_maybe_text())
    }

    pub(crate) fn broken(&mut self) -> Node
        requires { Fits (sort.Maybe_text ∷ []) self.old }
        ensures { Makes production.Break self.old result self.new }
    {
        Node::Break(self.pop_maybe_text())
    }

    pub(crate) fn returned(&mut self) -> Node
        requires { Fits (sort.Maybe_node ∷ []) self.old }
        ensures { Makes production.Return self.old result self.new }
    {
        Node::Return(self.pop_maybe_node())
    }

    pub(crate) fn labelled(&mut self) -> Node
        requires { Fits (sort.Node ∷ sort.Text ∷ []) self.old }
        ensures { Makes production.Labelled self.old result self.new }
    {
        let body = self.pop_node();
        let label = self.pop_text();
        Node::Labelled { label, body }
    }

    pub(crate) fn switch(&mut self) -> Node
        requires { Fits (sort.Cases ∷ sort.Node ∷ []) self.old }
        ensures { Makes production.Switch self.old result self.new }
    {
        let cases = self.pop_cases();
        let value = self.pop_node();
        Node::Switch { value, cases }
    }

    pub(crate) fn thrown(&mut self) -> Node
        requires { Fits (sort.Node ∷ []) self.old }
        ensures { Makes production.Throw self.old result self.new }
    {
        Node::Throw(self.pop_node())
    }

    pub(crate) fn guarded(&mut self, alloc: Global) -> Result<Node, NoMemory>
        requires { Fits (sort.Maybe_nodes ∷ sort.Maybe_catch ∷ sort.Nodes ∷ []) self.old }
        ensures { IfOk result (λ n. Makes production.Try self.old n self.new) }
    {
        let finally = self.pop_maybe_nodes();
        let catch = self.pop_maybe_catch();
        let block = self.pop_nodes();
        let guarded = Guarded {
            block,
            catch,
            finally,
        };
        Ok(Node::Try(Box::new(alloc, guarded)?))
    }
}
