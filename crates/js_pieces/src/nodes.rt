// Nodes of expressions, of what was read last (ECMA-262 edition 5.1, clause 11).
ghost use Rattle.std.specs.Prelude.{[], ◌∷◌, IfOk};
ghost use Rattle.js_tree.specs.declared.production.Production.TheVariants as production;
ghost use Rattle.js_grammar.specs.inner.Sorts as sort;
ghost use Rattle.js_pieces.specs.Pieces.{Fits};
ghost use Rattle.js_pieces.specs.Nodes.{Makes};

use crate::pieces::Pieces;
use js_tree::{BinaryOperator, Node, UnaryOperator, UpdateOperator};
use mug_text::NoMemory;

impl Pieces {
    pub(crate) fn name(&mut self) -> Node
        requires { Fits (sort.Text ∷ []) self.old }
        ensures { Makes production.Name self.old result self.new }
    {
        Node::Name(self.pop_text())
    }

    pub(crate) fn text(&mut self) -> Node
        requires { Fits (sort.Text ∷ []) self.old }
        ensures { Makes production.Text self.old result self.new }
    {
        Node::Text(self.pop_text())
    }

    pub(crate) fn array(&mut self) -> Result<Node, NoMemory>
        requires { Fits (sort.Elements ∷ []) self.old }
        ensures { IfOk result (λ n. Makes production.Array self.old n self.new) }
    {
        let elements = self.pop_elements()?;
        Ok(Node::Array(elements))
    }

    pub(crate) fn object(&mut self) -> Result<Node, NoMemory>
        requires { Fits (sort.Entries ∷ []) self.old }
        ensures { IfOk result (λ n. Makes production.Object self.old n self.new) }
    {
        let entries = self.pop_entries()?;
        Ok(Node::Object(entries))
    }

    pub(crate) fn member(&mut self) -> Node
        requires { Fits (sort.Text ∷ sort.Node ∷ []) self.old }
        ensures { Makes production.Member self.old result self.new }
    {
        let key = self.pop_text();
        let object = self.pop_node();
        Node::Member { object, key }
    }

    pub(crate) fn index(&mut self) -> Node
        requires { Fits (sort.Node ∷ sort.Node ∷ []) self.old }
        ensures { Makes production.Index self.old result self.new }
    {
        let key = self.pop_node();
        let object = self.pop_node();
        Node::Index { object, key }
    }

    pub(crate) fn call(&mut self) -> Node
        requires { Fits (sort.Nodes ∷ sort.Node ∷ []) self.old }
        ensures { Makes production.Call self.old result self.new }
    {
        let arguments = self.pop_nodes();
        let callee = self.pop_node();
        Node::Call { callee, arguments }
    }

    pub(crate) fn created(&mut self) -> Node
        requires { Fits (sort.Nodes ∷ sort.Node ∷ []) self.old }
        ensures { Makes production.New self.old result self.new }
    {
        let arguments = self.pop_nodes();
        let callee = self.pop_node();
        Node::New { callee, arguments }
    }

    pub(crate) fn postfix(&mut self, operator: UpdateOperator) -> Node
        requires { Fits (sort.Node ∷ []) self.old }
        ensures { Makes (production.Postfix operator) self.old result self.new }
    {
        let target = self.pop_node();
        Node::Postfix { operator, target }
    }

    pub(crate) fn prefix(&mut self, operator: UpdateOperator) -> Node
        requires { Fits (sort.Node ∷ []) self.old }
        ensures { Makes (production.Prefix operator) self.old result self.new }
    {
        let target = self.pop_node();
        Node::Prefix { operator, target }
    }

    pub(crate) fn unary(&mut self, operator: UnaryOperator) -> Node
        requires { Fits (sort.Node ∷ []) self.old }
        ensures { Makes (production.Unary operator) self.old result self.new }
    {
        let operand = self.pop_node();
        Node::Unary { operator, operand }
    }

    pub(crate) fn binary(&mut self, operator: BinaryOperator) -> Node
        requires { Fits (sort.Node ∷ sort.Node ∷ []) self.old }
        ensures { Makes (production.Binary operator) self.old result self.new }
    {
        let right = self.pop_node();
        let left = self.pop_node();
        Node::Binary {
            operator,
            left,
            right,
        }
    }

    pub(crate) fn both(&mut self) -> Node
        requires { Fits (sort.Node ∷ sort.Node ∷ []) self.old }
        ensures { Makes production.And self.old result self.new }
    {
        let right = self.pop_node();
        let left = self.pop_node();
        Node::And { left, right }
    }

    pub(crate) fn either(&mut self) -> Node
        requires { Fits (sort.Node ∷ sort.Node ∷ []) self.old }
        ensures { Makes production.Or self.old result self.new }
    {
        let right = self.pop_node();
        let left = self.pop_node();
        Node::Or { left, right }
    }

    pub(crate) fn conditional(&mut self) -> Node
        requires { Fits (sort.Node ∷ sort.Node ∷ sort.Node ∷ []) self.old }
        ensures { Makes production.Conditional self.old result self.new }
    {
        let otherwise = self.pop_node();
        let then = self.pop_node();
        let test = self.pop_node();
        Node::Conditional {
            test,
            then,
            otherwise,
        }
    }

    pub(crate) fn assign(&mut self, operator: Option<BinaryOperator>) -> Node
        requires { Fits (sort.Node ∷ sort.Node ∷ []) self.old }
        ensures { Makes (production.Assign operator) self.old result self.new }
    {
        let value = self.pop_node();
        let target = self.pop_node();
        Node::Assign {
            operator,
            target,
            value,
        }
    }

    pub(crate) fn comma(&mut self) -> Node
        requires { Fits (sort.Node ∷ sort.Node ∷ []) self.old }
        ensures { Makes production.Comma self.old result self.new }
    {
        let right = self.pop_node();
        let left = self.pop_node();
        Node::Comma { left, right }
    }
}
