// The node of a production, of what was read last.
ghost use Rattle.std.specs.Prelude.{[], IfOk};
ghost use Rattle.js_grammar.specs.inner.Sorts.{onto, parts_of};
ghost use Rattle.js_pieces.specs.Pieces.{Fits};
ghost use Rattle.js_pieces.specs.Nodes.{IsPlain, Makes};

use crate::pieces::Pieces;
use js_tree::{Node, Production};
use mug_text::NoMemory;
use std::alloc::Global;

impl Pieces {
    /// The node of a production that is no function and no whole text.
    pub fn node(&mut self, alloc: Global, production: Production) -> Result<Node, NoMemory>
        requires plain { IsPlain production }
        requires fits { Fits (onto (parts_of production) []) self.old }
        ensures { IfOk result (λ n. Makes production self.old n self.new) }
    {
        match production {
            Production::This => Ok(Node::This),
            Production::Name => Ok(self.name()),
            Production::Null => Ok(Node::Null),
            Production::Bool(value) => Ok(Node::Bool(value)),
            Production::Number(value) => Ok(Node::Number(value)),
            Production::Text => Ok(self.text()),
            Production::Array => self.array(),
            Production::Object => self.object(),
            Production::Member => Ok(self.member()),
            Production::Index => Ok(self.index()),
            Production::Call => Ok(self.call()),
            Production::New => Ok(self.created()),
            Production::Postfix(operator) => Ok(self.postfix(operator)),
            Production::Prefix(operator) => Ok(self.prefix(operator)),
            Production::Unary(operator) => Ok(self.unary(operator)),
            Production::Binary(operator) => Ok(self.binary(operator)),
            Production::And => Ok(self.both()),
            Production::Or => Ok(self.either()),
            Production::Conditional => Ok(self.conditional()),
            Production::Assign(operator) => Ok(self.assign(operator)),
            Production::Comma => Ok(self.comma()),
            Production::Block => Ok(self.block()),
            Production::Var => Ok(self.var()),
            Production::Empty => Ok(Node::Empty),
            Production::Expression => Ok(self.expression()),
            Production::If => Ok(self.choice()),
            Production::DoWhile => Ok(self.do_while()),
            Production::While => Ok(self.while_loop()),
            Production::For => Ok(self.for_loop()),
            Production::ForIn => Ok(self.for_in()),
            Production::Continue => Ok(self.continued()),
            Production::Break => Ok(self.broken()),
            Production::Return => Ok(self.returned()),
            Production::Labelled => Ok(self.labelled()),
            Production::Switch => Ok(self.switch()),
            Production::Throw => Ok(self.thrown()),
            Production::Try => self.guarded(alloc),
            Production::Function
            | Production::Declaration
            | Production::Program
            | Production::Handler
            | Production::Body => unreachable!(),
        }
    }
}
