// Which production a node is of.
use js_tree::{Node, Production};

pub(crate) fn production_of(node: &Node) -> Production {
    match node {
        Node::This => Production::This,
        Node::Name(_) => Production::Name,
        Node::Null => Production::Null,
        Node::Bool(value) => Production::Bool(*value),
        Node::Number(value) => Production::Number(*value),
        Node::Text(_) => Production::Text,
        Node::Array(_) => Production::Array,
        Node::Object(_) => Production::Object,
        Node::Function { .. } => Production::Function,
        Node::Member { .. } => Production::Member,
        Node::Index { .. } => Production::Index,
        Node::Call { .. } => Production::Call,
        Node::New { .. } => Production::New,
        Node::Postfix { operator, .. } => Production::Postfix(*operator),
        Node::Prefix { operator, .. } => Production::Prefix(*operator),
        Node::Unary { operator, .. } => Production::Unary(*operator),
        Node::Binary { operator, .. } => Production::Binary(*operator),
        Node::And { .. } => Production::And,
        Node::Or { .. } => Production::Or,
        Node::Conditional { .. } => Production::Conditional,
        Node::Assign { operator, .. } => Production::Assign(*operator),
        Node::Comma { .. } => Production::Comma,
        _ => statement_of(node),
    }
}

fn statement_of(node: &Node) -> Production {
    match node {
        Node::Block(_) => Production::Block,
        Node::Var(_) => Production::Var,
        Node::Expression(_) => Production::Expression,
        Node::If { .. } => Production::If,
        Node::DoWhile { .. } => Production::DoWhile,
        Node::While { .. } => Production::While,
        Node::For { .. } => Production::For,
        Node::ForIn { .. } => Production::ForIn,
        Node::Continue(_) => Production::Continue,
        Node::Break(_) => Production::Break,
        Node::Return(_) => Production::Return,
        Node::Labelled { .. } => Production::Labelled,
        Node::Switch { .. } => Production::Switch,
        Node::Throw(_) => Production::Throw,
        Node::Try(_) => Production::Try,
        Node::Declaration { .. } => Production::Declaration,
        Node::Program { .. } => Production::Program,
        Node::Handler { .. } => Production::Handler,
        Node::Body { .. } => Production::Body,
        _ => Production::Empty,
    }
}
