// What a word may begin, and which operator it is.
ghost use Rattle.std.specs.Prelude.{◌≡◌, ◌≤◌, IfSome, List, [], reverse};
ghost use Rattle.js_tokens.specs.declared.word.Word.TheVariants as words;
ghost use Rattle.js_tree.specs.Trees.{Tree};
ghost use Rattle.js_grammar.specs.declared.sight.Seen.TheVariants as sees;
ghost use Rattle.js_productions.specs.Targets.{target_of};
ghost use Rattle.js_productions.specs.Targets as targets;
ghost use Rattle.js_productions.specs.Glances.{sight_of};
ghost use Rattle.js_grammar.specs.Grammar as grammar;
ghost use Rattle.js_grammar.specs.Sights as sights;

use crate::scans::in_function;
use crate::seeing::Glance;
use js_grammar::{Form, Seen, Symbol};
use js_tokens::Word;
use js_tree::{BinaryOperator, Production, UnaryOperator, UpdateOperator};

/// Whether a semicolon may be inserted here.
pub fn may_insert(glance: Glance) -> bool
    ensures { result ≡ sights.may_insert (sight_of glance []) }
{
    glance.line_before || matches!(glance.seen, Seen::Word(Word::CloseBrace) | Seen::End)
}

// Whether an expression begins so, where no function and no object literal may.
pub(crate) fn begins(seen: Seen) -> bool
    ensures { result ≡ grammar.begins seen }
{
    matches!(
        seen,
        Seen::Word(
            Word::Name
                | Word::Number
                | Word::Text
                | Word::This
                | Word::Null
                | Word::True
                | Word::False
                | Word::OpenParen
                | Word::OpenBracket
                | Word::New
                | Word::Delete
                | Word::Void
                | Word::TypeOf
                | Word::PlusPlus
                | Word::MinusMinus
                | Word::Plus
                | Word::Minus
                | Word::BitNot
                | Word::Not
        )
    )
}

// Whether a statement begins so; `return` within a function alone.
pub(crate) fn starts(stack: &[Symbol], seen: Seen) -> bool
    ensures { result ≡ grammar.starts (reverse stack.now) seen }
{
    match seen {
        Seen::Word(Word::Return) => in_function(stack),
        Seen::Word(
            Word::OpenBrace
            | Word::Var
            | Word::Semicolon
            | Word::If
            | Word::Do
            | Word::While
            | Word::For
            | Word::Continue
            | Word::Break
            | Word::Switch
            | Word::Throw
            | Word::Try,
        ) => true,
        _ => begins(seen),
    }
}

// Whether it is a reserved word or a name.
pub(crate) fn is_key(seen: Seen) -> bool
    ensures { result ≡ grammar.is_key seen }
{
    matches!(
        seen,
        Seen::Word(
            Word::Name
                | Word::Break
                | Word::Case
                | Word::Catch
                | Word::Continue
                | Word::Debugger
                | Word::Default
                | Word::Delete
                | Word::Do
                | Word::Else
                | Word::Finally
                | Word::For
                | Word::Function
                | Word::If
                | Word::In
                | Word::InstanceOf
                | Word::New
                | Word::Return
                | Word::Switch
                | Word::This
                | Word::Throw
                | Word::Try
                | Word::TypeOf
                | Word::Var
                | Word::Void
                | Word::While
                | Word::With
                | Word::Class
                | Word::Const
                | Word::Enum
                | Word::Export
                | Word::Extends
                | Word::Import
                | Word::Super
                | Word::Null
                | Word::True
                | Word::False
        )
    )
}

// Whether a property may be named by it in an object literal.
pub(crate) fn is_property(seen: Seen) -> bool
    ensures { result ≡ grammar.is_property seen }
{
    match seen {
        Seen::Word(Word::Text | Word::Number) => true,
        _ => is_key(seen),
    }
}

// The very word that is seen.
pub(crate) fn this_word(seen: Seen) -> Symbol
    ensures { result ≡ grammar.this_word seen }
{
    match seen {
        Seen::Word(word) => Symbol::Word(word),
        _ => Symbol::Never,
    }
}

/// The production, where it is of what may be assigned to: a name or a member.
pub fn target(production: Production) -> Option<Production>
    ensures { result ≡ targets.target production }
{
    match production {
        Production::Name | Production::Member | Production::Index => Some(production),
        _ => None,
    }
}

// Whether the last tree may be assigned to.
pub(crate) fn is_target(last: Option<Production>) -> bool
    ensures { (vs : List Tree) → target_of vs ≡ last → result ≡ grammar.is_target vs }
{
    matches!(
        last,
        Some(Production::Name | Production::Member | Production::Index)
    )
}

// Whether the last tree is a name.
pub(crate) fn is_bare(last: Option<Production>) -> bool
    ensures { (vs : List Tree) → target_of vs ≡ last → result ≡ grammar.is_bare vs }
{
    matches!(last, Some(Production::Name))
}

// The level and the production of an operator between operands, from `||` to `*`.
pub(crate) fn binary_operator(form: Form, seen: Seen) -> Option<(u8, Production)>
    ensures is { result ≡ grammar.binary_operator form seen }
    ensures low { IfSome result (λ r. r.0 ≤ 10) }
{
    let Seen::Word(word) = seen else {
        return None;
    };
    match word {
        Word::Or => Some((1, Production::Or)),
        Word::And => Some((2, Production::And)),
        Word::BitOr => Some((3, Production::Binary(BinaryOperator::BitOr))),
        Word::BitXor => Some((4, Production::Binary(BinaryOperator::BitXor))),
        Word::BitAnd => Some((5, Production::Binary(BinaryOperator::BitAnd))),
        Word::Equal => Some((6, Production::Binary(BinaryOperator::Equal))),
        Word::NotEqual => Some((6, Production::Binary(BinaryOperator::NotEqual))),
        Word::Identical => Some((6, Production::Binary(BinaryOperator::Identical))),
        Word::NotIdentical => Some((6, Production::Binary(BinaryOperator::NotIdentical))),
        Word::Less => Some((7, Production::Binary(BinaryOperator::Less))),
        Word::Greater => Some((7, Production::Binary(BinaryOperator::Greater))),
        Word::LessEqual => Some((7, Production::Binary(BinaryOperator::LessEqual))),
        Word::GreaterEqual => Some((7, Production::Binary(BinaryOperator::GreaterEqual))),
        Word::InstanceOf => Some((7, Production::Binary(BinaryOperator::InstanceOf))),
        Word::In => in_operator(form),
        Word::ShiftLeft => Some((8, Production::Binary(BinaryOperator::ShiftLeft))),
        Word::ShiftRight => Some((8, Production::Binary(BinaryOperator::ShiftRight))),
        Word::ShiftZero => Some((8, Production::Binary(BinaryOperator::ShiftZero))),
        Word::Plus => Some((9, Production::Binary(BinaryOperator::Add))),
        Word::Minus => Some((9, Production::Binary(BinaryOperator::Subtract))),
        Word::Star => Some((10, Production::Binary(BinaryOperator::Multiply))),
        Word::Slash => Some((10, Production::Binary(BinaryOperator::Divide))),
        Word::Percent => Some((10, Production::Binary(BinaryOperator::Remainder))),
        _ => None,
    }
}

fn in_operator(form: Form) -> Option<(u8, Production)>
    ensures is { result ≡ grammar.binary_operator form (sees.Word words.In) }
    ensures low { IfSome result (λ r. r.0 ≤ 10) }
{
    match form {
        Form::Full => Some((7, Production::Binary(BinaryOperator::In))),
        Form::NoIn => None,
    }
}

// The production of an assignment.
pub(crate) fn assignment_operator(seen: Seen) -> Option<Production>
    ensures { result ≡ grammar.assignment_operator seen }
{
    match seen {
        Seen::Word(Word::Assign) => Some(Production::Assign(None)),
        Seen::Word(Word::PlusAssign) => Some(Production::Assign(Some(BinaryOperator::Add))),
        Seen::Word(Word::MinusAssign) => Some(Production::Assign(Some(BinaryOperator::Subtract))),
        Seen::Word(Word::StarAssign) => Some(Production::Assign(Some(BinaryOperator::Multiply))),
        Seen::Word(Word::SlashAssign) => Some(Production::Assign(Some(BinaryOperator::Divide))),
        Seen::Word(Word::PercentAssign) => Some(Production::Assign(Some(
            BinaryOperator::Remainder,
        ))),
        Seen::Word(Word::ShiftLeftAssign) => Some(Production::Assign(Some(
            BinaryOperator::ShiftLeft,
        ))),
        Seen::Word(Word::ShiftRightAssign) => Some(Production::Assign(Some(
            BinaryOperator::ShiftRight,
        ))),
        Seen::Word(Word::ShiftZeroAssign) => Some(Production::Assign(Some(
            BinaryOperator::ShiftZero,
        ))),
        Seen::Word(Word::BitAndAssign) => Some(Production::Assign(Some(BinaryOperator::BitAnd))),
        Seen::Word(Word::BitXorAssign) => Some(Production::Assign(Some(BinaryOperator::BitXor))),
        Seen::Word(Word::BitOrAssign) => Some(Production::Assign(Some(BinaryOperator::BitOr))),
        _ => None,
    }
}

pub(crate) fn unary_operator(seen: Seen) -> Option<UnaryOperator>
    ensures { result ≡ grammar.unary_operator seen }
{
    match seen {
        Seen::Word(Word::Delete) => Some(UnaryOperator::Delete),
        Seen::Word(Word::Void) => Some(UnaryOperator::Void),
        Seen::Word(Word::TypeOf) => Some(UnaryOperator::TypeOf),
        Seen::Word(Word::Plus) => Some(UnaryOperator::Plus),
        Seen::Word(Word::Minus) => Some(UnaryOperator::Minus),
        Seen::Word(Word::BitNot) => Some(UnaryOperator::BitNot),
        Seen::Word(Word::Not) => Some(UnaryOperator::Not),
        _ => None,
    }
}

pub(crate) fn update_operator(seen: Seen) -> Option<UpdateOperator>
    ensures { result ≡ grammar.update_operator seen }
{
    match seen {
        Seen::Word(Word::PlusPlus) => Some(UpdateOperator::Increment),
        Seen::Word(Word::MinusMinus) => Some(UpdateOperator::Decrement),
        _ => None,
    }
}
