// The productions of expressions (ECMA-262 edition 5.1, clause 11): what is to be read in the place
// of a part.
ghost use Rattle.std.specs.Prelude.{◌≡◌, ◌++◌, OnOk, List, [], ◌∷◌, if◌then◌else◌};
ghost use Rattle.js_tree.specs.declared.production.Production.TheVariants as production;
ghost use Rattle.js_tree.specs.declared.production.UnaryOperator.TheVariants as unary;
ghost use Rattle.js_grammar.specs.declared.sight.Sight.{Sight};
ghost use Rattle.js_grammar.specs.declared.symbol.Nonterminal.TheVariants as part;
ghost use Rattle.js_grammar.specs.declared.symbol.Symbol.{Symbol};
ghost use Rattle.js_grammar.specs.declared.symbol.Symbol.TheVariants.{Never};
ghost use Rattle.js_productions.specs.Glances.{sight_of};
ghost use Rattle.js_grammar.specs.Grammar as grammar;
ghost use Rattle.js_tree.specs.Trees.{Tree};
ghost use Rattle.js_productions.specs.Targets.{target_of};

use crate::looks::{
    assignment_operator, binary_operator, is_bare, is_key, is_target, this_word, unary_operator,
    update_operator,
};
use crate::seeing::{Glance, text_at};
use crate::stack::{Stack, push_symbols};
use js_grammar::{Build, Form, Nonterminal, Seen, Symbol};
use js_tokens::{Token, Word};
use js_tree::{Production, UnaryOperator, UpdateOperator};
use mug_text::NoMemory;
use std::alloc::Global;

pub(crate) fn commas(stack: &mut Stack, form: Form, from: usize, seen: Seen) -> Result<(), NoMemory>
    ensures { OnOk result (stack.new ≡ grammar.commas form from seen ++ stack.old) }
{
    match seen {
        Seen::Word(Word::Comma) => push_symbols!(stack; Symbol::Word(Word::Comma),
                Symbol::Part(Nonterminal::Assignment(form)),
                Symbol::Build(Build::Node(Production::Comma, from, 2)),
                Symbol::Part(Nonterminal::Commas(form, from))),
        _ => Ok(()),
    }
}

// The target is judged at the operator.
pub(crate) fn assigned(
    stack: &mut Stack,
    form: Form,
    from: usize,
    seen: Seen,
    last: Option<Production>,
) -> Result<(), NoMemory>
    ensures { OnOk result ((vs : List Tree) → target_of vs ≡ last →
        stack.new ≡ grammar.assigned form from seen vs ++ stack.old) }
{
    if is_target(last) {
        assigned_by(stack, form, seen, from, assignment_operator(seen))
    } else {
        Ok(())
    }
}

fn assigned_by(
    stack: &mut Stack,
    form: Form,
    seen: Seen,
    from: usize,
    operator: Option<Production>,
) -> Result<(), NoMemory>
    ensures { OnOk result (stack.new ≡ grammar.assigned_by form from seen operator ++ stack.old) }
{
    match operator {
        Some(production) => push_symbols!(stack; this_word(seen),
                Symbol::Part(Nonterminal::Assignment(form)),
                Symbol::Build(Build::Node(production, from, 2))),
        None => Ok(()),
    }
}

// Between `?` and `:`, `in` is always an operator.
pub(crate) fn choice(stack: &mut Stack, form: Form, from: usize, seen: Seen) -> Result<(), NoMemory>
    ensures { OnOk result (stack.new ≡ grammar.choice form from seen ++ stack.old) }
{
    match seen {
        Seen::Word(Word::Question) => push_symbols!(stack; Symbol::Word(Word::Question),
                Symbol::Part(Nonterminal::Assignment(Form::Full)),
                Symbol::Word(Word::Colon),
                Symbol::Part(Nonterminal::Assignment(form)),
                Symbol::Build(Build::Node(Production::Conditional, from, 3))),
        _ => Ok(()),
    }
}

// The right operand has operators of a higher level alone, so that those of one level go from left
// to right.
pub(crate) fn operators(
    stack: &mut Stack,
    least: u8,
    form: Form,
    from: usize,
    seen: Seen,
) -> Result<(), NoMemory>
    ensures { OnOk result (stack.new ≡
        grammar.operators_by least form from seen (grammar.binary_operator form seen)
        ++ stack.old) }
{
    match binary_operator(form, seen) {
        Some((level, production)) => {
            if level < least {
                return Ok(());
            }
            push_symbols!(stack; this_word(seen),
                    Symbol::Part(Nonterminal::Operation(level + 1, form)),
                    Symbol::Build(Build::Node(production, from, 2)),
                    Symbol::Part(Nonterminal::Operators(least, form, from)))
        }
        None => Ok(()),
    }
}

// The target of `++` and `--` is judged where the operand is finished, and so is that of `delete`.
pub(crate) fn unary(stack: &mut Stack, from: usize, seen: Seen) -> Result<(), NoMemory>
    ensures { OnOk result (stack.new ≡
        grammar.unary_by seen from (grammar.update_operator seen) (grammar.unary_operator seen)
        ++ stack.old) }
{
    if let Some(operator) = update_operator(seen) {
        return push_symbols!(stack; this_word(seen),
                Symbol::Part(Nonterminal::Updated(operator, from)));
    }
    match unary_operator(seen) {
        Some(operator) => push_symbols!(stack; this_word(seen),
                Symbol::Part(Nonterminal::Operand(operator, from))),
        None => push_symbols!(stack; Symbol::Part(Nonterminal::LeftHand),
                Symbol::Part(Nonterminal::Postfix(from))),
    }
}

// The operand of `++` or `--` has no such operator behind it.
pub(crate) fn target(stack: &mut Stack, from: usize, seen: Seen) -> Result<(), NoMemory>
    ensures { OnOk result (stack.new ≡
        grammar.target_by seen from (grammar.update_operator seen) (grammar.unary_operator seen)
        ++ stack.old) }
{
    if let Some(operator) = update_operator(seen) {
        return push_symbols!(stack; this_word(seen),
                Symbol::Part(Nonterminal::Updated(operator, from)));
    }
    match unary_operator(seen) {
        Some(operator) => push_symbols!(stack; this_word(seen),
                Symbol::Part(Nonterminal::TargetOperand(operator, from))),
        None => push_symbols!(stack; Symbol::Part(Nonterminal::LeftHand)),
    }
}

pub(crate) fn operated(
    stack: &mut Stack,
    operator: UnaryOperator,
    from: usize,
    last: Option<Production>,
) -> Result<(), NoMemory>
    ensures { OnOk result ((vs : List Tree) → target_of vs ≡ last →
        stack.new ≡ grammar.operated operator from vs ++ stack.old) }
{
    match operator {
        UnaryOperator::Delete => deleted(stack, from, is_bare(last)),
        _ => push_symbols!(stack; Symbol::Build(Build::Node(Production::Unary(operator), from, 1))),
    }
}

fn deleted(stack: &mut Stack, from: usize, bare: bool) -> Result<(), NoMemory>
    ensures { OnOk result (stack.new ≡
        (if bare then Never ∷ [] else grammar.node (production.Unary unary.Delete) from 1 ∷ [])
        ++ stack.old) }
{
    if bare {
        push_symbols!(stack; Symbol::Never)
    } else {
        let production = Production::Unary(UnaryOperator::Delete);
        push_symbols!(stack; Symbol::Build(Build::Node(production, from, 1)))
    }
}

pub(crate) fn prefixed(
    stack: &mut Stack,
    operator: UpdateOperator,
    from: usize,
    last: Option<Production>,
) -> Result<(), NoMemory>
    ensures { OnOk result ((s : List Symbol) (u : Sight) (vs : List Tree) → target_of vs ≡ last →
        stack.new ≡ grammar.produce (part.Prefixed operator from) s u vs ++ stack.old) }
{
    if is_target(last) {
        push_symbols!(stack; Symbol::Build(Build::Node(Production::Prefix(operator), from, 1)))
    } else {
        push_symbols!(stack; Symbol::Never)
    }
}

// No line terminator stands before it.
pub(crate) fn postfix(
    stack: &mut Stack,
    from: usize,
    glance: Glance,
    last: Option<Production>,
) -> Result<(), NoMemory>
    ensures { OnOk result ((vs : List Tree) → target_of vs ≡ last → stack.new ≡
        grammar.postfix_by from (sight_of glance []) (grammar.update_operator glance.seen) vs
        ++ stack.old) }
{
    match update_operator(glance.seen) {
        Some(operator) => {
            if !glance.line_before && is_target(last) {
                push_symbols!(stack; this_word(glance.seen),
                        Symbol::Build(Build::Node(Production::Postfix(operator), from, 1)))
            } else {
                Ok(())
            }
        }
        None => Ok(()),
    }
}

pub(crate) fn left_hand(stack: &mut Stack, from: usize, seen: Seen) -> Result<(), NoMemory>
    ensures { OnOk result (stack.new ≡ grammar.left_hand from seen ++ stack.old) }
{
    match seen {
        Seen::Word(Word::New) => push_symbols!(stack; Symbol::Part(Nonterminal::New),
                Symbol::Part(Nonterminal::Tail(from))),
        _ => push_symbols!(stack; Symbol::Part(Nonterminal::Primary),
                Symbol::Part(Nonterminal::Tail(from))),
    }
}

pub(crate) fn member_tail(
    stack: &mut Stack,
    more: Nonterminal,
    from: usize,
    seen: Seen,
) -> Result<(), NoMemory>
    ensures { OnOk result (stack.new ≡ grammar.member_tail more from seen ++ stack.old) }
{
    match seen {
        Seen::Word(Word::Dot) => push_symbols!(stack; Symbol::Word(Word::Dot),
                Symbol::Part(Nonterminal::Key(from)),
                Symbol::Part(more)),
        Seen::Word(Word::OpenBracket) => push_symbols!(stack; Symbol::Word(Word::OpenBracket),
                Symbol::Part(Nonterminal::Expression(Form::Full)),
                Symbol::Word(Word::CloseBracket),
                Symbol::Build(Build::Node(Production::Index, from, 2)),
                Symbol::Part(more)),
        _ => Ok(()),
    }
}

pub(crate) fn tail(stack: &mut Stack, from: usize, seen: Seen) -> Result<(), NoMemory>
    ensures { OnOk result (stack.new ≡ grammar.tail from seen ++ stack.old) }
{
    match seen {
        Seen::Word(Word::OpenParen) => push_symbols!(stack; Symbol::Part(Nonterminal::Arguments),
                Symbol::Build(Build::Node(Production::Call, from, 2)),
                Symbol::Part(Nonterminal::Tail(from))),
        _ => member_tail(stack, Nonterminal::Tail(from), from, seen),
    }
}

pub(crate) fn key(
    alloc: Global,
    stack: &mut Stack,
    from: usize,
    glance: Glance,
    tokens: &[Token],
) -> Result<(), NoMemory>
    ensures { OnOk result (stack.new ≡ grammar.key from (sight_of glance tokens.now) ++ stack.old) }
{
    if is_key(glance.seen) {
        push_symbols!(stack; this_word(glance.seen),
                Symbol::Build(Build::Text(text_at(alloc, tokens)?)),
                Symbol::Build(Build::Node(Production::Member, from, 2)))
    } else {
        push_symbols!(stack; Symbol::Never)
    }
}

pub(crate) fn constructor(stack: &mut Stack, seen: Seen) -> Result<(), NoMemory>
    ensures { OnOk result (stack.new ≡ grammar.constructor seen ++ stack.old) }
{
    match seen {
        Seen::Word(Word::New) => push_symbols!(stack; Symbol::Part(Nonterminal::New)),
        _ => push_symbols!(stack; Symbol::Part(Nonterminal::Primary)),
    }
}

pub(crate) fn given(stack: &mut Stack, from: usize, seen: Seen) -> Result<(), NoMemory>
    ensures { OnOk result (stack.new ≡ grammar.given from seen ++ stack.old) }
{
    match seen {
        Seen::Word(Word::OpenParen) => push_symbols!(stack; Symbol::Part(Nonterminal::Arguments),
                Symbol::Build(Build::Node(Production::New, from, 2))),
        _ => push_symbols!(stack; Symbol::Build(Build::Group(0)),
                Symbol::Build(Build::Node(Production::New, from, 2))),
    }
}

pub(crate) fn first_argument(stack: &mut Stack, seen: Seen) -> Result<(), NoMemory>
    ensures { OnOk result (stack.new ≡ grammar.first_argument seen ++ stack.old) }
{
    match seen {
        Seen::Word(Word::CloseParen) => push_symbols!(stack; Symbol::Word(Word::CloseParen)),
        _ => push_symbols!(stack; Symbol::Part(Nonterminal::Assignment(Form::Full)),
                Symbol::Build(Build::Add),
                Symbol::Part(Nonterminal::MoreArguments)),
    }
}

pub(crate) fn more_arguments(stack: &mut Stack, seen: Seen) -> Result<(), NoMemory>
    ensures { OnOk result (stack.new ≡ grammar.more_arguments seen ++ stack.old) }
{
    match seen {
        Seen::Word(Word::Comma) => push_symbols!(stack; Symbol::Word(Word::Comma),
                Symbol::Part(Nonterminal::Assignment(Form::Full)),
                Symbol::Build(Build::Add),
                Symbol::Part(Nonterminal::MoreArguments)),
        _ => push_symbols!(stack; Symbol::Word(Word::CloseParen)),
    }
}
