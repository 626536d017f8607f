// The productions of the heads of `for`, and of what leads out of statements (ECMA-262 edition 5.1,
// 12.6 to 12.9 and 12.13).
ghost use Rattle.std.specs.Prelude.{◌≡◌, ◌++◌, [], OnOk};
ghost use Rattle.js_productions.specs.Glances.{sight_of};
ghost use Rattle.js_grammar.specs.Grammar as grammar;

use crate::looks::may_insert;
use crate::seeing::{Glance, opens_target, text_at};
use crate::stack::{Stack, push_symbols};
use js_grammar::{Build, Form, Nonterminal, Seen, Symbol};
use js_tokens::{Token, Word};
use js_tree::Production;
use mug_text::NoMemory;
use std::alloc::Global;

// With a target that is a name, also in parentheses, or with an expression.
fn for_expression(stack: &mut Stack, from: usize, is_in: bool) -> Result<(), NoMemory>
    ensures { OnOk result (stack.new ≡ grammar.for_expression from is_in ++ stack.old) }
{
    if is_in {
        push_symbols!(stack; Symbol::Part(Nonterminal::ForTarget),
                Symbol::Part(Nonterminal::ForObject(from)))
    } else {
        push_symbols!(stack; Symbol::Part(Nonterminal::Expression(Form::NoIn)),
                Symbol::Part(Nonterminal::ForStart(from)))
    }
}

// The target of a for-in is a name, or a `var` of one name without a value.
pub(crate) fn for_head(
    stack: &mut Stack,
    from: usize,
    glance: Glance,
    tokens: &[Token],
) -> Result<(), NoMemory>
    ensures { OnOk result (stack.new ≡
        grammar.for_head from (sight_of glance tokens.now) glance.seen ++ stack.old) }
{
    match glance.seen {
        Seen::Word(Word::Var) => push_symbols!(stack; Symbol::Word(Word::Var),
                Symbol::Part(Nonterminal::ForVar(from, glance.from))),
        Seen::Word(Word::Semicolon) => push_symbols!(stack; Symbol::Build(Build::Missing),
                Symbol::Part(Nonterminal::ForStart(from))),
        Seen::Word(Word::Name) => for_expression(stack, from, opens_target(tokens)),
        Seen::Word(Word::OpenParen) => for_expression(stack, from, opens_target(tokens)),
        _ => for_expression(stack, from, false),
    }
}

fn for_declared(stack: &mut Stack, from: usize, at: usize, is_in: bool) -> Result<(), NoMemory>
    ensures { OnOk result (stack.new ≡ grammar.for_declared from at is_in ++ stack.old) }
{
    if is_in {
        push_symbols!(stack; Symbol::Build(Build::Group(0)),
                Symbol::Part(Nonterminal::Name),
                Symbol::Build(Build::Missing),
                Symbol::Build(Build::Group(2)),
                Symbol::Build(Build::Add),
                Symbol::Build(Build::Node(Production::Var, at, 1)),
                Symbol::Part(Nonterminal::ForObject(from)))
    } else {
        push_symbols!(stack; Symbol::Part(Nonterminal::Declarations(Form::NoIn)),
                Symbol::Build(Build::Node(Production::Var, at, 1)),
                Symbol::Part(Nonterminal::ForStart(from)))
    }
}

pub(crate) fn for_var(
    stack: &mut Stack,
    from: usize,
    at: usize,
    glance: Glance,
    tokens: &[Token],
) -> Result<(), NoMemory>
    ensures { OnOk result (stack.new ≡
        grammar.for_var from at (sight_of glance tokens.now) glance.seen ++ stack.old) }
{
    match glance.seen {
        Seen::Word(Word::Name) => for_declared(stack, from, at, opens_target(tokens)),
        _ => for_declared(stack, from, at, false),
    }
}

// A name in parentheses is an expression in them.
pub(crate) fn for_target(
    alloc: Global,
    stack: &mut Stack,
    glance: Glance,
    tokens: &[Token],
) -> Result<(), NoMemory>
    ensures { OnOk result (stack.new ≡
        grammar.for_target (sight_of glance tokens.now) glance.seen ++ stack.old) }
{
    match glance.seen {
        Seen::Word(Word::Name) => push_symbols!(stack; Symbol::Word(Word::Name),
                Symbol::Build(Build::Text(text_at(alloc, tokens)?)),
                Symbol::Build(Build::Node(Production::Name, glance.from, 1))),
        _ => push_symbols!(stack; Symbol::Part(Nonterminal::Primary)),
    }
}

// No semicolon is inserted in the head.
pub(crate) fn for_test(stack: &mut Stack, seen: Seen) -> Result<(), NoMemory>
    ensures { OnOk result (stack.new ≡ grammar.for_test seen ++ stack.old) }
{
    match seen {
        Seen::Word(Word::Semicolon) =>
            push_symbols!(stack; Symbol::Build(Build::Missing), Symbol::Word(Word::Semicolon)),
        _ => push_symbols!(stack; Symbol::Part(Nonterminal::Expression(Form::Full)),
                Symbol::Word(Word::Semicolon)),
    }
}

pub(crate) fn for_update(stack: &mut Stack, seen: Seen) -> Result<(), NoMemory>
    ensures { OnOk result (stack.new ≡ grammar.for_update seen ++ stack.old) }
{
    match seen {
        Seen::Word(Word::CloseParen) => push_symbols!(stack; Symbol::Build(Build::Missing),
                Symbol::Word(Word::CloseParen)),
        _ => push_symbols!(stack; Symbol::Part(Nonterminal::Expression(Form::Full)),
                Symbol::Word(Word::CloseParen)),
    }
}

// Without a label, where there is something to lead out of.
fn unlabelled(
    stack: &mut Stack,
    there: bool,
    production: Production,
    from: usize,
) -> Result<(), NoMemory>
    ensures { OnOk result (stack.new ≡ grammar.unlabelled there production from ++ stack.old) }
{
    if there {
        push_symbols!(stack; Symbol::Build(Build::Missing),
                Symbol::Semicolon,
                Symbol::Build(Build::Node(production, from, 1)))
    } else {
        push_symbols!(stack; Symbol::Never)
    }
}

// With one, where it leads out of something.
fn labelled(
    alloc: Global,
    stack: &mut Stack,
    there: bool,
    production: Production,
    from: usize,
    glance: Glance,
    tokens: &[Token],
) -> Result<(), NoMemory>
    ensures { OnOk result (stack.new ≡
        grammar.labelled there production from (sight_of glance tokens.now) ++ stack.old) }
{
    if there {
        push_symbols!(stack; Symbol::Word(Word::Name),
                Symbol::Build(Build::Text(text_at(alloc, tokens)?)),
                Symbol::Semicolon,
                Symbol::Build(Build::Node(production, from, 1)))
    } else {
        push_symbols!(stack; Symbol::Never)
    }
}

// What a jump leads out of, without a label and with the one that is seen.
#[derive(Clone, Copy, Drop)]
pub(crate) struct Leads {
    pub(crate) bare: bool,
    pub(crate) labelled: bool,
}

// A label stands on the same line.
pub(crate) fn jump(
    alloc: Global,
    stack: &mut Stack,
    leads: Leads,
    production: Production,
    from: usize,
    glance: Glance,
    tokens: &[Token],
) -> Result<(), NoMemory>
    ensures { OnOk result (stack.new ≡
        grammar.jump leads.bare leads.labelled production from (sight_of glance tokens.now)
        glance.seen ++ stack.old) }
{
    match glance.seen {
        Seen::Word(Word::Name) => {
            if glance.line_before {
                unlabelled(stack, leads.bare, production, from)
            } else {
                labelled(
                    alloc,
                    stack,
                    leads.labelled,
                    production,
                    from,
                    glance,
                    tokens,
                )
            }
        }
        _ => unlabelled(stack, leads.bare, production, from),
    }
}

// The value stands on the same line.
pub(crate) fn returned(stack: &mut Stack, from: usize, glance: Glance) -> Result<(), NoMemory>
    ensures { OnOk result (stack.new ≡
        grammar.returned_by from (sight_of glance []) glance.seen ++ stack.old) }
{
    match glance.seen {
        Seen::Word(Word::Semicolon) => push_symbols!(stack; Symbol::Build(Build::Missing),
                Symbol::Semicolon,
                Symbol::Build(Build::Node(Production::Return, from, 1))),
        _ => {
            if may_insert(glance) {
                push_symbols!(stack; Symbol::Build(Build::Missing),
                        Symbol::Semicolon,
                        Symbol::Build(Build::Node(Production::Return, from, 1)))
            } else {
                push_symbols!(stack; Symbol::Part(Nonterminal::Expression(Form::Full)),
                        Symbol::Semicolon,
                        Symbol::Build(Build::Node(Production::Return, from, 1)))
            }
        }
    }
}

// The value stands on the same line.
pub(crate) fn thrown(stack: &mut Stack, from: usize, glance: Glance) -> Result<(), NoMemory>
    ensures { OnOk result (stack.new ≡ grammar.thrown from (sight_of glance []) ++ stack.old) }
{
    if may_insert(glance) {
        push_symbols!(stack; Symbol::Never)
    } else {
        push_symbols!(stack; Symbol::Part(Nonterminal::Expression(Form::Full)),
                Symbol::Semicolon,
                Symbol::Build(Build::Node(Production::Throw, from, 1)))
    }
}
