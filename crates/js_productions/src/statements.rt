// The productions of statements (ECMA-262 edition 5.1, clause 12).
ghost use Rattle.std.specs.Prelude.{◌≡◌, ◌++◌, OnOk, [], ◌∷◌, if◌then◌else◌};
ghost use Rattle.js_tokens.specs.declared.word.Word.TheVariants as words;
ghost use Rattle.js_grammar.specs.declared.sight.Seen.TheVariants as sees;
ghost use Rattle.js_grammar.specs.declared.symbol.Symbol.TheVariants.{Never};
ghost use Rattle.js_productions.specs.Glances.{sight_of};
ghost use Rattle.js_grammar.specs.Grammar as grammar;

use crate::looks::{begins, starts};
use crate::scans::{breaks_to, in_function};
use crate::seeing::{Glance, colon_at, text_at};
use crate::stack::{Stack, push_symbols};
use js_grammar::{Build, Form, Nonterminal, Open, Seen, Symbol};
use js_tokens::{Token, Word};
use js_tree::Production;
use mug_text::NoMemory;
use std::alloc::Global;

// Functions are declared here alone.
pub(crate) fn sources(stack: &mut Stack, seen: Seen) -> Result<(), NoMemory>
    ensures { OnOk result (stack.new ≡ grammar.sources stack.old seen ++ stack.old) }
{
    match seen {
        Seen::Word(Word::Function) => push_symbols!(stack; Symbol::Part(Nonterminal::Declaration),
                Symbol::Build(Build::Add),
                Symbol::Part(Nonterminal::Sources)),
        _ => {
            if starts(stack.as_slice(), seen) {
                push_symbols!(stack; Symbol::Part(Nonterminal::Statement),
                        Symbol::Build(Build::Add),
                        Symbol::Part(Nonterminal::Sources))
            } else {
                Ok(())
            }
        }
    }
}

pub(crate) fn statements(stack: &mut Stack, seen: Seen) -> Result<(), NoMemory>
    ensures { OnOk result (stack.new ≡ grammar.statements stack.old seen ++ stack.old) }
{
    if starts(stack.as_slice(), seen) {
        push_symbols!(stack; Symbol::Part(Nonterminal::Statement),
                Symbol::Build(Build::Add),
                Symbol::Part(Nonterminal::Statements))
    } else {
        Ok(())
    }
}

pub(crate) fn statement(
    alloc: Global,
    stack: &mut Stack,
    glance: Glance,
    tokens: &[Token],
) -> Result<(), NoMemory>
    ensures { OnOk result (stack.new ≡
        grammar.statement stack.old (sight_of glance tokens.now) glance.seen ++ stack.old) }
{
    match glance.seen {
        Seen::Word(Word::OpenBrace) => block_statement(stack, glance),
        Seen::Word(Word::Var) => var_statement(stack, glance),
        Seen::Word(Word::Semicolon) => empty_statement(stack, glance),
        Seen::Word(Word::If) => if_statement(stack, glance),
        Seen::Word(Word::Do) => do_statement(stack, glance),
        Seen::Word(Word::While) => while_statement(stack, glance),
        Seen::Word(Word::For) => for_statement(stack, glance),
        Seen::Word(Word::Continue) => continue_statement(stack, glance),
        Seen::Word(Word::Break) => break_statement(stack, glance),
        Seen::Word(Word::Return) => return_statement(
            stack,
            glance.from,
            in_function(stack.as_slice()),
        ),
        Seen::Word(Word::Switch) => switch_statement(stack, glance),
        Seen::Word(Word::Throw) => throw_statement(stack, glance),
        Seen::Word(Word::Try) => try_statement(stack, glance),
        Seen::Word(Word::Name) => named_statement(alloc, stack, glance, tokens),
        seen => expression_statement(stack, glance.from, seen),
    }
}

fn block_statement(stack: &mut Stack, glance: Glance) -> Result<(), NoMemory>
    ensures { OnOk result (stack.new ≡
        grammar.statement [] (sight_of glance []) (sees.Word words.OpenBrace) ++ stack.old) }
{
    push_symbols!(stack; Symbol::Part(Nonterminal::Braced),
            Symbol::Build(Build::Node(Production::Block, glance.from, 1)),
            Symbol::Leave(Open::Part))
}

fn empty_statement(stack: &mut Stack, glance: Glance) -> Result<(), NoMemory>
    ensures { OnOk result (stack.new ≡
        grammar.statement [] (sight_of glance []) (sees.Word words.Semicolon) ++ stack.old) }
{
    push_symbols!(stack; Symbol::Word(Word::Semicolon),
            Symbol::Build(Build::Node(Production::Empty, glance.from, 0)),
            Symbol::Leave(Open::Part))
}

fn for_statement(stack: &mut Stack, glance: Glance) -> Result<(), NoMemory>
    ensures { OnOk result (stack.new ≡
        grammar.statement [] (sight_of glance []) (sees.Word words.For) ++ stack.old) }
{
    push_symbols!(stack; Symbol::Word(Word::For),
            Symbol::Word(Word::OpenParen),
            Symbol::Part(Nonterminal::ForHead(glance.from)),
            Symbol::Leave(Open::Loop))
}

fn continue_statement(stack: &mut Stack, glance: Glance) -> Result<(), NoMemory>
    ensures { OnOk result (stack.new ≡
        grammar.statement [] (sight_of glance []) (sees.Word words.Continue) ++ stack.old) }
{
    push_symbols!(stack; Symbol::Word(Word::Continue),
            Symbol::Part(Nonterminal::ContinueTo(glance.from)),
            Symbol::Leave(Open::Part))
}

fn break_statement(stack: &mut Stack, glance: Glance) -> Result<(), NoMemory>
    ensures { OnOk result (stack.new ≡
        grammar.statement [] (sight_of glance []) (sees.Word words.Break) ++ stack.old) }
{
    push_symbols!(stack; Symbol::Word(Word::Break),
            Symbol::Part(Nonterminal::BreakTo(glance.from)),
            Symbol::Leave(Open::Part))
}

fn throw_statement(stack: &mut Stack, glance: Glance) -> Result<(), NoMemory>
    ensures { OnOk result (stack.new ≡
        grammar.statement [] (sight_of glance []) (sees.Word words.Throw) ++ stack.old) }
{
    push_symbols!(stack; Symbol::Word(Word::Throw),
            Symbol::Part(Nonterminal::Thrown(glance.from)),
            Symbol::Leave(Open::Part))
}

fn try_statement(stack: &mut Stack, glance: Glance) -> Result<(), NoMemory>
    ensures { OnOk result (stack.new ≡
        grammar.statement [] (sight_of glance []) (sees.Word words.Try) ++ stack.old) }
{
    push_symbols!(stack; Symbol::Word(Word::Try),
            Symbol::Part(Nonterminal::Braced),
            Symbol::Part(Nonterminal::Handlers(glance.from)),
            Symbol::Leave(Open::Part))
}

fn var_statement(stack: &mut Stack, glance: Glance) -> Result<(), NoMemory>
    ensures { OnOk result (stack.new ≡
        grammar.statement [] (sight_of glance []) (sees.Word words.Var) ++ stack.old) }
{
    push_symbols!(stack; Symbol::Word(Word::Var),
            Symbol::Part(Nonterminal::Declarations(Form::Full)),
            Symbol::Semicolon,
            Symbol::Build(Build::Node(Production::Var, glance.from, 1)),
            Symbol::Leave(Open::Part))
}

fn if_statement(stack: &mut Stack, glance: Glance) -> Result<(), NoMemory>
    ensures { OnOk result (stack.new ≡
        grammar.statement [] (sight_of glance []) (sees.Word words.If) ++ stack.old) }
{
    push_symbols!(stack; Symbol::Word(Word::If),
            Symbol::Word(Word::OpenParen),
            Symbol::Part(Nonterminal::Expression(Form::Full)),
            Symbol::Word(Word::CloseParen),
            Symbol::Part(Nonterminal::Statement),
            Symbol::Part(Nonterminal::Else(glance.from)),
            Symbol::Leave(Open::Part))
}

fn do_statement(stack: &mut Stack, glance: Glance) -> Result<(), NoMemory>
    ensures { OnOk result (stack.new ≡
        grammar.statement [] (sight_of glance []) (sees.Word words.Do) ++ stack.old) }
{
    push_symbols!(stack; Symbol::Word(Word::Do),
            Symbol::Part(Nonterminal::Statement),
            Symbol::Word(Word::While),
            Symbol::Word(Word::OpenParen),
            Symbol::Part(Nonterminal::Expression(Form::Full)),
            Symbol::Word(Word::CloseParen),
            Symbol::FreeSemicolon,
            Symbol::Build(Build::Node(Production::DoWhile, glance.from, 2)),
            Symbol::Leave(Open::Loop))
}

fn while_statement(stack: &mut Stack, glance: Glance) -> Result<(), NoMemory>
    ensures { OnOk result (stack.new ≡
        grammar.statement [] (sight_of glance []) (sees.Word words.While) ++ stack.old) }
{
    push_symbols!(stack; Symbol::Word(Word::While),
            Symbol::Word(Word::OpenParen),
            Symbol::Part(Nonterminal::Expression(Form::Full)),
            Symbol::Word(Word::CloseParen),
            Symbol::Part(Nonterminal::Statement),
            Symbol::Build(Build::Node(Production::While, glance.from, 2)),
            Symbol::Leave(Open::Loop))
}

fn switch_statement(stack: &mut Stack, glance: Glance) -> Result<(), NoMemory>
    ensures { OnOk result (stack.new ≡
        grammar.statement [] (sight_of glance []) (sees.Word words.Switch) ++ stack.old) }
{
    push_symbols!(stack; Symbol::Word(Word::Switch),
            Symbol::Word(Word::OpenParen),
            Symbol::Part(Nonterminal::Expression(Form::Full)),
            Symbol::Word(Word::CloseParen),
            Symbol::Word(Word::OpenBrace),
            Symbol::Build(Build::Group(0)),
            Symbol::Part(Nonterminal::Cases(false)),
            Symbol::Build(Build::Node(Production::Switch, glance.from, 2)),
            Symbol::Leave(Open::Switch))
}

fn return_statement(stack: &mut Stack, from: usize, inside: bool) -> Result<(), NoMemory>
    ensures { OnOk result (stack.new ≡
        (if inside then grammar.return_statement from else Never ∷ []) ++ stack.old) }
{
    if inside {
        push_symbols!(stack; Symbol::Word(Word::Return),
                Symbol::Part(Nonterminal::Returned(from)),
                Symbol::Leave(Open::Part))
    } else {
        push_symbols!(stack; Symbol::Never)
    }
}

// A name begins a label where a colon follows; one that is open already is refused at its colon.
fn named_statement(
    alloc: Global,
    stack: &mut Stack,
    glance: Glance,
    tokens: &[Token],
) -> Result<(), NoMemory>
    ensures { OnOk result (stack.new ≡
        grammar.named_statement stack.old (sight_of glance tokens.now) ++ stack.old) }
{
    let from = glance.from;
    if !colon_at(tokens) {
        return push_symbols!(stack; Symbol::Part(Nonterminal::Expression(Form::Full)),
                Symbol::Semicolon,
                Symbol::Build(Build::Node(Production::Expression, from, 1)),
                Symbol::Leave(Open::Part));
    }
    let text = text_at(alloc, tokens)?;
    if breaks_to(&text, stack.as_slice()) {
        return push_symbols!(stack; Symbol::Word(Word::Name),
                Symbol::Never,
                Symbol::Leave(Open::Part));
    }
    let label = text.copy()?;
    push_symbols!(stack; Symbol::Word(Word::Name),
            Symbol::Build(Build::Text(text)),
            Symbol::Word(Word::Colon),
            Symbol::Part(Nonterminal::Statement),
            Symbol::Build(Build::Node(Production::Labelled, from, 2)),
            Symbol::Leave(Open::Labelled(label)))
}

fn expression_statement(stack: &mut Stack, from: usize, seen: Seen) -> Result<(), NoMemory>
    ensures { OnOk result (stack.new ≡ grammar.expression_statement from seen ++ stack.old) }
{
    if begins(seen) {
        push_symbols!(stack; Symbol::Part(Nonterminal::Expression(Form::Full)),
                Symbol::Semicolon,
                Symbol::Build(Build::Node(Production::Expression, from, 1)),
                Symbol::Leave(Open::Part))
    } else {
        push_symbols!(stack; Symbol::Never)
    }
}

pub(crate) fn more_declarators(stack: &mut Stack, form: Form, seen: Seen) -> Result<(), NoMemory>
    ensures { OnOk result (stack.new ≡ grammar.more_declarators form seen ++ stack.old) }
{
    match seen {
        Seen::Word(Word::Comma) => push_symbols!(stack; Symbol::Word(Word::Comma),
                Symbol::Part(Nonterminal::Declarator(form)),
                Symbol::Part(Nonterminal::MoreDeclarators(form))),
        _ => Ok(()),
    }
}

pub(crate) fn initialiser(stack: &mut Stack, form: Form, seen: Seen) -> Result<(), NoMemory>
    ensures { OnOk result (stack.new ≡ grammar.initialiser form seen ++ stack.old) }
{
    match seen {
        Seen::Word(Word::Assign) => push_symbols!(stack; Symbol::Word(Word::Assign),
                Symbol::Part(Nonterminal::Assignment(form))),
        _ => push_symbols!(stack; Symbol::Build(Build::Missing)),
    }
}

pub(crate) fn otherwise(stack: &mut Stack, from: usize, seen: Seen) -> Result<(), NoMemory>
    ensures { OnOk result (stack.new ≡ grammar.otherwise from seen ++ stack.old) }
{
    match seen {
        Seen::Word(Word::Else) => push_symbols!(stack; Symbol::Word(Word::Else),
                Symbol::Part(Nonterminal::Statement),
                Symbol::Build(Build::Node(Production::If, from, 3))),
        _ => push_symbols!(stack; Symbol::Build(Build::Missing),
                Symbol::Build(Build::Node(Production::If, from, 3))),
    }
}

// One default at most.
pub(crate) fn cases(stack: &mut Stack, has_default: bool, seen: Seen) -> Result<(), NoMemory>
    ensures { OnOk result (stack.new ≡ grammar.cases has_default seen ++ stack.old) }
{
    match seen {
        Seen::Word(Word::Case) => push_symbols!(stack; Symbol::Word(Word::Case),
                Symbol::Part(Nonterminal::Expression(Form::Full)),
                Symbol::Word(Word::Colon),
                Symbol::Build(Build::Group(0)),
                Symbol::Part(Nonterminal::Statements),
                Symbol::Build(Build::Group(2)),
                Symbol::Build(Build::Add),
                Symbol::Part(Nonterminal::Cases(has_default))),
        Seen::Word(Word::Default) => default_case(stack, has_default),
        _ => push_symbols!(stack; Symbol::Word(Word::CloseBrace)),
    }
}

fn default_case(stack: &mut Stack, has_default: bool) -> Result<(), NoMemory>
    ensures { OnOk result (stack.new ≡
        grammar.cases has_default (sees.Word words.Default) ++ stack.old) }
{
    if has_default {
        push_symbols!(stack; Symbol::Word(Word::CloseBrace))
    } else {
        push_symbols!(stack; Symbol::Word(Word::Default),
                Symbol::Word(Word::Colon),
                Symbol::Build(Build::Missing),
                Symbol::Build(Build::Group(0)),
                Symbol::Part(Nonterminal::Statements),
                Symbol::Build(Build::Group(2)),
                Symbol::Build(Build::Add),
                Symbol::Part(Nonterminal::Cases(true)))
    }
}

pub(crate) fn handlers(stack: &mut Stack, from: usize, seen: Seen) -> Result<(), NoMemory>
    ensures { OnOk result (stack.new ≡ grammar.handlers from seen ++ stack.old) }
{
    match seen {
        Seen::Word(Word::Catch) => push_symbols!(stack; Symbol::Word(Word::Catch),
                Symbol::Word(Word::OpenParen),
                Symbol::Part(Nonterminal::Name),
                Symbol::Word(Word::CloseParen),
                Symbol::Part(Nonterminal::Braced),
                Symbol::Build(Build::Group(2)),
                Symbol::Part(Nonterminal::Finally(from))),
        Seen::Word(Word::Finally) => push_symbols!(stack; Symbol::Build(Build::Missing),
                Symbol::Word(Word::Finally),
                Symbol::Part(Nonterminal::Braced),
                Symbol::Build(Build::Node(Production::Try, from, 3))),
        _ => push_symbols!(stack; Symbol::Never),
    }
}

pub(crate) fn finally(stack: &mut Stack, from: usize, seen: Seen) -> Result<(), NoMemory>
    ensures { OnOk result (stack.new ≡ grammar.finally from seen ++ stack.old) }
{
    match seen {
        Seen::Word(Word::Finally) => push_symbols!(stack; Symbol::Word(Word::Finally),
                Symbol::Part(Nonterminal::Braced),
                Symbol::Build(Build::Node(Production::Try, from, 3))),
        _ => push_symbols!(stack; Symbol::Build(Build::Missing),
                Symbol::Build(Build::Node(Production::Try, from, 3))),
    }
}
