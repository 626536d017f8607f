// The productions of primary expressions and functions (ECMA-262 edition 5.1, 11.1 and clause 13).
ghost use Rattle.std.specs.Prelude.{◌≡◌, ◌++◌, [], ◌∷◌, OnOk, codes, if◌then◌else◌};
ghost use Rattle.js_tokens.specs.declared.word.Word.TheVariants as words;
ghost use Rattle.js_tree.specs.declared.production.Production.TheVariants as productions_of;
ghost use Rattle.js_grammar.specs.declared.symbol.Form.TheVariants as forms;
ghost use Rattle.js_grammar.specs.declared.symbol.Symbol.TheVariants as symbols_of;
ghost use Rattle.std.specs.Str.{bytes_eq};
ghost use Rattle.js_grammar.specs.declared.symbol.Nonterminal.TheVariants as parts;
ghost use Rattle.js_productions.specs.Glances.{sight_of};
ghost use Rattle.js_productions.specs.Glances as glances;
ghost use Rattle.js_grammar.specs.Grammar as grammar;

use crate::looks::{is_property, this_word};
use crate::seeing::{Glance, number_at, text_at};
use crate::stack::{Stack, push_symbols};
use js_grammar::{Build, Form, Nonterminal, Seen, Symbol};
use js_tokens::{Token, Word};
use js_tree::Production;
use mug_text::{JText, NoMemory};
use std::alloc::Global;

pub(crate) fn primary(
    alloc: Global,
    stack: &mut Stack,
    glance: Glance,
    tokens: &[Token],
) -> Result<(), NoMemory>
    ensures { OnOk result (stack.new ≡
        grammar.primary (sight_of glance tokens.now) glance.seen ++ stack.old) }
{
    let from = glance.from;
    match glance.seen {
        Seen::Word(Word::This) => leaf(stack, Word::This, Production::This, from),
        Seen::Word(Word::Name) => text_leaf(
            alloc,
            stack,
            Word::Name,
            Production::Name,
            glance,
            tokens,
        ),
        Seen::Word(Word::Null) => leaf(stack, Word::Null, Production::Null, from),
        Seen::Word(Word::True) => leaf(stack, Word::True, Production::Bool(true), from),
        Seen::Word(Word::False) => leaf(stack, Word::False, Production::Bool(false), from),
        Seen::Word(Word::Number) => leaf(
            stack,
            Word::Number,
            Production::Number(number_at(tokens)),
            from,
        ),
        Seen::Word(Word::Text) => text_leaf(
            alloc,
            stack,
            Word::Text,
            Production::Text,
            glance,
            tokens,
        ),
        Seen::Word(Word::OpenParen) => parenthesised(stack),
        Seen::Word(Word::OpenBracket) => array(stack, from),
        Seen::Word(Word::OpenBrace) => object(stack, from),
        Seen::Word(Word::Function) => push_symbols!(stack; Symbol::Part(Nonterminal::Function)),
        _ => push_symbols!(stack; Symbol::Never),
    }
}

// A node without parts.
fn leaf(stack: &mut Stack, word: Word, production: Production, from: usize) -> Result<(), NoMemory>
    ensures { OnOk result (stack.new ≡
        symbols_of.Word word ∷ grammar.node production from 0 ∷ [] ++ stack.old) }
{
    push_symbols!(stack; Symbol::Word(word),
            Symbol::Build(Build::Node(production, from, 0)))
}

// A node of what is written.
fn text_leaf(
    alloc: Global,
    stack: &mut Stack,
    word: Word,
    production: Production,
    glance: Glance,
    tokens: &[Token],
) -> Result<(), NoMemory>
    ensures { OnOk result (stack.new ≡
        symbols_of.Word word ∷ grammar.text (glances.text_at tokens.now) ∷
        grammar.node production glance.from 1 ∷ [] ++ stack.old) }
{
    let text = text_at(alloc, tokens)?;
    push_symbols!(stack; Symbol::Word(word),
            Symbol::Build(Build::Text(text)),
            Symbol::Build(Build::Node(production, glance.from, 1)))
}

fn parenthesised(stack: &mut Stack) -> Result<(), NoMemory>
    ensures { OnOk result (stack.new ≡
        symbols_of.Word words.OpenParen ∷ symbols_of.Part (parts.Expression forms.Full) ∷
        symbols_of.Word words.CloseParen ∷ [] ++ stack.old) }
{
    push_symbols!(stack; Symbol::Word(Word::OpenParen),
            Symbol::Part(Nonterminal::Expression(Form::Full)),
            Symbol::Word(Word::CloseParen))
}

fn array(stack: &mut Stack, from: usize) -> Result<(), NoMemory>
    ensures { OnOk result (stack.new ≡
        symbols_of.Word words.OpenBracket ∷ grammar.list ∷ symbols_of.Part parts.Elements ∷
        grammar.node productions_of.Array from 1 ∷ [] ++ stack.old) }
{
    push_symbols!(stack; Symbol::Word(Word::OpenBracket),
            Symbol::Build(Build::Group(0)),
            Symbol::Part(Nonterminal::Elements),
            Symbol::Build(Build::Node(Production::Array, from, 1)))
}

fn object(stack: &mut Stack, from: usize) -> Result<(), NoMemory>
    ensures { OnOk result (stack.new ≡
        symbols_of.Word words.OpenBrace ∷ grammar.list ∷ symbols_of.Part parts.Entries ∷
        grammar.node productions_of.Object from 1 ∷ [] ++ stack.old) }
{
    push_symbols!(stack; Symbol::Word(Word::OpenBrace),
            Symbol::Build(Build::Group(0)),
            Symbol::Part(Nonterminal::Entries),
            Symbol::Build(Build::Node(Production::Object, from, 1)))
}

// A comma without an element before it leaves a hole.
pub(crate) fn elements(stack: &mut Stack, seen: Seen) -> Result<(), NoMemory>
    ensures { OnOk result (stack.new ≡ grammar.elements seen ++ stack.old) }
{
    match seen {
        Seen::Word(Word::Comma) => push_symbols!(stack; Symbol::Word(Word::Comma),
                Symbol::Build(Build::Missing),
                Symbol::Build(Build::Add),
                Symbol::Part(Nonterminal::Elements)),
        Seen::Word(Word::CloseBracket) => push_symbols!(stack; Symbol::Word(Word::CloseBracket)),
        _ => push_symbols!(stack; Symbol::Part(Nonterminal::Assignment(Form::Full)),
                Symbol::Build(Build::Add),
                Symbol::Part(Nonterminal::MoreElements)),
    }
}

pub(crate) fn more_elements(stack: &mut Stack, seen: Seen) -> Result<(), NoMemory>
    ensures { OnOk result (stack.new ≡ grammar.more_elements seen ++ stack.old) }
{
    match seen {
        Seen::Word(Word::Comma) => push_symbols!(stack; Symbol::Word(Word::Comma),
                Symbol::Part(Nonterminal::Elements)),
        _ => push_symbols!(stack; Symbol::Word(Word::CloseBracket)),
    }
}

pub(crate) fn entries(stack: &mut Stack, seen: Seen) -> Result<(), NoMemory>
    ensures { OnOk result (stack.new ≡ grammar.entries seen ++ stack.old) }
{
    match seen {
        Seen::Word(Word::CloseBrace) => push_symbols!(stack; Symbol::Word(Word::CloseBrace)),
        _ => push_symbols!(stack; Symbol::Part(Nonterminal::Entry),
                Symbol::Build(Build::Add),
                Symbol::Part(Nonterminal::MoreEntries)),
    }
}

pub(crate) fn more_entries(stack: &mut Stack, seen: Seen) -> Result<(), NoMemory>
    ensures { OnOk result (stack.new ≡ grammar.more_entries seen ++ stack.old) }
{
    match seen {
        Seen::Word(Word::Comma) => push_symbols!(stack; Symbol::Word(Word::Comma),
                Symbol::Part(Nonterminal::Entries)),
        _ => push_symbols!(stack; Symbol::Word(Word::CloseBrace)),
    }
}

// `get` and `set` may begin an accessor.
fn behind_key(glance: Glance, tokens: &[Token], text: &JText) -> Nonterminal
    requires { text.now ≡ glances.text_at tokens.now }
    ensures { result ≡ grammar.behind_key (sight_of glance tokens.now) glance.seen }
{
    match glance.seen {
        Seen::Word(Word::Name) => behind_name(text.as_slice()),
        _ => Nonterminal::Value,
    }
}

fn behind_name(name: &[u16]) -> Nonterminal
    ensures { result ≡ (if bytes_eq name.now (codes "get") then parts.Getter
        else (if bytes_eq name.now (codes "set") then parts.Setter else parts.Value)) }
{
    if name == [0x67, 0x65, 0x74].as_slice() {
        Nonterminal::Getter
    } else if name == [0x73, 0x65, 0x74].as_slice() {
        Nonterminal::Setter
    } else {
        Nonterminal::Value
    }
}

pub(crate) fn entry(
    alloc: Global,
    stack: &mut Stack,
    glance: Glance,
    tokens: &[Token],
) -> Result<(), NoMemory>
    ensures { OnOk result (stack.new ≡ grammar.entry (sight_of glance tokens.now) ++ stack.old) }
{
    if !is_property(glance.seen) {
        return push_symbols!(stack; Symbol::Never);
    }
    let text = text_at(alloc, tokens)?;
    let behind = behind_key(glance, tokens, &text);
    push_symbols!(stack; this_word(glance.seen),
            Symbol::Build(Build::Text(text)),
            Symbol::Part(behind),
            Symbol::Build(Build::Group(2)))
}

// An accessor is read, and refused at its last brace.
pub(crate) fn getter(stack: &mut Stack, seen: Seen) -> Result<(), NoMemory>
    ensures { OnOk result (stack.new ≡ grammar.getter seen ++ stack.old) }
{
    if is_property(seen) {
        push_symbols!(stack; this_word(seen),
                Symbol::Word(Word::OpenParen),
                Symbol::Word(Word::CloseParen),
                Symbol::Part(Nonterminal::Accessed))
    } else {
        push_symbols!(stack; Symbol::Part(Nonterminal::Value))
    }
}

pub(crate) fn setter(stack: &mut Stack, seen: Seen) -> Result<(), NoMemory>
    ensures { OnOk result (stack.new ≡ grammar.setter seen ++ stack.old) }
{
    if is_property(seen) {
        push_symbols!(stack; this_word(seen),
                Symbol::Word(Word::OpenParen),
                Symbol::Part(Nonterminal::Name),
                Symbol::Word(Word::CloseParen),
                Symbol::Part(Nonterminal::Accessed))
    } else {
        push_symbols!(stack; Symbol::Part(Nonterminal::Value))
    }
}

pub(crate) fn own_name(
    alloc: Global,
    stack: &mut Stack,
    glance: Glance,
    tokens: &[Token],
) -> Result<(), NoMemory>
    ensures { OnOk result (stack.new ≡
        grammar.own_name (sight_of glance tokens.now) glance.seen ++ stack.old) }
{
    match glance.seen {
        Seen::Word(Word::Name) => push_symbols!(stack; Symbol::Word(Word::Name),
                Symbol::Build(Build::Text(text_at(alloc, tokens)?))),
        _ => push_symbols!(stack; Symbol::Build(Build::Missing)),
    }
}

pub(crate) fn name(
    alloc: Global,
    stack: &mut Stack,
    glance: Glance,
    tokens: &[Token],
) -> Result<(), NoMemory>
    ensures { OnOk result (stack.new ≡
        grammar.name (sight_of glance tokens.now) glance.seen ++ stack.old) }
{
    match glance.seen {
        Seen::Word(Word::Name) => push_symbols!(stack; Symbol::Word(Word::Name),
                Symbol::Build(Build::Text(text_at(alloc, tokens)?))),
        _ => push_symbols!(stack; Symbol::Never),
    }
}

pub(crate) fn parameters(stack: &mut Stack, seen: Seen) -> Result<(), NoMemory>
    ensures { OnOk result (stack.new ≡ grammar.parameters seen ++ stack.old) }
{
    match seen {
        Seen::Word(Word::CloseParen) => push_symbols!(stack; Symbol::Word(Word::CloseParen)),
        _ => push_symbols!(stack; Symbol::Part(Nonterminal::Name),
                Symbol::Build(Build::Add),
                Symbol::Part(Nonterminal::MoreParameters)),
    }
}

pub(crate) fn more_parameters(stack: &mut Stack, seen: Seen) -> Result<(), NoMemory>
    ensures { OnOk result (stack.new ≡ grammar.more_parameters seen ++ stack.old) }
{
    match seen {
        Seen::Word(Word::Comma) => push_symbols!(stack; Symbol::Word(Word::Comma),
                Symbol::Part(Nonterminal::Name),
                Symbol::Build(Build::Add),
                Symbol::Part(Nonterminal::MoreParameters)),
        _ => push_symbols!(stack; Symbol::Word(Word::CloseParen)),
    }
}
