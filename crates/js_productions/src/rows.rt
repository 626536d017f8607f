// The productions of the parts that are read in one way alone.
ghost use Rattle.std.specs.Prelude.{◌≡◌, ◌++◌, OnOk, List, []};
ghost use Rattle.js_tree.specs.Trees.{Tree};
ghost use Rattle.js_grammar.specs.declared.sight.Sight.{Sight};
ghost use Rattle.js_grammar.specs.declared.symbol.Nonterminal.TheVariants as parts;
ghost use Rattle.js_grammar.specs.declared.symbol.Symbol.{Symbol};
ghost use Rattle.js_productions.specs.Glances.{sight_of};
ghost use Rattle.js_grammar.specs.Grammar.{produce};

use crate::seeing::Glance;
use crate::stack::{Stack, push_symbols};
use js_grammar::{Build, Form, Nonterminal, Open, Symbol};
use js_tokens::Word;
use js_tree::{Production, UnaryOperator, UpdateOperator};
use mug_text::NoMemory;

pub(crate) fn expression(stack: &mut Stack, form: Form, glance: Glance) -> Result<(), NoMemory>
    ensures { OnOk result (stack.new ≡
        produce (parts.Expression form) [] (sight_of glance []) [] ++ stack.old) }
{
    push_symbols!(stack; Symbol::Part(Nonterminal::Assignment(form)),
            Symbol::Part(Nonterminal::Commas(form, glance.from)))
}

pub(crate) fn assignment(stack: &mut Stack, form: Form, glance: Glance) -> Result<(), NoMemory>
    ensures { OnOk result (stack.new ≡
        produce (parts.Assignment form) [] (sight_of glance []) [] ++ stack.old) }
{
    push_symbols!(stack; Symbol::Part(Nonterminal::Conditional(form)),
            Symbol::Part(Nonterminal::Assigned(form, glance.from)),
            Symbol::Leave(Open::Part))
}

pub(crate) fn conditional(stack: &mut Stack, form: Form, glance: Glance) -> Result<(), NoMemory>
    ensures { OnOk result (stack.new ≡
        produce (parts.Conditional form) [] (sight_of glance []) [] ++ stack.old) }
{
    push_symbols!(stack; Symbol::Part(Nonterminal::Operation(1, form)),
            Symbol::Part(Nonterminal::Choice(form, glance.from)))
}

pub(crate) fn operation(
    stack: &mut Stack,
    least: u8,
    form: Form,
    glance: Glance,
) -> Result<(), NoMemory>
    ensures { OnOk result (stack.new ≡
        produce (parts.Operation least form) [] (sight_of glance []) [] ++ stack.old) }
{
    push_symbols!(stack; Symbol::Part(Nonterminal::Unary),
            Symbol::Part(Nonterminal::Operators(least, form, glance.from)))
}

pub(crate) fn updated(
    stack: &mut Stack,
    operator: UpdateOperator,
    from: usize,
) -> Result<(), NoMemory>
    ensures { OnOk result ((s : List Symbol) (u : Sight) (vs : List Tree) →
        stack.new ≡ produce (parts.Updated operator from) s u vs ++ stack.old) }
{
    push_symbols!(stack; Symbol::Part(Nonterminal::Target),
            Symbol::Leave(Open::Part),
            Symbol::Part(Nonterminal::Prefixed(operator, from)))
}

pub(crate) fn operand(
    stack: &mut Stack,
    operator: UnaryOperator,
    from: usize,
) -> Result<(), NoMemory>
    ensures { OnOk result ((s : List Symbol) (u : Sight) (vs : List Tree) →
        stack.new ≡ produce (parts.Operand operator from) s u vs ++ stack.old) }
{
    push_symbols!(stack; Symbol::Part(Nonterminal::Unary),
            Symbol::Leave(Open::Part),
            Symbol::Part(Nonterminal::Operated(operator, from)))
}

pub(crate) fn target_operand(
    stack: &mut Stack,
    operator: UnaryOperator,
    from: usize,
) -> Result<(), NoMemory>
    ensures { OnOk result ((s : List Symbol) (u : Sight) (vs : List Tree) →
        stack.new ≡ produce (parts.TargetOperand operator from) s u vs ++ stack.old) }
{
    push_symbols!(stack; Symbol::Part(Nonterminal::Target),
            Symbol::Leave(Open::Part),
            Symbol::Part(Nonterminal::Operated(operator, from)))
}

pub(crate) fn created(stack: &mut Stack, glance: Glance) -> Result<(), NoMemory>
    ensures { OnOk result (stack.new ≡ produce parts.New [] (sight_of glance []) [] ++ stack.old) }
{
    push_symbols!(stack; Symbol::Word(Word::New),
            Symbol::Part(Nonterminal::Callee),
            Symbol::Part(Nonterminal::Given(glance.from)))
}

pub(crate) fn callee(stack: &mut Stack, glance: Glance) -> Result<(), NoMemory>
    ensures { OnOk result (stack.new ≡
        produce parts.Callee [] (sight_of glance []) [] ++ stack.old) }
{
    push_symbols!(stack; Symbol::Part(Nonterminal::Constructor),
            Symbol::Part(Nonterminal::MemberTail(glance.from)),
            Symbol::Leave(Open::Part))
}

pub(crate) fn arguments(stack: &mut Stack) -> Result<(), NoMemory>
    ensures { OnOk result ((s : List Symbol) (u : Sight) (vs : List Tree) →
        stack.new ≡ produce parts.Arguments s u vs ++ stack.old) }
{
    push_symbols!(stack; Symbol::Word(Word::OpenParen),
            Symbol::Build(Build::Group(0)),
            Symbol::Part(Nonterminal::FirstArgument))
}

pub(crate) fn accessed(stack: &mut Stack) -> Result<(), NoMemory>
    ensures { OnOk result ((s : List Symbol) (u : Sight) (vs : List Tree) →
        stack.new ≡ produce parts.Accessed s u vs ++ stack.old) }
{
    push_symbols!(stack; Symbol::Word(Word::OpenBrace),
            Symbol::Build(Build::Group(0)),
            Symbol::Part(Nonterminal::Sources),
            Symbol::Leave(Open::Function),
            Symbol::Never)
}

pub(crate) fn value(stack: &mut Stack) -> Result<(), NoMemory>
    ensures { OnOk result ((s : List Symbol) (u : Sight) (vs : List Tree) →
        stack.new ≡ produce parts.Value s u vs ++ stack.old) }
{
    push_symbols!(stack; Symbol::Word(Word::Colon),
            Symbol::Part(Nonterminal::Assignment(Form::Full)))
}

pub(crate) fn function(stack: &mut Stack, glance: Glance) -> Result<(), NoMemory>
    ensures { OnOk result (stack.new ≡
        produce parts.Function [] (sight_of glance []) [] ++ stack.old) }
{
    push_symbols!(stack; Symbol::Word(Word::Function),
            Symbol::Part(Nonterminal::OwnName),
            Symbol::Word(Word::OpenParen),
            Symbol::Build(Build::Group(0)),
            Symbol::Part(Nonterminal::Parameters),
            Symbol::Part(Nonterminal::Body),
            Symbol::Build(Build::Node(Production::Function, glance.from, 3)))
}

pub(crate) fn body(stack: &mut Stack, glance: Glance) -> Result<(), NoMemory>
    ensures { OnOk result (stack.new ≡ produce parts.Body [] (sight_of glance []) [] ++ stack.old) }
{
    push_symbols!(stack; Symbol::Word(Word::OpenBrace),
            Symbol::Build(Build::Group(0)),
            Symbol::Part(Nonterminal::Sources),
            Symbol::Leave(Open::Function),
            Symbol::Word(Word::CloseBrace),
            Symbol::Build(Build::Node(Production::Body, glance.from, 1)))
}

pub(crate) fn declaration(stack: &mut Stack, glance: Glance) -> Result<(), NoMemory>
    ensures { OnOk result (stack.new ≡
        produce parts.Declaration [] (sight_of glance []) [] ++ stack.old) }
{
    push_symbols!(stack; Symbol::Word(Word::Function),
            Symbol::Part(Nonterminal::Name),
            Symbol::Word(Word::OpenParen),
            Symbol::Build(Build::Group(0)),
            Symbol::Part(Nonterminal::Parameters),
            Symbol::Part(Nonterminal::Body),
            Symbol::Build(Build::Node(Production::Declaration, glance.from, 3)),
            Symbol::Leave(Open::Part))
}

pub(crate) fn braced(stack: &mut Stack) -> Result<(), NoMemory>
    ensures { OnOk result ((s : List Symbol) (u : Sight) (vs : List Tree) →
        stack.new ≡ produce parts.Braced s u vs ++ stack.old) }
{
    push_symbols!(stack; Symbol::Word(Word::OpenBrace),
            Symbol::Build(Build::Group(0)),
            Symbol::Part(Nonterminal::Statements),
            Symbol::Word(Word::CloseBrace))
}

pub(crate) fn declarations(stack: &mut Stack, form: Form) -> Result<(), NoMemory>
    ensures { OnOk result ((s : List Symbol) (u : Sight) (vs : List Tree) →
        stack.new ≡ produce (parts.Declarations form) s u vs ++ stack.old) }
{
    push_symbols!(stack; Symbol::Build(Build::Group(0)),
            Symbol::Part(Nonterminal::Declarator(form)),
            Symbol::Part(Nonterminal::MoreDeclarators(form)))
}

pub(crate) fn declarator(stack: &mut Stack, form: Form) -> Result<(), NoMemory>
    ensures { OnOk result ((s : List Symbol) (u : Sight) (vs : List Tree) →
        stack.new ≡ produce (parts.Declarator form) s u vs ++ stack.old) }
{
    push_symbols!(stack; Symbol::Part(Nonterminal::Name),
            Symbol::Part(Nonterminal::Initialiser(form)),
            Symbol::Build(Build::Group(2)),
            Symbol::Build(Build::Add))
}

pub(crate) fn for_object(stack: &mut Stack, from: usize) -> Result<(), NoMemory>
    ensures { OnOk result ((s : List Symbol) (u : Sight) (vs : List Tree) →
        stack.new ≡ produce (parts.ForObject from) s u vs ++ stack.old) }
{
    push_symbols!(stack; Symbol::Word(Word::In),
            Symbol::Part(Nonterminal::Expression(Form::Full)),
            Symbol::Word(Word::CloseParen),
            Symbol::Part(Nonterminal::Statement),
            Symbol::Build(Build::Node(Production::ForIn, from, 3)))
}

pub(crate) fn for_start(stack: &mut Stack, from: usize) -> Result<(), NoMemory>
    ensures { OnOk result ((s : List Symbol) (u : Sight) (vs : List Tree) →
        stack.new ≡ produce (parts.ForStart from) s u vs ++ stack.old) }
{
    push_symbols!(stack; Symbol::Word(Word::Semicolon),
            Symbol::Part(Nonterminal::ForTest),
            Symbol::Part(Nonterminal::ForUpdate),
            Symbol::Part(Nonterminal::Statement),
            Symbol::Build(Build::Node(Production::For, from, 4)))
}
