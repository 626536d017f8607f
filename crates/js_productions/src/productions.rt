// What is to be read in the place of a part: the table of productions.
ghost use Rattle.std.specs.Prelude.{◌≡◌, ◌++◌, OnOk, List, []};
ghost use Rattle.js_productions.specs.Glances.{sight_of};
ghost use Rattle.js_grammar.specs.Grammar as grammar;
ghost use Rattle.js_tree.specs.Trees.{Tree};
ghost use Rattle.js_productions.specs.Targets.{target_of};
ghost use Rattle.js_grammar.specs.declared.symbol.Nonterminal.TheVariants as parts;

use crate::jumps::Leads;
use crate::scans::{breaks, breaks_to, continues, continues_to};
use crate::seeing::{Glance, text_at};
use crate::stack::Stack;
use crate::{expressions, jumps, primaries, rows, statements};
use js_grammar::Nonterminal;
use js_tokens::Token;
use js_tree::Production;
use mug_text::NoMemory;
use std::alloc::Global;

/// Puts what is to be read in the place of a part before these symbols. The tokens are those from
/// the glance on, and `last` is the
/// production of the last tree, where that may be assigned to.
pub fn produce(
    alloc: Global,
    stack: &mut Stack,
    part: Nonterminal,
    glance: Glance,
    tokens: &[Token],
    last: Option<Production>,
) -> Result<(), NoMemory>
    ensures { OnOk result ((vs : List Tree) → target_of vs ≡ last →
        stack.new ≡ grammar.produce part stack.old (sight_of glance tokens.now) vs ++ stack.old) }
{
    let from = glance.from;
    let seen = glance.seen;
    match part {
        Nonterminal::Expression(form) => rows::expression(stack, form, glance),
        Nonterminal::Commas(form, start) => expressions::commas(stack, form, start, seen),
        Nonterminal::Assignment(form) => rows::assignment(stack, form, glance),
        Nonterminal::Assigned(form, start) => expressions::assigned(stack, form, start, seen, last),
        Nonterminal::Conditional(form) => rows::conditional(stack, form, glance),
        Nonterminal::Choice(form, start) => expressions::choice(stack, form, start, seen),
        Nonterminal::Operation(least, form) => rows::operation(stack, least, form, glance),
        Nonterminal::Operators(least, form, start) => expressions::operators(
            stack, least, form, start, seen,
        ),
        Nonterminal::Unary => expressions::unary(stack, from, seen),
        Nonterminal::Postfix(start) => expressions::postfix(stack, start, glance, last),
        Nonterminal::Updated(operator, start) => rows::updated(stack, operator, start),
        Nonterminal::Target => expressions::target(stack, from, seen),
        Nonterminal::Prefixed(operator, start) => expressions::prefixed(
            stack, operator, start, last,
        ),
        Nonterminal::Operand(operator, start) => rows::operand(stack, operator, start),
        Nonterminal::TargetOperand(operator, start) => {
            rows::target_operand(stack, operator, start)
        }
        Nonterminal::Operated(operator, start) => expressions::operated(
            stack, operator, start, last,
        ),
        Nonterminal::LeftHand => expressions::left_hand(stack, from, seen),
        Nonterminal::Tail(start) => expressions::tail(stack, start, seen),
        Nonterminal::MemberTail(start) => expressions::member_tail(stack, part, start, seen),
        Nonterminal::Key(start) => expressions::key(alloc, stack, start, glance, tokens),
        Nonterminal::New => rows::created(stack, glance),
        Nonterminal::Callee => rows::callee(stack, glance),
        Nonterminal::Constructor => expressions::constructor(stack, seen),
        Nonterminal::Given(start) => expressions::given(stack, start, seen),
        Nonterminal::Arguments => rows::arguments(stack),
        Nonterminal::FirstArgument => expressions::first_argument(stack, seen),
        Nonterminal::MoreArguments => expressions::more_arguments(stack, seen),
        Nonterminal::Primary => primaries::primary(alloc, stack, glance, tokens),
        Nonterminal::Elements => primaries::elements(stack, seen),
        Nonterminal::MoreElements => primaries::more_elements(stack, seen),
        Nonterminal::Entries => primaries::entries(stack, seen),
        Nonterminal::MoreEntries => primaries::more_entries(stack, seen),
        Nonterminal::Entry => primaries::entry(alloc, stack, glance, tokens),
        Nonterminal::Getter => primaries::getter(stack, seen),
        Nonterminal::Setter => primaries::setter(stack, seen),
        Nonterminal::Accessed => rows::accessed(stack),
        Nonterminal::Value => rows::value(stack),
        Nonterminal::Function => rows::function(stack, glance),
        Nonterminal::OwnName => primaries::own_name(alloc, stack, glance, tokens),
        Nonterminal::Name => primaries::name(alloc, stack, glance, tokens),
        Nonterminal::Parameters => primaries::parameters(stack, seen),
        Nonterminal::MoreParameters => primaries::more_parameters(stack, seen),
        Nonterminal::Body => rows::body(stack, glance),
        Nonterminal::Sources => statements::sources(stack, seen),
        Nonterminal::Declaration => rows::declaration(stack, glance),
        Nonterminal::Statements => statements::statements(stack, seen),
        Nonterminal::Statement => statements::statement(alloc, stack, glance, tokens),
        Nonterminal::Braced => rows::braced(stack),
        Nonterminal::Declarations(form) => rows::declarations(stack, form),
        Nonterminal::Declarator(form) => rows::declarator(stack, form),
        Nonterminal::MoreDeclarators(form) => statements::more_declarators(stack, form, seen),
        Nonterminal::Initialiser(form) => statements::initialiser(stack, form, seen),
        Nonterminal::Else(start) => statements::otherwise(stack, start, seen),
        Nonterminal::ForHead(start) => jumps::for_head(stack, start, glance, tokens),
        Nonterminal::ForVar(start, at) => jumps::for_var(stack, start, at, glance, tokens),
        Nonterminal::ForTarget => jumps::for_target(alloc, stack, glance, tokens),
        Nonterminal::ForObject(start) => rows::for_object(stack, start),
        Nonterminal::ForStart(start) => rows::for_start(stack, start),
        Nonterminal::ForTest => jumps::for_test(stack, seen),
        Nonterminal::ForUpdate => jumps::for_update(stack, seen),
        Nonterminal::ContinueTo(start) => continued(alloc, stack, start, glance, tokens),
        Nonterminal::BreakTo(start) => broken(alloc, stack, start, glance, tokens),
        Nonterminal::Returned(start) => jumps::returned(stack, start, glance),
        Nonterminal::Thrown(start) => jumps::thrown(stack, start, glance),
        Nonterminal::Cases(has_default) => statements::cases(stack, has_default, seen),
        Nonterminal::Handlers(start) => statements::handlers(stack, start, seen),
        Nonterminal::Finally(start) => statements::finally(stack, start, seen),
    }
}

fn continued(
    alloc: Global,
    stack: &mut Stack,
    from: usize,
    glance: Glance,
    tokens: &[Token],
) -> Result<(), NoMemory>
    ensures { OnOk result (stack.new ≡
        grammar.produce (parts.ContinueTo from) stack.old (sight_of glance tokens.now) []
        ++ stack.old) }
{
    let label = text_at(alloc, tokens)?;
    let leads = Leads {
        bare: continues(stack.as_slice()),
        labelled: continues_to(&label, stack.as_slice()),
    };
    jumps::jump(
        alloc,
        stack,
        leads,
        Production::Continue,
        from,
        glance,
        tokens,
    )
}

fn broken(
    alloc: Global,
    stack: &mut Stack,
    from: usize,
    glance: Glance,
    tokens: &[Token],
) -> Result<(), NoMemory>
    ensures { OnOk result (stack.new ≡
        grammar.produce (parts.BreakTo from) stack.old (sight_of glance tokens.now) []
        ++ stack.old) }
{
    let label = text_at(alloc, tokens)?;
    let leads = Leads {
        bare: breaks(stack.as_slice()),
        labelled: breaks_to(&label, stack.as_slice()),
    };
    jumps::jump(alloc, stack, leads, Production::Break, from, glance, tokens)
}
