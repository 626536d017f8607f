// Whole texts.
ghost use Rattle.std.specs.Prelude.{◌≡◌, ◌≤◌, length, IfErr, IfOk};
ghost use Rattle.js_grammar.specs.declared.sight.Names.{Names};
ghost use Rattle.js_grammar.specs.declared.sight.Names.TheVariants as kinds;
ghost use Rattle.js_grammar.specs.declared.symbol.Start.{Start};
ghost use Rattle.js_grammar.specs.declared.symbol.Start.TheVariants as starts;
ghost use Rattle.js_grammar.specs.Answers.{place};
ghost use Rattle.js_expr.specs.Reading.{text_of};
ghost use Rattle.js_parser.specs.Readings.{IsProgramOf, IsRefused};
ghost use Rattle.js_tree.specs.Runs.{IsRunnableText};

use crate::SyntaxFault;
use js_expr::{Ending, read_tokens};
use js_grammar::{Names, Start};
use js_tokens::{Tokens, tokens};
use js_tree::Script;
use mug_text::JText;
use std::alloc::Global;

/// The units of a text that is read: at most so many.
pub const SCRIPT_LIMIT: usize = 1 << 30;

/// The program that a text is.
pub fn read_script(alloc: Global, text: &JText, names: Names) -> Result<Script, SyntaxFault>
    requires { length text.now ≤ SCRIPT_LIMIT }
    ensures program { IfOk result (λ script. IsProgramOf names starts.Program text.now script) }
    ensures runs { IfOk result IsRunnableText }
    ensures refused { IfErr result (λ fault. IsRefused names starts.Program text.now fault) }
{
    read(alloc, text, names, Start::Program)
}

/// The handler that a text is: the body of a function of the parameter `event`.
pub fn read_handler(alloc: Global, text: &JText) -> Result<Script, SyntaxFault>
    requires { length text.now ≤ SCRIPT_LIMIT }
    ensures program { IfOk result (λ script. IsProgramOf kinds.Page starts.Handler text.now script) }
    ensures runs { IfOk result IsRunnableText }
    ensures refused { IfErr result (λ fault. IsRefused kinds.Page starts.Handler text.now fault) }
{
    read(alloc, text, Names::Page, Start::Handler)
}

fn read(alloc: Global, text: &JText, names: Names, start: Start) -> Result<Script, SyntaxFault>
    ensures program { IfOk result (λ script. IsProgramOf names start text.now script) }
    ensures runs { IfOk result IsRunnableText }
    ensures refused { IfErr result (λ fault. IsRefused names start text.now fault) }
{
    let tokens = tokens(alloc, text)?;
    let ending = read_tokens(alloc, &tokens, names, start)?;
    match ending {
        Ending::Accepted(script) => Ok(script),
        Ending::Unexpected(token) => Err(SyntaxFault::Unexpected {
            at: unit_of(&tokens, token),
        }),
        Ending::TooDeep(token) => Err(SyntaxFault::TooDeep {
            at: unit_of(&tokens, token),
        }),
    }
}

// The first unit of the token of a number; the text's length at the end.
fn unit_of(tokens: &Tokens, number: usize) -> usize
    ensures { (names : Names) (start : Start) →
        result ≡ place (text_of tokens.now names start) number }
{
    let items = tokens.items.as_slice();
    if number < items.len() {
        items[number].from
    } else {
        tokens.end
    }
}
