// What is printed for a line.
ghost use Rattle.std.specs.Prelude.{◌≤◌, length, IfOk};
ghost use Rattle.js_parser.specs.declared.reading.TheConstants.{SCRIPT_LIMIT};

use crate::listing::listing;
use crate::printing::show;
use crate::scopes::scope_of;
use js_grammar::Names;
use js_parser::{SCRIPT_LIMIT, SyntaxFault, read_handler, read_script};
use js_tokens::{LexFault, tokens};
use js_tree::Script;
use mug_text::{JText, NoMemory};
use std::alloc::Global;
use written_text::written_text;

/// How the text of a line ends; of one that begins with `tree`, with the tree of its page. After `tokens` its tokens are listed, and
/// after `scope` the names of a call's scope.
pub fn answer_of(alloc: Global, line: &str) -> Result<String, NoMemory> {
    if let Some(text) = line.strip_prefix("tokens ") {
        return tokens_of(alloc, text);
    }
    if let Some(written) = line.strip_prefix("scope ") {
        return scope_of(alloc, written);
    }
    if let Some(text) = line.strip_prefix("tree ") {
        return answer(alloc, script(alloc, text, Names::Page)?, true);
    }
    if let Some(text) = line.strip_prefix("page ") {
        return answer(alloc, script(alloc, text, Names::Page)?, false);
    }
    if let Some(text) = line.strip_prefix("hidden ") {
        return answer(alloc, script(alloc, text, Names::Hidden)?, false);
    }
    if let Some(text) = line.strip_prefix("handler ") {
        return answer(alloc, handler(alloc, text)?, false);
    }
    Ok(String::from_str(alloc, "no page, hidden, handler, tree, tokens or scope")?)
}

fn script(
    alloc: Global,
    written: &str,
    names: Names,
) -> Result<Result<Script, SyntaxFault>, NoMemory> {
    let text = text_of(alloc, written)?;
    Ok(read_script(alloc, &text, names))
}

fn handler(alloc: Global, written: &str) -> Result<Result<Script, SyntaxFault>, NoMemory> {
    let text = text_of(alloc, written)?;
    Ok(read_handler(alloc, &text))
}

// A text above the limit of scripts is answered as want of memory.
fn text_of(alloc: Global, written: &str) -> Result<JText, NoMemory>
    ensures { IfOk result (λ text. length text ≤ SCRIPT_LIMIT) }
{
    let text = written_text(alloc, written)?;
    if text.len() > SCRIPT_LIMIT {
        return Err(NoMemory);
    }
    Ok(text)
}

fn answer(
    alloc: Global,
    read: Result<Script, SyntaxFault>,
    with_tree: bool,
) -> Result<String, NoMemory> {
    match read {
        Ok(script) => {
            if with_tree {
                shown(alloc, &script)
            } else {
                Ok(String::from_str(alloc, "accepted")?)
            }
        }
        Err(SyntaxFault::Unexpected { at }) => Ok(format!(in alloc; "unexpected {at}")?),
        Err(SyntaxFault::TooDeep { at }) => Ok(format!(in alloc; "too deep {at}")?),
        Err(SyntaxFault::NoMemory) => Err(NoMemory),
    }
}

fn tokens_of(alloc: Global, written: &str) -> Result<String, NoMemory> {
    let text = written_text(alloc, written)?;
    match tokens(alloc, &text) {
        Ok(tokens) => listing(alloc, &tokens),
        Err(LexFault::NoToken { at }) => Ok(format!(in alloc; "no token {at}")?),
        Err(LexFault::NoMemory) => Err(NoMemory),
    }
}

fn shown(alloc: Global, script: &Script) -> Result<String, NoMemory> {
    let mut out = Vec::new(alloc);
    out.extend_from_slice(b"accepted ")?;
    if script.count() > 0 {
        show(alloc, script, script.root(), &mut out)?;
    }
    match String::from_utf8(out) {
        Ok(text) => Ok(text),
        Err(_) => Ok(String::from_str(alloc, "no text")?),
    }
}
