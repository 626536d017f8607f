// Which parts are open, by the symbols that are left. The one that is read next stands last.
ghost use Rattle.std.specs.Prelude.{◌≡◌, reverse};
ghost use Rattle.js_grammar.specs.Parts as parts;

use js_grammar::{Open, Symbol};
use mug_text::JText;

// Whether a function's body is open.
pub(crate) fn in_function(stack: &[Symbol]) -> bool
    ensures { result ≡ parts.in_function (reverse stack.now) }
{
    let mut rest = stack;
    'symbols: while let Some((symbol, below)) = rest.split_last() {
        if let Symbol::Leave(Open::Function) = symbol {
            return true;
        }
        rest = below;
    }
    false
}

// Whether, in the same function, a loop or switch is open.
pub(crate) fn breaks(stack: &[Symbol]) -> bool
    ensures { result ≡ parts.breaks (reverse stack.now) }
{
    let mut rest = stack;
    'symbols: while let Some((symbol, below)) = rest.split_last() {
        match symbol {
            Symbol::Leave(Open::Function) => return false,
            Symbol::Leave(Open::Loop) => return true,
            Symbol::Leave(Open::Switch) => return true,
            _ => {}
        }
        rest = below;
    }
    false
}

// Whether, in the same function, a loop is open.
pub(crate) fn continues(stack: &[Symbol]) -> bool
    ensures { result ≡ parts.continues (reverse stack.now) }
{
    let mut rest = stack;
    'symbols: while let Some((symbol, below)) = rest.split_last() {
        match symbol {
            Symbol::Leave(Open::Function) => return false,
            Symbol::Leave(Open::Loop) => return true,
            _ => {}
        }
        rest = below;
    }
    false
}

// Whether, in the same function, a statement with this label is open.
pub(crate) fn breaks_to(label: &JText, stack: &[Symbol]) -> bool
    ensures { result ≡ parts.breaks_to label.now (reverse stack.now) }
{
    let mut rest = stack;
    'symbols: while let Some((symbol, below)) = rest.split_last() {
        match symbol {
            Symbol::Leave(Open::Function) => return false,
            Symbol::Leave(Open::Labelled(other)) => {
                if label == other {
                    return true;
                }
            }
            _ => {}
        }
        rest = below;
    }
    false
}

// Whether the label stands directly around what ends here.
fn labels(label: &JText, stack: &[Symbol]) -> bool
    ensures { result ≡ parts.labels label.now (reverse stack.now) }
{
    let mut rest = stack;
    'symbols: while let Some((symbol, below)) = rest.split_last() {
        match symbol {
            Symbol::Build(_) => {}
            Symbol::Leave(Open::Labelled(other)) => {
                if label == other {
                    return true;
                }
            }
            _ => return false,
        }
        rest = below;
    }
    false
}

// Whether, in the same function, a loop with this label is open.
pub(crate) fn continues_to(label: &JText, stack: &[Symbol]) -> bool
    ensures { result ≡ parts.continues_to label.now (reverse stack.now) }
{
    let mut rest = stack;
    'symbols: while let Some((symbol, below)) = rest.split_last() {
        match symbol {
            Symbol::Leave(Open::Function) => return false,
            Symbol::Leave(Open::Loop) => {
                if labels(label, below) {
                    return true;
                }
            }
            _ => {}
        }
        rest = below;
    }
    false
}
