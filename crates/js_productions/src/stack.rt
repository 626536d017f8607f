// What is still to be read.
ghost use Rattle.std.specs.Prelude.{◌≡◌, ◌+◌, ◌≤◌, List, [], ◌∷◌, MatchOption, OnOk, reverse};
ghost use Rattle.js_grammar.specs.declared.symbol.Symbol.{Symbol};
ghost use Rattle.js_grammar.specs.Parts as parts;

use js_grammar::{Open, Symbol};
use mug_text::NoMemory;
use std::alloc::Global;
use std::marker::Model;

/// What is still to be read, the next symbol first, with the nesting that it tells.
#[derive(Debug, Drop)]
pub struct Stack {
    // The next symbol stands last.
    symbols: Vec<Symbol>,
    nesting: usize,
}

impl Model for Stack {
    ghost use Rattle.std.specs.Prelude.{◌≡◌, List, reverse};
    ghost use Rattle.js_grammar.specs.declared.symbol.Symbol.{Symbol};
    ghost use Rattle.js_grammar.specs.Parts as parts;

    ghost Value = { List Symbol };

    ghost view = { λ s. reverse s.symbols.items };

    ghost invariant = { λ s. s.nesting ≡ parts.nesting (reverse s.symbols.items) };
}

// How much a symbol adds to the nesting.
fn depth(symbol: &Symbol) -> usize
    ensures is { (s : List Symbol) → parts.nesting (symbol.now ∷ s) ≡ parts.nesting s + result }
    ensures small { result ≤ 1 }
{
    match symbol {
        Symbol::Leave(Open::Function) => 0,
        Symbol::Leave(_) => 1,
        _ => 0,
    }
}

impl Stack {
    /// Nothing.
    pub fn new(alloc: Global) -> Stack
        ensures { result ≡ [] }
    {
        Stack {
            symbols: Vec::new(alloc),
            nesting: 0,
        }
    }

    /// Puts a symbol before the others.
    pub fn push(&mut self, symbol: Symbol) -> Result<(), NoMemory>
        ensures { OnOk result (self.new ≡ symbol ∷ self.old) }
    {
        self.symbols.reserve(1)?;
        self.nesting += depth(&symbol);
        self.symbols.push_reserved(symbol);
        Ok(())
    }

    /// Takes the next symbol off.
    pub fn pop(&mut self) -> Option<Symbol>
        ensures { MatchOption result (self.old ≡ []) (λ symbol. self.old ≡ symbol ∷ self.new) }
    {
        let symbol = self.symbols.pop()?;
        self.nesting -= depth(&symbol);
        Some(symbol)
    }

    /// How many parts that count are open.
    pub fn nesting(&self) -> usize
        ensures { result ≡ parts.nesting self.now }
    {
        self.nesting
    }

    // The symbols, with the next one last.
    pub(crate) fn as_slice(&self) -> &[Symbol]
        ensures { reverse result.now ≡ self.now }
    {
        &self.symbols
    }
}

// Puts these symbols before the others, the first one before all.
macro_rules! push_symbols {
    ($stack:expr; $only:expr) => {
        $stack.push($only)
    };
    ($stack:expr; $first:expr, $($behind:expr),+) => {{
        push_symbols!($stack; $($behind),+)?;
        $stack.push($first)
    }};
}

pub(crate) use push_symbols;
