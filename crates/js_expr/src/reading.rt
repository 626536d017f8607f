// The machine: what is still to be read stands on a stack, and one symbol is read after the other.
ghost use Rattle.std.specs.Prelude.{◌≡◌, ◌≢◌, ℕ, ◌+◌, ◌<◌, ◌≤◌, ◌++◌, List, [], ◌∷◌, length, drop, IfOk, OnOk, MatchBool};
ghost use Rattle.js_tree.specs.Trees.{Tree};
ghost use Rattle.js_grammar.specs.declared.sight.Seen.TheVariants as sees;
ghost use Rattle.js_grammar.specs.declared.symbol.Start.{Start};
ghost use Rattle.js_grammar.specs.declared.symbol.Symbol.{Symbol};
ghost use Rattle.js_grammar.specs.declared.symbol.Symbol.TheVariants as symbol;
ghost use Rattle.js_grammar.specs.Answers.{Text, Outcome, Answer};
ghost use Rattle.js_grammar.specs.Derivations as derivations;
ghost use Rattle.js_grammar.specs.Ends.{Ends};
ghost use Rattle.js_expr.specs.Trees.{Builds, HoldsTrees, MayBuild};
ghost use Rattle.js_grammar.specs.Grammar as grammar;
ghost use Rattle.js_expr.specs.Reading.{text_of, Shows, IsAt, GoesWith, GoesFrom};
ghost use Rattle.js_expr.specs.Reading.{ArrivesFrom, EndsSo, symbols_of};
ghost use Rattle.js_grammar.specs.Parts as parts;
ghost use Rattle.js_productions.specs.Glances.{sight_of};

use crate::trees::Trees;
use js_grammar::{Build, Names, Nonterminal, Open, Seen, Start, Symbol, an_end_is_the_answer};
use js_productions::{Glance, Stack, glance_at, may_insert, produce};
use js_tokens::{Tokens, Word};
use js_tree::{Production, Script};
use mug_text::NoMemory;
use std::alloc::Global;

// The deepest nesting at which a token may stand.
const LIMIT: usize = 200;

/// How the reading of a text ends.
#[derive(Drop)]
pub enum Ending {
    /// With a whole script.
    Accepted(Script),
    /// At the token of this number.
    Unexpected(usize),
    TooDeep(usize),
}

// Where a reading stands: what is still to be read, the trees so far, the number of the next token,
// and what is seen there.
#[derive(Drop)]
pub(crate) struct Reading {
    pub(crate) stack: Stack,
    pub(crate) trees: Trees,
    pub(crate) place: usize,
    pub(crate) glance: Glance,
}

// How a text ends: with a whole script, or at the token of a number.
#[derive(Clone, Copy, Debug, PartialEq, Eq)]
pub(crate) enum End {
    Accepted,
    Unexpected(usize),
    TooDeep(usize),
}

// What a step comes to.
#[derive(Clone, Copy, Debug, PartialEq, Eq)]
pub(crate) enum Step {
    // No word was read.
    On,
    // A word was read.
    Behind,
    Ended(End),
}

/// How the reading of a text ends.
pub fn read_tokens(
    alloc: Global,
    tokens: &Tokens,
    names: Names,
    start: Start,
) -> Result<Ending, NoMemory>
    ensures answer { IfOk result (λ a. (o : Outcome) × Shows a o ×
        Answer (text_of tokens.now names start) o) }
    ensures ends { IfOk result (λ a. (o : Outcome) × Shows a o ×
        Ends (text_of tokens.now names start) (derivations.beginning start) [] 0 o) }
{
    an_end_is_the_answer();
    end_of(alloc, tokens, names, start)
}

// What the text ends in, word by word.
fn end_of(alloc: Global, tokens: &Tokens, names: Names, start: Start) -> Result<Ending, NoMemory>
    ensures { IfOk result (λ a. (o : Outcome) × Shows a o ×
        Ends (text_of tokens.now names start) (derivations.beginning start) [] 0 o) }
{
    let mut reading = Reading::new(alloc, tokens, names, start)?;
    'words: loop {
        if let Some(end) = reading.run(alloc, tokens, names)? {
            return Ok(reading.ending(end));
        }
    }
}

// What is to be read at first.
fn beginning(alloc: Global, start: Start) -> Result<Stack, NoMemory>
    ensures { IfOk result (λ s. s ≡ derivations.beginning start) }
{
    let mut stack = Stack::new(alloc);
    stack.push(Symbol::End)?;
    match start {
        Start::Program => stack.push(Symbol::Build(Build::Root(Production::Program)))?,
        Start::Handler => {
            stack.push(Symbol::Build(Build::Root(Production::Handler)))?;
            stack.push(Symbol::Leave(Open::Function))?;
        }
    }
    stack.push(Symbol::Part(Nonterminal::Sources))?;
    stack.push(Symbol::Build(Build::Group(0)))?;
    Ok(stack)
}

// Whether this word is seen.
fn is_seen(seen: Seen, word: Word) -> bool
    ensures { MatchBool result (seen ≡ sees.Word word) (seen ≢ sees.Word word) }
{
    match seen {
        Seen::Word(other) => is_same(other, word),
        _ => false,
    }
}

fn is_same(word: Word, other: Word) -> bool
    ensures { MatchBool result (word ≡ other) (word ≢ other) }
{
    word == other
}

// Whether the end is seen.
fn is_end(seen: Seen) -> bool
    ensures { MatchBool result (seen ≡ sees.End) (seen ≢ sees.End) }
{
    matches!(seen, Seen::End)
}

impl Reading {
    fn new(alloc: Global, tokens: &Tokens, names: Names, start: Start) -> Result<Reading, NoMemory>
        ensures at { IfOk result (λ r. IsAt tokens.now names r) }
        ensures trees { IfOk result (λ r. HoldsTrees r.trees []) }
        ensures none { IfOk result (λ r. r.trees.pieces ≡ []) }
        ensures stack { IfOk result (λ r. r.stack ≡ derivations.beginning start) }
        ensures place { IfOk result (λ r. r.place ≡ 0) }
    {
        Ok(Reading {
            stack: beginning(alloc, start)?,
            trees: Trees::new(alloc),
            place: 0,
            glance: glance_at(names, tokens, 0),
        })
    }

    // The answer of a text that ends so.
    fn ending(self, end: End) -> Ending
        ensures { (text : Text) (s : List Symbol) (vs : List Tree) (i : ℕ) →
            EndsSo text s vs i end self → (o : Outcome) × Shows result o × Ends text s vs i o }
    {
        let Reading {
            stack: _,
            trees,
            place: _,
            glance: _,
        } = self;
        match end {
            End::Accepted => Ending::Accepted(trees.into_script()),
            End::Unexpected(place) => Ending::Unexpected(place),
            End::TooDeep(place) => Ending::TooDeep(place),
        }
    }

    // Reads up to the next word, and that word; or how the text ends before.
    fn run(&mut self, alloc: Global, tokens: &Tokens, names: Names) -> Result<Option<End>, NoMemory>
        requires at { IsAt tokens.now names self.old }
        requires goes { GoesWith self.old (symbols_of self.old) }
        ensures at { OnOk result (IsAt tokens.now names self.new) }
        ensures arrives { IfOk result (λ end. ArrivesFrom tokens.now names self.old end self.new) }
    {
        'steps: loop {
            match self.step(alloc, tokens, names)? {
                Step::On => {}
                Step::Behind => return Ok(None),
                Step::Ended(end) => return Ok(Some(end)),
            }
        }
    }

    // Reads the next symbol.
    fn step(&mut self, alloc: Global, tokens: &Tokens, names: Names) -> Result<Step, NoMemory>
        requires at { IsAt tokens.now names self.old }
        requires goes { GoesWith self.old (symbols_of self.old) }
        ensures at { OnOk result (IsAt tokens.now names self.new) }
        ensures goes { IfOk result (λ step. GoesFrom tokens.now names
            (symbols_of self.old) self.old step self.new) }
    {
        let Some(symbol) = self.stack.pop() else {
            unreachable!();
        };
        self.read(alloc, tokens, names, symbol)
    }

    // Reads a symbol that was taken off.
    fn read(
        &mut self,
        alloc: Global,
        tokens: &Tokens,
        names: Names,
        symbol: Symbol,
    ) -> Result<Step, NoMemory>
        requires at { IsAt tokens.now names self.old }
        requires goes { GoesWith self.old (symbol ∷ symbols_of self.old) }
        ensures at { OnOk result (IsAt tokens.now names self.new) }
        ensures goes { IfOk result (λ step. GoesFrom tokens.now names
            (symbol ∷ symbols_of self.old) self.old step self.new) }
    {
        match symbol {
            Symbol::Word(word) => self.word(tokens, names, word),
            Symbol::End => self.end(tokens, names),
            Symbol::Semicolon => self.semicolon(tokens, names),
            Symbol::FreeSemicolon => self.free_semicolon(tokens, names),
            Symbol::Never => Ok(Step::Ended(End::Unexpected(self.place))),
            Symbol::Part(part) => {
                self.part(alloc, tokens, part)?;
                Ok(Step::On)
            }
            Symbol::Build(build) => {
                self.make(tokens, build)?;
                Ok(Step::On)
            }
            Symbol::Leave(_) => Ok(Step::On),
        }
    }

    // Whether a token may stand here.
    fn may_stand(&self) -> bool
        ensures { MatchBool result (parts.nesting self.now.stack ≤ LIMIT)
            (LIMIT < parts.nesting self.now.stack) }
    {
        self.stack.nesting() <= LIMIT
    }

    // Goes on behind the token.
    fn advance(&mut self, tokens: &Tokens, names: Names)
        requires { self.old.place < length tokens.now.items }
        ensures at { IsAt tokens.now names self.new }
        ensures rest { self.new ≡
            record self.old { place = self.old.place + 1; glance = self.new.glance } }
    {
        let count = tokens.items.as_slice().len();
        let inside = self.place < count;
        prove!(inside);
        self.glance = glance_at(names, tokens, self.place + 1);
        self.place += 1;
    }

    fn word(&mut self, tokens: &Tokens, names: Names, word: Word) -> Result<Step, NoMemory>
        requires { IsAt tokens.now names self.old }
        ensures at { OnOk result (IsAt tokens.now names self.new) }
        ensures goes { IfOk result (λ step. GoesFrom tokens.now names
            (symbol.Word word ∷ symbols_of self.old) self.old step self.new) }
    {
        if !is_seen(self.glance.seen, word) {
            return Ok(Step::Ended(End::Unexpected(self.place)));
        }
        if !self.may_stand() {
            return Ok(Step::Ended(End::TooDeep(self.place)));
        }
        self.advance(tokens, names);
        Ok(Step::Behind)
    }

    // A semicolon, also one that is inserted.
    fn semicolon(&mut self, tokens: &Tokens, names: Names) -> Result<Step, NoMemory>
        requires { IsAt tokens.now names self.old }
        ensures at { OnOk result (IsAt tokens.now names self.new) }
        ensures goes { IfOk result (λ step. GoesFrom tokens.now names
            (symbol.Semicolon ∷ symbols_of self.old) self.old step self.new) }
    {
        if is_seen(self.glance.seen, Word::Semicolon) {
            if !self.may_stand() {
                return Ok(Step::Ended(End::TooDeep(self.place)));
            }
            self.advance(tokens, names);
            return Ok(Step::Behind);
        }
        if may_insert(self.glance) {
            Ok(Step::On)
        } else {
            Ok(Step::Ended(End::Unexpected(self.place)))
        }
    }

    // A semicolon, also one that is inserted without a line terminator.
    fn free_semicolon(&mut self, tokens: &Tokens, names: Names) -> Result<Step, NoMemory>
        requires { IsAt tokens.now names self.old }
        ensures at { OnOk result (IsAt tokens.now names self.new) }
        ensures goes { IfOk result (λ step. GoesFrom tokens.now names
            (symbol.FreeSemicolon ∷ symbols_of self.old) self.old step self.new) }
    {
        if !is_seen(self.glance.seen, Word::Semicolon) {
            return Ok(Step::On);
        }
        if !self.may_stand() {
            return Ok(Step::Ended(End::TooDeep(self.place)));
        }
        self.advance(tokens, names);
        Ok(Step::Behind)
    }

    // The text's end: all is read, and one tree is there.
    fn end(&mut self, tokens: &Tokens, names: Names) -> Result<Step, NoMemory>
        requires at { IsAt tokens.now names self.old }
        requires goes { GoesWith self.old (symbol.End ∷ symbols_of self.old) }
        ensures at { OnOk result (IsAt tokens.now names self.new) }
        ensures goes { IfOk result (λ step. GoesFrom tokens.now names
            (symbol.End ∷ symbols_of self.old) self.old step self.new) }
    {
        if !is_end(self.glance.seen) {
            return Ok(Step::Ended(End::Unexpected(self.place)));
        }
        self.trees.finish()?;
        Ok(Step::Ended(End::Accepted))
    }

    // Puts what is to be read in the place of the part on the stack.
    fn part(&mut self, alloc: Global, tokens: &Tokens, part: Nonterminal) -> Result<(), NoMemory>
        requires within { self.old.place ≤ length tokens.now.items }
        requires trees { (vs : List Tree) × HoldsTrees self.old.trees vs }
        ensures stack { OnOk result ((vs : List Tree) → HoldsTrees self.old.trees vs →
            self.new.stack ≡ grammar.produce part self.old.stack
            (sight_of self.old.glance (drop self.old.place tokens.now.items)) vs
            ++ self.old.stack) }
        ensures rest { self.new ≡ record self.old { stack = self.new.stack } }
    {
        let last = self.trees.last();
        let behind = &tokens.items.as_slice()[self.place..];
        produce(alloc, &mut self.stack, part, self.glance, behind, last)
    }

    // Makes a tree of the last ones.
    fn make(&mut self, tokens: &Tokens, build: Build) -> Result<(), NoMemory>
        requires { MayBuild build self.old.trees }
        ensures trees { OnOk result (Builds build self.old.glance self.old.trees self.new.trees) }
        ensures rest { self.new ≡ record self.old { trees = self.new.trees } }
    {
        let items = tokens.items.as_slice();
        self.trees
            .build(items, build, self.glance, self.stack.nesting())
    }
}
