// What a reading has made: an arena, and what isn't part of a node yet.
ghost use Rattle.std.specs.Prelude.{◌≡◌, ℕ, ◌<◌, List, [], ◌∷◌, length, Option, Some, IfOk, OnOk, IfSome};
ghost use Rattle.js_tree.specs.declared.production.Production.TheVariants as production;
ghost use Rattle.js_tree.specs.Trees.{Tree, production_of};
ghost use Rattle.js_grammar.specs.declared.symbol.Build.TheVariants as builds;
ghost use Rattle.js_pieces.specs.Pieces.{HoldsPiece};
ghost use Rattle.js_pieces.specs.Nodes.{IsPlain};
ghost use Rattle.js_productions.specs.Targets as targets;
ghost use Rattle.js_productions.specs.Targets.{target_of};
ghost use Rattle.js_productions.specs.declared.seeing.Glance.{Glance};
ghost use Rattle.js_expr.specs.Trees.{Builds, HoldsTrees, IsText, IsTextOf, MayBuild, MayFinish};

use js_grammar::Build;
use js_pieces::{Piece, Pieces};
use js_productions::{Glance, target};
use js_tokens::Token;
use js_tree::{Braces, Node, Production, Script};
use mug_text::NoMemory;
use std::alloc::Global;

// An arena, and what was read and isn't part of a node of it yet.
#[derive(Drop)]
pub(crate) struct Trees {
    pub(crate) alloc: Global,
    pub(crate) script: Script,
    pub(crate) pieces: Pieces,
}

// A unit of a text as a place in a tree; at or above 2^32 it is answered as want of memory.
fn unit(place: usize) -> Result<u32, NoMemory>
    ensures { IfOk result (λ u. u ≡ place) }
{
    match u32::try_from(place) {
        Ok(unit) => Ok(unit),
        Err(_) => Err(NoMemory),
    }
}

// Where the body between these units stands among the tokens.
fn braces_of(tokens: &[Token], from: usize, to: usize, level: u32) -> Braces {
    let opening = tokens.partition_point(|token| token.from < from);
    let behind = tokens.partition_point(|token| token.from < to);
    Braces {
        from: opening,
        to: behind.saturating_sub(1),
        level,
    }
}

// The production of a node, where that may be assigned to.
fn node_target(node: &Node) -> Option<Production>
    ensures { result ≡ targets.target (production_of node.now) }
{
    match node {
        Node::Name(_) => Some(Production::Name),
        Node::Member { .. } => Some(Production::Member),
        Node::Index { .. } => Some(Production::Index),
        _ => None,
    }
}

impl Trees {
    // No tree.
    pub(crate) fn new(alloc: Global) -> Trees
        ensures trees { HoldsTrees result [] }
        ensures pieces { result.pieces ≡ [] }
    {
        Trees {
            alloc,
            script: Script::new(alloc),
            pieces: Pieces::new(alloc),
        }
    }

    // The production of the last tree, where that may be assigned to.
    pub(crate) fn last(&self) -> Option<Production>
        requires { (vs : List Tree) × HoldsTrees self.now vs }
        ensures { (vs : List Tree) → HoldsTrees self.now vs → target_of vs ≡ result }
    {
        let piece = self.pieces.last()?;
        self.target_in(piece)
    }

    // The production of a piece, where it may be assigned to.
    fn target_in(&self, piece: &Piece) -> Option<Production>
        requires { (bodies : ℕ → Tree) × (t : Tree) ×
            HoldsPiece bodies self.now.script.kept piece.now t }
        ensures { (bodies : ℕ → Tree) (t : Tree) →
            HoldsPiece bodies self.now.script.kept piece.now t → target_of (t ∷ []) ≡ result }
    {
        match piece {
            Piece::Node(id) => node_target(self.script.node(*id)),
            Piece::Whole(text) => target(text.production),
            _ => None,
        }
    }

    // Makes a tree of the last ones. The tokens are all of the text's, and the level is the nesting
    // behind what is made.
    pub(crate) fn build(
        &mut self,
        tokens: &[Token],
        build: Build,
        glance: Glance,
        level: usize,
    ) -> Result<(), NoMemory>
        requires { MayBuild build self.old }
        ensures { OnOk result (Builds build glance self.old self.new) }
    {
        match build {
            Build::Node(production, from, count) => self.node(
                tokens, production, from, count, glance, level,
            ),
            Build::Root(production) => self.root(production, glance),
            Build::Group(count) => self.group(count),
            Build::Add => self.pieces.add(),
            Build::Missing => self.pieces.push(Piece::Missing),
            Build::Text(text) => self.pieces.push(Piece::Text(text)),
        }
    }

    // An empty list, or a pair of the last two trees.
    fn group(&mut self, count: usize) -> Result<(), NoMemory>
        requires { MayBuild (builds.Group count) self.old }
        ensures { OnOk result ((glance : Glance) →
            Builds (builds.Group count) glance self.old self.new) }
    {
        if count == 0 {
            self.pieces.push(Piece::Empty)
        } else {
            self.pieces.pair()
        }
    }

    // A node that ends behind the last token. The number of its parts is that of its production's.
    fn node(
        &mut self,
        tokens: &[Token],
        production: Production,
        from: usize,
        count: usize,
        glance: Glance,
        level: usize,
    ) -> Result<(), NoMemory>
        requires { MayBuild (builds.Node production from count) self.old }
        ensures { OnOk result (Builds (builds.Node production from count) glance self.old self.new) }
    {
        match production {
            Production::Body => self.body(tokens, from, count, glance, level),
            Production::Program => self.text(production, from, count, glance),
            Production::Handler => self.text(production, from, count, glance),
            Production::Function => self.function(from, count, glance),
            Production::Declaration => self.declaration(from, count, glance),
            _ => self.plain(production, from, count, glance),
        }
    }

    fn body(
        &mut self,
        tokens: &[Token],
        from: usize,
        count: usize,
        glance: Glance,
        level: usize,
    ) -> Result<(), NoMemory>
        requires { MayBuild (builds.Node production.Body from count) self.old }
        ensures { OnOk result
            (Builds (builds.Node production.Body from count) glance self.old self.new) }
    {
        let depth = unit(level)?;
        let first = unit(from)?;
        let last = unit(glance.before)?;
        let braces = braces_of(tokens, from, glance.before, depth);
        self.pieces.body(first, last, braces)
    }

    // A whole text that is no root.
    fn text(
        &mut self,
        production: Production,
        from: usize,
        count: usize,
        glance: Glance,
    ) -> Result<(), NoMemory>
        requires text { IsTextOf production }
        requires fits { MayBuild (builds.Node production from count) self.old }
        ensures { OnOk result (Builds (builds.Node production from count) glance self.old self.new) }
    {
        let first = unit(from)?;
        let last = unit(glance.before)?;
        self.pieces.whole(production, first, last)
    }

    fn function(&mut self, from: usize, count: usize, glance: Glance) -> Result<(), NoMemory>
        requires { MayBuild (builds.Node production.Function from count) self.old }
        ensures { OnOk result
            (Builds (builds.Node production.Function from count) glance self.old self.new) }
    {
        let first = unit(from)?;
        let last = unit(glance.before)?;
        let id = self
            .pieces
            .function(self.alloc, &mut self.script, first, last)?;
        self.pieces.push(Piece::Node(id))
    }

    fn declaration(&mut self, from: usize, count: usize, glance: Glance) -> Result<(), NoMemory>
        requires { MayBuild (builds.Node production.Declaration from count) self.old }
        ensures { OnOk result
            (Builds (builds.Node production.Declaration from count) glance self.old self.new) }
    {
        let first = unit(from)?;
        let last = unit(glance.before)?;
        let id = self
            .pieces
            .declaration(self.alloc, &mut self.script, first, last)?;
        self.pieces.push(Piece::Node(id))
    }

    // A node that is no function and no whole text.
    fn plain(
        &mut self,
        production: Production,
        from: usize,
        count: usize,
        glance: Glance,
    ) -> Result<(), NoMemory>
        requires plain { IsPlain production }
        requires fits { MayBuild (builds.Node production from count) self.old }
        ensures { OnOk result (Builds (builds.Node production from count) glance self.old self.new) }
    {
        let node = self.pieces.node(self.alloc, production)?;
        let first = unit(from)?;
        let last = unit(glance.before)?;
        let id = self.script.add(node, first, last)?;
        self.pieces.push(Piece::Node(id))
    }

    // A whole text, of its statements.
    fn root(&mut self, production: Production, glance: Glance) -> Result<(), NoMemory>
        requires { MayBuild (builds.Root production) self.old }
        ensures { OnOk result (Builds (builds.Root production) glance self.old self.new) }
    {
        let last = unit(glance.from)?;
        self.pieces.whole(production, 0, last)
    }

    pub(crate) fn into_script(self) -> Script
        ensures { result ≡ self.script }
    {
        let Trees {
            alloc: _,
            script,
            pieces: _,
        } = self;
        script
    }

    // The node of the whole text, which is the only tree.
    pub(crate) fn finish(&mut self) -> Result<(), NoMemory>
        requires { MayFinish self.old }
        ensures { OnOk result
            ((t : Tree) → HoldsTrees self.old (t ∷ []) → IsText self.new.script t) }
    {
        self.pieces.finish(self.alloc, &mut self.script)?;
        // The count says that the arena is in order.
        let _ = self.script.count();
        Ok(())
    }
}
