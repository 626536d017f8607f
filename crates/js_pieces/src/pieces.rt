// What was read and isn't part of a node yet.
ghost use Rattle.std.specs.Prelude.{◌≡◌, ◌∷◌, [], List, Some, IfOk, OnOk};
ghost use Rattle.std.specs.Option.{option_copied};
ghost use Rattle.js_tree.specs.declared.node.NodeId.{NodeId};
ghost use Rattle.js_tree.specs.Trees.{at, perhaps, named, nodes, at_last, elements, words, declarators, entries, cases, caught, Part};
ghost use Rattle.js_grammar.specs.inner.Sorts.{Sort};
ghost use Rattle.js_grammar.specs.inner.Sorts as sort;
ghost use Rattle.js_pieces.specs.declared.pieces.Piece.TheVariants as piece;
ghost use Rattle.js_pieces.specs.Pieces as pieces;
ghost use Rattle.js_pieces.specs.Pieces.{AreNamed, LastIs, Takes};

use js_tree::{Braces, Case, Catch, Declarator, Entry, NodeId, Production};
use mug_text::{JText, Listed, NoMemory};
use std::alloc::Global;
use std::marker::Model;

/// What was read: a node, a text, a part that isn't there, or a list or pair of these.
#[derive(Debug, Drop)]
pub enum Piece {
    Node(NodeId),
    Text(JText),
    Missing,
    /// A list without items, of any sort.
    Empty,
    Nodes(Listed<NodeId>),
    Elements(Listed<Option<NodeId>>),
    Words(Listed<JText>),
    /// A name or a key with its value.
    Named(Declarator),
    AllNamed(Listed<Declarator>),
    Case(Case),
    Cases(Listed<Case>),
    Catch(Catch),
    Body(ReadBody),
    Whole(WholeText),
}

/// A function's body, before its node stands in the arena.
#[derive(Debug, Drop)]
pub struct ReadBody {
    pub statements: Listed<NodeId>,
    pub from: u32,
    pub to: u32,
    pub braces: Braces,
}

/// A whole text, before its node stands in the arena.
#[derive(Debug, Drop)]
pub struct WholeText {
    pub production: Production,
    pub statements: Listed<NodeId>,
    pub from: u32,
    pub to: u32,
}

/// What was read, the last first.
#[derive(Debug, Drop)]
pub struct Pieces {
    pub(crate) alloc: Global,
    // The last stands last.
    pub(crate) items: Vec<Piece>,
}

impl Model for Pieces {
    ghost use Rattle.std.specs.Prelude.{List, reverse};
    ghost use Rattle.js_pieces.specs.declared.pieces.Piece.{Piece};

    ghost Value = { List Piece };

    ghost view = { λ p. reverse p.items.items };
}

impl Pieces {
    /// Nothing.
    pub fn new(alloc: Global) -> Pieces
        ensures { result ≡ [] }
    {
        Pieces {
            alloc,
            items: Vec::new(alloc),
        }
    }

    /// Puts a piece before the others.
    pub fn push(&mut self, piece: Piece) -> Result<(), NoMemory>
        ensures { OnOk result (self.new ≡ piece ∷ self.old) }
    {
        self.items.push(piece)?;
        Ok(())
    }

    /// Takes the last piece off.
    pub(crate) fn pop(&mut self) -> Piece
        requires { (c : Sort) × LastIs c self.old }
        ensures { self.old ≡ result ∷ self.new }
    {
        match self.items.pop() {
            Some(piece) => piece,
            None => unreachable!(),
        }
    }

    pub(crate) fn pop_node(&mut self) -> NodeId
        requires { LastIs sort.Node self.old }
        ensures { Takes self.old self.new (at result) }
    {
        match self.pop() {
            Piece::Node(id) => id,
            _ => unreachable!(),
        }
    }

    pub(crate) fn pop_text(&mut self) -> JText
        requires { LastIs sort.Text self.old }
        ensures { Takes self.old self.new (Part.Word result) }
    {
        match self.pop() {
            Piece::Text(text) => text,
            _ => unreachable!(),
        }
    }

    pub(crate) fn pop_maybe_node(&mut self) -> Option<NodeId>
        requires { LastIs sort.Maybe_node self.old }
        ensures { Takes self.old self.new (perhaps result) }
    {
        match self.pop() {
            Piece::Node(id) => Some(id),
            Piece::Missing => None,
            _ => unreachable!(),
        }
    }

    pub(crate) fn pop_maybe_text(&mut self) -> Option<JText>
        requires { LastIs sort.Maybe_text self.old }
        ensures { Takes self.old self.new (named result) }
    {
        match self.pop() {
            Piece::Text(text) => Some(text),
            Piece::Missing => None,
            _ => unreachable!(),
        }
    }

    pub(crate) fn pop_nodes(&mut self) -> Listed<NodeId>
        requires { LastIs sort.Nodes self.old }
        ensures { Takes self.old self.new (nodes result) }
    {
        match self.pop() {
            Piece::Empty => Listed::new(self.alloc),
            Piece::Nodes(ids) => ids,
            _ => unreachable!(),
        }
    }

    pub(crate) fn pop_maybe_nodes(&mut self) -> Option<Listed<NodeId>>
        requires { LastIs sort.Maybe_nodes self.old }
        ensures { Takes self.old self.new (at_last result) }
    {
        match self.pop() {
            Piece::Missing => None,
            Piece::Empty => Some(Listed::new(self.alloc)),
            Piece::Nodes(ids) => Some(ids),
            _ => unreachable!(),
        }
    }

    pub(crate) fn pop_elements(&mut self) -> Result<Listed<Option<NodeId>>, NoMemory>
        requires { LastIs sort.Elements self.old }
        ensures { IfOk result (λ ids. Takes self.old self.new (elements ids)) }
    {
        match self.pop() {
            Piece::Empty => Ok(Listed::new(self.alloc)),
            Piece::Nodes(ids) => elements_of(self.alloc, ids.as_slice()),
            Piece::Elements(ids) => Ok(ids),
            _ => unreachable!(),
        }
    }

    pub(crate) fn pop_words(&mut self) -> Listed<JText>
        requires { LastIs sort.Words self.old }
        ensures { Takes self.old self.new (words result) }
    {
        match self.pop() {
            Piece::Empty => Listed::new(self.alloc),
            Piece::Words(words) => words,
            _ => unreachable!(),
        }
    }

    pub(crate) fn pop_declarators(&mut self) -> Listed<Declarator>
        requires { LastIs sort.Declarators self.old }
        ensures { Takes self.old self.new (declarators result) }
    {
        match self.pop() {
            Piece::Empty => Listed::new(self.alloc),
            Piece::AllNamed(all) => all,
            _ => unreachable!(),
        }
    }

    pub(crate) fn pop_entries(&mut self) -> Result<Listed<Entry>, NoMemory>
        requires { LastIs sort.Entries self.old }
        ensures { IfOk result (λ all. Takes self.old self.new (entries all)) }
    {
        match self.pop() {
            Piece::Empty => Ok(Listed::new(self.alloc)),
            Piece::AllNamed(all) => entries_of(self.alloc, all.as_slice()),
            _ => unreachable!(),
        }
    }

    pub(crate) fn pop_cases(&mut self) -> Listed<Case>
        requires { LastIs sort.Cases self.old }
        ensures { Takes self.old self.new (cases result) }
    {
        match self.pop() {
            Piece::Empty => Listed::new(self.alloc),
            Piece::Cases(cases) => cases,
            _ => unreachable!(),
        }
    }

    pub(crate) fn pop_maybe_catch(&mut self) -> Option<Catch>
        requires { LastIs sort.Maybe_catch self.old }
        ensures { Takes self.old self.new (caught result) }
    {
        match self.pop() {
            Piece::Catch(catch) => Some(catch),
            Piece::Missing => None,
            _ => unreachable!(),
        }
    }

    /// The last piece.
    pub fn last(&self) -> Option<&Piece>
        ensures { option_copied result ≡ pieces.last self.now }
    {
        let (piece, _) = self.items.as_slice().split_last()?;
        Some(piece)
    }

    pub(crate) fn pop_body(&mut self) -> ReadBody
        requires { LastIs sort.Body self.old }
        ensures { self.old ≡ piece.Body result ∷ self.new }
    {
        match self.pop() {
            Piece::Body(body) => body,
            _ => unreachable!(),
        }
    }

    pub(crate) fn pop_whole(&mut self) -> WholeText
        requires { LastIs sort.Root self.old }
        ensures { self.old ≡ piece.Whole result ∷ self.new }
    {
        match self.pop() {
            Piece::Whole(text) => text,
            _ => unreachable!(),
        }
    }
}

// The nodes as elements without a hole.
pub(crate) fn elements_of(alloc: Global, ids: &[NodeId]) -> Result<Listed<Option<NodeId>>, NoMemory>
    ensures { IfOk result (λ all. elements all ≡ nodes ids.now) }
{
    let mut all = Listed::new(alloc);
    for id in ids {
        all.push(Some(*id))?;
    }
    Ok(all)
}

// The names with their values as properties; each has a value.
fn entries_of(alloc: Global, list: &[Declarator]) -> Result<Listed<Entry>, NoMemory>
    requires { AreNamed list.now }
    ensures { IfOk result (λ all. entries all ≡ declarators list.now) }
{
    let mut all = Listed::new(alloc);
    for named in list {
        all.push(entry_of(named)?)?;
    }
    Ok(all)
}

fn entry_of(named: &Declarator) -> Result<Entry, NoMemory>
    requires { (id : NodeId) × (named.now.value ≡ Some id) }
    ensures { IfOk result (λ e. (e.key ≡ named.now.name) × (named.now.value ≡ Some e.value)) }
{
    let Some(value) = named.value else {
        unreachable!();
    };
    let key = named.name.copy()?;
    Ok(Entry { key, value })
}
