// Lists and pairs of what was read.
ghost use Rattle.std.specs.Prelude.{◌≡◌, List, [], ◌∷◌, ◌++◌, Some, IfOk, OnOk};
ghost use Rattle.js_grammar.specs.inner.Sorts.{Sort, made};
ghost use Rattle.js_grammar.specs.inner.Sorts as sort;
ghost use Rattle.js_grammar.specs.declared.symbol.Build.TheVariants as build;
ghost use Rattle.js_pieces.specs.declared.pieces.Piece.TheVariants as piece;
ghost use Rattle.js_pieces.specs.Lists.{Adds, MayAdd, MayPair, Names, Pairs};
ghost use Rattle.js_pieces.specs.Pieces.{Becomes, LastIs, sort_of, sort_of_value, sorts};

use crate::pieces::{Piece, Pieces, elements_of};
use js_tree::{Case, Catch, Declarator, NodeId};
use mug_text::{JText, Listed, NoMemory};

impl Pieces {
    /// Puts what was read last behind the list before it.
    pub fn add(&mut self) -> Result<(), NoMemory>
        requires { (ds : List Sort) × (made build.Add (sorts self.old) ≡ Some ds) }
        ensures { OnOk result (Becomes build.Add self.old self.new) }
    {
        let piece = self.pop();
        self.add_piece(piece)
    }

    fn add_piece(&mut self, piece: Piece) -> Result<(), NoMemory>
        requires { MayAdd (sort_of piece) self.old }
        ensures { OnOk result (Adds piece self.old self.new) }
    {
        match piece {
            Piece::Node(id) => self.add_node(id),
            Piece::Missing => self.add_hole(),
            Piece::Text(text) => self.add_word(text),
            Piece::Named(named) => self.add_named(named),
            Piece::Case(case) => self.add_case(case),
            _ => unreachable!(),
        }
    }

    fn add_node(&mut self, id: NodeId) -> Result<(), NoMemory>
        requires { MayAdd sort.Node self.old }
        ensures { OnOk result (Adds (piece.Node id) self.old self.new) }
    {
        match self.pop() {
            Piece::Empty => self.push(Piece::Nodes(with(Listed::new(self.alloc), id)?)),
            Piece::Nodes(ids) => self.push(Piece::Nodes(with(ids, id)?)),
            Piece::Elements(ids) => self.push(Piece::Elements(with(ids, Some(id))?)),
            _ => unreachable!(),
        }
    }

    // An element that isn't there (11.1.4).
    fn add_hole(&mut self) -> Result<(), NoMemory>
        requires { MayAdd sort.Gap self.old }
        ensures { OnOk result (Adds piece.Missing self.old self.new) }
    {
        match self.pop() {
            Piece::Empty => self.push(Piece::Elements(with(Listed::new(self.alloc), None)?)),
            Piece::Nodes(ids) => {
                let elements = elements_of(self.alloc, ids.as_slice())?;
                self.push(Piece::Elements(with(elements, None)?))
            }
            Piece::Elements(ids) => self.push(Piece::Elements(with(ids, None)?)),
            _ => unreachable!(),
        }
    }

    fn add_word(&mut self, text: JText) -> Result<(), NoMemory>
        requires { MayAdd sort.Text self.old }
        ensures { OnOk result (Adds (piece.Text text) self.old self.new) }
    {
        match self.pop() {
            Piece::Empty => self.push(Piece::Words(with(Listed::new(self.alloc), text)?)),
            Piece::Words(words) => self.push(Piece::Words(with(words, text)?)),
            _ => unreachable!(),
        }
    }

    fn add_named(&mut self, named: Declarator) -> Result<(), NoMemory>
        requires { MayAdd (sort_of_value named.value) self.old }
        ensures { OnOk result (Adds (piece.Named named) self.old self.new) }
    {
        match self.pop() {
            Piece::Empty => self.push(Piece::AllNamed(with(Listed::new(self.alloc), named)?)),
            Piece::AllNamed(all) => self.push(Piece::AllNamed(with(all, named)?)),
            _ => unreachable!(),
        }
    }

    fn add_case(&mut self, case: Case) -> Result<(), NoMemory>
        requires { MayAdd sort.Case self.old }
        ensures { OnOk result (Adds (piece.Case case) self.old self.new) }
    {
        match self.pop() {
            Piece::Empty => self.push(Piece::Cases(with(Listed::new(self.alloc), case)?)),
            Piece::Cases(cases) => self.push(Piece::Cases(with(cases, case)?)),
            _ => unreachable!(),
        }
    }

    /// Makes one of the last two: a name or a key with its value, a clause of a switch, or a catch.
    pub fn pair(&mut self) -> Result<(), NoMemory>
        requires { (ds : List Sort) × (made (build.Group 2) (sorts self.old) ≡ Some ds) }
        ensures { OnOk result (Becomes (build.Group 2) self.old self.new) }
    {
        let piece = self.pop();
        self.pair_piece(piece)
    }

    fn pair_piece(&mut self, piece: Piece) -> Result<(), NoMemory>
        requires { MayPair (sort_of piece) self.old }
        ensures { OnOk result (Pairs piece self.old self.new) }
    {
        match piece {
            Piece::Node(id) => self.pair_value(Some(id)),
            Piece::Missing => self.pair_value(None),
            Piece::Empty => self.pair_statements(Listed::new(self.alloc)),
            Piece::Nodes(ids) => self.pair_statements(ids),
            _ => unreachable!(),
        }
    }

    // A name or a key with its value.
    fn pair_value(&mut self, value: Option<NodeId>) -> Result<(), NoMemory>
        requires { LastIs sort.Text self.old }
        ensures { OnOk result (Names value self.old self.new) }
    {
        match self.pop() {
            Piece::Text(name) => self.push(Piece::Named(Declarator { name, value })),
            _ => unreachable!(),
        }
    }

    // A clause of a switch, or a catch.
    fn pair_statements(&mut self, statements: Listed<NodeId>) -> Result<(), NoMemory>
        requires { MayPair sort.Nodes self.old }
        ensures { OnOk result (Pairs (piece.Nodes statements) self.old self.new) }
    {
        match self.pop() {
            Piece::Node(id) => self.push(Piece::Case(Case {
                test: Some(id),
                statements,
            })),
            Piece::Missing => self.push(Piece::Case(Case {
                test: None,
                statements,
            })),
            Piece::Text(name) => self.push(Piece::Catch(Catch { name, statements })),
            _ => unreachable!(),
        }
    }
}

// One item more.
fn with<T: Drop>(list: Listed<T>, item: T) -> Result<Listed<T>, NoMemory>
    ensures { IfOk result (λ more. more ≡ list ++ item ∷ []) }
{
    let mut list = list;
    list.push(item)?;
    Ok(list)
}
