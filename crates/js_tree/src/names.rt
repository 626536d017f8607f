// The names of a scope (ECMA-262 edition 5.1, 10.5).
ghost use Rattle.std.specs.Prelude.{◌≡◌, ℕ, List, [], ◌∷◌, ◌++◌, length, if◌then◌else◌, ◌&&◌, option_to_list, IfOk, OnOk, OnErr};
ghost use Rattle.std.specs.Option.{option_copied};
ghost use Rattle.js_tree.specs.Trees.{Tree, Holds, nodes};
ghost use Rattle.js_tree.specs.Names.{arguments, call_scope, functions_in, is_among, is_new, is_own_name, joined, names_of, program_scope};
ghost use Rattle.js_tree.specs.Arena.{IsWithin};
ghost use Rattle.js_tree.specs.Walk.{declared_by};
ghost use Rattle.js_tree.specs.Seen.{HasNames};

use crate::node::{Declared, Node, NodeId, Scope};
use crate::script::Script;
use crate::walk::Wanted;
use mug_text::{JText, Listed, NoMemory};
use std::alloc::{AllocError, Global};
use std::collections::BTreeSet;
use std::marker::Model;

// `arguments`
const ARGUMENTS: [u16; 9] = [0x61, 0x72, 0x67, 0x75, 0x6D, 0x65, 0x6E, 0x74, 0x73];

/// Names in their order, each once; the set spares a look through the list.
#[derive(Drop)]
struct Names {
    list: Vec<JText>,
    seen: BTreeSet<JText>,
}

impl Model for Names {
    ghost use Rattle.std.specs.Prelude.{ℕ, List};

    ghost Value = { List (List ℕ) };

    ghost use Rattle.js_tree.specs.Seen.{HasNames};

    ghost view = { λ n. n.list.items };

    ghost invariant = { λ n. HasNames n.seen n.list.items };
}

// Whether a name stands among these texts.
fn has(texts: &[JText], name: &JText) -> bool
    ensures { result ≡ is_among name.now texts.now }
{
    texts.iter().any(|text| *name == *text)
}

// Adds a name to a set, and says whether it is a new one.
fn see(seen: &mut BTreeSet<JText>, name: JText) -> Result<bool, AllocError>
    ensures new { (names : List (List ℕ)) → HasNames seen.old names → IfOk result (λ b. b ≡ is_new names name) }
    ensures ok { (names : List (List ℕ)) → HasNames seen.old names → OnOk result (HasNames seen.new (joined names (name ∷ []))) }
    ensures err { (names : List (List ℕ)) → HasNames seen.old names → OnErr result (HasNames seen.new names) }
{
    let is_new = seen.insert(name)?;
    Ok(is_new)
}

impl Names {
    fn new(alloc: Global) -> Names
        ensures { result ≡ [] }
    {
        Names {
            list: Vec::new(alloc),
            seen: BTreeSet::new(alloc),
        }
    }

    // Adds a name, and says whether it is a new one.
    fn add(&mut self, name: &JText) -> Result<bool, NoMemory>
        ensures new { IfOk result (λ b. b ≡ is_new self.old name.now) }
        ensures ok { OnOk result (self.new ≡ joined self.old (name.now ∷ [])) }
    {
        let kept = name.copy()?;
        let key = name.copy()?;
        self.list.reserve(1)?;
        let is_new = see(&mut self.seen, key)?;
        if is_new {
            self.list.push_reserved(kept);
        }
        Ok(is_new)
    }

    fn add_all(&mut self, names: &[JText]) -> Result<(), NoMemory>
        ensures { OnOk result (self.new ≡ joined self.old names.now) }
    {
        for name in names {
            let _ = self.add(name)?;
        }
        Ok(())
    }

    // Adds the names of functions.
    fn add_functions(&mut self, functions: &[Declared]) -> Result<(), NoMemory>
        ensures { OnOk result (self.new ≡ joined self.old (names_of functions.now)) }
    {
        for function in functions {
            let _ = self.add(&function.name)?;
        }
        Ok(())
    }

    // Adds `arguments`, where it stands among these texts, and says whether it is a new name.
    fn add_arguments(&mut self, alloc: Global, texts: &[JText]) -> Result<bool, NoMemory>
        ensures new { IfOk result (λ is_object. is_object ≡ (is_among arguments texts.now && is_new self.old arguments)) }
        ensures ok { OnOk result (self.new ≡ joined self.old (if is_among arguments texts.now then arguments ∷ [] else [])) }
    {
        let arguments = JText::from_units(alloc, &ARGUMENTS)?;
        if has(texts, &arguments) {
            self.add(&arguments)
        } else {
            Ok(false)
        }
    }

    // Adds a function's own name, and says whether it is a new one.
    fn add_own(&mut self, name: Option<&JText>) -> Result<bool, NoMemory>
        ensures new { IfOk result (λ is_own. is_own ≡ is_own_name self.old (option_copied name.entry)) }
        ensures ok { OnOk result (self.new ≡ joined self.old (option_to_list (option_copied name.entry))) }
    {
        match name {
            Some(name) => self.add(name),
            None => Ok(false),
        }
    }

    fn into_list(self) -> Listed<JText>
        ensures { result ≡ self }
    {
        Listed::of(self.list)
    }
}

// Puts what a node that begins at this unit declares behind these.
fn push_declared(functions: &mut Vec<Declared>, node: &Node, from: u32) -> Result<(), NoMemory>
    ensures { OnOk result (functions.new.items ≡ functions.old.items ++ declared_by node.now from) }
{
    match node {
        Node::Declaration { head, .. } => {
            let name = head.name.copy()?;
            functions.reserve(1)?;
            functions.push_reserved(Declared { name, at: from });
            Ok(())
        }
        _ => Ok(()),
    }
}

impl Script {
    // The functions that are declared among these statements.
    fn functions_in(&self, alloc: Global, statements: &[NodeId]) -> Result<Vec<Declared>, NoMemory>
        requires { IsWithin (length self.now.kept) (length self.now.pending) (nodes statements.now) }
        ensures { IfOk result (λ found. (bodies : ℕ → Tree) (t : Tree) → Holds bodies self.now.kept (nodes statements.now) t → found.items ≡ functions_in t) }
    {
        let mut found = Vec::new(alloc);
        for id in statements {
            let (from, _) = self.span(*id);
            push_declared(&mut found, self.node(*id), from)?;
        }
        Ok(found)
    }

    /// What a program of these statements declares.
    pub fn program_scope(&self, alloc: Global, statements: &[NodeId]) -> Result<Scope, NoMemory>
        requires { IsWithin (length self.now.kept) (length self.now.pending) (nodes statements.now) }
        ensures { IfOk result (λ scope. (bodies : ℕ → Tree) (t : Tree) → Holds bodies self.now.kept (nodes statements.now) t → scope ≡ program_scope t) }
    {
        let vars = self.texts_in(alloc, statements, Wanted::Vars)?;
        let functions = self.functions_in(alloc, statements)?;
        let mut names = Names::new(alloc);
        names.add_functions(&functions)?;
        names.add_all(&vars)?;
        Ok(Scope {
            names: names.into_list(),
            functions: Listed::of(functions),
            has_arguments: false,
            has_own_name: false,
        })
    }

    /// The scope of a call, for a function of these parameters, its own name where it has one, and these statements.
    pub fn call_scope(
        &self,
        alloc: Global,
        parameters: &[JText],
        own: Option<&JText>,
        statements: &[NodeId],
    ) -> Result<Scope, NoMemory>
        requires { IsWithin (length self.now.kept) (length self.now.pending) (nodes statements.now) }
        ensures { IfOk result (λ scope. (bodies : ℕ → Tree) (t : Tree) → Holds bodies self.now.kept (nodes statements.now) t → scope ≡ call_scope parameters.now (option_copied own.entry) t) }
    {
        let variables = self.texts_in(alloc, statements, Wanted::Variables)?;
        let vars = self.texts_in(alloc, statements, Wanted::Vars)?;
        let functions = self.functions_in(alloc, statements)?;
        let mut names = Names::new(alloc);
        names.add_all(parameters)?;
        names.add_functions(&functions)?;
        let has_arguments = names.add_arguments(alloc, &variables)?;
        names.add_all(&vars)?;
        let has_own_name = names.add_own(own)?;
        Ok(Scope {
            names: names.into_list(),
            functions: Listed::of(functions),
            has_arguments,
            has_own_name,
        })
    }
}
