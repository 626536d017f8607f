// The scripts of a run's texts.
ghost use Rattle.std.specs.Prelude.{◌≡◌, ℕ, ◌-◌, ◌≤◌, ◌++◌, [], None, length, replicate, OnOk};
ghost use Rattle.std.specs.Option.{option_copied};
ghost use Rattle.js_calls.specs.Texts.{IsRead};
ghost use Rattle.js_frames.specs.Arenas.{AreOrdered, AreRead, arena_of, text_at, with_text};

use js_tree::Script;
use mug_text::NoMemory;
use std::alloc::Global;
use std::marker::Model;

/// The scripts by the numbers of their texts. A text that couldn't be read has a number, and no
/// script.
#[derive(Drop)]
pub struct Texts {
    scripts: Vec<Option<Script>>,
}

impl Model for Texts {
    ghost use Rattle.js_frames.specs.Arenas.{AreOrdered, AreRead, Arenas};

    ghost Value = { Arenas };

    ghost view = { λ t. t.scripts.items };

    ghost invariant = { λ t. AreOrdered t.scripts.items × AreRead t.scripts.items };
}

// Puts texts without scripts, up to this number.
fn skip_to(scripts: &mut Vec<Option<Script>>, text: usize) -> Result<(), NoMemory>
    requires { length scripts.old.items ≤ text }
    ensures skipped { OnOk result (scripts.new.items
        ≡ scripts.old.items ++ replicate (text - length scripts.old.items) None) }
    ensures same { (x : ℕ) → arena_of scripts.new.items x ≡ arena_of scripts.old.items x }
{
    for _number in scripts.len()..text {
        scripts.reserve(1)?;
        scripts.push_reserved(None);
    }
    Ok(())
}

impl Texts {
    /// None.
    pub fn new(alloc: Global) -> Texts
        ensures { result ≡ [] }
    {
        Texts {
            scripts: Vec::new(alloc),
        }
    }

    /// How many texts have a number.
    pub fn count(&self) -> usize
        ensures is { result ≡ length self.now }
        ensures ordered { AreOrdered self.now }
        ensures read { AreRead self.now }
    {
        self.scripts.len()
    }

    /// The script of a text.
    pub fn script(&self, text: u32) -> Option<&Script>
        ensures { option_copied result ≡ text_at self.now text }
    {
        match self.scripts.get(text as usize)? {
            Some(script) => Some(script),
            None => None,
        }
    }

    /// Puts the script of one more text; those between are texts that couldn't be read.
    pub fn add(&mut self, text: u32, script: Script) -> Result<(), NoMemory>
        requires number { length self.old ≤ text }
        requires read { IsRead script }
        ensures { OnOk result (self.new ≡ with_text text script self.old) }
    {
        let _nodes = script.count();
        skip_to(&mut self.scripts, text as usize)?;
        self.scripts.reserve(1)?;
        self.scripts.push_reserved(Some(script));
        Ok(())
    }
}
