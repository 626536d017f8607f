// What the crate's tables and pages have to do with their definitions.
ghost use Rattle.std.specs.Prelude.{◌≡◌, ℕ, List, false, length, map, drop};
ghost use Rattle.html_profile.specs.Names.{handler_names};
ghost use Rattle.html_profile.specs.InsertedScript.{inserted_script};
ghost use Rattle.html_profile.specs.FirstPlace.{mark_len, first_place};
ghost use Rattle.html_profile.specs.Page.{Page, IsPage, IsWholePage, opens_prelude, without_prelude, IsPassedOver};
ghost use Rattle.html_profile.specs.ScriptPlaces.{LieWithin};
ghost use Rattle.html_profile.specs.Shape.{HasShape};
ghost use Rattle.html_profile.specs.Nesting.{IsNested};
ghost use Rattle.html_profile.specs.declared.document.DocNode.{DocNode};
ghost use Rattle.mug_text.specs.Text.{IsText};

use crate::names::HANDLERS;
use crate::prelude::PRELUDE;

/// The public tables are those that the definitions spell.
pub fn tables_are_spelled()
    ensures handlers { map (λ handler. handler.now) HANDLERS ≡ handler_names }
    ensures inserted { PRELUDE.now ≡ inserted_script }
{}

/// A page with the inserted script at its first place reads as the page without, where that has
/// none there, and has the same first place.
pub fn inserted_script_is_passed_over()
    ensures { (q : List ℕ) → opens_prelude (drop (first_place q) q) ≡ false → IsPassedOver q }
{}

/// Of a page that is UTF-8: no text is empty, no two stand side by side, neither texts nor void
/// elements have children, and the nodes are numbered in the order in which they are opened.
pub fn pages_have_shape()
    ensures page { (q t : List ℕ) (page : Page) → IsText q t → IsPage q page → HasShape page.nodes }
    ensures whole { (q t : List ℕ) (page : Page) → IsText q t → IsWholePage q page
        → HasShape page.nodes }
{}

/// The bytes of each script lie within its page, so that `Document::script_byte` names a byte of
/// the page, or the end of the script's.
pub fn scripts_lie_within()
    ensures page { (q : List ℕ) (page : Page) → IsPage q page
        → LieWithin (length (without_prelude q)) page.scripts }
    ensures whole { (q : List ℕ) (page : Page) → IsWholePage q page
        → LieWithin (length q) page.scripts }
{}

/// The nodes of a page are those that its pieces are, each with its own pieces and each end tag
/// with the element that it closes; and a text's pieces are one list of nodes at most.
pub fn pages_are_nested()
    ensures page { (q : List ℕ) (page : Page) → IsPage q page
        → IsNested (drop (mark_len q) (without_prelude q)) page.nodes }
    ensures whole { (q : List ℕ) (page : Page) → IsWholePage q page
        → IsNested (drop (mark_len q) q) page.nodes }
    ensures one { (text : List ℕ) (a b : List DocNode) → IsNested text a → IsNested text b → a ≡ b }
{}
