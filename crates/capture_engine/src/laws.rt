// What the definition of frames says. This function does nothing: its clauses are the law.
ghost use Rattle.std.specs.Prelude.{◌≡◌, List, ◌∷◌, ◌++◌};
ghost use Rattle.page_inputs.specs.declared.input.PageInput.{PageInput};
ghost use Rattle.input_log.specs.Inputs.{logged};
ghost use Rattle.input_log.specs.declared.item.LogItem.{LogItem};
ghost use Rattle.session_store.specs.Session.{items_of};
ghost use Rattle.capture_engine.specs.Frames.{AreFramesOf};

/// A head and inputs have frames, and no others, whose items in a row are the head and those of the
/// inputs.
pub fn frames_are_one()
    ensures some { (head : LogItem) (inputs : List PageInput)
        → (frames : List (List LogItem)) × AreFramesOf head inputs frames }
    ensures one { (head : LogItem) (inputs : List PageInput) (a b : List (List LogItem))
        → AreFramesOf head inputs a → AreFramesOf head inputs b → a ≡ b }
    ensures in_a_row { (head : LogItem) (inputs : List PageInput) (frames : List (List LogItem))
        → AreFramesOf head inputs frames → items_of frames ≡ head ∷ logged inputs }
{}
