// What holds of the bytes of all items. These functions do nothing: their clauses are the laws.
ghost use Rattle.std.specs.Prelude.{◌≡◌, ℕ, List, [], ◌++◌, length, take};
ghost use Rattle.page_inputs.specs.declared.input.PageInput.{PageInput};
ghost use Rattle.input_log.specs.declared.item.LogItem.{LogItem};
ghost use Rattle.input_log.specs.Inputs.{inputs_of, logged};
ghost use Rattle.input_log.specs.Items.{BeginsWith, BeginsWithNone, IsItem, encoding};

/// No item's bytes begin another's.
pub fn no_item_begins_another()
    ensures { (a b : LogItem) (rest : List ℕ) → IsItem a → IsItem b
        → encoding b ≡ encoding a ++ rest → (a ≡ b) × (rest ≡ []) }
{}

/// Whatever follows an item's bytes, that item and no other is read from them.
pub fn what_is_encoded_decodes()
    ensures same { (item found : LogItem) (rest : List ℕ) (len : ℕ) → IsItem item
        → BeginsWith (encoding item ++ rest) found len
        → (found ≡ item) × (len ≡ length (encoding item)) }
    ensures some { (item : LogItem) (rest : List ℕ) → IsItem item
        → ¬ BeginsWithNone (encoding item ++ rest) }
{}

/// The bytes that an item was read from are its bytes.
pub fn what_decodes_encodes_back()
    ensures { (bytes : List ℕ) (item : LogItem) (len : ℕ)
        → BeginsWith bytes item len → encoding item ≡ take len bytes }
{}

/// The inputs that were logged come back from their items.
pub fn logged_inputs_come_back()
    ensures { (inputs : List PageInput) → inputs_of (logged inputs) ≡ inputs }
{}
