// The inputs that items log.
ghost use Rattle.std.specs.Prelude.{◌≡◌, IfOk, MatchOption, [], ◌∷◌};
ghost use Rattle.input_log.specs.Inputs.{inputs_of, inputs_in};

use crate::LogItem;
use mug_text::{Listed, NoMemory};
use page_inputs::PageInput;
use std::alloc::Global;

// The input that an item logs, where it logs one.
fn input_of(item: &LogItem) -> Option<PageInput>
    ensures { MatchOption result (inputs_in item.now ≡ [])
        (λ input. inputs_in item.now ≡ input ∷ []) }
{
    match item {
        LogItem::Head {
            base: _,
            budget: _,
            page: _,
        } => None,
        LogItem::Load { t } => Some(PageInput::Load { t: *t }),
        LogItem::Now { v } => Some(PageInput::Now { v: *v }),
        LogItem::Rand { w } => Some(PageInput::Rand { w: *w }),
    }
}

/// The inputs that these items log, in their order: heads are left out.
pub fn inputs_of(alloc: Global, items: &[LogItem]) -> Result<Listed<PageInput>, NoMemory>
    ensures { IfOk result (λ inputs. inputs ≡ inputs_of items.now) }
{
    let mut inputs = Vec::new(alloc);
    for item in items {
        if let Some(input) = input_of(item) {
            inputs.push(input)?;
        }
    }
    Ok(Listed::of(inputs))
}
