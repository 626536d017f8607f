// The tokens of a text.
ghost use Rattle.std.specs.Prelude.{◌≡◌, length, IfOk, IfErr};
ghost use Rattle.js_tokens.specs.Tokens.{TokensFrom};
ghost use Rattle.js_tokens.specs.Faults.{Refuses};

use crate::gaps::gap_at;
use crate::lexer::token_at;
use crate::{LexFault, Token, Tokens};
use mug_text::{JText, Listed};
use std::alloc::Global;

/// The tokens of a text, or the first place at which none begins.
pub fn tokens(alloc: Global, text: &JText) -> Result<Tokens, LexFault>
    ensures found { IfOk result (λ t. TokensFrom text.now 0 t.items) }
    ensures end { IfOk result (λ t. t.end ≡ length text.now) }
    ensures refused { IfErr result (λ fault. Refuses fault text.now) }
{
    let mut items = Vec::new(alloc);
    let mut at = 0;
    let mut dry = false;
    'tokens: loop {
        let gap = gap_at(&text.as_slice()[at..], dry);
        let from = at + gap.len;
        if from == text.len() {
            return Ok(Tokens {
                items: Listed::of(items),
                end: from,
            });
        }
        match token_at(alloc, text, from)? {
            None => return Err(LexFault::NoToken { at: from }),
            Some(found) => {
                let to = from + found.len;
                let token = Token {
                    kind: found.kind,
                    from,
                    to,
                    word: found.word,
                    line_before: gap.line,
                };
                items.push(token)?;
                at = to;
                dry = gap.dry;
            }
        }
    }
}
