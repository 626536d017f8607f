// What holds of the answer of a text, as contracts of functions that do nothing.
ghost use Rattle.js_grammar.specs.Laws.{OneAnswer, EachHasOneAnswer, FirstRefused, FirstTooDeep};
ghost use Rattle.js_grammar.specs.Ends.{EndIsAnswer};
ghost use Rattle.js_grammar.specs.Programs.{OneVerdict};

use js_tokens::tokens_are_one;

/// A text has never two answers.
pub fn an_answer_is_one()
    ensures { OneAnswer }
{}

/// Each text has exactly one answer.
pub fn each_text_has_one_answer()
    ensures { EachHasOneAnswer }
{}

/// A refusal stands at the first token that can't be read, whatever semicolons are inserted.
pub fn a_refusal_is_the_first()
    ensures { FirstRefused }
{}

/// Too deep stands the first token that does, whatever semicolons are inserted.
pub fn too_deep_is_the_first()
    ensures { FirstTooDeep }
{}

/// What a text ends in, step by step, is its answer.
pub fn an_end_is_the_answer()
    ensures { EndIsAnswer }
{}

/// A text of units has never two programs, two places where it is refused, or both.
pub fn a_verdict_is_one()
    ensures { OneVerdict }
{
    tokens_are_one();
}
