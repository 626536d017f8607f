// That the definitions leave no choice. The function does nothing: its clause is the law.
ghost use Rattle.js_tokens.specs.Laws.{OneList};

/// A text has never two lists of tokens, two places where it is refused, or both.
pub fn tokens_are_one()
    ensures { OneList }
{}
