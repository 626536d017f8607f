// What holds of the images of rows by the definitions alone. These functions do nothing: their
// clauses are the laws.
ghost use Rattle.js_operands.specs.Setting.{HostFacts};
ghost use Rattle.js_reference.specs.Own.{OwnProperties};
ghost use Rattle.js_plain.specs.Images.{OwnCommute};
ghost use Rattle.js_plain_rows.specs.Expressions.{EarlyCommute, ExpressionsCommute};
ghost use Rattle.js_plain_rows.specs.Statements.{StatementsCommute};

/// What a row of an expression makes of images is the image of what it makes, over each host whose
/// own properties commute with the image.
pub fn expressions_commute_with_the_image<H>()
    ensures made { (g : H → H) (F : HostFacts H) → OwnCommute g F.own → ExpressionsCommute g F }
    ensures early { (g : H → H) (O : OwnProperties H) → OwnCommute g O → EarlyCommute g O }
{}

/// The same of the rows of statements, which may hold values, and of what completions do to them.
pub fn statements_commute_with_the_image<H>()
    ensures { (g : H → H) (O : OwnProperties H) → OwnCommute g O → StatementsCommute g O }
{}
