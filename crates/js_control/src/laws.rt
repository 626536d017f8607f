// What holds of rows by their definitions. These functions do nothing: their clauses are the laws.
ghost use Rattle.js_operands.specs.Setting.{HostFacts};
ghost use Rattle.js_control.specs.Waits.{RowsCompute, RowsWait};
ghost use Rattle.js_control.specs.Targets.{KeysAreRead, MembersAreRead, RequestsHaveNoPlace};

/// Where `op=` goes on its target has been read, and its value stands behind the target's operands:
/// the base is neither undefined nor null, and a key is a primitive value.
pub fn revised_targets_are_read<H>()
    ensures members { (F : HostFacts H) → MembersAreRead F }
    ensures keys { (F : HostFacts H) → KeysAreRead F }
{}

/// Conversions, and calls of a callee that is known, look at no place and at no context.
pub fn requests_look_at_no_place<H>()
    ensures { (F : HostFacts H) → RequestsHaveNoPlace F }
{}

/// A node that waits for the conversion of an operand stays, over its first operands; what an
/// operator that assigns computes stands behind the operands of its target.
pub fn rows_stay_over_their_first_operands<H>()
    ensures waits { (F : HostFacts H) → RowsWait F }
    ensures computes { (F : HostFacts H) → RowsCompute F }
{}
