// How far natives go.

/// The indices that one native goes through: at most so many.
pub const INDICES_LIMIT: usize = 1 << 24;
