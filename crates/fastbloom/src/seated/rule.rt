//! The rule of the words that threads share. A seat at their table is what one user knows of them.
ghost use Rattle.fastbloom.specs.Rule.{IsSeated, first_view};

use atomic_table::TableRule;

/// The kind of a seat. Only contracts have values of it.
pub enum Role {
    /// The first, while it puts the words in.
    First,
    /// A pass.
    Pass,
    /// What a pass knows, on its way to another.
    Note,
    /// A note that has arrived.
    Spent,
}

/// What a seat at the table knows. Only contracts have values of it; they read an array as a list.
pub struct Sets {
    pub role: Role,
    /// The words that the filter began with.
    pub start: [u64; 0],
    /// The positions that the seat knows to be set.
    pub known: [u64; 0],
    /// Those of them that it set itself.
    pub gained: [u64; 0],
    /// How many passes it stands for.
    pub passes: usize,
}

/// How many words a table has, and how many passes at most.
#[derive(Clone, Copy)]
pub struct Size {
    pub words: usize,
    pub passes: usize,
}

/// The rule that holds between any two steps: all that passes know is set, and no position is
/// gained twice.
pub struct SeatedRule;

impl TableRule<(), Sets, Size> for SeatedRule {
    ghost holds = { λ size standing. IsSeated size.words size.passes standing };

    ghost first = { λ size. first_view size.words size.passes };
}
