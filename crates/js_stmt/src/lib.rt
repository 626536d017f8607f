//! Statements and the bodies of functions: one row for each kind of node and each phase of it.
#![tactic(auto)]

mod bodies;
mod contract;
mod for_in;
mod found;
mod jumps;
mod kept;
mod labelling;
mod laws;
mod loops;
mod node_rows;
mod operand_lists;
mod phase;
mod row;
mod scopes;
mod stmt_move;
mod switches;
mod tries;
mod variables;

pub use contract::{contract_stmt, meet_stmt};
pub use kept::StmtKept;
pub use laws::{a_statement_goes_on_as_its_node, statements_run_where_they_stand};
pub use node_rows::stmt_row_of;
pub use operand_lists::restart;
pub use phase::StmtPhase;
pub use row::{ForInParts, Labelling, LoopParts, StmtRow, SwitchParts};
pub use scopes::new_scope;
pub use stmt_move::StmtMove;
