// The C tree: what the compiler writes and the C reader reads. The grammar of the C subset, the printed layout
// and the meaning of C stand in specs/; a unit is an arena of nodes, a part with a smaller number than its whole.
#![tactic(auto)]

pub mod blocks;
pub mod ids;
pub mod kinds;
pub mod laws;
mod lengths;
pub mod lists;
pub mod nodes;
mod print_code;
mod print_exprs;
mod print_items;
pub mod printing;
mod recent;
mod sharing;
pub mod tokens;
pub mod unit;
mod words;

pub use blocks::Blocks;
pub use ids::{CExprId, CItemId, CNameId, CStmtId, CStringId};
pub use kinds::{CNumber, COp, CUint, CUnary, Linkage, Otherwise};
pub use laws::printed_is_a_text;
pub use lists::CList;
pub use nodes::{CArg, CCall, CExpr, CField, CFieldType, CItem, CLocal, CParam, CStmt, CType};
pub use printing::{print, print_len};
pub use tokens::{CMark, CWord};
pub use unit::Unit;
