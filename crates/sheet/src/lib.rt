// The sheet of counted alarm pairs, with its calls.
#![tactic(auto)]

mod fault;
mod laws;
mod row;
mod row_array;
mod sheet;
mod table;

pub use fault::Fault;
pub use laws::book_laws;
pub use row::{MAX_COUNT, Row};
pub use row_array::MAX_ROWS;
pub use sheet::Sheet;
pub use table::{MAX_ALARMS, MAX_LIMIT};
