//! Truth tables as text: tables are made, printed and read exactly, and students' tables are graded.
#![tactic(auto)]

mod answer_line;
mod answers;
mod asked;
mod body;
mod check;
mod fault;
mod laws;
mod list_line;
mod print;
mod read;
mod row_line;
mod rows;
mod standard;
mod table;
mod written;

pub use check::check_table;
pub use fault::{TableFault, TableTextFault};
pub use laws::table_text_laws;
pub use print::print_table;
pub use read::read_table;
pub use standard::make_table;
pub use table::{
    Flags, Question, Questions, Table, TableAnswer, TableAnswers, TableRow, TableRows, TableText,
    TableVerdict,
};
