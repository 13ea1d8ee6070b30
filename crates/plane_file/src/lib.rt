//! Files of planes: a table's head and its planes, byte by byte, written to a sink and read from a store.
#![tactic(auto)]

mod byte_digits;
mod checks;
mod column_cells;
mod column_reading;
mod columns;
mod fields;
mod file_fault;
mod fronts;
mod heads;
mod laws;
mod names;
mod opening;
mod places;
mod plane_fault;
mod plane_file;
mod planes;
mod reading;
mod table_fault;
mod table_reading;
mod words_fault;
mod write_fault;
mod writing;

pub use file_fault::FileFault;
pub use heads::plane_count;
pub use laws::{
    faultless_files_have_heads, file_faults_are_exact, files_have_one_head, files_have_tables,
    files_tell_cells, spelled_files_have_no_fault, tables_are_one,
};
pub use opening::open;
pub use plane_fault::PlaneFault;
pub use plane_file::PlaneFile;
pub use table_fault::TableReadFault;
pub use table_reading::read_table;
pub use write_fault::FileWriteFault;
pub use writing::write;
