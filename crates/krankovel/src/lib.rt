// The public entries. Any bytes, any words, any lent buffer: each answers, or refuses with the paper's number and place.
#![tactic(auto)]

pub use bits::Bits;
pub use compile_entries::{compile, compile_cells};
pub use cover_entries::{cover_cells, cover_file};
pub use netlist_entries::{
    check_cells, check_file, react_cells, react_cells_many, react_file, react_file_many, read_file,
    write_cells,
};
pub use number::CellNo;
pub use sheet_entries::{check, fits, react, react_many, read, rest};
pub use tables::{Reordered, Table};
pub use verdicts::{Answer, Course, Listing, Reaction, Reading};
