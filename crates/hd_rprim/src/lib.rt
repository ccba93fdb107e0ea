//! What a renderer keeps of a prim: its row, and the buffers that the row wants shared.
#![tactic(auto)]

mod buffer;
mod content;
mod fans;
mod laws;
mod row;
mod row_table;
mod staging;
mod values;

pub use buffer::{Buffer, Tri};
pub use fans::triangulate;
pub use laws::{
    all_bits_read_the_whole_row, bits_add_up, changed_bits_read_the_row, faces_are_fans,
    faces_take_all_indices, no_bits_read_nothing, numbers_name_rows, rows_have_blanks,
    set_bits_read_their_groups, slots_stay, tables_have_what_was_put, unset_bits_keep_their_parts,
};
pub use row::{InstancerRow, Purpose, Row, RprimRow, Shape};
pub use row_table::{PathRow, RowTable};
pub use staging::stage;
