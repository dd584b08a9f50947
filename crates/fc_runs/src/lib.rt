//! The runs of the program, over any source and any sink: what they read and write, their faults and their statuses. Those that
//! no search has a part in are `fc_board_runs`'s.
#![tactic(auto)]

pub use answer_rows::{Far, Row, answer_row};
pub use certifying::{Certification, FEW_CLASSES, write_certificate};
pub use checking::run_check_of;
pub use deal_batches::{MOST_DEALS, run_answers};
pub use delivering::run_answer;
pub use fc_board_runs::{
    Input, LONGEST_BOARD, Look, Output, ProgramFault, read_position, run_deal, run_list,
    run_replay, run_replay_as, run_replay_sequences, run_show,
};
pub use printable_lists::PrintableList;
pub use tabling::{RowListener, run_table, table_deals, table_head};
pub use written_out::{run_batch, run_check, run_solve};

mod answer_rows;
mod best_batches;
mod certifying;
mod checking;
mod deal_batches;
mod delivering;
pub mod laws;
mod printable_lists;
mod tabling;
mod written_out;
