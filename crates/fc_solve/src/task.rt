//! What the program does: a module for each command.

pub mod asking;
pub mod batch_task;
pub mod check_task;
pub mod deal_task;
pub mod each;
pub mod hint_task;
pub mod listings;
pub mod replay_task;
pub mod review_listings;
pub mod review_outputs;
pub mod review_task;
pub mod show_task;
