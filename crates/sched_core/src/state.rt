use crate::node::SpawnNode;
use crate::worker::Worker;
use contract_views::Items;
use serial_meaning::{Answer, Origin, Plan};
use std::sync::Arc;

// The fields of a core. Each origin that was begun has a number, its index in `nodes`; main's is 0.
#[derive(Drop)]
pub(crate) struct CoreState {
    pub plan: Arc<Plan>,
    pub workers: Vec<Worker>,
    pub nodes: Vec<SpawnNode>,
    // The origins that were answered, in order.
    pub given: Items<Origin>,
    // Main's answer.
    pub root: Option<Answer>,
    // How many run events there were.
    pub runs: u64,
}
