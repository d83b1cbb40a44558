//! The transactions on the bus, whatever its nodes do: the store, the transaction layers of the nodes and
//! the history as one machine, and what holds for every list of its moves. What a request asks for, the
//! rcode and the data that a node gives, and which further notes a delivery has are the nodes' own.
#![tactic(auto)]

mod laws;

pub use laws::{
    answered_next, closed_writes_are_served, first_row_decides, goes_by_moves,
    injected_response_closes, labels_are_found, losses_by_latest_terms, moves_can_be_made,
    no_label_rests, nothing_waits, packets_are_own, packets_by_history, purposes_change_nothing,
    requests_are_carried, rows_by_history, writes_taken_once,
};
