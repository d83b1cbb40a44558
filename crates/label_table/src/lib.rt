//! The transaction layer of a node (IEEE 1394-1995): its transaction labels, its filter on repeated
//! writes, and both together as it judges, answers and asks.
#![tactic(auto)]

mod body;
mod filter;
mod judgement;
mod law;
mod packets;
mod peer;
mod place;
mod reply;
mod request;
mod room;
mod source;
mod table;
mod transactions;

pub use body::RequestBody;
pub use filter::Seen;
pub use judgement::{Asked, Judgement};
pub use law::{
    answers_are_remembered, crowded_by_others, handles_are_apart, judged_once, label_alone,
    label_in_header, label_respelled, labels_are_written, last_request_decides, lowest_label,
    requests_are_canonical, transactions_are_told,
};
pub use place::{LabelState, Place};
pub use reply::{NoLabel, ReplyKind, Stale, Verdict};
pub use source::Remembered;
pub use table::Labels;
pub use transactions::Transactions;
