ghost use Rattle.label_table.specs.Laws.{CrowdedLaw, HeaderLaw, LabelLaw, LowestLaw, RelabelledLaw, WritesLabels};
ghost use Rattle.label_table.specs.Handles.{HandleLaw};
ghost use Rattle.label_table.specs.History.{AskedLaw, RememberedLaw, ToldLaw};
ghost use Rattle.label_table.specs.Last.{LastLaw};
ghost use Rattle.label_table.specs.Once.{OnceLaw};

/// The law on repeated writes. Over every list of what a requester and its responder do, in which
/// no packet of a closed transaction is delivered once its label is used again, and each transaction
/// is closed after a delivery of its request, each write is judged fresh at most once, and exactly
/// once where it was closed.
pub fn judged_once()
    ensures { OnceLaw }
{}

/// The law that a request takes the lowest label that it may take, and none only where it may take
/// none.
pub fn lowest_label()
    ensures { LowestLaw }
{}

/// The law that a request is crowded exactly where each place has another source.
pub fn crowded_by_others()
    ensures { CrowdedLaw }
{}

/// The law that the label is that of the packet's header.
pub fn label_in_header()
    ensures { LabelLaw }
{}

/// The law that writing a label changes the label of the header alone.
pub fn label_alone()
    ensures { HeaderLaw }
{}

/// The law that bytes that spell a packet spell the same packet with a label once that is written
/// into them.
pub fn label_respelled()
    ensures { RelabelledLaw }
{}

/// The law that the last request of a source and label decides: over every list of requests that were
/// judged and remembered, a request that is not crowded comes again exactly where it is a write with
/// the bytes of that last request, and has then its rcode.
pub fn last_request_decides()
    ensures { LastLaw }
{}

/// The law of a node's transactions, over every list of calls of its transaction layer. What is
/// closed or expires is what was asked for, once, or is for nobody once it was disowned; it is closed by
/// a response of the kind that it wants; two that are under way with one peer have different labels; a
/// response that closes none has the label and the kind of none that is under way with its source; and
/// after a later generation is seen, none from before is under way.
pub fn transactions_are_told<P>()
    ensures { ToldLaw P }
{}

/// The law that a label written into a packet's canonical bytes gives those of the packet with it.
pub fn labels_are_written()
    ensures { WritesLabels }
{}

/// The law of handles, over every list of calls of a table of labels: their serials differ, and one
/// that is stale stays so, also where the table is cleared in between.
pub fn handles_are_apart()
    ensures { HandleLaw }
{}

/// The law that a request is remembered with the rcode of its answer, over every list of calls of a
/// transaction layer, until the next request of its source and label is answered, or a later
/// generation is seen.
pub fn answers_are_remembered<P>()
    ensures { RememberedLaw P }
{}

/// The law that what is asked of a peer is the canonical request to it, with the handle's label.
pub fn requests_are_canonical<P>()
    ensures { AskedLaw P }
{}
