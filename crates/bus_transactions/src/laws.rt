ghost use Rattle.bus_transactions.specs.Bare.{TakesSteps};
ghost use Rattle.bus_transactions.specs.Carried.{LatestLaw, NoRestLaw, QuietLaw, UnderWayLaw};
ghost use Rattle.bus_transactions.specs.Course.{CanHappen, ClosesUnjudged};
ghost use Rattle.bus_transactions.specs.May.{Always};
ghost use Rattle.bus_transactions.specs.Packets.{PacketLaw};
ghost use Rattle.bus_transactions.specs.Reached.{GoesOn};
ghost use Rattle.bus_transactions.specs.Rows.{RowsLaw};
ghost use Rattle.bus_transactions.specs.Once.{OnceLaw, ServedLaw};
ghost use Rattle.bus_transactions.specs.Judging.{JudgementLaw};
ghost use Rattle.bus_transactions.specs.Answers.{AnswerLaw};
ghost use Rattle.bus_transactions.specs.Sent.{LabelsLaw, SentLaw};

/// The law of packets: serials count from 1, and the store has the packets and the states that the
/// history tells, by the bus rule.
pub fn packets_by_history()
    ensures { Always PacketLaw }
{}

/// The law of rows: each node's labels and its filter are what the history tells of the generation
/// that the node is in.
pub fn rows_by_history()
    ensures { Always RowsLaw }
{}

/// The once law: a write is taken as new at most once where its sender has not injected packets, and
/// exactly once where it was closed and its receiver has not either.
pub fn writes_taken_once()
    ensures { Always OnceLaw }
{}

/// The once law, with the rcode: a write between nodes that have not injected packets, which was closed
/// with rcode 0, was got, or ignored for its slot, exactly once.
pub fn closed_writes_are_served()
    ensures { Always ServedLaw }
{}

/// The judgement law up to the causes of a node's own: a delivery begins with the note of the first row
/// that holds.
pub fn first_row_decides()
    ensures { Always JudgementLaw }
{}

/// The law of answers: a request that is judged has exactly one response, the next packet that is sent;
/// and a response that comes for a label that waits answers the request that waits there.
pub fn answered_next()
    ensures { Always AnswerLaw }
{}

/// The sent law of packets: what is not injected is canonical, from its sender's ID, in its sender's
/// generation, and a request has the lowest label that it may have.
pub fn packets_are_own()
    ensures { Always SentLaw }
{}

/// The law of labels: a node that asks finds none only where each of the 64 is under way or rests, or, for
/// a write, has an equal last request.
pub fn labels_are_found()
    ensures { Always LabelsLaw }
{}

/// The law of requests under way: where nothing was lost since the latest reset, each request under way
/// of the latest generation has its packet in flight, is answered next, or has a response in flight that
/// closes it.
pub fn requests_are_carried()
    ensures { Always UnderWayLaw }
{}

/// The law of a quiet bus: where nothing was lost since the latest reset, nothing is to be answered and
/// nothing is in flight, no request of the latest generation is under way.
pub fn nothing_waits()
    ensures { Always QuietLaw }
{}

/// The law of labels at rest: where nothing was lost since the latest reset, no label of the latest
/// generation rests.
pub fn no_label_rests()
    ensures { Always NoRestLaw }
{}

/// The law of losses: that no packet of the latest generation was ignored for its generation since the
/// latest reset may be read off the latest terms.
pub fn losses_by_latest_terms()
    ensures { Always LatestLaw }
{}

/// The law that what a node's transactions are for changes no step of its layer: each call of a layer is
/// the primitive of a move on the layer without it.
pub fn purposes_change_nothing<P>()
    ensures { TakesSteps P }
{}

/// Moves can be made: a write is asked, delivered and answered, its response closes it, and it comes
/// once more as a repeat.
pub fn moves_can_be_made()
    ensures { CanHappen }
{}

/// That the once law needs its premise on the receiver: a response that it injects closes a write that it
/// never judged.
pub fn injected_response_closes()
    ensures { ClosesUnjudged }
{}

/// How a world goes on by moves, and what it knows wherever it stands.
pub fn goes_by_moves()
    ensures { GoesOn }
{}
