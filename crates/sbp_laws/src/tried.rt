ghost use Rattle.sbp_laws.specs.Tried.{RunsTried, ActionTried, AnswerTried, BudgetTried, CarriedTried, CauseTried, ExecutionTried, JudgementTried, LoginTried, MediaTried, NamedTried, OnceTried, OrderTried, OthersTried, OwnTried, SentTried, StatusTried};

// Each law accepts a journal and refuses others that differ from it in a note.

/// The once law accepts worked journals and refuses others that differ from them in a note. It says: a
/// write is judged anew once, and is served where it was closed with rcode 0.
pub fn once_law_tried()
    ensures { OnceTried }
{}

/// The order law accepts worked journals and refuses others that differ from them in a note. It says:
/// ORBs end in their order, and neither end nor run behind a cut or in the list before.
pub fn order_law_tried()
    ensures { OrderTried }
{}

/// The execution law accepts worked journals and refuses others that differ from them in a note. It
/// says: an ORB runs once, with its own command and data, on its unit, with its own outcome.
pub fn execution_law_tried()
    ensures { ExecutionTried }
{}

/// The status law accepts worked journals and refuses others that differ from them in a note. It says:
/// a status is taken once, after the end, as it was written.
pub fn status_law_tried()
    ensures { StatusTried }
{}

/// The answer law accepts worked journals and refuses others that differ from them in a note. It says:
/// a good status has the answer of the medium.
pub fn answer_law_tried()
    ensures { AnswerTried }
{}

/// The carried law accepts worked journals and refuses others that differ from them in a note. It says:
/// what ran and what was answered was carried by packets.
pub fn carried_law_tried()
    ensures { CarriedTried }
{}

/// The cause law accepts worked journals and refuses others that differ from them in a note. It says:
/// deaths, ends of operations, drops and stuck sessions stand where their cause is.
pub fn cause_law_tried()
    ensures { CauseTried }
{}

/// The judgement law accepts worked journals and refuses others that differ from them in a note. It
/// says: a delivery begins with the note of the first row that holds.
pub fn judgement_law_tried()
    ensures { JudgementTried }
{}

/// The login law accepts worked journals and refuses others that differ from them in a note. It says:
/// logins are decided, held and expire by their table.
pub fn login_law_tried()
    ensures { LoginTried }
{}

/// The sent law accepts worked journals and refuses others that differ from them in a note. It says:
/// responses and requests are those that are due, and no others.
pub fn sent_law_tried()
    ensures { SentTried }
{}

/// The media law accepts worked journals and refuses others that differ from them in a note. It says:
/// an unsolicited status is for a login that enabled it.
pub fn media_law_tried()
    ensures { MediaTried }
{}

/// The action law accepts worked journals and refuses others that differ from them in a note. It says:
/// a line brings its notes, and a refusal only where it is due.
pub fn action_law_tried()
    ensures { ActionTried }
{}

/// Worked runs that each law of moments and turns accepts, whole: commands with and without data, a
/// page table, a read ahead, an abort, an agent reset, a logout, a login, a reconnect, a load, the
/// reset of a unit by another initiator, and a medium that does not tell its bytes.
pub fn worked_runs_tried()
    ensures { RunsTried }
{}

/// How many deliveries a settle has behind some worked runs, and which of these are lossless.
pub fn budget_tried()
    ensures { BudgetTried }
{}

/// Runs of an initiator that injects packets: what the laws for the others accept of it, and what
/// they refuse.
pub fn others_tried()
    ensures { OthersTried }
{}

/// An injected pointer names a slot before an ORB is prepared there: its list has no name, and none later.
pub fn named_tried()
    ensures { NamedTried }
{}

/// Sentences in the subject's own words, over packets that were got and sent, each of which refuses its
/// journal by itself: ORBs that are aborted, what a decision brings and sends, the status behind an end,
/// where an agent rests, and requests that nobody asked for.
pub fn own_words_tried()
    ensures { OwnTried }
{}
