ghost use Rattle.unordered_laws.specs.Apart.{ApartLaw, AsksLaw};
ghost use Rattle.unordered_laws.specs.Calls.{FetchRuleLaw};
ghost use Rattle.unordered_laws.specs.Fetches.{CallsFetchOn, EightLaw};
ghost use Rattle.unordered_laws.specs.Order.{CallsKeepOrder, CallsReadInOrder};
ghost use Rattle.unordered_laws.specs.Stages.{CallsAreLawful};
ghost use Rattle.unordered_laws.specs.States.{StateLaw, PointLaw};

/// After every list of calls of an agent, while a list is open and it is not dead: each ORB that was fetched
/// and is not answered has a request under way; where fewer than 8 are such, the one that the next pointer
/// last read names is being read; and behind a null pointer it is being read again, or no doorbell came
/// since its last read was sent. So it is of what calls tell (`told`), and of what the agent keeps (`kept`).
pub fn calls_keep_the_fetch_rule()
    ensures kept { FetchRuleLaw }
    ensures told { CallsFetchOn }
{}

/// Over every list of calls of an agent: the ORBs that were fetched since a pointer was taken are, in order,
/// the one pointed to and then each that the next pointer last read of the one before names; and the fetcher
/// reads the next of them, or that pointer again where it is null.
pub fn orbs_are_fetched_in_order()
    ensures order { CallsKeepOrder }
    ensures reads { CallsReadInOrder }
{}

/// After every list of calls of an agent at most 8 ORBs of a list were fetched and are unanswered.
pub fn eight_are_worked_at_most()
    ensures { EightLaw }
{}

/// The data and the answer of each ORB go through its own transactions alone: a call leaves the ORB in
/// each place that it is not about as it was, with its buffer, its data, its answer and its last write;
/// and a reply asks for the next transaction of the place that it is about, and then of the fetcher, alone.
pub fn tasks_are_apart()
    ensures apart { ApartLaw }
    ensures asks { AsksLaw }
{}

/// Over every list of calls of an agent: an ORB that was read takes the lowest task place of which no
/// transaction is under way; it runs at most once, and then ends, once, by the status block that names it
/// and the next pointer last read of it; one transaction of each place is under way at a time; and for a
/// task that was dropped, or whose list was cut, nothing more is sent, runs or ends.
pub fn orbs_run_and_end_once()
    ensures { CallsAreLawful }
{}

/// After every list of calls of an agent it is DEAD, RESET, SUSPENDED or ACTIVE as what the calls told says,
/// and SUSPENDED whether tasks run or not; and it takes a pointer only where no list is open, or each ORB of
/// the list was answered and there is no next one.
pub fn calls_keep_state()
    ensures state { StateLaw }
    ensures point { PointLaw }
{}
