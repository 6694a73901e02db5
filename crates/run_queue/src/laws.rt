// What the rule of a queue says, as contracts of functions that do nothing.
ghost use Rattle.run_queue.specs.Laws.{EachOnce as EachTicketOnce, NewQueueKept, PutsKept, TakesKept, SplitsKept, JoinsKept, LeftIsTold};

/// At every moment, whatever the threads do: the tickets put into a queue are those taken of it and those that it holds, each once.
pub fn each_once_at_every_moment()
    ensures each_once { EachTicketOnce }
    ensures left { LeftIsTold }
{}

/// The rule holds of a new queue, and each kind of step keeps it: a put, a take or a steal, a split and a join.
pub fn kept_by_each_step()
    ensures new { NewQueueKept }
    ensures put { PutsKept }
    ensures take { TakesKept }
    ensures split { SplitsKept }
    ensures join { JoinsKept }
{}
