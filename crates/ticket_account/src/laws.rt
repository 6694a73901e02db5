ghost use Rattle.ticket_account.specs.Account.{HomesAddUp, SeatsAddUp, EndsAddUp, NewSeatIsUnused, NewAccount, ServedAccount, JoinedAccount, JoinedJobAccount, EachTicketOnce};
ghost use Rattle.ticket_account.specs.Run.{KeepNames};

use port_words::home::Lodged;

/// What seats made, claimed and found stale adds up where they are joined, and so does what they put into the queues and took.
pub fn seats_add_up_at_each_join<B: Lodged>()
    ensures homes { HomesAddUp B }
    ensures seats { SeatsAddUp }
    ensures ends { EndsAddUp }
{}

/// Seats that have done nothing have an account of their tickets, a scheduler keeps it, and two of them are one where their seats are joined. Where an account has every seat, each ticket that was made was claimed or
/// found stale, is left in a queue, is kept by a job whose push found no memory, or is of no port, each once.
pub fn each_ticket_once_at_the_end<B: Lodged>()
    ensures seats { NewSeatIsUnused }
    ensures begins { NewAccount B }
    ensures served { ServedAccount B }
    ensures joined { JoinedAccount B }
    ensures jobs { JoinedJobAccount B }
    ensures once { EachTicketOnce B }
{}

/// The bodies that come out of the homes of a run have the names of those that it was opened for.
pub fn bodies_keep_their_names<B: Lodged>()
    ensures { KeepNames B.name }
{}
