// The home's table, its rule and its seats.
ghost use Rattle.std.specs.Prelude.{◌≡◌, ◌≢◌, ℕ, ◌+◌, ◌*◌, ◌%◌, ◌/◌, ◌^◌, ◌<◌, ◌≤◌, List, [], ◌++◌, ◌∷◌, Some, None, length, vec_len, vec_capacity, All, replicate, IfOk, IfErr, MatchResult};
ghost use Rattle.std.specs.Arc.{arc_value};
ghost use Rattle.std.specs.Borrow.{sem};
ghost use Rattle.atomic_table.specs.Seated.{TableId};
ghost use Rattle.port_words.specs.home.Home.{IsHome, queued, kind_of, IsNotIdle, fresh_view, spent, one_share, other_shares, joined, Looks, Queues, Claims, Begins, Withdraws, Ends, TellsHome, looked, scheduled, claimed_view, stale_view, begun_view, withdrawn_view, ended_view, IsBodyOf, IsNamed, IsLastBody, AfterTries};
ghost use Rattle.port_words.specs.home.Seats.{HomeKnown, home_known, held, AreSeatsOf};

use crate::home::view::{HomeKey, HomeView};
use atomic_table::{Join, Play, Refused, Seat, Shared, Split, Table, TableRule};
use no_memory::NoMemory;
use std::alloc::{AllocError, AllocFailed, Global};
use std::marker::Model;
use std::snapshot::Snapshot;
use std::sync::Arc;

/// What may stand in a home. Its name is one plain value that no turn changes.
pub trait Lodged: Drop {
    ghost Name: { Type 0 };

    ghost name: { Self → Name };
}

type HomeWords<B> = Table<Option<B>, HomeView<B>, HomeKey<B>, Housing, Global>;

type SharedHomeWords<B> = Shared<Option<B>, HomeView<B>, HomeKey<B>, Housing>;

type HomeWordSeat<B> = Seat<Option<B>, HomeView<B>>;

// The idle word after which no turn begins.
const LAST_IDLE: u64 = 1 << 63;

struct Housing;

impl<B: Lodged> TableRule<Option<B>, HomeView<B>, HomeKey<B>> for Housing {
    ghost holds = { λ key. IsHome B.name key.body.value key.seats };

    ghost first = { λ key. fresh_view (Some key.body) key.seats key.seats };
}

struct HomeLooking;

impl<B: Lodged> Play<Option<B>, HomeView<B>> for HomeLooking {
    ghost then = { λ _. Looks };
}

struct Queueing;

impl<B: Lodged> Play<Option<B>, HomeView<B>> for Queueing {
    ghost then = { λ step. Queues step.first };
}

struct Claiming;

impl<B: Lodged> Play<Option<B>, HomeView<B>> for Claiming {
    ghost then = { λ step. Claims B.name step.first };
}

struct Beginning;

impl<B: Lodged> Play<Option<B>, HomeView<B>> for Beginning {
    ghost then = { λ step. Begins B.name step.first };
}

struct Withdrawing;

impl<B: Lodged> Play<Option<B>, HomeView<B>> for Withdrawing {
    ghost then = { λ step. Withdraws B.name step.first };
}

struct Concluding;

impl<B: Lodged> Play<Option<B>, HomeView<B>> for Concluding {
    ghost then = { λ _. Ends };
}

struct OneShare;

impl<B: Lodged> Split<HomeView<B>> for OneShare {
    ghost left = { other_shares };

    ghost right = { one_share };
}

struct AllShares;

impl<B: Lodged> Join<HomeView<B>> for AllShares {
    ghost both = { joined };

    ghost spent = { spent };
}

/// A queued turn of a port. It is plain data: a copy of it is found stale once the turn was begun.
#[derive(Clone, Copy)]
pub struct Ticket {
    pub port: u32,
    pub turn: u64,
    ghost in_range: { turn < 2 ^ 61 },
}

/// A body that runs a turn, and the seat that began the turn, as clauses see it. It isn't dropped: its home takes it back.
pub struct Running<B> {
    turn: u64,
    body: B,
    seat: Snapshot<HomeWordSeat<B>>,
    ghost in_range: { turn < 2 ^ 61 },
}

impl<B: Lodged> Running<B> {
    ghost use Rattle.port_words.specs.home.Lent.{LendsBody};

    /// The body, for as long as the turn runs.
    pub fn body(&mut self) -> &mut B
        ensures* lends { sem 𝓛 (LendsBody B.row self.entry result) }
        ensures value { result.now ≡ self.old.body }
    {
        &mut self.body
    }
}

// The body that the step before took out of the slot.
fn taken<B: Lodged>(shared: &SharedHomeWords<B>, seat: &mut HomeWordSeat<B>) -> B
    requires table { seat.old.table_id ≡ shared.now.table_id }
    requires taken { (x : B) × (seat.old.me.1 ≡ (0, Some x) ∷ []) }
    ensures body { seat.old.me.1 ≡ (0, Some result) ∷ [] }
    ensures seat { (seat.new.table_id ≡ seat.old.table_id) × (seat.new.id ≡ seat.old.id) × (seat.new.me ≡ (seat.old.me.0, (0, None) ∷ [])) }
{
    match shared.exchange(seat, 0, None) {
        Some(body) => body,
        None => unreachable!(),
    }
}

// Begins the turn of an idle word without a ticket, or answers the word found.
fn try_begin<B: Lodged>(
    shared: &SharedHomeWords<B>,
    seat: &mut HomeWordSeat<B>,
    run: u64,
) -> Result<B, u64>
    requires table { (seat.old.table_id ≡ shared.now.table_id) × (seat.old.table_id.words ≡ 1) }
    requires held { (seat.old.me.1 ≡ held seat.old.me.0.running) × (0 < seat.old.me.0.shares) }
    requires idle { (kind_of run ≡ 0) × (run ≤ 2 ^ 63) }
    ensures same { (seat.new.table_id ≡ seat.old.table_id) × (seat.new.id ≡ seat.old.id) }
    ensures ok { IfOk result (λ x. IsBodyOf B.name seat.old.me.0.body (run / 4) x × TellsHome seat.old.me.0 run × (seat.new.me ≡ (begun_view seat.old.me.0 (run / 4), (0, None) ∷ []))) }
    ensures err { IfErr result (λ n. (n ≢ run) × TellsHome seat.old.me.0 n × (seat.new.me ≡ (looked seat.old.me.0 (n ∷ []), seat.old.me.1))) }
{
    let found = shared.compare_exchange::<Beginning>(seat, 0, run, run + 2);
    if found == run {
        Ok(taken(shared, seat))
    } else {
        Err(found)
    }
}

// Begins the turn of a queued word without its ticket, or answers the word found.
fn try_withdraw<B: Lodged>(
    shared: &SharedHomeWords<B>,
    seat: &mut HomeWordSeat<B>,
    run: u64,
) -> Result<B, u64>
    requires table { (seat.old.table_id ≡ shared.now.table_id) × (seat.old.table_id.words ≡ 1) }
    requires held { (seat.old.me.1 ≡ held seat.old.me.0.running) × (0 < seat.old.me.0.shares) }
    requires queued { (kind_of run ≡ 1) × (run < 2 ^ 63) }
    ensures same { (seat.new.table_id ≡ seat.old.table_id) × (seat.new.id ≡ seat.old.id) }
    ensures ok { IfOk result (λ x. IsBodyOf B.name seat.old.me.0.body (run / 4) x × TellsHome seat.old.me.0 run × (seat.new.me ≡ (withdrawn_view seat.old.me.0 (run / 4), (0, None) ∷ []))) }
    ensures err { IfErr result (λ n. (n ≢ run) × TellsHome seat.old.me.0 n × (seat.new.me ≡ (looked seat.old.me.0 (n ∷ []), seat.old.me.1))) }
{
    let found = shared.compare_exchange::<Withdrawing>(seat, 0, run, run + 1);
    if found == run {
        Ok(taken(shared, seat))
    } else {
        Err(found)
    }
}

// Begins the turn of a word by which nobody runs, or answers the word found.
fn try_close<B: Lodged>(
    shared: &SharedHomeWords<B>,
    seat: &mut HomeWordSeat<B>,
    run: u64,
) -> Result<B, u64>
    requires table { (seat.old.table_id ≡ shared.now.table_id) × (seat.old.table_id.words ≡ 1) }
    requires held { (seat.old.me.1 ≡ held seat.old.me.0.running) × (0 < seat.old.me.0.shares) }
    requires word { (kind_of run ≤ 1) × (run ≤ 2 ^ 63) }
    ensures same { (seat.new.table_id ≡ seat.old.table_id) × (seat.new.id ≡ seat.old.id) }
    ensures ok { IfOk result (λ x. IsBodyOf B.name seat.old.me.0.body (run / 4) x × TellsHome seat.old.me.0 run) }
    ensures err { IfErr result (λ n. (n ≢ run) × TellsHome seat.old.me.0 n × (seat.new.me ≡ (looked seat.old.me.0 (n ∷ []), seat.old.me.1))) }
{
    if run % 4 == 0 {
        try_begin(shared, seat, run)
    } else {
        try_withdraw(shared, seat, run)
    }
}

// Takes the body out for good, by the one seat that has every share.
fn close<B: Lodged>(shared: &SharedHomeWords<B>, mut seat: HomeWordSeat<B>) -> B
    requires table { (seat.table_id ≡ shared.now.table_id) × (seat.table_id.words ≡ 1) }
    requires all { (0 < seat.me.0.shares) × (seat.me.0.shares ≡ seat.me.0.seats) }
    requires idle { (seat.me.0.running ≡ None) × (seat.me.1 ≡ []) }
    ensures { IsLastBody B.name seat.me.0 result }
{
    let mut run = shared.load::<HomeLooking>(&mut seat, 0);
    'tries: loop {
        match try_close(shared, &mut seat, run) {
            Ok(body) => return body,
            Err(found) => run = found,
        }
    }
}

/// A seat of a home: a clause sees which home it is, its port's number, and what this seat knows. A seat that is dropped keeps its share, so that the home can't
/// be closed any more.
#[derive(Drop)]
pub struct HomeSeat<B: Lodged> {
    port: u32,
    words: Arc<HomeWords<B>, Global>,
    seat: HomeWordSeat<B>,
}

impl<B: Lodged> Model for HomeSeat<B> {
    ghost Value = { HomeKnown B };

    ghost view = { λ s. home_known s.seat.table_id s.port s.seat.me.0 };

    ghost invariant = { λ s. (s.seat.table_id ≡ (arc_value s.words).shared.table_id) × (s.seat.table_id.words ≡ 1) × (s.seat.me.1 ≡ held s.seat.me.0.running) × (0 < s.seat.me.0.shares) };
}

impl<B: Lodged> HomeSeat<B> {
    ghost use Rattle.port_words.specs.home.Lent.{home_of};

    /// The word RUN as it stands.
    pub fn look(&mut self) -> u64
        ensures seat { self.new ≡ home_known self.old.home self.old.port (looked self.old.known (result ∷ [])) }
        ensures word { TellsHome self.old.known result }
    {
        self.words.shared.load::<HomeLooking>(&mut self.seat, 0)
    }

    // Queues the turn of an idle word, or answers the word found.
    fn try_schedule(&mut self, run: u64) -> Result<Ticket, u64>
        requires { (kind_of run ≡ 0) × (run < 2 ^ 63) }
        ensures ok { IfOk result (λ k. (k.port ≡ self.old.port) × (k.turn ≡ run / 4) × TellsHome self.old.known run × (self.new ≡ home_known self.old.home self.old.port (scheduled self.old.known (run / 4)))) }
        ensures err { IfErr result (λ n. (n ≢ run) × TellsHome self.old.known n × (self.new ≡ home_known self.old.home self.old.port (looked self.old.known (n ∷ [])))) }
    {
        let found = self
            .words
            .shared
            .compare_exchange::<Queueing>(&mut self.seat, 0, run, run + 1);
        if found == run {
            Ok(Ticket {
                port: self.port,
                turn: run / 4,
            })
        } else {
            Err(found)
        }
    }

    /// Queues the next turn of an idle port. Answers its ticket, or the word that the last try found.
    pub fn schedule(&mut self) -> Result<Ticket, u64>
        ensures ok { IfOk result (λ k. (k.port ≡ self.old.port) × AfterTries self.old.known (λ v. TellsHome v (4 * k.turn) × (self.new ≡ home_known self.old.home self.old.port (scheduled v k.turn)))) }
        ensures err { IfErr result (λ run. IsNotIdle run × AfterTries self.old.known (λ v. TellsHome v run × (self.new ≡ home_known self.old.home self.old.port (looked v (run ∷ []))))) }
    {
        let mut run = self.look();
        'tries: loop {
            if run % 4 != 0 || run == LAST_IDLE {
                return Err(run);
            }
            match self.try_schedule(run) {
                Ok(ticket) => return Ok(ticket),
                Err(found) => run = found,
            }
        }
    }

    /// Begins the turn of a ticket, which one claim does at most once. Answers the body, or the word found.
    pub fn claim(&mut self, ticket: Ticket) -> Result<Running<B>, u64>
        requires { ticket.port ≡ self.old.port }
        ensures ok { IfOk result (λ r. (home_of r ≡ self.old.home) × (r.turn ≡ ticket.turn) × IsBodyOf B.name self.old.known.body ticket.turn r.body × TellsHome self.old.known (queued ticket.turn) × (self.new ≡ home_known self.old.home self.old.port (claimed_view self.old.known ticket.turn))) }
        ensures err { IfErr result (λ run. (run ≢ queued ticket.turn) × TellsHome self.old.known run × (self.new ≡ home_known self.old.home self.old.port (stale_view self.old.known ticket.turn run))) }
    {
        let expected = 4 * ticket.turn + 1;
        let found = self
            .words
            .shared
            .compare_exchange::<Claiming>(&mut self.seat, 0, expected, expected + 1);
        if found == expected {
            let body = taken(&self.words.shared, &mut self.seat);
            Ok(Running {
                turn: ticket.turn,
                body,
                seat: Snapshot::of(&self.seat),
            })
        } else {
            Err(found)
        }
    }

    // Begins the turn of an idle word without a ticket, or answers the word found.
    fn begin(&mut self, run: u64) -> Result<B, u64>
        requires { (kind_of run ≡ 0) × (run < 2 ^ 63) }
        ensures ok { IfOk result (λ x. IsBodyOf B.name self.old.known.body (run / 4) x × TellsHome self.old.known run × (self.new ≡ home_known self.old.home self.old.port (begun_view self.old.known (run / 4)))) }
        ensures err { IfErr result (λ n. (n ≢ run) × TellsHome self.old.known n × (self.new ≡ home_known self.old.home self.old.port (looked self.old.known (n ∷ [])))) }
    {
        try_begin(&self.words.shared, &mut self.seat, run)
    }

    /// Begins a turn of an idle port without a ticket. Answers the body, or the word that the last try found.
    pub fn claim_idle(&mut self) -> Result<Running<B>, u64>
        ensures ok { IfOk result (λ r. (home_of r ≡ self.old.home) × AfterTries self.old.known (λ v. IsBodyOf B.name v.body r.turn r.body × TellsHome v (4 * r.turn) × (self.new ≡ home_known self.old.home self.old.port (begun_view v r.turn)))) }
        ensures err { IfErr result (λ run. IsNotIdle run × AfterTries self.old.known (λ v. TellsHome v run × (self.new ≡ home_known self.old.home self.old.port (looked v (run ∷ []))))) }
    {
        let mut run = self.look();
        'tries: loop {
            if run % 4 != 0 || run == LAST_IDLE {
                return Err(run);
            }
            match self.begin(run) {
                Ok(body) => {
                    return Ok(Running {
                        turn: run / 4,
                        body,
                        seat: Snapshot::of(&self.seat),
                    });
                }
                Err(found) => run = found,
            }
        }
    }

    /// Ends the turn that this seat runs: the body goes home, and then the port is idle.
    pub fn put_home(&mut self, running: Running<B>)
        requires home { home_of running ≡ self.old.home }
        requires turn { self.old.known.running ≡ Some running.turn }
        requires name { IsNamed B.name self.old.known.body running.body }
        ensures { self.new ≡ home_known self.old.home self.old.port (ended_view self.old.known running.turn) }
    {
        let Running {
            turn,
            body,
            seat: _,
        } = running;
        let shared = &self.words.shared;
        drop(shared.exchange(&mut self.seat, 0, Some(body)));
        shared.swap::<Concluding>(&mut self.seat, 0, 4 * (turn + 1));
    }

    /// Takes in another seat of the same home, which doesn't run. What its turns and tickets mean together, the next look tells.
    pub fn join(&mut self, other: HomeSeat<B>)
        requires home { other.home ≡ self.old.home }
        requires idle { other.known.running ≡ None }
        ensures { self.new ≡ home_known self.old.home self.old.port (joined self.old.known other.known) }
    {
        let HomeSeat {
            port: _,
            words,
            seat,
        } = other;
        let shared = &self.words.shared;
        shared.join_seat::<AllShares>(&mut self.seat, seat);
        drop(words);
    }

    /// Ends the home, once all its other seats were joined into this one. A ticket that still waits is taken back.
    pub fn close_home(self) -> B
        requires all { self.known.shares ≡ self.known.seats }
        requires idle { self.known.running ≡ None }
        ensures { IsLastBody B.name self.known result }
    {
        let HomeSeat {
            port: _,
            words,
            seat,
        } = self;
        close(&words.shared, seat)
    }
}

// A table with the body in its slot, and the seat with all shares. The body comes back where memory is wanting.
fn furnish<B: Lodged>(
    alloc: Global,
    body: B,
    key: &HomeKey<B>,
) -> Result<(HomeWords<B>, HomeWordSeat<B>), B>
    requires { key.now.body.value ≡ body }
    ensures ok { IfOk result (λ t. (t.0.shared.table_id.words ≡ 1) × (t.1.table_id ≡ t.0.shared.table_id) × (t.1.me ≡ (fresh_view (Some key.now.body) key.now.seats key.now.seats, []))) }
    ensures err { IfErr result (λ x. x ≡ body) }
{
    let mut slots = Vec::new(alloc);
    if let Err(AllocFailed { value }) = slots.push(Some(body)) {
        return match value {
            Some(body) => Err(body),
            None => unreachable!(),
        };
    }
    match HomeWords::new(alloc, &[0], slots, key) {
        Ok(furnished) => Ok(furnished),
        Err(Refused { mut slots }) => match slots.pop() {
            Some(Some(body)) => Err(body),
            _ => unreachable!(),
        },
    }
}

fn copies<B: Lodged>(
    alloc: Global,
    words: &Arc<HomeWords<B>, Global>,
    count: u32,
) -> Result<Vec<Arc<HomeWords<B>, Global>>, AllocError>
    ensures { IfOk result (λ all. (vec_len all ≡ count) × All (λ h. arc_value h ≡ arc_value words.now) all.items) }
{
    let mut all = Vec::new(alloc);
    'copies: for _ in 0..count {
        all.push(Arc::try_clone(words)?)?;
    }
    Ok(all)
}

// One share of the seat becomes a seat of its own.
fn cut<B: Lodged>(
    port: u32,
    words: Arc<HomeWords<B>, Global>,
    rest: &mut HomeWordSeat<B>,
) -> HomeSeat<B>
    requires table { (rest.old.table_id ≡ (arc_value words).shared.table_id) × (rest.old.table_id.words ≡ 1) }
    requires shares { (rest.old.me.1 ≡ []) × (1 < rest.old.me.0.shares) }
    ensures cut { result ≡ home_known rest.old.table_id port (one_share rest.old.me.0) }
    ensures rest { (rest.new.table_id ≡ rest.old.table_id) × (rest.new.me ≡ (other_shares rest.old.me.0, [])) }
{
    let seat = words.shared.split_seat::<OneShare>(rest);
    HomeSeat { port, words, seat }
}

// A push that has room.
fn add<B: Lodged>(all: &mut Vec<HomeSeat<B>>, seat: HomeSeat<B>)
    requires { vec_len all.old < vec_capacity all.old }
    ensures items { all.new.items ≡ all.old.items ++ seat ∷ [] }
    ensures len { vec_len all.new ≡ vec_len all.old + 1 }
    ensures capacity { vec_capacity all.old ≤ vec_capacity all.new }
{
    if all.push(seat).is_err() {
        unreachable!();
    }
}

// One seat for each copy, and one for the last share.
fn deal<B: Lodged>(
    mut all: Vec<HomeSeat<B>>,
    port: u32,
    words: Arc<HomeWords<B>, Global>,
    mut rest: HomeWordSeat<B>,
    mut copies: Vec<Arc<HomeWords<B>, Global>>,
) -> Vec<HomeSeat<B>>
    requires room { (all.items ≡ []) × (vec_len copies < vec_capacity all) }
    requires table { (rest.table_id ≡ (arc_value words).shared.table_id) × (rest.table_id.words ≡ 1) }
    requires copies { All (λ h. arc_value h ≡ arc_value words) copies.items }
    requires rest { rest.me ≡ (fresh_view rest.me.0.body rest.me.0.seats (vec_len copies + 1), []) }
    ensures { result.items ≡ replicate (vec_len copies + 1) (home_known rest.table_id port (fresh_view rest.me.0.body rest.me.0.seats 1)) }
{
    'seats: while let Some(copy) = copies.pop() {
        let seat = cut(port, copy, &mut rest);
        add(&mut all, seat);
    }
    let last = HomeSeat {
        port,
        words,
        seat: rest,
    };
    add(&mut all, last);
    all
}

/// The seats of a new home, in which the body stands, idle at turn 0. Where memory is wanting the body comes back.
pub fn home<B: Lodged>(
    alloc: Global,
    port: u32,
    body: B,
    seats: u32,
) -> Result<Vec<HomeSeat<B>>, (B, NoMemory)>
    requires { 0 < seats }
    ensures ok { IfOk result (λ all. AreSeatsOf port body seats all.items) }
    ensures err { IfErr result (λ e. e.0 ≡ body) }
{
    let Ok(all) = Vec::with_capacity(alloc, seats as usize) else {
        return Err((body, NoMemory));
    };
    let key = HomeKey {
        body: Snapshot::of(&body),
        seats,
    };
    let (table, seat) = match furnish(alloc, body, &key) {
        Ok(furnished) => furnished,
        Err(body) => return Err((body, NoMemory)),
    };
    let words = match Arc::new(alloc, table) {
        Ok(words) => words,
        Err(AllocFailed { value: table }) => {
            return Err((close(&table.shared, seat), NoMemory));
        }
    };
    let Ok(copies) = copies(alloc, &words, seats - 1) else {
        return Err((close(&words.shared, seat), NoMemory));
    };
    Ok(deal(all, port, words, seat, copies))
}
