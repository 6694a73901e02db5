// A sender's seat, and the weight of an add.
ghost use Rattle.std.specs.Prelude.{◌≡◌, ◌≢◌, ℕ, ◌+◌, ◌%◌, ◌<◌, ◌≤◌, true, false, List, [], ◌++◌, ◌∷◌, length, IfOk, IfErr};
ghost use mathlib.Core.Option.{some};
ghost use Rattle.std.specs.Arc.{arc_value};
ghost use Rattle.port_words.specs.declared.busy.view.StatMark.{StatMark};
ghost use Rattle.port_words.specs.busy.Views.{seat_view, weight_view};
ghost use Rattle.port_words.specs.busy.Stat.{stat_of, Rises};
ghost use Rattle.port_words.specs.busy.Queue.{IsQueueWord, period_of, is_nosuspend, added, taken};
ghost use Rattle.port_words.specs.busy.Steps.{TellsQueue, own, saw, heard, adding, undoing, next_name};
ghost use Rattle.port_words.specs.busy.Known.{SendKnown, send_known, WeightKnown, weight_known, name_of, with_weight, TakesBack};

use crate::busy::table::{
    Adding, Both, BusyWordSeat, BusyWords, FindingStat, MSGQ, STAT, SenderHearing, SharedBusyWords,
    Undoing, Weights,
};
use crate::busy::view::{AddHow, BusySetup, PlannedAdd};
use crate::busy::words::{after_add, after_removal, msgq_is_busy};
use std::alloc::Global;
use std::marker::Model;
use std::sync::{Arc, Wait};

/// The token of one add. It travels with the command, and its bytes stay in MSGQ until it is undone or removed.
#[derive(Drop)]
pub struct Weight {
    size: u32,
    seat: BusyWordSeat,
}

impl Model for Weight {
    ghost Value = { WeightKnown };

    ghost view = { λ w. weight_known w.seat.table_id (name_of w.seat.me.0.weights) };

    ghost invariant = { λ w. (w.seat.me ≡ (weight_view w.seat.me.0.setup (name_of w.seat.me.0.weights ∷ []), [])) × (w.size ≡ (name_of w.seat.me.0.weights).size) };
}

impl Weight {
    // The weight's seat comes into another one. Answers its size.
    pub(crate) fn join_into(self, shared: &SharedBusyWords, seat: &mut BusyWordSeat) -> u32
        requires table { (seat.old.table_id ≡ shared.now.table_id) × (seat.old.table_id.words ≡ 2) × (seat.old.me.0.setup ≡ shared.now.key) }
        requires weight { self.table ≡ seat.old.table_id }
        ensures size { result ≡ self.name.size }
        ensures seat { (seat.new.table_id ≡ seat.old.table_id) × (seat.new.id ≡ seat.old.id) × (seat.new.me ≡ (with_weight seat.old.me.0 self.name, seat.old.me.1)) }
    {
        let Weight { size, seat: other } = self;
        shared.join_seat::<Both>(seat, other);
        size
    }
}

/// What an add answers: the word that it left with the weight of the add, or the word by which the queue is busy.
#[derive(Drop)]
pub enum Added {
    Added { msgq: u64, weight: Weight },
    Busy { msgq: u64 },
}

fn is_nosuspend_add(how: AddHow) -> bool
    ensures { result ≡ is_nosuspend how }
{
    match how {
        AddHow::NoSuspend => true,
        AddHow::Plain | AddHow::Forced => false,
    }
}

// Whether this word refuses the add.
fn is_refused(how: AddHow, word: u64) -> bool
    ensures refused { result ≡ true → (is_nosuspend how ≡ true) × (period_of word % 2 ≡ 1) }
    ensures permitted { result ≡ false → is_nosuspend how ≡ true → period_of word % 2 ≡ 0 }
{
    is_nosuspend_add(how) && msgq_is_busy(word)
}

// Adds to this word, or answers the word found.
fn try_add(
    shared: &SharedBusyWords,
    seat: &mut BusyWordSeat,
    setup: BusySetup,
    word: u64,
    told: &PlannedAdd,
) -> Result<(u64, Weight), u64>
    requires table { (seat.old.table_id ≡ shared.now.table_id) × (seat.old.table_id.words ≡ 2) × (shared.now.key ≡ setup) }
    requires view { seat.old.me ≡ (seat_view setup (own seat.old.me.0) [], []) }
    requires few { (length (own seat.old.me.0).ledger.adds < 131072) × (told.now.size ≤ 262143) }
    requires word { IsQueueWord setup.limits word }
    requires permitted { is_nosuspend told.now.how ≡ true → period_of word % 2 ≡ 0 }
    ensures same { (seat.new.table_id ≡ seat.old.table_id) × (seat.new.id ≡ seat.old.id) }
    ensures ok { IfOk result (λ r. (r.0 ≡ added setup.limits word told.now.size) × (r.1 ≡ weight_known seat.old.table_id (next_name (own seat.old.me.0).ledger told.now.size)) × (seat.new.me ≡ (seat_view setup (adding (own seat.old.me.0) told.now.how told.now.size r.0) [], [])) × TellsQueue (seat_view setup (adding (own seat.old.me.0) told.now.how told.now.size r.0) []) r.0) }
    ensures err { IfErr result (λ n. (n ≢ word) × (seat.new.me ≡ (seat_view setup (heard (own seat.old.me.0) (n ∷ [])) [], [])) × TellsQueue (seat_view setup (heard (own seat.old.me.0) (n ∷ [])) []) n) }
{
    let left = after_add(setup.limits, word, told.size);
    let found = shared.compare_exchange_with::<Adding>(seat, MSGQ, word, left, told);
    if found != word {
        return Err(found);
    }
    let weight = Weight {
        size: told.size,
        seat: shared.split_seat::<Weights>(seat),
    };
    Ok((left, weight))
}

// Takes the seat's one weight away from this word, or answers the word found.
fn try_undo(
    shared: &SharedBusyWords,
    seat: &mut BusyWordSeat,
    setup: BusySetup,
    word: u64,
    size: u32,
) -> Result<u64, u64>
    requires table { (seat.old.table_id ≡ shared.now.table_id) × (seat.old.table_id.words ≡ 2) × (shared.now.key ≡ setup) }
    requires view { seat.old.me ≡ (seat_view setup (own seat.old.me.0) (name_of seat.old.me.0.weights ∷ []), []) }
    requires weight { (size ≡ (name_of seat.old.me.0.weights).size) × ((name_of seat.old.me.0.weights).sender ≡ (own seat.old.me.0).ledger.number) }
    requires word { TellsQueue seat.old.me.0 word }
    ensures same { (seat.new.table_id ≡ seat.old.table_id) × (seat.new.id ≡ seat.old.id) }
    ensures ok { IfOk result (λ left. (left ≡ taken setup.limits word size) × (seat.new.me ≡ (seat_view setup (undoing (own seat.old.me.0) (name_of seat.old.me.0.weights ∷ []) left) [], [])) × TellsQueue (seat_view setup (undoing (own seat.old.me.0) (name_of seat.old.me.0.weights ∷ []) left) []) left) }
    ensures err { IfErr result (λ n. (n ≢ word) × (seat.new.me ≡ (seat_view setup (heard (own seat.old.me.0) (n ∷ [])) (name_of seat.old.me.0.weights ∷ []), [])) × TellsQueue seat.new.me.0 n) }
{
    let left = after_removal(setup.limits, word, size);
    let found = shared.compare_exchange::<Undoing>(seat, MSGQ, word, left);
    if found == word { Ok(left) } else { Err(found) }
}

/// A sender's seat: a clause sees its table, the setup, and its sender. A seat that is dropped stays counted, as one that adds nothing more.
#[derive(Drop)]
pub struct SendSeat {
    pub(crate) table: Arc<BusyWords, Global>,
    pub(crate) setup: BusySetup,
    pub(crate) seat: BusyWordSeat,
}

impl Model for SendSeat {
    ghost Value = { SendKnown };

    ghost view = { λ s. send_known s.seat.table_id s.setup (own s.seat.me.0) };

    ghost invariant = { λ s. (s.seat.table_id ≡ (arc_value s.table).shared.table_id) × (s.seat.table_id.words ≡ 2) × ((arc_value s.table).shared.key ≡ s.setup) × (s.seat.me ≡ (seat_view s.setup (own s.seat.me.0) [], [])) };
}

impl SendSeat {
    ghost use Rattle.port_words.specs.busy.Answers.{AddsCommand};

    /// STAT as it stands: four times the marks, plus 2 where the port is closed, plus 1 where it is busy.
    pub fn look(&mut self) -> u64
        ensures seat { self.new ≡ send_known self.old.table self.old.setup (saw self.old.sender result) }
        ensures rises { (marks : List StatMark) × (result ≡ stat_of marks) × Rises marks 0 self.new.sender.stats }
    {
        self.table.shared.load::<FindingStat>(&mut self.seat, STAT)
    }

    /// MSGQ as it stands: the period times 2^40, plus the bytes.
    pub fn look_msgq(&mut self) -> u64
        ensures seat { self.new ≡ send_known self.old.table self.old.setup (heard self.old.sender (result ∷ [])) }
        ensures queue { TellsQueue (seat_view self.new.setup self.new.sender []) result }
    {
        self.table
            .shared
            .load::<SenderHearing>(&mut self.seat, MSGQ)
    }

    fn try_add(&mut self, word: u64, told: &PlannedAdd) -> Result<(u64, Weight), u64>
        requires few { (length self.old.sender.ledger.adds < 131072) × (told.now.size ≤ 262143) }
        requires word { IsQueueWord self.old.setup.limits word }
        requires permitted { is_nosuspend told.now.how ≡ true → period_of word % 2 ≡ 0 }
        ensures ok { IfOk result (λ r. (r.0 ≡ added self.old.setup.limits word told.now.size) × (r.1 ≡ weight_known self.old.table (next_name self.old.sender.ledger told.now.size)) × (self.new ≡ send_known self.old.table self.old.setup (adding self.old.sender told.now.how told.now.size r.0)) × TellsQueue (seat_view self.new.setup self.new.sender []) r.0) }
        ensures err { IfErr result (λ n. (n ≢ word) × (self.new ≡ send_known self.old.table self.old.setup (heard self.old.sender (n ∷ []))) × TellsQueue (seat_view self.new.setup self.new.sender []) n) }
    {
        try_add(&self.table.shared, &mut self.seat, self.setup, word, told)
    }

    /// Adds a command of n bytes to the queue, and answers the word that it left. Only an add without suspension is refused, where the word found says that the
    /// queue is busy.
    pub fn add_command<R: Wait>(&mut self, rt: &R, n: u32, how: AddHow) -> Added
        requires size { n ≤ 262143 }
        requires few { length self.old.sender.ledger.adds < 131072 }
        ensures { AddsCommand self.old self.new how n result }
    {
        let told = PlannedAdd { how, size: n };
        let mut word = self.look_msgq();
        'tries: for _ in rt.forever() {
            if is_refused(how, word) {
                return Added::Busy { msgq: word };
            }
            match self.try_add(word, &told) {
                Ok((msgq, weight)) => return Added::Added { msgq, weight },
                Err(found) => word = found,
            }
        }
        unreachable!()
    }

    /// Takes one of this sender's adds back, and answers the word left.
    pub fn undo<R: Wait>(&mut self, rt: &R, weight: Weight) -> u64
        requires table { weight.table ≡ self.old.table }
        requires sender { weight.name.sender ≡ self.old.sender.ledger.number }
        ensures { TakesBack self.old self.new weight.name result }
    {
        undo(rt, &self.table.shared, &mut self.seat, self.setup, weight)
    }
}

fn undo<R: Wait>(
    rt: &R,
    shared: &SharedBusyWords,
    seat: &mut BusyWordSeat,
    setup: BusySetup,
    weight: Weight,
) -> u64
    requires table { (seat.old.table_id ≡ shared.now.table_id) × (seat.old.table_id.words ≡ 2) × (shared.now.key ≡ setup) }
    requires view { seat.old.me ≡ (seat_view setup (own seat.old.me.0) [], []) }
    requires weight { (weight.table ≡ seat.old.table_id) × (weight.name.sender ≡ (own seat.old.me.0).ledger.number) }
    ensures same { (seat.new.table_id ≡ seat.old.table_id) × (seat.new.id ≡ seat.old.id) }
    ensures view { seat.new.me ≡ (seat_view setup (own seat.new.me.0) [], []) }
    ensures taken { TakesBack (send_known seat.old.table_id setup (own seat.old.me.0)) (send_known seat.new.table_id setup (own seat.new.me.0)) weight.name result }
{
    let size = weight.join_into(shared, seat);
    let mut word = shared.load::<SenderHearing>(seat, MSGQ);
    'tries: for _ in rt.forever() {
        match try_undo(shared, seat, setup, word, size) {
            Ok(left) => return left,
            Err(found) => word = found,
        }
    }
    unreachable!()
}
