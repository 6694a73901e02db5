// How the homes of a run are made, and how their bodies come out again where memory is wanting.
ghost use Rattle.std.specs.Prelude.{◌≡◌, ◌≢◌, ℕ, ◌+◌, ◌<◌, ◌≤◌, List, [], ◌∷◌, ◌++◌, length, vec_len, vec_capacity, map, slice_get, Some, All, IfOk, IfErr, OnOk};
ghost use Rattle.atomic_table.specs.Seated.{TableId};
ghost use Rattle.run_queue.specs.Seats.{changed_at};
ghost use Rattle.ticket_account.specs.Opening.{IsCounted, AreAlike, HomesOfBodies, GivesEach};

use no_memory::NoMemory;
use port_sched::{Home, Lodger, PortBody, join_homes};
use port_words::home::home;
use port_words::over::OverSeat;
use std::alloc::Global;

// A push that has room.
pub(crate) fn add<T: Drop>(all: &mut Vec<T>, one: T)
    requires { vec_len all.old < vec_capacity all.old }
    ensures items { all.new.items ≡ all.old.items ++ one ∷ [] }
    ensures len { vec_len all.new ≡ vec_len all.old + 1 }
    ensures capacity { vec_capacity all.old ≤ vec_capacity all.new }
{
    if all.push(one).is_err() {
        unreachable!();
    }
}

// An empty list for each job, with room for a seat of each home.
pub(crate) fn empty_lists<B: PortBody>(
    alloc: Global,
    jobs: u32,
    ports: usize,
) -> Result<Vec<Vec<Home<B>>>, NoMemory>
    ensures { IfOk result (λ lists. (length lists.items ≡ jobs) × All (λ l. (l.items ≡ []) × (ports ≤ vec_capacity l)) lists.items) }
{
    let mut lists = Vec::new(alloc);
    'jobs: for _ in 0..jobs {
        lists.push(Vec::with_capacity(alloc, ports)?)?;
    }
    Ok(lists)
}

// One seat more for the job of this number.
fn give<B: PortBody>(lists: &mut Vec<Vec<Home<B>>>, job: usize, seat: Home<B>)
    requires exists { job < length lists.old.items }
    requires room { (l : _) → slice_get lists.old.items job ≡ Some l → vec_len l < vec_capacity l }
    ensures items { map (λ l. l.items) lists.new.items ≡ changed_at (λ row. row ++ seat ∷ []) job (map (λ l. l.items) lists.old.items) }
    ensures others { (n : ℕ) → n ≢ job → slice_get lists.new.items n ≡ slice_get lists.old.items n }
    ensures capacity { (room : ℕ) → All (λ l. room ≤ vec_capacity l) lists.old.items → All (λ l. room ≤ vec_capacity l) lists.new.items }
{
    add(&mut lists[job], seat);
}

// One seat more for each job.
fn give_each<B: PortBody>(lists: &mut Vec<Vec<Home<B>>>, mut seats: Vec<Home<B>>)
    requires enough { length seats.items ≡ length lists.old.items }
    requires room { (room : ℕ) × All (λ l. (vec_len l < room) × (room ≤ vec_capacity l)) lists.old.items }
    ensures each { GivesEach seats.items (map (λ l. l.items) lists.old.items) (map (λ l. l.items) lists.new.items) }
    ensures many { length lists.new.items ≡ length lists.old.items }
    ensures capacity { (room : ℕ) → All (λ l. room ≤ vec_capacity l) lists.old.items → All (λ l. room ≤ vec_capacity l) lists.new.items }
{
    'jobs: for job in 0..lists.len() {
        let Some(seat) = seats.pop() else {
            unreachable!();
        };
        give(lists, job, seat);
    }
}

// The home of one port more, of which each job gets a seat. Where memory is wanting the lodger comes back.
fn add_port<B: PortBody>(
    alloc: Global,
    lists: &mut Vec<Vec<Home<B>>>,
    port: u32,
    lodger: Lodger<B>,
) -> Result<(), Lodger<B>>
    requires some { (0 < length lists.old.items) × (length lists.old.items ≤ 1024) }
    requires room { (room : ℕ) × All (λ l. (vec_len l < room) × (room ≤ vec_capacity l)) lists.old.items }
    ensures alike { OnOk result ((bodies : List (Lodger _ _)) → length bodies ≡ port → AreAlike (length lists.old.items) bodies (map (λ l. l.items) lists.old.items)
        → AreAlike (length lists.old.items) (bodies ++ lodger ∷ []) (map (λ l. l.items) lists.new.items)) }
    ensures many { OnOk result (length lists.new.items ≡ length lists.old.items) }
    ensures capacity { OnOk result ((room : ℕ) → All (λ l. room ≤ vec_capacity l) lists.old.items → All (λ l. room ≤ vec_capacity l) lists.new.items) }
    ensures err { IfErr result (λ l. (l ≡ lodger) × (lists.new ≡ lists.old)) }
{
    match home(alloc, port, lodger, lists.len() as u32) {
        Ok(seats) => {
            give_each(lists, seats);
            Ok(())
        }
        Err((lodger, _)) => Err(lodger),
    }
}

// The bodies come out of their homes, of which no turn began.
fn take_back<B: PortBody>(mut lists: Vec<Vec<Home<B>>>, back: &mut Vec<B>)
    requires some { 0 < length lists.items }
    requires homes { (bodies : List B) × HomesOfBodies (length lists.items) bodies (map (λ l. l.items) lists.items) × (vec_len back.old + length bodies ≤ vec_capacity back.old) }
    ensures bodies { (bodies : List B) → HomesOfBodies (length lists.items) bodies (map (λ l. l.items) lists.items) → back.new.items ≡ back.old.items ++ bodies }
    ensures capacity { vec_capacity back.old ≤ vec_capacity back.new }
{
    let Some(mut all) = lists.pop() else {
        unreachable!();
    };
    'jobs: while let Some(others) = lists.pop() {
        join_homes(&mut all, others);
    }
    'homes: for home in all {
        add(back, home.close_home().body);
    }
}

// The bodies go home, each beside a counted seat of OVER, and each job gets a seat of each home. Where memory is wanting the bodies come back as they were.
pub(crate) fn deal_homes<B: PortBody>(
    alloc: Global,
    bodies: Vec<B>,
    places: &mut Vec<OverSeat>,
    mut lists: Vec<Vec<Home<B>>>,
    mut back: Vec<B>,
) -> Result<Vec<Vec<Home<B>>>, Vec<B>>
    requires lists { (0 < length lists.items) × (length lists.items ≤ 1024) × All (λ l. (l.items ≡ []) × (length bodies.items ≤ vec_capacity l)) lists.items }
    requires back { (back.items ≡ []) × (length bodies.items ≤ vec_capacity back) }
    requires places { (word : TableId) × All (IsCounted word) places.old.items }
    requires enough { (length bodies.items ≤ length places.old.items) × (length places.old.items ≤ 1024) }
    ensures homes { IfOk result (λ all. (length all.items ≡ length lists.items) × HomesOfBodies (length lists.items) bodies.items (map (λ l. l.items) all.items)) }
    ensures back { IfErr result (λ all. all.items ≡ bodies.items) }
    ensures places { OnOk result ((word : TableId) → All (IsCounted word) places.old.items → All (IsCounted word) places.new.items) }
    ensures left { OnOk result (length places.new.items + length bodies.items ≡ length places.old.items) }
{
    let mut port = 0;
    let mut rest = bodies.into_iter();
    'ports: while let Some(body) = rest.next() {
        let Some(over) = places.pop() else {
            unreachable!();
        };
        if let Err(lodger) = add_port(alloc, &mut lists, port, Lodger::new(body, over)) {
            take_back(lists, &mut back);
            add(&mut back, lodger.body);
            'rest: for body in rest {
                add(&mut back, body);
            }
            return Err(back);
        }
        port += 1;
    }
    Ok(lists)
}
