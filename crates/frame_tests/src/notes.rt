//! What one pass tells another, what it sees without a turn, and turns that are taken where none is out.
ghost use Rattle.std.specs.Prelude.{◌≡◌, ℕ, IfSome};
ghost use Rattle.turn_lock.specs.Passes.{front, made_of, number_of, seen, turn_number, IsMakerOf, IsPassOf, IsTurnOf};

use std::alloc::Global;
use std::sync::Wait;
use std::sync::atomic::AtomicU64;
use std::sync::atomic::Ordering::SeqCst;
use std::thread;
use std::thread::{Threads, join};
use turn_lock::{History, LockPass, Maker, Turn, TurnLock};

/// The numbers of the passes that marked, the oldest first.
#[derive(Drop)]
struct Marks {
    numbers: Vec<u64>,
}

/// A list of marks is as far as it is long.
impl History<u64, ()> for Marks {
    ghost use Rattle.std.specs.Prelude.{length};
    ghost use Rattle.std.proofs.Common.{arith, length-append};

    ghost entries = { λ marks. marks.numbers.items };

    ghost maker = { λ number. number };

    ghost level = { λ numbers. length numbers };

    ghost rises = { λ xs ys. omega (arith, length-append xs ys) };

    ghost fits = { λ _ _. Unit {0} };
}

type MarkLock = TurnLock<Marks, u64, ()>;

type MarkPass = LockPass<Marks, u64, ()>;

type MarkMaker = Maker<Marks, u64, ()>;

type MarkTurn = Turn<Marks, u64, ()>;

/// A lock over no mark.
fn opened(alloc: Global) -> Option<(MarkLock, MarkMaker)>
    ensures { IfSome result (λ r. IsMakerOf r.0 r.1 × (made_of r.1 ≡ 0)) }
{
    let marks = Marks {
        numbers: Vec::new(alloc),
    };
    TurnLock::open(alloc, marks, ()).ok()
}

/// How many marks a turn makes.
const MARKS: usize = 3;

/// Marks, where there is memory, tells how many marks there are, and passes the turn.
fn pass_on(lock: &MarkLock, turn: MarkTurn, marks: Marks) -> MarkPass
    requires turn { IsTurnOf (λ (number : ℕ). number) lock.now turn }
    requires seen { seen turn ≡ marks.numbers.items }
    ensures { IsPassOf lock.now result × (number_of result ≡ turn_number turn) }
{
    let mut marks = marks;
    let number = turn.number();
    match marks.numbers.extend_from_slice(&[number; MARKS]) {
        Ok(()) => {
            let level = marks.numbers.len() as u64;
            lock.leave(turn, marks, MARKS as u64, level)
        }
        Err(_) => lock.leave(turn, marks, 0, 0),
    }
}

/// A turn in which the pass marks.
fn mark<R: Wait>(rt: &R, lock: &MarkLock, pass: MarkPass) -> MarkPass
    requires { IsPassOf lock.now pass }
    ensures { IsPassOf lock.now result × (number_of result ≡ number_of pass) }
{
    let (turn, marks) = lock.enter(rt, pass);
    pass_on(lock, turn, marks)
}

/// The second pass takes in what the first has seen, and then looks at the whole list.
fn told<R: Wait>(rt: &R, lock: &MarkLock, one: &mut MarkPass, two: MarkPass) -> MarkPass
    requires one { IsPassOf lock.now one.old }
    requires two { IsPassOf lock.now two }
    ensures one { IsPassOf lock.now one.new }
    ensures same { front one.new ≡ front one.old }
    ensures two { IsPassOf lock.now result × (number_of result ≡ number_of two) }
{
    let note = lock.rest_note(lock.note(one));
    let two = lock.meet(two, lock.wake_note(note));
    let (turn, marks) = lock.enter(rt, two);
    lock.leave_seeing(turn, marks)
}

/// The numbers of two passes, and once the first has marked and told the second, what the lock ends with: its marks, and how many passes
/// were made.
fn ended<R: Wait>(rt: &R, alloc: Global) -> Option<((u64, u64), Marks, u64)> {
    let (lock, mut maker) = opened(alloc)?;
    let one = lock.another(&mut maker);
    let two = lock.another(&mut maker);
    let numbers = (one.number(), two.number());
    let mut one = mark(rt, &lock, one);
    let two = told(rt, &lock, &mut one, two);
    let mut closing = lock.last_turn(rt, one, maker);
    lock.absorb(&mut closing, two);
    let (slot, made) = lock.end(closing);
    let Some(marks) = slot else { unreachable!() };
    Some((numbers, marks, made))
}

/// Whether a lock of two passes ends with the marks of the first.
fn is_marked<R: Wait>(rt: &R, alloc: Global) -> bool {
    match ended(rt, alloc) {
        Some((numbers, marks, made)) => {
            numbers == (0, 1) && marks.numbers.as_slice() == [0; MARKS].as_slice() && made == 2
        }
        None => false,
    }
}

#[test]
fn a_note_is_met_and_the_lock_ends(rt: HostRuntime) {
    assert!(&rt; is_marked(&rt, rt.alloc()));
}

/// The levels that a pass sees without a turn: before another has marked, behind that, and behind its own mark.
fn levels<R: Wait>(rt: &R, alloc: Global) -> Option<(u64, u64, u64)> {
    let (lock, mut maker) = opened(alloc)?;
    let one = lock.another(&mut maker);
    let two = lock.another(&mut maker);
    let (two, first) = lock.catch_up(two);
    let _one = mark(rt, &lock, one);
    let (two, second) = lock.catch_up(two);
    let (_two, third) = lock.catch_up(mark(rt, &lock, two));
    Some((first, second, third))
}

#[test]
fn a_pass_sees_a_level_without_a_turn(rt: HostRuntime) {
    assert!(&rt; levels(&rt, rt.alloc()) == Some((0, 3, 6)));
}

/// Whether a pass gets no turn while another has one, and one behind it.
fn is_free_behind<R: Wait>(rt: &R, alloc: Global) -> bool {
    let Some((lock, mut maker)) = opened(alloc) else {
        return false;
    };
    let one = lock.another(&mut maker);
    let two = lock.another(&mut maker);
    let (turn, marks) = lock.enter(rt, one);
    let early = lock.enter_if_free(rt, two);
    let _one = lock.leave_seeing(turn, marks);
    let two = match early {
        Ok((turn, marks)) => {
            lock.leave_seeing(turn, marks);
            return false;
        }
        Err(two) => two,
    };
    match lock.enter_if_free(rt, two) {
        Ok((turn, marks)) => {
            lock.leave_seeing(turn, marks);
            true
        }
        Err(_) => false,
    }
}

#[test]
fn a_turn_is_taken_only_where_none_is_out(rt: HostRuntime) {
    assert!(&rt; is_free_behind(&rt, rt.alloc()));
}

/// Lets others run until the number is reached, and then some time more.
fn await_number<R: Wait>(rt: &R, word: &AtomicU64, number: u64) {
    for _ in rt.forever() {
        if word.load(SeqCst) >= number {
            break;
        }
        thread::yield_now();
    }
    rest_a_while();
}

/// Lets others run for as long as they need to go on, or to fall asleep.
fn rest_a_while() {
    for _ in 0..1000u32 {
        thread::yield_now();
    }
}

/// How many turns one thread takes while another looks.
const TURNS: u64 = 20_000;

/// Takes the turns, once another looks.
fn mark_on<R: Wait>(rt: &R, lock: &MarkLock, pass: MarkPass, looking: &AtomicU64)
    requires { IsPassOf lock.now pass }
{
    await_number(rt, looking, 1);
    let mut pass = pass;
    for _ in 0..TURNS {
        pass = mark(rt, lock, pass);
    }
}

/// Looks until all turns were told. Whether each level was that of whole turns, and no lower than the one before.
fn looks_on<R: Wait>(rt: &R, lock: &MarkLock, pass: MarkPass, looking: &AtomicU64) -> bool
    requires { IsPassOf lock.now pass }
{
    looking.store(1, SeqCst);
    let mut pass = pass;
    let mut last = 0;
    for _ in rt.forever() {
        let (seen, level) = lock.catch_up(pass);
        pass = seen;
        if level % MARKS as u64 != 0 || level < last {
            return false;
        }
        if level >= MARKS as u64 * TURNS {
            return true;
        }
        last = level;
    }
    unreachable!()
}

/// Whether one who looks while another takes turns sees whole turns alone.
fn sees_whole_turns<R: Threads + Wait + Sync>(rt: &R, alloc: Global) -> bool {
    let Some((lock, mut maker)) = opened(alloc) else {
        return false;
    };
    let one = lock.another(&mut maker);
    let two = lock.another(&mut maker);
    let lock = &lock;
    let looking = AtomicU64::new(0);
    let looking = &looking;
    let (_, whole) = join(
        rt,
        || -> ()
            requires { IsPassOf lock.now one }
        { mark_on(rt, lock, one, looking) },
        || -> bool
            requires { IsPassOf lock.now two }
        { looks_on(rt, lock, two, looking) },
    );
    whole
}

#[test]
fn who_looks_while_entries_are_counted_sees_all_of_a_turn_or_none(rt: HostRuntime) {
    assert!(&rt; sees_whole_turns(&rt, rt.alloc()));
}

/// How often two look at most who sleep between looks: once before a sleep, behind each wake, and some times for a sleep
/// that ends by itself.
const FEW_LOOKS: u64 = 20;

/// Where threads tell each other how far they are.
#[derive(Drop)]
struct Meeting {
    /// 1 once the turn is out
    out: AtomicU64,
    /// how many looks there were
    looks: AtomicU64,
}

/// Wakes those who sleep while a turn is out until they have looked so often.
fn wake_until<R: Wait>(rt: &R, lock: &MarkLock, meeting: &Meeting, looks: u64) {
    for _ in rt.forever() {
        lock.wake_sleepers();
        rest_a_while();
        if meeting.looks.load(SeqCst) >= looks {
            break;
        }
    }
}

/// Takes a turn, wakes the two who sleep while it is out, and passes it when they sleep again. None is drawn behind it.
fn hold<R: Wait>(rt: &R, lock: &MarkLock, pass: MarkPass, meeting: &Meeting)
    requires { IsPassOf lock.now pass }
{
    let (turn, marks) = lock.enter(rt, pass);
    meeting.out.store(1, SeqCst);
    await_number(rt, &meeting.looks, 2);
    wake_until(rt, lock, meeting, 4);
    pass_on(lock, turn, marks);
}

/// Looks until a mark is told, from when the turn is out, and sleeps between looks.
fn look_and_sleep<R: Wait>(rt: &R, lock: &MarkLock, pass: MarkPass, meeting: &Meeting)
    requires { IsPassOf lock.now pass }
{
    await_number(rt, &meeting.out, 1);
    let mut pass = pass;
    for _ in rt.forever() {
        let (seen, level) = lock.catch_up(pass);
        pass = seen;
        meeting.looks.fetch_add(1, SeqCst);
        if level > 0 {
            break;
        }
        lock.sleep_while_out(rt);
    }
}

/// How often two looked who slept while a third had the turn.
fn looks_of_two<R: Threads + Wait + Sync>(rt: &R, alloc: Global) -> Option<u64> {
    let (lock, mut maker) = opened(alloc)?;
    let one = lock.another(&mut maker);
    let two = lock.another(&mut maker);
    let three = lock.another(&mut maker);
    let lock = &lock;
    let meeting = Meeting {
        out: AtomicU64::new(0),
        looks: AtomicU64::new(0),
    };
    let met = &meeting;
    join(
        rt,
        || -> ()
            requires { IsPassOf lock.now one }
        { hold(rt, lock, one, met) },
        || -> ()
            requires { IsPassOf lock.now two × IsPassOf lock.now three }
        {
            join(
                rt,
                || -> ()
                    requires { IsPassOf lock.now two }
                { look_and_sleep(rt, lock, two, met) },
                || -> ()
                    requires { IsPassOf lock.now three }
                { look_and_sleep(rt, lock, three, met) },
            );
        },
    );
    Some(meeting.looks.load(SeqCst))
}

#[test]
fn all_who_sleep_while_a_turn_is_out_wake_behind_it(rt: HostRuntime) {
    let looks = looks_of_two(&rt, rt.alloc());
    assert!(&rt; looks.is_some_and(|it| it <= FEW_LOOKS));
}
