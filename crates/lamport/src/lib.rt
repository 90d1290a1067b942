// The rules on plain numbers and rows, which need no table: stamps, clocks, the queue, the entry rule, the grid.
#![tactic(auto)]

ghost use Rattle.std.specs.Prelude.{◌≡◌, ℕ, max, ◌+◌, ◌<◌, ◌≤◌, length, get_or};
ghost use Rattle.lamport.specs.Order.{before, ahead as ahead_of, own_first, late_enough, heard_all, entry_rule, lc1 as lc1_of, lc2 as lc2_of, clock_after, entry_after};
ghost use Rattle.lamport.specs.Table.{sizes_ok, phase_number};
ghost use Rattle.lamport.specs.Steps.{actor as actor_of, row_of, admitted};
ghost use Rattle.lamport.specs.Refusals.{to_itself, is_request, answer_number};
ghost use Rattle.lamport.specs.Codes.{NamesPhase, NamesKind};
ghost use Rattle.lamport.specs.Starred.{Holds, starred};
ghost use Rattle.lamport.specs.Arrivals.{Arrivals};

// What a message says: a request, its acknowledgement, or the release of the clock.
#[derive(Clone, Copy, PartialEq, Eq)]
pub enum Kind {
    Request,
    Ack,
    Release,
}

#[derive(Clone, Copy)]
pub struct Message {
    pub kind: Kind,
    pub stamp: u32,
}

// The phases of a bench.
#[derive(Clone, Copy, PartialEq, Eq)]
pub enum Phase {
    Idle,
    Waiting,
    Holding,
}

// A word that is the number of no phase, or of no kind of message.
#[derive(Clone, Copy, Debug)]
pub struct UnknownCode(pub u32);

impl TryFrom<u32> for Phase {
    type Error = UnknownCode;

    ghost try_from_gives = { NamesPhase };

    fn try_from(code: u32) -> Result<Phase, UnknownCode> {
        match code {
            0 => Ok(Phase::Idle),
            1 => Ok(Phase::Waiting),
            2 => Ok(Phase::Holding),
            _ => Err(UnknownCode(code)),
        }
    }
}

impl TryFrom<u32> for Kind {
    type Error = UnknownCode;

    ghost try_from_gives = { NamesKind };

    fn try_from(code: u32) -> Result<Kind, UnknownCode> {
        match code {
            0 => Ok(Kind::Request),
            1 => Ok(Kind::Ack),
            2 => Ok(Kind::Release),
            _ => Err(UnknownCode(code)),
        }
    }
}

// The five steps, with the numbers of their benches; a carry goes from the first to the second.
#[derive(Clone, Copy)]
pub enum Step {
    Ask(usize),
    Carry(usize, usize),
    Enter(usize),
    Leave(usize),
    Mark(usize),
}

// The sizes and the start clock that a fresh table is made of.
#[derive(Clone, Copy)]
pub struct Setup {
    pub benches: u32,
    pub capacity: u32,
    pub start: u32,
}

// Why a step or a run is refused. The first that applies is given, with its number here.
#[derive(Clone, Copy, Debug, PartialEq, Eq)]
pub enum Refusal {
    Malformed = 1,
    NoSuchBench = 2,
    ToItself = 3,
    NotAdmitted = 4,
    NothingThere = 5,
    NotYet = 6,
    ChannelFull = 7,
    ClockSpent = 8,
    BadSizes = 9,
    BadLine = 10,
    NoRoom = 11,
    TooLong = 12,
}

// An answer as a number: 0 is done. `From` can't say it, since both types are std's.
pub fn answer_number(answer: Result<(), Refusal>) -> u32
    ensures { result ≡ answer_number answer }
{
    match answer {
        Ok(()) => 0,
        Err(refusal) => refusal as u32,
    }
}

// So many benches there are at most, and so many messages on a channel.
const MOST_BENCHES: u32 = 8;

const MOST_MESSAGES: u32 = 16;

// 1 to 8 benches, and channels of 1 to 16 messages.
pub fn sizes_ok(n: u32, capacity: u32) -> bool
    ensures { result ≡ sizes_ok n capacity }
{
    (1..=MOST_BENCHES).contains(&n) && (1..=MOST_MESSAGES).contains(&capacity)
}

// ---- stamps and clocks

// A request: its stamp, and the bench that sent it. The earlier stamp comes first, ties by bench number.
#[derive(Clone, Copy, PartialEq, Eq, PartialOrd, Ord)]
pub struct Request {
    pub stamp: u32,
    pub bench: usize,
}

pub fn comes_before(a: Request, b: Request) -> bool
    ensures { result ≡ before a.stamp a.bench b.stamp b.bench }
{
    a < b
}

// Std's `max` by the name that the rules use.
pub fn larger(a: u32, b: u32) -> u32
    ensures { result ≡ max a b }
{
    a.max(b)
}

// A word of a table as an index or a sum, with its range; `From` has no way from u32 to usize.
pub fn wide(x: u32) -> usize
    ensures value { result ≡ x }
    ensures upper_bound { result < 4294967296 }
{
    x as usize
}

// LC1: any event but a receipt.
pub fn lc1(clock: u32) -> usize
    ensures { result ≡ lc1_of clock }
{
    wide(clock) + 1
}

// LC2: the receipt of a message with stamp t.
fn lc2(clock: u32, t: u32) -> usize
    ensures value { result ≡ lc2_of clock t }
    ensures upper_bound { result ≤ 4294967296 }
{
    wide(larger(clock, t)) + 1
}

// The receiver's clock after a message. A request's acknowledgement is a second event.
pub fn clock_after(clock: u32, m: Message) -> usize
    ensures { result ≡ clock_after clock m }
{
    let kind = m.kind;
    let received = lc2(clock, m.stamp);
    match kind {
        Kind::Request => received + 1,
        Kind::Ack => received,
        Kind::Release => received,
    }
}

// ---- the queue

pub fn is_request(k: Kind) -> bool
    ensures { result ≡ is_request k }
{
    k == Kind::Request
}

// The receiver's entry for the sender after a message: a request is noted, a release takes out the sender's own entry.
pub fn entry_after(m: Message, entry: u32) -> u32
    ensures { result ≡ entry_after m.kind m.stamp entry }
{
    let kind = m.kind;
    match kind {
        Kind::Request => m.stamp,
        Kind::Ack => entry,
        Kind::Release => 0,
    }
}

// ---- the entry rule, for p of n benches: the rows may be longer than n, as a table's are, so n stands beside them

// The request that stands for q in a queue.
pub fn request_of(queue: &[u32], q: usize) -> Request
    requires { q < length queue.now }
    ensures stamp { result.stamp ≡ get_or queue.now q 0 }
    ensures bench { result.bench ≡ q }
{
    Request {
        stamp: queue[q],
        bench: q,
    }
}

// q has no entry, or p's own comes before it.
fn is_ahead(queue: &[u32], p: usize, q: usize) -> bool
    requires own_place { p < length queue.now }
    requires other_place { q < length queue.now }
    ensures { result ≡ ahead_of p (λ a. get_or queue.now a 0) q }
{
    queue[q] == 0 || comes_before(request_of(queue, p), request_of(queue, q))
}

// Lamport's first clause: p's own request comes before every other request in p's queue.
pub fn own_first(n: usize, p: usize, queue: &[u32]) -> bool
    requires present { p < n }
    requires row { n ≤ length queue.now }
    ensures { result ≡ own_first n p (λ a. get_or queue.now a 0) }
{
    (0..n).all(|q| q == p || is_ahead(queue, p, q))
}

// p, whose own stamp is `own`, has heard late enough from q. The benches are named for a rule that tells ties apart; this one needs neither.
#[tactic(auto, unfolding(crate::specs::Order::late_enough))]
pub fn late_enough(p: usize, q: usize, own: u32, heard: u32) -> bool
    ensures { result ≡ late_enough p q own heard }
{
    own < heard
}

// Lamport's second clause: p has heard late enough from every other bench.
pub fn heard_all(n: usize, p: usize, own: u32, heard: &[u32]) -> bool
    requires { n ≤ length heard.now }
    ensures { result ≡ heard_all n p own (λ a. get_or heard.now a 0) }
{
    (0..n).all(|q| q == p || late_enough(p, q, own, heard[q]))
}

// Whether p, of n benches, may enter: by its own queue, and by what it has heard.
#[tactic(auto, unfolding(crate::specs::Order::entry_rule))]
pub fn may_enter(n: usize, p: usize, queue: &[u32], heard: &[u32]) -> bool
    requires present { p < n }
    requires queue_row { n ≤ length queue.now }
    requires heard_row { n ≤ length heard.now }
    ensures { result ≡ entry_rule n p (λ a. get_or queue.now a 0) (λ a. get_or heard.now a 0) }
{
    own_first(n, p, queue) && heard_all(n, p, queue[p], heard)
}

// ---- steps

// Which phase admits which step: a row for each of ask, carry, enter, leave and mark; idle, waiting, holding across.
const GRID: [[bool; 3]; 5] = [
    [true, false, false],
    [true, true, true],
    [false, true, false],
    [false, false, true],
    [true, true, true],
];

// A step has benches with it, so it can't be cast to its row.
fn row(s: Step) -> usize
    ensures { result ≡ row_of s }
{
    match s {
        Step::Ask(_) => 0,
        Step::Carry(_, _) => 1,
        Step::Enter(_) => 2,
        Step::Leave(_) => 3,
        Step::Mark(_) => 4,
    }
}

pub fn admits(s: Step, phase: Phase) -> bool
    ensures { result ≡ admitted s (phase_number phase) }
{
    GRID[row(s)][phase as usize]
}

pub fn is_to_itself(s: Step) -> bool
    ensures { result ≡ to_itself s }
{
    matches!(s, Step::Carry(p, q) if p == q)
}

// The bench that a step is an event of.
pub fn actor(s: Step) -> usize
    ensures { result ≡ actor_of s }
{
    match s {
        Step::Ask(p) | Step::Carry(_, p) | Step::Enter(p) | Step::Leave(p) | Step::Mark(p) => p,
    }
}

// ---- what holds of the rules: these functions do nothing, and each has a theorem for its promise

// The twelve starred cases, as one list.
pub fn starred_cases()
    ensures { Holds starred }
{}

// Three orders of arrival, in which a slip would break demand 3.
pub fn orders_of_arrival()
    ensures { Arrivals }
{}
