// Runs schedules at the limits of each rule on texts and runs, and prints the answer, the listing, and whether the bytes after it are as they were.
#![tactic(auto)]

use lamport::answer_number;
use std::io;
use std::io::Write;

const LONGEST: usize = 12288;

// Room for the longest schedule that is good.
const ROOM: usize = 65568;

const MANY: usize = 65535;

// The steps of a whole run of two benches.
const RUN: &[u8] =
    b"table\t2\t4\t0\nask\t0\nask\t1\nenter\t0\ncarry\t0\t1\ncarry\t1\t0\nenter\t0\ncarry\t1\t0\nenter\t0\nenter\t1\nleave\t0\ncarry\t0\t1\ncarry\t0\t1\nenter\t1\nask\t2\nleave\t1\n";

// Three benches, of which two hold in turn and mark a reading each: samples/two_trays.schedule.
const TRAYS: &[u8] =
    b"table\t3\t4\t0\nask\t2\nask\t0\ncarry\t0\t1\ncarry\t0\t2\ncarry\t2\t0\ncarry\t2\t1\ncarry\t1\t0\ncarry\t2\t0\nenter\t0\nmark\t0\nmark\t1\nleave\t0\ncarry\t0\t2\ncarry\t1\t2\ncarry\t0\t2\nenter\t2\nmark\t2\nleave\t2\n";

// ---- what is printed

fn mixed(digest: u64, byte: u8) -> u64 {
    (digest % 4294967291 * 31 + byte as u64) % 4294967291
}

fn digest(text: &[u8]) -> u64 {
    text.iter().fold(7, |d, byte| mixed(d, *byte))
}

// Runs the schedule with so much room, and prints the number for no, the line, the bytes written and whether the others are as they were; then the listing, or where it is long its digest.
fn case(
    rt: &impl Print,
    name: &str,
    schedule: &[u8],
    budget: usize,
    room: usize,
) -> io::Result<()> {
    let mut out = [b'.'; ROOM];
    let room = room.min(ROOM);
    let answer = run::run(schedule, budget, &mut out[..room]);
    let (no, line, bytes) = match answer {
        Ok(bytes) => (0, 0, bytes.min(ROOM)),
        Err(r) => (answer_number(Err(r.refusal)), r.line, 0),
    };
    let left = if out[bytes..].iter().all(|b| *b == b'.') {
        "as before"
    } else {
        "changed"
    };
    println!(rt; "{name}: {no} line {line} bytes {bytes} rest {left}")?;
    if bytes <= 600 {
        return io::writer(rt).write_all(&out[..bytes]);
    }
    let d = digest(&out[..bytes]);
    println!(rt; "digest {d}")
}

fn text(rt: &impl Print, name: &str, schedule: &[u8]) -> io::Result<()> {
    case(rt, name, schedule, MANY, ROOM)
}

// ---- the cases

fn rooms(rt: &impl Print) -> io::Result<()> {
    case(rt, "budget 0", RUN, 0, ROOM)?;
    case(rt, "budget 3", RUN, 3, ROOM)?;
    case(
        rt,
        "header alone, 31 bytes of room",
        b"table\t2\t4\t0\n",
        MANY,
        31,
    )?;
    case(
        rt,
        "header alone, 32 bytes of room",
        b"table\t2\t4\t0\n",
        MANY,
        32,
    )?;
    case(
        rt,
        "a bad line and no room",
        b"table\t2\t4\t0\nask\n",
        MANY,
        0,
    )
}

fn sizes(rt: &impl Print) -> io::Result<()> {
    text(
        rt,
        "n = 8, capacity 16",
        b"table\t8\t16\t0\nmark\t7\nmark\t8\n",
    )?;
    text(rt, "n = 9", b"table\t9\t16\t0\nmark\t7\n")?;
    text(rt, "n = 0", b"table\t0\t4\t0\n")?;
    text(rt, "capacity 17", b"table\t2\t17\t0\n")?;
    text(rt, "capacity 0", b"table\t2\t0\t0\n")?;
    text(
        rt,
        "bad sizes, and a bad line after them",
        b"table\t9\t4\t0\nask\n",
    )?;
    text(
        rt,
        "start 4294967294: ask 0 twice",
        b"table\t2\t4\t4294967294\nask\t0\nask\t0\n",
    )
}

fn lines(rt: &impl Print) -> io::Result<()> {
    text(rt, "empty file", b"")?;
    text(rt, "empty line", b"table\t2\t4\t0\n\nask\t0\n")?;
    text(rt, "empty line first", b"\ntable\t2\t4\t0\n")?;
    text(rt, "no LF at the end of the header", b"table\t2\t4\t0")?;
    text(
        rt,
        "no LF at the end of a step",
        b"table\t2\t4\t0\nask\t0\nask\t1",
    )?;
    text(rt, "CR LF", b"table\t2\t4\t0\r\nask\t0\r\n")?;
    text(rt, "CR LF after a step", b"table\t2\t4\t0\nask\t0\r\n")?;
    text(
        rt,
        "a second header",
        b"table\t2\t4\t0\nask\t0\ntable\t2\t4\t0\n",
    )?;
    text(rt, "a step first", b"ask\t0\ntable\t2\t4\t0\n")?;
    text(
        rt,
        "the last line is bad",
        b"table\t2\t4\t0\nask\t0\nask\t1\ncarry\t0\t1\nleave\t0\t1\n",
    )
}

fn fields(rt: &impl Print) -> io::Result<()> {
    text(rt, "a needless zero", b"table\t2\t4\t0\nask\t00\n")?;
    text(rt, "a zero in front", b"table\t2\t4\t0\nask\t01\n")?;
    text(rt, "a sign", b"table\t2\t4\t0\nask\t+0\n")?;
    text(rt, "a minus", b"table\t2\t4\t0\nask\t-1\n")?;
    text(
        rt,
        "4294967295",
        b"table\t2\t4\t4294967295\nask\t4294967295\nask\t0\n",
    )?;
    text(rt, "4294967296", b"table\t2\t4\t4294967296\n")?;
    text(
        rt,
        "4294967296 as a bench",
        b"table\t2\t4\t0\nask\t4294967296\n",
    )?;
    text(rt, "a field too many", b"table\t2\t4\t0\nask\t0\t0\n")?;
    text(rt, "a field too few", b"table\t2\t4\t0\ncarry\t0\n")?;
    text(rt, "no field", b"table\t2\t4\t0\nask\n")?;
    text(rt, "an empty field", b"table\t2\t4\t0\nask\t\n")?;
    text(rt, "a field too many in the header", b"table\t2\t4\t0\t0\n")?;
    text(rt, "a field too few in the header", b"table\t2\t4\n")?;
    text(rt, "a wrong word", b"table\t2\t4\t0\nasks\t0\n")?;
    text(rt, "a word in capitals", b"table\t2\t4\t0\nASK\t0\n")?;
    text(rt, "a space for a tab", b"table\t2\t4\t0\nask 0\n")
}

// A header and 2,046 lines of 6 bytes are 12,288 bytes; so many of a text of one byte more.
fn long(rt: &impl Print, name: &str, length: usize) -> io::Result<()> {
    let header = b"table\t2\t4\t0\n";
    let step = b"ask\t0\n";
    let mut schedule = [b'\n'; LONGEST + 1];
    for (i, byte) in schedule.iter_mut().enumerate() {
        *byte = if i < 12 {
            header[i]
        } else {
            step[(i - 12) % 6]
        };
    }
    text(rt, name, &schedule[..length.min(LONGEST + 1)])
}

// Capacity 1: an ask is answered 7 while an ack waits on its channel; all 56 channels are full once all have asked; a leave is answered 7 while its ack waits.
fn full(rt: &impl Print) -> io::Result<()> {
    text(
        rt,
        "8 benches with full channels",
        b"table\t8\t1\t0\nask\t0\ncarry\t0\t1\nask\t1\ncarry\t1\t0\nask\t1\nask\t2\nask\t3\nask\t4\nask\t5\nask\t6\nask\t7\ncarry\t1\t0\ncarry\t0\t2\ncarry\t7\t6\nenter\t0\nmark\t3\n",
    )?;
    text(
        rt,
        "all 56 channels full",
        b"table\t8\t1\t0\nask\t0\nask\t1\nask\t2\nask\t3\nask\t4\nask\t5\nask\t6\nask\t7\ncarry\t0\t1\ncarry\t7\t6\nask\t3\n",
    )?;
    text(
        rt,
        "a leave with a full channel",
        b"table\t2\t1\t0\nask\t0\ncarry\t0\t1\ncarry\t1\t0\nenter\t0\nask\t1\ncarry\t1\t0\nleave\t0\ncarry\t0\t1\nleave\t0\n",
    )
}

fn main(rt: HostRuntime) -> io::Result<()> {
    text(&rt, "the whole run", RUN)?;
    text(&rt, "two trays", TRAYS)?;
    rooms(&rt)?;
    sizes(&rt)?;
    lines(&rt)?;
    fields(&rt)?;
    long(&rt, "12288 bytes", LONGEST)?;
    long(&rt, "12289 bytes", LONGEST + 1)?;
    full(&rt)
}
