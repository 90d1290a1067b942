// The listing as text. Each writer puts its text over the front of `out`, answers how long the text is, and leaves the bytes after it. The caller lends the bytes, and there is no heap for a String.
#![tactic(auto)]

ghost use Rattle.std.specs.Prelude.{◌<◌, ◌≤◌, [], ◌∷◌, length};
ghost use Rattle.listing.specs.Write.{digits, Wrote};
ghost use Rattle.listing.specs.Record.{cell_text, fields, record_text, word_line, end_text, refused_text};

// The digit x, by itself.
#[tactic(auto, using(crate::proofs::Laws::length_small))]
fn put_digit(out: &mut [u8], x: usize) -> usize
    requires digit { x < 10 }
    requires room { length (digits x) ≤ length out.old }
    ensures { Wrote (digits x) result out.old out.new }
{
    out[0] = b'0' + x as u8;
    1
}

// The digits of x / 100, and the last two behind them.
fn put_long(out: &mut [u8], x: usize) -> usize
    requires long { 10 ≤ x }
    requires room { length (digits x) ≤ length out.old }
    ensures { Wrote (digits x) result out.old out.new }
{
    let (front, pair) = (x / 100, x % 100);
    let at = if front == 0 {
        0
    } else if front < 10 {
        put_digit(out, front)
    } else {
        put_long(out, front)
    };
    out[at] = b'0' + (pair / 10) as u8;
    out[at + 1] = b'0' + (pair % 10) as u8;
    at + 2
}

// x in decimal. Most numbers of a listing have one digit, and these go no further.
// By hand, since the contract names each byte that is written, and std's `write!` promises nothing of them.
fn put_number(out: &mut [u8], x: usize) -> usize
    requires { length (digits x) ≤ length out.old }
    ensures { Wrote (digits x) result out.old out.new }
{
    if x < 10 {
        put_digit(out, x)
    } else {
        put_long(out, x)
    }
}

// A field of the listing: a number, or nothing, which is written `-`.
#[tactic(auto, unfolding(crate::specs::Record::cell_text))]
fn put_cell(out: &mut [u8], cell: Option<usize>) -> usize
    requires { length (cell_text cell) ≤ length out.old }
    ensures { Wrote (cell_text cell) result out.old out.new }
{
    match cell {
        Some(x) => put_number(out, x),
        None => {
            out[0] = b'-';
            1
        }
    }
}

// A field and the byte behind it.
#[tactic(auto, unfolding(crate::specs::Record::fields))]
fn put_field(out: &mut [u8], cell: Option<usize>, behind: u8) -> usize
    requires { length (fields (cell ∷ []) behind) ≤ length out.old }
    ensures { Wrote (fields (cell ∷ []) behind) result out.old out.new }
{
    let at = put_cell(out, cell);
    out[at] = behind;
    at + 1
}

// Fields with tabs between them, and the byte `end` after the last.
#[tactic(auto, using(crate::proofs::Laws::fields_length))]
pub fn put_fields(out: &mut [u8], cells: &[Option<usize>], end: u8) -> usize
    requires { length (fields cells.now end) ≤ length out.old }
    ensures { Wrote (fields cells.now end) result out.old out.new }
{
    match cells {
        [] => 0,
        [last] => put_field(out, *last, end),
        [first, rest @ ..] => {
            let at = put_field(out, *first, b'\t');
            at + put_fields(&mut out[at..], rest, end)
        }
    }
}

// Answers and phases are the numbers that are printed: this crate stands on no other, and promises of every number.
// One line of the listing: the step's number from 1 and its answer, the bench with its clock, phase and place after the step, the holder.
#[derive(Clone, Copy)]
pub struct Record {
    pub step: usize,
    pub answer: usize,
    pub bench: Option<usize>,
    pub clock: Option<usize>,
    pub phase: Option<usize>,
    pub place: Option<usize>,
    pub holder: Option<usize>,
}

#[tactic(auto, unfolding(crate::specs::Record::record_text))]
pub fn put_record(out: &mut [u8], r: Record) -> usize
    requires { length (record_text r) ≤ length out.old }
    ensures { Wrote (record_text r) result out.old out.new }
{
    put_fields(
        out,
        &[
            Some(r.step),
            Some(r.answer),
            r.bench,
            r.clock,
            r.phase,
            r.place,
            r.holder,
        ],
        b'\n',
    )
}

// A word, copied.
#[tactic(auto, unfolding(crate::specs::Write::over))]
pub fn put_word(out: &mut [u8], word: &[u8]) -> usize
    requires { length word.now ≤ length out.old }
    ensures { Wrote word.now result out.old out.new }
{
    out[..word.len()].copy_from_slice(word);
    word.len()
}

// A word, its tab with it, and two numbers: `put_end` and `put_refused` differ only in their word, so this is the one function behind both.
#[tactic(auto, unfolding(crate::specs::Record::word_line))]
fn put_line(out: &mut [u8], word: &[u8], a: usize, b: usize) -> usize
    requires { length (word_line word.now a b) ≤ length out.old }
    ensures { Wrote (word_line word.now a b) result out.old out.new }
{
    let at = put_word(out, word);
    at + put_fields(&mut out[at..], &[Some(a), Some(b)], b'\n')
}

// The last line of the listing: the steps taken, and those of them refused.
#[tactic(auto, unfolding(crate::specs::Record::end_text))]
pub fn put_end(out: &mut [u8], taken: usize, refused: usize) -> usize
    requires { length (end_text taken refused) ≤ length out.old }
    ensures { Wrote (end_text taken refused) result out.old out.new }
{
    put_line(out, b"end\t", taken, refused)
}

// What the program prints of a run that is refused: the number for no, whichever it is, and the line.
#[tactic(auto, unfolding(crate::specs::Record::refused_text))]
pub fn put_refused(out: &mut [u8], no: usize, line: usize) -> usize
    requires { length (refused_text no line) ≤ length out.old }
    ensures { Wrote (refused_text no line) result out.old out.new }
{
    put_line(out, b"refused\t", no, line)
}
