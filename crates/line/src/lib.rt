// The lines that the bench program prints, put into lent bytes. Where a line does not fit, nothing is written and None
// is answered; specs/Line says what a line is.
#![tactic(auto)]

ghost use Rattle.std.specs.Prelude.{◌+◌, ◌*◌, ◌≤◌, ◌^◌, ◌≡◌, [], ◌∷◌, length, take};
ghost use Rattle.std.proofs.lemmas.List.Edits.{sets};
ghost use Rattle.line.specs.Line.{decimal, row_of, line_of, cut_of, Fitted, fitted_into};
ghost use Rattle.line.specs.Line.{space as Line·space};
ghost use Rattle.line.specs.Laws.{line_from};
ghost use Rattle.line.specs.Pen.{HasRoom, Wrote};

const SPACE: u8 = b' ';

const NEWLINE: u8 = b'\n';

// A command's line: its number, what the command reported, in the numbers that are printed, and the lent cards, of
// which the line shows so many as were found, or all where fewer are lent.
#[derive(Clone, Copy)]
pub struct Line<'a> {
    pub number: u64,
    pub refusal: u8,
    pub count: u32,
    pub found: u32,
    pub cards: &'a [u32],
}

impl Line<'_> {
    // The cards that the line shows: so many as were found, and never more than are lent.
    fn shown(&self) -> &[u32]
        ensures { (length result.now ≤ self.now.found)
            × (result.now ≡ take self.now.found self.now.cards.now) }
    {
        &self.cards[..self.cards.len().min(self.found as usize)]
    }
}

// How many digits n has; 0 has one, as 1 has.
fn places(n: u64) -> usize
    ensures { (result ≡ length (decimal n)) × (result ≤ 20) }
{
    n.max(1).ilog10() as usize + 1
}

// Lent bytes, and where the next go.
#[derive(Drop)]
struct Pen<'a> {
    out: &'a mut [u8],
    at: usize,
}

impl Pen<'_> {
    fn put(&mut self, byte: u8)
        requires { HasRoom self.old (byte ∷ []) }
        ensures { Wrote self.old (byte ∷ []) self.new }
    {
        self.out[self.at] = byte;
        self.at += 1;
    }

    // Puts n's digits.
    fn put_number(&mut self, n: u64)
        requires { HasRoom self.old (decimal n) }
        ensures { Wrote self.old (decimal n) self.new }
    {
        let end = self.at + places(n);
        itoa::write_digits(n, self.out, end);
        self.at = end;
    }

    // Puts a space and n's digits.
    fn put_next(&mut self, n: u64)
        requires { HasRoom self.old (Line·space ∷ decimal n) }
        ensures { Wrote self.old (Line·space ∷ decimal n) self.new }
    {
        self.put(SPACE);
        self.put_number(n);
    }

    // Puts these numbers, each behind a space.
    fn put_row(&mut self, numbers: &[u32])
        requires { HasRoom self.old (row_of numbers.now) }
        ensures { Wrote self.old (row_of numbers.now) self.new }
    {
        for &number in numbers {
            self.put_next(u64::from(number));
        }
    }
}

// How many bytes these numbers take, each with its space.
fn row_places(numbers: &[u32]) -> usize
    requires { length numbers.now ≤ 2 ^ 32 }
    ensures { (result ≡ length (row_of numbers.now)) × (result ≤ 21 * length numbers.now) }
{
    numbers
        .iter()
        .map(|&number| 1 + places(u64::from(number)))
        .sum()
}

// Lays a line that fits: its number, the head's numbers, the cards and the line's end.
fn lay_line(out: &mut [u8], number: u64, head: &[u32], cards: &[u32]) -> usize
    requires { length (line_from number head.now cards.now) ≤ length out.old }
    ensures { (result ≡ length (line_from number head.now cards.now))
        × (out.new ≡ sets out.old 0 (line_from number head.now cards.now)) }
{
    let mut pen = Pen { out, at: 0 };
    pen.put_number(number);
    pen.put_row(head);
    pen.put_row(cards);
    pen.put(NEWLINE);
    pen.at
}

// Puts a command's line: its number, refusal, distance count and cards found, then the cards that it shows. Answers how
// many bytes the line has.
pub fn put_line(out: &mut [u8], line: &Line) -> Option<usize>
    ensures { ◌≡◌ {A = Fitted} (record { size = result; bytes = out.new })
        (fitted_into
        (line_of
        line.now.number
        line.now.refusal
        line.now.count
        line.now.found
        (take line.now.found line.now.cards.now))
        out.old) }
{
    let head = [u32::from(line.refusal), line.count, line.found];
    let cards = line.shown();
    let size = places(line.number) + row_places(&head) + row_places(cards) + 1;
    if out.len() < size {
        return None;
    }
    Some(lay_line(out, line.number, &head, cards))
}

// Lays the last line, which fits.
fn lay_cut(out: &mut [u8], left: u64) -> usize
    requires { length (cut_of left) ≤ length out.old }
    ensures { (result ≡ length (cut_of left)) × (out.new ≡ sets out.old 0 (cut_of left)) }
{
    let mut pen = Pen { out, at: 0 };
    pen.put(b'c');
    pen.put(b'u');
    pen.put(b't');
    pen.put_next(left);
    pen.put(NEWLINE);
    pen.at
}

// Puts the last line, if bytes are left over: `cut` and their number. Answers how many bytes the line has.
pub fn put_cut(out: &mut [u8], left: u64) -> Option<usize>
    ensures { ◌≡◌ {A = Fitted} (record { size = result; bytes = out.new })
        (fitted_into (cut_of left) out.old) }
{
    if out.len() < places(left) + 5 {
        return None;
    }
    Some(lay_cut(out, left))
}
