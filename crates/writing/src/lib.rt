// Numbers, words and refusal lines as text. Each public function writes into a lent slice of bytes from an index on and gives
// the index after its text; the bytes before and after the text stay as they are. A `Text` has memory of a fixed size for it,
// and its methods write front to back, each by the function of its name.
#![tactic(auto)]

ghost use Rattle.std.specs.Prelude.{◌≡◌, ℕ, ◌+◌, ◌<◌, ◌≤◌, List, [], length, take};
ghost use Rattle.definitions.specs.JobText as J;
ghost use Rattle.definitions.specs.Lent.{at_entry};
ghost use Rattle.writing.specs.Sizes.{decimal_size, signed_decimal_size, hexadecimal_size, point_size, group_size, refusal_size};
ghost use Rattle.writing.specs.Written.{Written};
ghost use Rattle.writing.specs.Appended.{Appended};
ghost use Rattle.writing.specs.Digits.{DecimalDigits};

use rounding::to_bits;
use std::marker::Model;

// The digits of 2^64 - 1.
pub const DECIMAL_SIZE: usize = 20;

// The digits of a double's bits.
pub const HEXADECIMAL_SIZE: usize = 16;

// A coordinate's, after a blank and a minus.
pub const COORDINATE_SIZE: usize = 2 + DECIMAL_SIZE;

// Writes the bytes as they are.
pub fn put(out: &mut [u8], at: usize, bytes: &[u8]) -> usize
    requires { at + length bytes.now ≤ length out.old }
    ensures { Written out.old at (at_entry bytes) (length (at_entry bytes)) result out.new }
{
    let next = at + bytes.len();
    out[at..next].copy_from_slice(bytes);
    next
}

// The digits are worked out by hand here: std writes them through `fmt::Write` alone, which doesn't promise when it succeeds,
// and each function below writes its text wherever there is room.

// The digit of a number below 16, in upper case.
fn digit(d: u64) -> u8
    requires { d < 16 }
    ensures { result ≡ J.digit d }
{
    if d < 10 {
        b'0' + d as u8
    } else {
        b'A' - 10 + d as u8
    }
}

// Fills the digits from the end with n in decimal, and gives the index of the first.
fn decimal_digits(n: u64, digits: &mut [u8; DECIMAL_SIZE]) -> usize
    requires { length digits.old ≡ decimal_size }
    ensures { DecimalDigits n result digits.new }
{
    let mut left = n;
    for place in (1..DECIMAL_SIZE).rev() {
        digits[place] = digit(left % 10);
        if left < 10 {
            return place;
        }
        left /= 10;
    }
    digits[0] = digit(left);
    0
}

// Writes n in decimal.
pub fn decimal(out: &mut [u8], at: usize, n: u64) -> usize
    requires { at + decimal_size ≤ length out.old }
    ensures { Written out.old at (J.decimal n) decimal_size result out.new }
{
    let mut digits = [0u8; DECIMAL_SIZE];
    let start = decimal_digits(n, &mut digits);
    put(out, at, &digits[start..])
}

// Writes z in decimal, with a minus before it where it is negative.
pub fn signed_decimal(out: &mut [u8], at: usize, z: i64) -> usize
    requires { at + signed_decimal_size ≤ length out.old }
    ensures { Written out.old at (J.signed_decimal z) signed_decimal_size result out.new }
{
    let next = if z < 0 { put(out, at, b"-") } else { at };
    decimal(out, next, z.unsigned_abs())
}

// Fills the digits with a number's hexadecimal ones, in upper case.
fn hexadecimal_digits(n: u64, digits: &mut [u8; HEXADECIMAL_SIZE])
    requires { length digits.old ≡ hexadecimal_size }
    ensures { digits.new ≡ J.hexadecimal_before hexadecimal_size n [] }
{
    let mut left = n;
    for place in (0..HEXADECIMAL_SIZE).rev() {
        digits[place] = digit(left % 16);
        left /= 16;
    }
}

// Writes the 16 upper-case hexadecimal digits of a double's bits; a NaN's are 7FF8000000000000.
pub fn hexadecimal(out: &mut [u8], at: usize, x: f64) -> usize
    requires { at + hexadecimal_size ≤ length out.old }
    ensures { Written out.old at (J.hexadecimal x) hexadecimal_size result out.new }
{
    let mut digits = [0u8; HEXADECIMAL_SIZE];
    hexadecimal_digits(to_bits(x), &mut digits);
    put(out, at, &digits)
}

// Writes the coordinates of a point, each after a blank.
pub fn point(out: &mut [u8], at: usize, zs: &[i64]) -> usize
    requires { at + point_size (length zs.now) ≤ length out.old }
    ensures { Written out.old at (J.point_text (at_entry zs)) (point_size (length (at_entry zs))) result out.new }
{
    let mut next = at;
    for z in zs {
        let after_blank = put(out, next, b" ");
        next = signed_decimal(out, after_blank, *z);
    }
    next
}

// Writes the group of a refusal's number.
pub fn group(out: &mut [u8], at: usize, number: u64) -> usize
    requires { at + group_size ≤ length out.old }
    ensures { Written out.old at (J.group number) group_size result out.new }
{
    match number {
        0..=1 => put(out, at, b"layout"),
        2..=5 => put(out, at, b"table"),
        6..=14 => put(out, at, b"call"),
        21 => put(out, at, b"layout"),
        _ => put(out, at, b"search"),
    }
}

// Writes a refusal's line: the word of what was refused, " refused ", the number, a blank, the group and the line's
// end.
pub fn refusal_line(out: &mut [u8], at: usize, word: &[u8], number: u64) -> usize
    requires { at + (length word.now + refusal_size) ≤ length out.old }
    ensures { Written out.old at (J.refusal_line (at_entry word) number) (length (at_entry word) + refusal_size) result out.new }
{
    let after_word = put(out, at, word);
    let after_verb = put(out, after_word, b" refused ");
    let after_number = decimal(out, after_verb, number);
    let after_blank = put(out, after_number, b" ");
    let after_group = group(out, after_blank, number);
    put(out, after_group, b"\n")
}

// A text of at most N bytes. Each method but `new` and `as_slice` writes behind the text that is there.
#[derive(Drop)]
pub struct Text<const N: usize> {
    bytes: [u8; N],
    len: usize,
}

// Clauses see the bytes that were written.
impl<const N: usize> Model for Text<N> {
    ghost Value = { List ℕ };

    ghost view = { λ t. take t.len t.bytes };

    ghost invariant = { λ t. t.len ≤ N };
}

impl<const N: usize> Text<N> {
    pub fn new() -> Self
        ensures { result ≡ [] }
    {
        Text {
            bytes: [0; N],
            len: 0,
        }
    }

    // The bytes that were written.
    pub fn as_slice(&self) -> &[u8]
        ensures { result.now ≡ self.now }
    {
        &self.bytes[..self.len]
    }

    // Writes the bytes as they are.
    pub fn put(&mut self, bytes: &[u8])
        requires { length self.old + length bytes.now ≤ N }
        ensures { Appended self.old (at_entry bytes) (length (at_entry bytes)) self.new }
    {
        self.len = put(&mut self.bytes, self.len, bytes);
    }

    // Writes n in decimal.
    pub fn decimal(&mut self, n: u64)
        requires { length self.old + decimal_size ≤ N }
        ensures { Appended self.old (J.decimal n) decimal_size self.new }
    {
        self.len = decimal(&mut self.bytes, self.len, n);
    }

    // Writes z in decimal, with a minus before it where it is negative.
    pub fn signed_decimal(&mut self, z: i64)
        requires { length self.old + signed_decimal_size ≤ N }
        ensures { Appended self.old (J.signed_decimal z) signed_decimal_size self.new }
    {
        self.len = signed_decimal(&mut self.bytes, self.len, z);
    }

    // Writes the 16 upper-case hexadecimal digits of a double's bits; a NaN's are 7FF8000000000000.
    pub fn hexadecimal(&mut self, x: f64)
        requires { length self.old + hexadecimal_size ≤ N }
        ensures { Appended self.old (J.hexadecimal x) hexadecimal_size self.new }
    {
        self.len = hexadecimal(&mut self.bytes, self.len, x);
    }

    // Writes the coordinates of a point, each after a blank.
    pub fn point(&mut self, zs: &[i64])
        requires { length self.old + point_size (length zs.now) ≤ N }
        ensures { Appended self.old (J.point_text (at_entry zs)) (point_size (length (at_entry zs))) self.new }
    {
        self.len = point(&mut self.bytes, self.len, zs);
    }

    // Writes the group of a refusal's number.
    pub fn group(&mut self, number: u64)
        requires { length self.old + group_size ≤ N }
        ensures { Appended self.old (J.group number) group_size self.new }
    {
        self.len = group(&mut self.bytes, self.len, number);
    }

    // Writes a refusal's line: the word of what was refused, " refused ", the number, a blank, the group and the line's
    // end.
    pub fn refusal_line(&mut self, word: &[u8], number: u64)
        requires { length self.old + (length word.now + refusal_size) ≤ N }
        ensures { Appended self.old (J.refusal_line (at_entry word) number) (length (at_entry word) + refusal_size) self.new }
    {
        self.len = refusal_line(&mut self.bytes, self.len, word, number);
    }
}
