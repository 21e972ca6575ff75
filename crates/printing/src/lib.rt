// Text, numbers, lists and verdicts on standard output, for the test programs. No function tells whether a write
// failed: what a program wrote is held to its file `stdout`.
#![tactic(auto)]

pub mod values;

use refusals::{Carried, Refusal};

// Writes `text` as it is.
pub fn word(text: &[u8]) {
    io::write_all(1, text);
}

// Ends the line.
pub fn newline() {
    word(b"\n");
}

// Writes n in decimal, with no space before it.
pub fn decimal(n: i64) {
    if n < 0 {
        word(b"-");
    }
    io::print_decimal(1, n.unsigned_abs());
}

// Writes the 16 hexadecimal digits of x's bits, or `nan`, with no space before them.
fn bits(x: f64) {
    if x != x {
        word(b"nan");
        return;
    }
    io::print_hex(1, f64::to_bits(x), 16);
}

// Writes a space and n in decimal.
pub fn integer(n: i64) {
    word(b" ");
    decimal(n);
}

// Writes a space and n in decimal.
pub fn count(n: u64) {
    word(b" ");
    io::print_decimal(1, n);
}

// Writes `found`, a nearest search's nodes and its point's distance, with a space before each.
pub fn found(nodes: u64, distance: f64) {
    word(b" found");
    count(nodes);
    double(distance);
}

// Writes a space and the 16 hexadecimal digits of x's bits, or `nan`.
pub fn double(x: f64) {
    word(b" ");
    bits(x);
}

// Writes a space and `true` or `false`.
pub fn truth(b: bool) {
    if b {
        word(b" true");
        return;
    }
    word(b" false");
}

// Writes the integers in square brackets, with a space before each integer and each bracket.
pub fn integers(values: &[i64]) {
    word(b" [");
    for x in values {
        integer(*x);
    }
    word(b" ]");
}

// Writes the doubles' bits, or `nan`, in square brackets, with a space before each double and each bracket.
pub fn doubles(values: &[f64]) {
    word(b" [");
    for x in values {
        double(*x);
    }
    word(b" ]");
}

// Writes a refusal's number and, in brackets, what it carries: its whole numbers, then its double.
fn refusal(e: Refusal) {
    let n = Carried::from(e);
    word(b" ");
    io::print_decimal(1, n.number as u64);
    word(b"(");
    if n.wholes > 0 {
        io::print_decimal(1, n.first);
    }
    if n.wholes > 1 {
        word(b", ");
        io::print_decimal(1, n.second);
    }
    if let Some(real) = n.real {
        if n.wholes > 0 {
            word(b", ");
        }
        bits(real);
    }
    word(b")");
}

// Writes a space and `pass`, or the refusal's number and, in brackets, what it carries.
pub fn verdict(v: Result<(), Refusal>) {
    match v {
        Ok(()) => word(b" pass"),
        Err(e) => refusal(e),
    }
}
