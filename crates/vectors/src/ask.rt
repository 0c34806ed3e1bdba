// Asks a table that has been read, and prints the answers' numbers and the octets that they hand back.
use answers::context_answer::ContextNumbers;
use answers::length_answer::LengthNumbers;
use answers::search_answer::SearchNumbers;
use kinds::LinkNumber;
use lent::Table;

fn put_number(n: usize) {
    io::write_all(1, b"\t");
    io::print_decimal(1, n as u64);
}

fn put_octets(number: usize, octets: &[u8]) {
    put_number(number);
    put_number(octets.len());
    io::write_all(1, b"\t");
    io::write_all(1, octets);
    io::write_all(1, b"\n");
}

// Which link has the relation `next`.
fn search(edition: usize, t: &Table) {
    io::write_all(1, b"search");
    let told: SearchNumbers = search::search(edition, t, b"next").into();
    put_number(told.number);
    put_number(told.link);
    io::write_all(1, b"\n");
}

// The context of the first link.
fn context(edition: usize, t: &Table, base: &[u8]) {
    io::write_all(1, b"context");
    let first = LinkNumber::first();
    let answer = context::context_number(edition, t, base, first);
    put_octets(
        ContextNumbers::of(answer, base.len()).number,
        context::context(edition, t, base, first),
    );
}

// The value of the first link's first parameter.
fn value(edition: usize, t: &Table, out: &mut [u8]) {
    io::write_all(1, b"value");
    let told: LengthNumbers = copy::value(edition, t, LinkNumber::first(), 0, out).into();
    let n = told.length;
    put_octets(told.number, &out[..n]);
}

// The table in its written form.
fn written(edition: usize, t: &Table, out: &mut [u8]) {
    io::write_all(1, b"written");
    let told: LengthNumbers = writer::write(edition, t, out).into();
    let n = told.length;
    put_octets(told.number, &out[..n]);
}

// Asks for the relation `next`, for the first link's context, for its first parameter's value in 32 octets, and for the written form
// in 512.
pub fn all(edition: usize, t: &Table) {
    search(edition, t);
    context(edition, t, b"BASE");
    let mut out = [0u8; 32];
    value(edition, t, &mut out);
    let mut form = [0u8; 512];
    written(edition, t, &mut form);
}
