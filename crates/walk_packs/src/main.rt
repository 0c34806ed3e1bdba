// walk_packs FILE START STEPS: walks through the packs of the catalogue in a file, and prints the line that tells the walk. What it tells is
// that of the crate `walk_listing`; here the file and the words are read, and the line is printed.
#![tactic(auto)]

ghost use Rattle.io.specs.Counts.{IsPrefixLen as Within};

use std::env::Env;
use std::fs::File;
use std::io::Read;
use std::os::fd::AsRawFd;
use std::str;
use walk_listing::tell_walk;

const STDOUT: i32 = 1;

// Room for the longest catalogue, and one octet more, which tells that there is too much.
const TEXT: usize = catalogue_check::CATALOGUE + 1;

// Room for a sign before the digits.
const STEPS: usize = walk_words::STEPS_DIGITS + 1;

// Room for 256 links and 1,024 parameters.
const LINKS: usize = 256 * records::LINK_SLOTS;

const PARAMS: usize = 1024 * records::PARAM_SLOTS;

// Room for a line with the longest URI.
const LINE: usize = TEXT + walk_lines::BESIDE_URI;

// Puts an argument at the start of the buffer, and answers its length. One that is missing is empty, and so is one that doesn't fit.
fn read_word<R: Env>(rt: &R, i: usize, room: &mut [u8]) -> usize
    ensures { Within result room.new }
{
    rt.arg(i, room).unwrap_or(0)
}

// Puts the word for the steps at the start of the buffer, and answers its length. Unless there are three arguments, the word is empty, and
// so is one that doesn't fit.
fn read_steps<R: Env>(rt: &R, room: &mut [u8]) -> usize
    ensures { Within result room.new }
{
    arguments::read_last(rt, 3, room).unwrap_or(0)
}

// Whether nothing is left to read. A read that fails has something left.
fn is_at_end(file: &mut File) -> bool {
    let mut one = [0u8; 1];
    matches!(file.read(&mut one), Ok(0))
}

fn print_unread() {
    io::write_all(STDOUT, b"unread\n");
}

// Reads the file and the words, and prints the walk's line.
fn print_walk<R: Env>(rt: &R, file: &mut File) {
    let mut text = [0u8; TEXT];
    let n = io::read_full(file.as_raw_fd(), &mut text);
    if n < TEXT && !is_at_end(file) {
        print_unread();
        return;
    }
    let mut start = [0u8; walk_words::START_DIGITS];
    let i = read_word(rt, 2, &mut start);
    let mut steps = [0u8; STEPS];
    let k = read_steps(rt, &mut steps);
    let mut links = [0usize; LINKS];
    let mut params = [0usize; PARAMS];
    let mut work = [0u8; answers::LIMIT];
    let mut line = [0u8; LINE];
    let m = tell_walk(
        &text[..n],
        &start[..i],
        &steps[..k],
        &mut links,
        &mut params,
        &mut work,
        &mut line,
    );
    io::write_all(STDOUT, &line[..m]);
}

fn main(rt: HostRuntime) {
    let mut path = io::buffer();
    let n = read_word(&rt, 1, &mut path);
    let Ok(name) = str::from_utf8(&path[..n]) else {
        print_unread();
        return;
    };
    match File::open(&rt, name) {
        Ok(mut file) => print_walk(&rt, &mut file),
        Err(_) => print_unread(),
    }
}
