// Lines that are well formed, with small numbers, so that calls often succeed.
use crate::random::Drawing;
use chance::Random;
use std::alloc::{AllocError, Global};

// The letters of lines, those that come more often more than once.
const LETTERS: &str = "TAABBGGGGKPPPPPPPCCCLLLSSSSSSSSWQQQXXXXXMM";

const ADDRESSES: [&str; 10] = [
    "10.0.0.5",
    "10.1.0.1",
    "10.1.2.3",
    "10.2.0.9",
    "10.128.0.0",
    "11.0.0.9",
    "11.7.0.1",
    "12.0.0.1",
    "0.0.0.0",
    "255.255.255.255",
];

const PREFIXES: [&str; 14] = [
    "10.0.0.0/8",
    "10.0.0.0/9",
    "10.128.0.0/9",
    "10.1.0.0/16",
    "10.2.0.0/16",
    "10.1.2.0/24",
    "10.1.2.3/32",
    "11.0.0.0/8",
    "11.0.0.9/32",
    "12.0.0.0/7",
    "0.0.0.0/0",
    "0.0.0.0/1",
    "128.0.0.0/1",
    "10.0.0.0/15",
];

const PORTS: [&str; 7] = [
    "0-65535",
    "0-65535",
    "25-25",
    "80-443",
    "0-24",
    "25-65535",
    "00080-0081",
];

const PROTOCOLS: [&str; 4] = ["0-255", "6-6", "17-17", "7-255"];

const SETS: [&str; 6] = [
    "ffffffff", "00000001", "00000002", "00000007", "fffffffe", "ffff0000",
];

const VALUES: [&str; 6] = ["0", "25", "80", "443", "6", "17"];

const DECISIONS: [&str; 2] = ["a", "d"];

// Domains and firewalls; interfaces; blocks, positions and properties.
const NODES: usize = 5;

const INTERFACES: usize = 4;

const ROWS: usize = 8;

fn number(random: &mut Random, most: usize) -> usize {
    if random.once_in(40) {
        return random.below(70_000);
    }
    random.below(most)
}

// A prefix, mostly one that is meant for the domain.
fn place(heap: Global, random: &mut Random, domain: usize) -> Result<String, AllocError> {
    match random.below(4) {
        0 => String::from_str(heap, random.text(&PREFIXES)),
        _ if domain == 0 => String::from_str(heap, "11.0.0.0/8"),
        _ => format!(in heap; "10.{domain}.0.0/16"),
    }
}

// Source, destination, ports and protocols.
fn regions(
    heap: Global,
    random: &mut Random,
    from: usize,
    to: usize,
) -> Result<String, AllocError> {
    let source = place(heap, random, from)?;
    let destination = place(heap, random, to)?;
    let first = random.text(&PORTS);
    let second = random.text(&PORTS);
    let protocols = random.text(&PROTOCOLS);
    format!(in heap; "{source},{destination},{first},{second},{protocols}")
}

fn attach(heap: Global, random: &mut Random) -> Result<String, AllocError> {
    let domain = number(random, NODES);
    let upper = number(random, INTERFACES);
    let lower = number(random, INTERFACES);
    let decision = random.text(&DECISIONS);
    format!(in heap; "{domain},{upper},{lower},{decision}")
}

// Two numbers: of a branch, or of a rule that is lifted.
fn pair(heap: Global, random: &mut Random, most: usize) -> Result<String, AllocError> {
    let firewall = number(random, NODES);
    let second = number(random, most);
    format!(in heap; "{firewall},{second}")
}

fn give(heap: Global, random: &mut Random) -> Result<String, AllocError> {
    let domain = number(random, NODES);
    let prefix = place(heap, random, domain)?;
    format!(in heap; "{domain},{prefix}")
}

fn rule(heap: Global, random: &mut Random) -> Result<String, AllocError> {
    let firewall = number(random, NODES);
    let position = number(random, ROWS);
    let decision = random.text(&DECISIONS);
    let set = random.text(&SETS);
    let from = random.below(NODES);
    let to = random.below(NODES);
    let regions = regions(heap, random, from, to)?;
    format!(in heap; "{firewall},{position},{decision},{set},{regions}")
}

fn property(heap: Global, random: &mut Random) -> Result<String, AllocError> {
    let decision = random.text(&DECISIONS);
    let from = number(random, NODES);
    let to = number(random, NODES);
    let regions = regions(heap, random, from, to)?;
    format!(in heap; "{decision},{from},{to},{regions}")
}

fn packet(heap: Global, random: &mut Random) -> Result<String, AllocError> {
    let source = random.text(&ADDRESSES);
    let destination = random.text(&ADDRESSES);
    let from = random.text(&VALUES);
    let to = random.text(&VALUES);
    let protocol = random.text(&VALUES);
    format!(in heap; "{source},{destination},{from},{to},{protocol}")
}

fn row(heap: Global, random: &mut Random, most: usize) -> Result<String, AllocError> {
    let row = number(random, most);
    format!(in heap; "{row}")
}

// The fields behind the letter.
fn fields(heap: Global, random: &mut Random, letter: char) -> Result<String, AllocError> {
    match letter {
        'T' => String::from_str(heap, "1"),
        'A' => attach(heap, random),
        'B' => pair(heap, random, 2 * INTERFACES),
        'G' => give(heap, random),
        'P' | 'C' => rule(heap, random),
        'L' => pair(heap, random, ROWS),
        'S' | 'Q' => property(heap, random),
        'X' => packet(heap, random),
        'M' => row(heap, random, 10 * ROWS),
        _ => row(heap, random, ROWS),
    }
}

// A line that is right.
pub(crate) fn well_formed(heap: Global, random: &mut Random) -> Result<String, AllocError> {
    let at = random.below(LETTERS.len());
    let letter = LETTERS.chars().nth(at).unwrap_or('T');
    let fields = fields(heap, random, letter)?;
    format!(in heap; "{letter},{fields}")
}
