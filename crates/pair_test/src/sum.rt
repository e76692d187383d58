// What looking keys up both ways comes to, counted.
use header::Refusal;
use index::Walked;
use lookup::Found;
use test_lines::print::{number, say};

// How the two ways answer: found in one place, absent, or neither.
#[derive(Clone, Copy, PartialEq, Eq)]
pub enum Agreement {
    Found,
    Absent,
    Differ,
}

#[derive(Clone, Copy, Default)]
pub struct Sum {
    pub keys: u16,
    pub fit: u16,
    pub found: u16,
    pub absent: u16,
    pub differ: u16,
    pub read: u16,
}

// How the two ways answer together.
pub fn both(walk: Result<Walked, Refusal>, scan: Result<Option<Found>, Refusal>) -> Agreement {
    let (Ok(walked), Ok(scanned)) = (walk, scan) else {
        return Agreement::Differ;
    };
    if walked.found != scanned {
        return Agreement::Differ;
    }
    match scanned {
        Some(_) => Agreement::Found,
        None => Agreement::Absent,
    }
}

// Counts one key. Each number is at most 65,535.
pub fn counted(sum: Sum, fits: bool, reads: u8, how: Agreement) -> Sum {
    let mut s = sum;
    s.keys = s.keys.saturating_add(1);
    s.read = s.read.saturating_add(u16::from(reads));
    if fits {
        s.fit = s.fit.saturating_add(1);
    }
    match how {
        Agreement::Found => s.found = s.found.saturating_add(1),
        Agreement::Absent => s.absent = s.absent.saturating_add(1),
        Agreement::Differ => s.differ = s.differ.saturating_add(1),
    }
    s
}

pub fn show(sum: Sum) {
    say(b" ");
    number(sum.keys);
    say(b" keys ");
    number(sum.fit);
    say(b" fit ");
    number(sum.found);
    say(b" found ");
    number(sum.absent);
    say(b" absent ");
    number(sum.differ);
    say(b" differ ");
    number(sum.read);
    say(b" read");
}
