//! A thousand edge files that look random, the same in each run, against readings that are found in the plainest way.
//! They are frames with their times around the nominal ones, frames with some of their times at the borders of the
//! windows and with pulses in their slots, and edges without any order. Times are microseconds.
use crate::monitors::is_read;
use crate::plain_readings::lines_of;
use line_frames::Ending;
use line_wave::Edge;
use std::alloc::Global;
use std::process::Abort;

const FILES: u64 = 1000;

// One file in this many has a frame of sixteen blocks none of which is the last.
const FILES_FOR_A_LONG_FRAME: u64 = 25;

const FIRST_STATE: u64 = 14;

// Nominal times, and how far from them a time may be that is not at a border.
const START_LOW: u64 = 3700;

const START_PERIOD: u64 = 4500;

const ONE_LOW: u64 = 600;

const ZERO_LOW: u64 = 1500;

const SLOT_PERIOD: u64 = 2400;

const JITTER: u64 = 100;

// Times at the borders of the windows, and one beside them.
const START_LOW_BORDERS: &[u64] = &[3499, 3500, 3900, 3901];

const START_PERIOD_BORDERS: &[u64] = &[4299, 4300, 4700, 4701];

const SLOT_LOW_BORDERS: &[u64] = &[1, 1049, 1050, 1051, 2900];

const SLOT_PERIOD_BORDERS: &[u64] = &[1051, 2049, 2050, 2750, 2751];

const ANY_GAPS: &[u64] = &[
    1, 2, 599, 600, 1049, 1050, 1051, 1500, 2049, 2050, 2400, 2750, 2751, 3499, 3500, 3700, 3900,
    3901, 4701,
];

// Numbers that look random: a linear congruential generator.
#[derive(Drop)]
struct Dice {
    state: u64,
}

impl Dice {
    // A number below the limit.
    fn below(&mut self, limit: u64) -> u64 {
        self.state = self
            .state
            .wrapping_mul(6_364_136_223_846_793_005)
            .wrapping_add(1_442_695_040_888_963_407);
        (self.state >> 33).checked_rem(limit).unwrap_or(0)
    }

    fn one_in(&mut self, count: u64) -> bool {
        self.below(count) == 0
    }

    fn one_of(&mut self, times: &[u64]) -> u64 {
        let place = self.below(times.len() as u64) as usize;
        times.get(place).copied().unwrap_or(1)
    }

    // A time near the nominal one, or one time in so many at a border.
    fn time(&mut self, nominal: u64, borders: &[u64], rarity: u64) -> u64 {
        if self.one_in(rarity) {
            self.one_of(borders)
        } else {
            nominal
                .saturating_sub(JITTER)
                .saturating_add(self.below(2 * JITTER + 1))
        }
    }
}

// The edges of a file so far, the level of the line after them, and the instant of the next one.
#[derive(Drop)]
struct Drawing {
    edges: Vec<Edge>,
    at: u64,
    is_low: bool,
}

impl Drawing {
    fn new(alloc: Global, at: u64) -> Self {
        Drawing {
            edges: Vec::new(alloc),
            at,
            is_low: false,
        }
    }

    // The line turns, and stays so for this time. A file that finds no memory lacks edges, and is then at fault.
    fn turn(&mut self, time: u64) {
        self.is_low = !self.is_low;
        let _ = self.edges.push(Edge {
            at: self.at,
            low: self.is_low,
        });
        self.at = self.at.saturating_add(time.max(1));
    }

    // The line falls, and falls again after the period.
    fn slot(&mut self, low: u64, period: u64) {
        self.turn(low);
        self.turn(period.saturating_sub(low));
    }

    // A slot with one more fall in it.
    fn broken_slot(&mut self, dice: &mut Dice, low: u64, period: u64) {
        let high = dice.below(period);
        let pulse = dice.below(700);
        self.turn(low);
        self.turn(high);
        self.slot(pulse, period.saturating_sub(high));
    }

    // A slot: a time in `rarity` is at a border, and a slot in `rarity` has a pulse in it.
    fn any_slot(&mut self, dice: &mut Dice, bit: bool, rarity: u64) {
        let nominal = if bit { ONE_LOW } else { ZERO_LOW };
        let low = dice.time(nominal, SLOT_LOW_BORDERS, rarity);
        let period = dice.time(SLOT_PERIOD, SLOT_PERIOD_BORDERS, rarity);
        if dice.one_in(rarity) {
            self.broken_slot(dice, low, period);
        } else {
            self.slot(low, period);
        }
    }

    fn block(&mut self, dice: &mut Dice, is_last: bool, rarity: u64) {
        for place in 1..=10 {
            let bit = if place == 9 { is_last } else { dice.one_in(2) };
            self.any_slot(dice, bit, rarity);
        }
    }

    // A frame: of sixteen blocks none is the last.
    fn frame(&mut self, dice: &mut Dice, blocks: u64, rarity: u64) {
        if self.is_low {
            self.turn(ONE_LOW);
        }
        let low = dice.time(START_LOW, START_LOW_BORDERS, rarity);
        let period = dice.time(START_PERIOD, START_PERIOD_BORDERS, rarity);
        self.slot(low, period);
        for block in 1..=blocks {
            self.block(dice, block == blocks && blocks < 16, rarity);
        }
        self.at = self.at.saturating_add(dice.below(5000));
    }

    fn any_edges(&mut self, dice: &mut Dice) {
        for _ in 0..dice.below(60) {
            let gap = dice.one_of(ANY_GAPS);
            self.turn(gap);
        }
    }

    // Edges without order, a frame near its nominal times, or one with times at the borders.
    fn any_part(&mut self, dice: &mut Dice) {
        match dice.below(4) {
            0 => self.any_edges(dice),
            1 => {
                let blocks = dice.below(4).saturating_add(1);
                self.frame(dice, blocks, 1_000_000);
            }
            _ => {
                let blocks = dice.below(3).saturating_add(1);
                let rarity = dice.below(30).saturating_add(6);
                self.frame(dice, blocks, rarity);
            }
        }
    }

    // The end of the file. Every other file stops at one of its edges, which may be in the middle of a reading.
    fn end(&mut self, dice: &mut Dice) -> u64 {
        if dice.one_in(2) {
            let count = dice.below(self.edges.len() as u64) as usize;
            self.edges.truncate(count);
        }
        let last = match self.edges.last() {
            None => 0,
            Some(edge) => edge.at,
        };
        last.saturating_add(dice.below(4000))
    }
}

// The edges of the file of this number, and its end.
fn drawn(alloc: Global, number: u64) -> (Vec<Edge>, u64) {
    let mut dice = Dice {
        state: FIRST_STATE.saturating_add(number),
    };
    let at = dice.below(3);
    let mut drawing = Drawing::new(alloc, at);
    if number % FILES_FOR_A_LONG_FRAME == 0 {
        drawing.frame(&mut dice, 16, 1_000_000);
    }
    for _ in 0..dice.below(5) {
        drawing.any_part(&mut dice);
    }
    let end = drawing.end(&mut dice);
    (drawing.edges, end)
}

fn put_line(text: &mut Vec<u8>, alloc: Global, at: u64, word: &str) {
    if let Ok(line) = format!(in alloc; "{at} {word}\n") {
        let _ = text.extend_from_slice(line.as_bytes());
    }
}

// The text of the file.
fn text_of(alloc: Global, edges: &[Edge], end: u64) -> Vec<u8> {
    let mut text = Vec::new(alloc);
    for edge in edges {
        put_line(&mut text, alloc, edge.at, if edge.low { "0" } else { "1" });
    }
    put_line(&mut text, alloc, end, "end");
    text
}

// The file of this number is read as it is in the plainest way. The endings of its readings are kept.
fn check_file(rt: &impl Abort, alloc: Global, number: u64, endings: &mut Vec<Ending>) {
    let (edges, end) = drawn(alloc, number);
    let wanted = lines_of(alloc, &edges, end, endings);
    let text = text_of(alloc, &edges, end);
    assert!(rt;
        is_read(alloc, text.as_slice(), wanted.as_slice()),
        "file {number}"
    );
}

fn count_of(endings: &[Ending], wanted: Ending) -> usize {
    let mut count = 0_usize;
    for ending in endings {
        if *ending == wanted {
            count = count.saturating_add(1);
        }
    }
    count
}

// How many readings end so, at least.
const LEAST_COUNTS: &[(Ending, usize)] = &[
    (Ending::Complete, 200),
    (Ending::Short, 200),
    (Ending::Silent, 200),
    (Ending::BadStart, 200),
    (Ending::Open, 200),
    (Ending::Long, 10),
];

// Enough readings end so.
fn check_count(rt: &impl Abort, endings: &[Ending], ending: Ending, least: usize) {
    assert!(rt; count_of(endings, ending) >= least, "{ending:?}");
}

#[test]
fn random_files(rt: HostRuntime) {
    let alloc = rt.alloc();
    let mut endings = Vec::new(alloc);
    for number in 0..FILES {
        check_file(&rt, alloc, number, &mut endings);
    }
    for (ending, least) in LEAST_COUNTS {
        check_count(&rt, &endings, *ending, *least);
    }
}
