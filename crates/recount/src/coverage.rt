// Many random feeds recounted, and how often each refusal came in them.
use crate::busiest::Busiest;
use crate::draft::Draft;
use crate::feeds::draw_feed;
use crate::handover::HandOver;
use crate::lines::{Difference, Expectation};
use crate::recounting::{Recounted, recount};
use compare::comparison::Comparison;
use std::alloc::Global;
use wire::line::Line;

const SEED: u64 = 0x9e37_79b9_7f4a_7c15;

#[derive(Drop)]
pub(crate) struct Coverage {
    pub(crate) lines: u64,
    pub(crate) differ: u64,
    // with the number of its feed
    pub(crate) first: Option<(u32, Difference)>,
    // feeds after which the two warehouses share every cell, and nothing was refused in the flat store
    pub(crate) alike: u64,
    // feeds after which audits accept both stores, which share every cell when they go on
    pub(crate) handed_over: u64,
    // those in which there was room for one more load
    pub(crate) loaded: u64,
    // busiest minutes asked for, those answered otherwise than plain minutes say, and feeds after which the indexed warehouses are alike
    pub(crate) busiest: u64,
    pub(crate) busiest_differ: u64,
    pub(crate) indexed_alike: u64,
    // by the refusal's number
    refusals: [u64; 32],
}

impl Coverage {
    fn new() -> Coverage {
        Coverage {
            lines: 0,
            differ: 0,
            first: None,
            alike: 0,
            handed_over: 0,
            loaded: 0,
            busiest: 0,
            busiest_differ: 0,
            indexed_alike: 0,
            refusals: [0; 32],
        }
    }

    // How often a refusal came.
    pub(crate) fn of(&self, number: u8) -> u64 {
        self.refusals.get(usize::from(number)).copied().unwrap_or(0)
    }

    fn note_refusal(&mut self, number: u8) {
        if let Some(count) = self.refusals.get_mut(usize::from(number)) {
            *count = count.saturating_add(1);
        }
    }

    fn note_lines(&mut self, expected: &[Expectation]) {
        for expectation in expected {
            if let Line::Refused { number, .. } = expectation.line {
                self.note_refusal(number);
            }
        }
    }

    fn note_hand_over(&mut self, handed_over: HandOver) {
        if handed_over.found == Comparison::Alike {
            self.handed_over = self.handed_over.saturating_add(1);
            self.loaded = self.loaded.saturating_add(u64::from(handed_over.loaded));
        }
    }

    fn note_busiest(&mut self, busiest: &Busiest) {
        self.busiest = self.busiest.saturating_add(busiest.asked);
        self.busiest_differ = self.busiest_differ.saturating_add(busiest.differ);
        self.indexed_alike = self
            .indexed_alike
            .saturating_add(u64::from(busiest.is_alike()));
    }

    fn note(&mut self, feed: u32, recounted: Recounted) {
        self.note_lines(&recounted.expected);
        self.note_busiest(&recounted.busiest);
        let Recounted { texts, twice, .. } = recounted;
        self.lines = self.lines.saturating_add(texts.lines);
        self.differ = self.differ.saturating_add(texts.differ);
        if self.first.is_none() {
            self.first = texts.first.map(|first| (feed, first));
        }
        if twice.found == Comparison::Alike && twice.refused == 0 {
            self.alike = self.alike.saturating_add(1);
        }
        if let Some(handed_over) = twice.handed_over {
            self.note_hand_over(handed_over);
        }
    }
}

// So many random feeds.
pub(crate) fn cover(heap: Global, feeds: u32) -> anyhow::Result<Coverage> {
    let mut coverage = Coverage::new();
    let mut draft = Draft::new(heap, SEED);
    for number in 0..feeds {
        draw_feed(&mut draft, number)?;
        coverage.note(number, recount(heap, &draft.bytes)?);
    }
    Ok(coverage)
}
