// A feed run through the call that gymfeed makes, compared with what plain minutes say of it.
use crate::busiest::{Busiest, play_indexed};
use crate::expected::{Expected, expect};
use crate::lines::{Expectation, Texts, compare_texts};
use crate::twice::{Twice, play_twice};
use console::memory::{Bytes, Page};
use console::running::run;
use holdback::held::HoldBack;
use std::alloc::Global;
use store::sparse::Sparse;

// The values of the largest load.
const VALUES: usize = 4096;

#[derive(Drop)]
pub(crate) struct Recounted {
    pub(crate) expected: Vec<Expectation>,
    pub(crate) texts: Texts,
    pub(crate) twice: Twice,
    pub(crate) busiest: Busiest,
}

// What gymfeed prints of the feed.
fn printed(heap: Global, buffer: &mut [i64], feed: &[u8]) -> anyhow::Result<Page> {
    let mut source = Bytes::new(feed);
    let mut page = Page::new(heap);
    let store = HoldBack::new(Sparse::new(3, 1024));
    let (_, answer) = run(store, 4, buffer, &mut source, &mut page);
    answer?;
    Ok(page)
}

pub(crate) fn recount(heap: Global, feed: &[u8]) -> anyhow::Result<Recounted> {
    let mut buffer = vec![in heap; 0i64; VALUES]?;
    let page = printed(heap, &mut buffer, feed)?;
    let Expected { lines, deeds } = expect(heap, feed)?;
    Ok(Recounted {
        texts: compare_texts(heap, &lines, page.bytes(), feed.len() as u64)?,
        twice: play_twice(heap, &mut buffer, feed, &deeds)?,
        busiest: play_indexed(heap, &deeds)?,
        expected: lines,
    })
}
