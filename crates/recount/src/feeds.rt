// Feeds made up by chance, so mixed that every command comes, and every refusal but 22 (Large): for that, values of 32 bits
// have to sum to more than 2^56, which takes over 2^25 of them, a feed of 168 million bytes.
use crate::draft::Draft;
use std::alloc::AllocError;

// The letters of the commands that have operands, of four bytes at least.
const LONG: [u8; 6] = [b'L', b'V', b'P', b'Q', b'S', b'M'];

// A load's values: any; each twice, so that the differences of neighbours stay zero; or all alike.
#[derive(Clone, Copy)]
enum Values {
    Any,
    Twice,
    Alike,
}

// One value of a load, where `last` is the one before it.
fn value_after(draft: &mut Draft, values: Values, place: u32, last: u32) -> u32 {
    match values {
        Values::Twice if place % 2 == 1 => last,
        Values::Alike if place > 0 => last,
        _ => draft.value(),
    }
}

// As many values of a load.
fn give_values(draft: &mut Draft, values: Values, many: u32) -> Result<(), AllocError> {
    let mut last = 0;
    for place in 0..many {
        last = value_after(draft, values, place, last);
        draft.give(last)?;
    }
    Ok(())
}

fn load_whole(draft: &mut Draft, level: u8, index: u32, values: Values) -> Result<(), AllocError> {
    draft.begin(level, index)?;
    give_values(draft, values, 1 << level.min(12))?;
    draft.byte(b'F')
}

// As many values as a load has, as a rule; now and then one less or more. Where its level is refused, two will do.
fn count_values(draft: &mut Draft, level: u8) -> u32 {
    if level > draft.size {
        return 2;
    }
    let many = 1u32 << level.min(12);
    match draft.chance.below(10) {
        0 => many - 1,
        1 => many + 1,
        _ => many,
    }
}

// A load, as a rule whole and finished; now and then given up, also after a finish, which may be refused; or left open.
fn load(draft: &mut Draft) -> Result<(), AllocError> {
    // at most 13 + 199, which a byte has
    let level = match draft.chance.below(30) {
        0 => 12,
        1 => 13 + draft.chance.below(200) as u8,
        _ => draft.chance.below(7) as u8,
    };
    let index = draft.minute() >> level.min(12);
    draft.begin(level, index)?;
    let many = count_values(draft, level);
    give_values(draft, Values::Any, many)?;
    match draft.chance.below(20) {
        0 => Ok(()),
        1..=3 => draft.byte(b'A'),
        4..=9 => {
            draft.byte(b'F')?;
            draft.byte(b'A')
        }
        _ => draft.byte(b'F'),
    }
}

// One command, or a load.
fn act(draft: &mut Draft) -> Result<(), AllocError> {
    let minute = draft.minute();
    let value = draft.value();
    match draft.chance.below(32) {
        0..=8 => draft.add(minute, value),
        9..=13 => load(draft),
        14..=17 => {
            draft.byte(b'Q')?;
            draft.number(minute)
        }
        18..=22 => draft.range(b'S'),
        23..=26 => draft.range(b'M'),
        27..=28 => draft.grow(),
        29 => draft.give(value),
        30 => draft.byte(b'F'),
        _ => draft.byte(b'A'),
    }
}

// A point among the minutes from 4 to 511.
fn add_low(draft: &mut Draft) -> Result<(), AllocError> {
    let minute = 4 + draft.chance.below(508);
    let value = draft.value();
    draft.add(minute, value)
}

// A load that empties the cell that 7 for minute 0 had filled, and fills another: for that it has to find room.
fn trade(draft: &mut Draft) -> Result<(), AllocError> {
    draft.begin(2, 0)?;
    for value in [0, 7, 1, 0] {
        draft.give(value)?;
    }
    draft.byte(b'F')?;
    draft.byte(b'A')
}

// Three loads at size 11 leave less than a hundred cells of the room. A point in the first of them fills one cell more, as
// a rule, so that the room is used up to the last, and a growth refused too.
fn fill_up(draft: &mut Draft) -> Result<(), AllocError> {
    (0..7).try_for_each(|_| draft.grow())?;
    load_whole(draft, 9, 0, Values::Twice)?;
    load_whole(draft, 9, 1, Values::Any)?;
    load_whole(draft, 7, 8, Values::Any)?;
    draft.add(0, 7)?;
    (0..120).try_for_each(|_| add_low(draft))?;
    trade(draft)?;
    load_whole(draft, 5, 63, Values::Any)?;
    draft.byte(b'G')?;
    draft.byte(b'A')
}

// A growth over the top, and the largest load.
fn grow_up(draft: &mut Draft) -> Result<(), AllocError> {
    (0..9).try_for_each(|_| draft.grow())?;
    load_whole(draft, 12, 0, Values::Alike)
}

// An end as good as any, or an unknown byte with a command after it, or a command that lacks bytes.
fn finish(draft: &mut Draft) -> Result<(), AllocError> {
    match draft.chance.below(8) {
        0 => {
            // at most 64: a byte, and no command's letter
            let unknown = draft.chance.below(65) as u8;
            draft.byte(unknown)?;
            draft.byte(b'G')
        }
        1 => {
            let letter = LONG[draft.chance.below(6) as usize];
            draft.byte(letter)?;
            draft.number(7)?;
            let lacking = 1 + draft.chance.below(4) as usize;
            draft.cut(lacking);
            Ok(())
        }
        _ => Ok(()),
    }
}

// The feed of this number, in place of the one before.
pub(crate) fn draw_feed(draft: &mut Draft, number: u32) -> Result<(), AllocError> {
    draft.clear();
    match number % 50 {
        1 => fill_up(draft)?,
        2 => grow_up(draft)?,
        _ => {}
    }
    let times = draft.chance.below(60);
    (0..times).try_for_each(|_| act(draft))?;
    finish(draft)
}
