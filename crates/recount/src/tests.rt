// What no feed of a bearable length reaches, the limit of a cell; the mean's rounding; and that lines which differ are seen.
use crate::coefficients::{LIMIT, check_change};
use crate::lines::{Expectation, compare_texts};
use crate::model::nearest;
use crate::refusals::{Fault, LARGE};
use std::test::Fail;
use wire::line::Line;

#[test]
fn a_cell_may_reach_the_limit(rt: HostRuntime) {
    // 2^56, which no feed here reaches: nothing else would see another limit
    assert_eq!(rt; LIMIT, 72_057_594_037_927_936);
    assert_eq!(rt; check_change(&[0], &[LIMIT]), Ok(()));
    assert_eq!(rt; check_change(&[0], &[-LIMIT]), Ok(()));
}

#[test]
fn a_cell_over_the_limit_is_refused(rt: HostRuntime) {
    let refused = Err(Fault::Refused(LARGE));
    assert_eq!(rt; check_change(&[0], &[LIMIT + 1]), refused);
    assert_eq!(rt; check_change(&[0], &[-LIMIT - 1]), refused);
}

#[test]
fn lines_that_differ_are_seen(rt: HostRuntime) -> Result<(), Fail> {
    let begun = Expectation {
        offset: 0,
        line: Line::Begun,
    };
    let added = Expectation {
        offset: 6,
        line: Line::Added { cells: 5 },
    };
    let texts = compare_texts(rt.alloc(), &[begun, added], b"L\nP 6\nG 5\n", 15)?;
    assert_eq!(rt; texts.lines, 3);
    assert_eq!(rt; texts.differ, 2);
    let first = texts.first.ok_or("none")?;
    assert_eq!(rt; first.offset, 6);
    assert_eq!(rt; first.expected.as_str(), "P 5");
    assert_eq!(rt; first.printed.as_str(), "P 6");
    Ok(())
}

#[test]
fn a_line_that_is_missing_is_seen(rt: HostRuntime) -> Result<(), Fail> {
    let begun = Expectation {
        offset: 0,
        line: Line::Begun,
    };
    let texts = compare_texts(rt.alloc(), &[begun], b"", 6)?;
    assert_eq!(rt; texts.differ, 1);
    Ok(())
}

#[test]
fn half_goes_to_the_even_neighbour(rt: HostRuntime) {
    for (sum, minutes, mean) in [
        (3i64, 2u32, 2i64),
        (5, 2, 2),
        (-1, 2, 0),
        (-3, 2, -2),
        (5, 3, 2),
        (4, 3, 1),
        (-4, 3, -1),
        (-5, 3, -2),
        (7, 1, 7),
    ] {
        assert_eq!(rt; nearest(sum, minutes), mean);
    }
}
