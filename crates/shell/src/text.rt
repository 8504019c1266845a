//! Answers as lines.
ghost use Rattle.std.specs.Prelude.{Some, string_bytes};
ghost use Rattle.shell.specs.Answers.{answer_lines, trend_words, ended, byte_words, store_words, help_words, compared_words, yes_no, Appends};

use crate::amount::amount_text;
use crate::answer::Answer;
use crate::help::HELP;
use compare::comparison::Comparison;
use haar::trend::Trend;
use std::alloc::{AllocError, Global};
use std::fmt;
use std::fmt::Write;

// What `compare` found.
#[derive(Clone, Copy)]
struct Compared(Comparison);

impl fmt::Display for Compared {
    ghost output = { λ compared. Some (compared_words compared.0) };

    fn fmt<W: fmt::Write>(&self, f: &mut fmt::Formatter<W>) -> fmt::Result {
        match self.0 {
            Comparison::Alike => write!(f, "alike"),
            Comparison::Differ(cell) => write!(f, "differ {cell}"),
            Comparison::Bands => write!(f, "bands"),
        }
    }
}

// A test's answer.
#[derive(Clone, Copy)]
struct YesNo(bool);

impl fmt::Display for YesNo {
    ghost output = { λ answer. Some (yes_no answer.0) };

    fn fmt<W: fmt::Write>(&self, f: &mut fmt::Formatter<W>) -> fmt::Result {
        if self.0 {
            write!(f, "yes")
        } else {
            write!(f, "no")
        }
    }
}

fn push_trend(text: &mut String, trend: Trend, heap: Global) -> Result<(), AllocError>
    ensures { Appends (ended (trend_words trend)) result (string_bytes text.old) (string_bytes text.new) }
{
    match trend {
        Trend::Falling(amount) => writeln!(text, "falling {}", amount_text(amount, heap)?),
        Trend::Rising(amount) => writeln!(text, "rising {}", amount_text(amount, heap)?),
        Trend::Level => writeln!(text, "level"),
        Trend::Unfinished => writeln!(text, "unfinished"),
    }
}

#[tactic(auto, using(std::proofs::lemmas::Fmt::hex_byte))]
fn push_byte(text: &mut String, byte: Option<u8>) -> Result<(), AllocError>
    ensures { Appends (ended (byte_words byte)) result (string_bytes text.old) (string_bytes text.new) }
{
    match byte {
        Some(byte) => writeln!(text, "{byte:02x}"),
        None => writeln!(text, "none"),
    }
}

fn push_store(text: &mut String, bands: u8, free: u32, clean: bool) -> Result<(), AllocError>
    ensures { Appends (ended (store_words bands free clean)) result (string_bytes text.old) (string_bytes text.new) }
{
    writeln!(text, "bands {bands} free {free} clean {}", YesNo(clean))
}

#[tactic(auto, unfolding(crate::specs::Answers::help_words))]
fn push_help(text: &mut String) -> Result<(), AllocError>
    ensures { Appends (ended help_words) result (string_bytes text.old) (string_bytes text.new) }
{
    writeln!(text, "{HELP}")
}

/// Puts the lines of an answer, each with its newline, at the end of a text.
/// After an Err, for want of memory, the text is open.
pub fn push_answer(text: &mut String, answer: Answer, heap: Global) -> Result<(), AllocError>
    ensures { Appends (answer_lines answer) result (string_bytes text.old) (string_bytes text.new) }
{
    match answer {
        Answer::Done => writeln!(text, "ok"),
        Answer::Number(n) => writeln!(text, "{n}"),
        Answer::Reading(reading) => writeln!(text, "{} {}", reading.value, reading.cells),
        Answer::Trend(trend) => push_trend(text, trend, heap),
        Answer::Fit => writeln!(text, "fit"),
        Answer::Size(size) => writeln!(text, "size {size}"),
        Answer::Store { bands, free, clean } => push_store(text, bands, free, clean),
        Answer::Cell { cell, value } => writeln!(text, "{cell} {value}"),
        Answer::Cells(count) => writeln!(text, "{count} cells"),
        Answer::Compared(found) => writeln!(text, "{}", Compared(found)),
        Answer::Audited(is) => writeln!(text, "{}", YesNo(is)),
        Answer::Taken(count) => writeln!(text, "taken {count}"),
        Answer::Welcome(polls) => writeln!(text, "welcome {polls}"),
        Answer::Ready => writeln!(text, "ready"),
        Answer::Feeding => writeln!(text, "feeding"),
        Answer::Byte(byte) => push_byte(text, byte),
        Answer::Refused(refused) => writeln!(text, "E {} {refused}", refused.number()),
        Answer::Wrong(wrong) => writeln!(text, "? {wrong}"),
        Answer::Help => push_help(text),
    }
}
