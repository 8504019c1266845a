//! What holds of lines and of help: each function states it and does nothing.
ghost use Rattle.shell.specs.Law.{HelpNamesAll, WordsAreRuns, Worked};

/// `help` names each command, in order.
#[tactic(auto, using(crate::proofs::Law::help_names_all))]
pub fn help_names_all()
    ensures { HelpNamesAll }
{}

/// Worked lines.
#[tactic(auto, using(crate::proofs::Law::worked))]
pub fn worked_lines()
    ensures { Worked }
{}

/// A word is a whole run of bytes that are no blanks.
pub fn words_are_runs()
    ensures { WordsAreRuns }
{}
