// What a step of the feed leaves and answers.
use crate::fault::FeedFault;
use loads::open::OpenLoad;
use wire::line::Line;

// A command's line, if it prints one, or why it is refused.
pub type Reply = Result<Option<Line>, FeedFault>;

pub struct Stepped {
    // the load that is then open
    pub loading: Option<OpenLoad>,
    pub reply: Reply,
    // how many bytes the command has; none where the feed ends
    pub width: Option<usize>,
}
