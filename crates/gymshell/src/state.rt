// The state of the shell: two places for piles, and the warehouse that may stand on them.
use crate::asking::{ask, change, refused};
use crate::piles::describe;
use crate::slot::Slot;
use crate::standing::{Standing, survey_piles};
use audit::audit::audit;
use compare::comparing::compare;
use pile::laying::Lays;
use pile::piles::Pile;
use shell::answer::{Answer, Refused};
use shell::command::Command;
use shell::wrong::Why;
use std::alloc::AllocError;
use store::interface::Store;

// Of which pile the commands of a pile speak.
#[derive(Clone, Copy, PartialEq, Eq)]
enum Place {
    First,
    Second,
}

#[derive(Drop)]
pub(crate) struct State<L: Lays> {
    first: Slot<L>,
    second: Slot<L>,
    place: Place,
    // while it stands, the piles that it stands on are not in their places
    standing: Option<Standing<Pile<L::Bottom>>>,
    // for the values of a load
    buffer: Vec<i64>,
}

impl<L: Lays> State<L> {
    // No pile yet; the commands speak of the first.
    pub(crate) fn new(first: L, second: L, buffer: Vec<i64>) -> State<L> {
        State {
            first: Slot::new(first),
            second: Slot::new(second),
            place: Place::First,
            standing: None,
            buffer,
        }
    }

    // The pile of which commands speak, also while a warehouse stands on it.
    pub(crate) fn pile(&self) -> Option<&Pile<L::Bottom>> {
        match (&self.standing, self.place) {
            (None, Place::First) => self.first.store(),
            (None, Place::Second) => self.second.store(),
            (Some(standing), Place::First) => Some(&standing.plain().store),
            (Some(standing), Place::Second) => standing.second(),
        }
    }

    fn lay_flat(&mut self, bands: u8) -> Answer {
        match self.place {
            Place::First => self.first.lay_flat(bands),
            Place::Second => self.second.lay_flat(bands),
        }
        Answer::Done
    }

    // An empty sparse store, in place of the pile that was there; an Err is want of memory.
    pub(crate) fn lay_sparse(
        &mut self,
        bands: u8,
        capacity: u16,
    ) -> Result<Result<Answer, Why>, AllocError> {
        if self.standing.is_some() {
            return Ok(Err(Why::Standing));
        }
        match self.place {
            Place::First => self.first.lay_sparse(bands, capacity)?,
            Place::Second => self.second.lay_sparse(bands, capacity)?,
        }
        Ok(Ok(Answer::Done))
    }

    fn layer(&mut self) -> Result<Answer, Why> {
        match self.place {
            Place::First => self.first.layer(),
            Place::Second => self.second.layer(),
        }?;
        Ok(Answer::Done)
    }

    fn write(&mut self, cell: u32, value: i64) -> Result<Answer, Why> {
        let pile = match self.place {
            Place::First => &mut self.first.pile,
            Place::Second => &mut self.second.pile,
        };
        let Some(pile) = pile else {
            return Err(Why::NoPile);
        };
        Ok(match pile.store.write(cell, value) {
            Ok(()) => Answer::Done,
            Err(fault) => Answer::Refused(Refused::Cell(fault)),
        })
    }

    fn turn_to(&mut self, place: Place) -> Answer {
        self.place = place;
        Answer::Done
    }

    fn compare(&self) -> Result<Answer, Why> {
        let Some(first) = &self.first.pile else {
            return Err(Why::NoPile);
        };
        let Some(second) = &self.second.pile else {
            return Err(Why::NoSecond);
        };
        Ok(Answer::Compared(compare(first, second)))
    }

    fn survey(&self, size: u8) -> Result<Answer, Why> {
        let first = self.first.store().ok_or(Why::NoPile)?;
        Ok(match survey_piles(first, self.second.store(), size) {
            Ok(()) => Answer::Fit,
            Err(refusal) => refused(refusal),
        })
    }

    fn take(&mut self, size: u8, mark: u32) -> Result<Answer, Why> {
        let first = self.first.give().ok_or(Why::NoPile)?;
        let standing = Standing::take_over(first, self.second.give(), size, mark);
        let size = standing.plain().size();
        self.standing = Some(standing);
        Ok(Answer::Size(size))
    }

    fn found(&mut self, size: u8) -> Result<Answer, Why> {
        match self.survey(size)? {
            Answer::Fit => self.take(size, 0),
            refusal => Ok(refusal),
        }
    }

    fn audit(&self, size: u8) -> Result<Answer, Why> {
        let pile = self.pile().ok_or(Why::NoPile)?;
        Ok(audit(pile, size).map_or_else(refused, Answer::Audited))
    }

    fn close(&mut self) -> Result<Answer, Why> {
        let standing = self.standing.take().ok_or(Why::NoWarehouse)?;
        let (first, second) = standing.close();
        self.first.keep(first);
        if let Some(second) = second {
            self.second.keep(second);
        }
        Ok(Answer::Done)
    }

    // What looks at the pile: always allowed.
    fn look(&self, command: &Command) -> Option<Result<Answer, Why>> {
        let pile = self.pile().ok_or(Why::NoPile);
        Some(match command {
            Command::Read { cell } => pile.map(|pile| match pile.read(*cell) {
                Ok(number) => Answer::Number(number),
                Err(fault) => Answer::Refused(Refused::Cell(fault)),
            }),
            Command::Store => pile.map(describe),
            _ => return None,
        })
    }

    // What makes, changes or compares piles, or takes them for a warehouse: while none stands.
    fn prepare(&mut self, command: &Command) -> Option<Result<Answer, Why>> {
        let standing = self.standing.is_some();
        Some(match command {
            Command::Flat { .. }
            | Command::Layer
            | Command::Write { .. }
            | Command::First
            | Command::Second
            | Command::Compare
            | Command::Survey { .. }
            | Command::Found { .. }
            | Command::Take { .. }
            | Command::Audit { .. }
                if standing => { Err(Why::Standing) }
            Command::Flat { bands } => Ok(self.lay_flat(*bands)),
            Command::Layer => self.layer(),
            Command::Write { cell, value } => self.write(*cell, *value),
            Command::First => Ok(self.turn_to(Place::First)),
            Command::Second => Ok(self.turn_to(Place::Second)),
            Command::Compare => self.compare(),
            Command::Survey { size } => self.survey(*size),
            Command::Found { size } => self.found(*size),
            Command::Take { size, mark } => self.take(*size, *mark),
            Command::Audit { size } => self.audit(*size),
            _ => return None,
        })
    }

    // What is asked of a warehouse that stands, or changes it.
    fn on_warehouse(&mut self, command: &Command) -> Option<Result<Answer, Why>> {
        if let Command::Close = command {
            return Some(self.close());
        }
        let Some(standing) = &mut self.standing else {
            return Some(Err(Why::NoWarehouse));
        };
        match change(standing, &mut self.buffer, command) {
            Some(answer) => Some(Ok(answer)),
            None => ask(standing, command),
        }
    }

    // What a command of the piles or the warehouse answers, or why it is not allowed now.
    pub(crate) fn answer(&mut self, command: &Command) -> Result<Answer, Why> {
        if let Command::Help = command {
            return Ok(Answer::Help);
        }
        if let Some(answer) = self.look(command) {
            return answer;
        }
        if let Some(answer) = self.prepare(command) {
            return answer;
        }
        self.on_warehouse(command).unwrap_or(Err(Why::Name))
    }
}
