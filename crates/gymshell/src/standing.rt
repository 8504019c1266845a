// A warehouse that stands on one pile, or an indexed one that stands on two.
ghost use Rattle.std.specs.Prelude.{◌≡◌, ◌^◌, min};
ghost use Rattle.store.specs.Meaning.{Settles};
ghost use Rattle.loads.specs.Addition.{AddsPoint};
ghost use Rattle.loads.specs.Growing.{Growth};
ghost use Rattle.loads.specs.Opening.{Finishes};
ghost use Rattle.agreement.specs.Call.{load, add, grow, settle, settled};
ghost use Rattle.agreement.specs.Reply.{finish_reply, written_reply, growth_reply};
ghost use Rattle.warehouse.specs.Founding.{cut};
ghost use Rattle.gymshell.specs.Standing.{Does, IsClosed, busiest_of, plain_of, second_of};

use indexed::founding as twofold;
use indexed::indexed::Indexed;
use loads::growth::grow;
use loads::loading::begin;
use loads::open::{OpenLoad, RefusedLoad};
use loads::point::add_point;
use store::interface::Store;
use warehouse::fault::Refusal;
use warehouse::founding::survey;
use warehouse::reading::Reading;
use warehouse::record::Warehouse;

#[derive(Drop)]
pub(crate) enum Standing<S: Store> {
    Plain(Warehouse<S>),
    Indexed(Indexed<S, S>),
}

// Whether a warehouse of this size can be founded on the first pile, or an indexed one on both.
pub(crate) fn survey_piles<S: Store>(
    first: &S,
    second: Option<&S>,
    size: u8,
) -> Result<(), Refusal> {
    match second {
        None => survey(first, size),
        Some(second) => twofold::survey(first, second, size),
    }
}

impl<S: Store> Standing<S> {
    // On the first pile, or on both, whatever they hold.
    pub(crate) fn take_over(first: S, second: Option<S>, size: u8, mark: u32) -> Standing<S>
        ensures first { (plain_of result).store ≡ first }
        ensures second { second_of result ≡ second }
        ensures size { (plain_of result).asked ≡ cut (S.means first) size }
        ensures mark { (plain_of result).mark ≡ min mark (2 ^ cut (S.means first) size) }
    {
        match second {
            None => Standing::Plain(Warehouse::take_over(first, size, mark)),
            Some(second) => Standing::Indexed(Indexed::take_over(first, second, size, mark)),
        }
    }

    // The piles, settled.
    pub(crate) fn close(self) -> (S, Option<S>)
        ensures first { S.settled (plain_of self).store result.0 }
        ensures second { IsClosed S.settled (second_of self) result.1 }
    {
        match self {
            Standing::Plain(warehouse) => (warehouse.close(), None),
            Standing::Indexed(warehouse) => {
                let (first, second) = warehouse.close();
                (first, Some(second))
            }
        }
    }

    // The warehouse of the first pile.
    pub(crate) fn plain(&self) -> &Warehouse<S>
        ensures { result.now ≡ plain_of self.now }
    {
        match self {
            Standing::Plain(warehouse) => warehouse,
            Standing::Indexed(warehouse) => warehouse.plain(),
        }
    }

    // The second pile, where one is used.
    pub(crate) fn second(&self) -> Option<&S> {
        match self {
            Standing::Plain(_) => None,
            Standing::Indexed(warehouse) => Some(warehouse.second()),
        }
    }

    pub(crate) fn add_point(&mut self, minute: u32, value: i64) -> Result<u32, Refusal>
        ensures { Does S.means self.old (λ v v'. AddsPoint v minute value result v') (add minute value) (written_reply result) self.new }
    {
        match self {
            Standing::Plain(warehouse) => add_point(warehouse, minute, value),
            Standing::Indexed(warehouse) => warehouse.add_point(minute, value),
        }
    }

    pub(crate) fn grow(&mut self) -> Result<u8, Refusal>
        ensures { Does S.means self.old (λ v v'. Growth v result v') grow (growth_reply result) self.new }
    {
        match self {
            Standing::Plain(warehouse) => grow(warehouse),
            Standing::Indexed(warehouse) => warehouse.grow(),
        }
    }

    pub(crate) fn settle(&mut self)
        ensures { Does S.means self.old (λ v v'. (v'.mark ≡ v.mark) × Settles v.store v'.store) settle settled self.new }
    {
        match self {
            Standing::Plain(warehouse) => warehouse.settle(),
            Standing::Indexed(warehouse) => warehouse.settle(),
        }
    }

    // The largest minute of a range, where a second pile has an index.
    pub(crate) fn busiest(&self, from: u32, to: u32) -> Option<Result<Reading, Refusal>>
        ensures { result ≡ busiest_of S.means self.now from to }
    {
        match self {
            Standing::Plain(_) => None,
            Standing::Indexed(warehouse) => Some(warehouse.busiest(from, to)),
        }
    }

    fn finish(&mut self, opened: OpenLoad, buffer: &mut [i64]) -> Result<u32, RefusedLoad>
        ensures { Does S.means self.old (λ v v'. Finishes opened v buffer.old result v') (load opened.level opened.index opened.taken buffer.old) (finish_reply result) self.new }
    {
        match self {
            Standing::Plain(warehouse) => opened.finish(warehouse, buffer),
            Standing::Indexed(warehouse) => warehouse.finish(opened, buffer),
        }
    }

    // A load with these values, begun and finished; where one is refused, or the finish is, it is given up.
    pub(crate) fn load(
        &mut self,
        level: u8,
        index: u32,
        values: &[i64],
        buffer: &mut [i64],
    ) -> Result<u32, Refusal> {
        let mut load = begin(self.plain(), level, index)?;
        for value in values {
            load = match load.value(buffer, *value) {
                Ok(load) => load,
                Err(refused) => return Err(given_up(refused)),
            };
        }
        self.finish(load, buffer).map_err(given_up)
    }
}

// Why a load was refused, which is given up.
fn given_up(refused: RefusedLoad) -> Refusal
    ensures { result ≡ refused.refusal }
{
    let RefusedLoad { load, refusal } = refused;
    let _ = load.give_up();
    refusal
}
