// Beginning, filling, finishing and giving up a load.
ghost use Rattle.std.specs.Prelude.{◌≡◌, ℕ, ◌^◌, ◌<◌, ◌≤◌, Err};
ghost use Rattle.warehouse.specs.View.{known};
ghost use Rattle.warehouse.specs.declared.fault.Fault.TheVariants.{Level, Domain};
ghost use Rattle.loads.specs.Addition.{Lies};
ghost use Rattle.loads.specs.Beside.{FinishedBeside, FinishesBeside};
ghost use Rattle.loads.specs.Opening.{IsOpen, Returned, Begins, Takes, Finishes, FinishedTo};

use crate::beside::{Alone, Beside};
use crate::open::{OpenLoad, RefusedLoad};
use crate::values::add_values;
use store::interface::Store;
use warehouse::fault::{Asked, Fault, Refusal};
use warehouse::numbers::answered;
use warehouse::record::Warehouse;

// The checks of a beginning in their order.
fn begun<S: Store>(warehouse: &Warehouse<S>, level: u8, index: u32) -> Result<OpenLoad, Fault>
    ensures level { 12 < level → result ≡ Err Level }
    ensures domain { level ≤ 12 → (Lies (known S.means warehouse.now).size level index → ⊥) → result ≡ Err Domain }
    ensures begun { level ≤ 12 → Lies (known S.means warehouse.now).size level index → IsOpen result level index 0 }
{
    if level > 12 {
        return Err(Fault::Level);
    }
    if !warehouse.has(level, index) {
        return Err(Fault::Domain);
    }
    Ok(OpenLoad {
        level,
        index,
        taken: 0,
    })
}

// A load of 2^level minutes, beside the warehouse.
pub fn begin<S: Store>(warehouse: &Warehouse<S>, level: u8, index: u32) -> Result<OpenLoad, Refusal>
    ensures { Begins (known S.means warehouse.now).size level index result }
{
    answered(
        begun(warehouse, level, index),
        Asked::Interval(level, index),
    )
}

impl OpenLoad {
    // How many values the chunk has.
    fn chunk_len(&self) -> usize
        ensures is { result ≡ 2 ^ self.now.level }
        ensures most { result ≤ 4096 }
    {
        1 << self.level
    }

    // The value goes to the next place of the buffer.
    pub fn value(mut self, buffer: &mut [i64], value: i64) -> Result<OpenLoad, RefusedLoad>
        ensures { Takes self value buffer.old result buffer.new }
    {
        let place = self.taken as usize;
        if place >= self.chunk_len() {
            return Err(self.refused(Fault::Over));
        }
        if place >= buffer.len() {
            return Err(self.refused(Fault::Buffer));
        }
        buffer[place] = value;
        self.taken += 1;
        Ok(self)
    }

    // The checks of a finish and its writing.
    fn finished<S: Store, B: Beside<S>>(
        &self,
        warehouse: &mut Warehouse<S>,
        beside: &mut B,
        buffer: &mut [i64],
    ) -> Result<u32, Fault>
        ensures restored { buffer.new ≡ buffer.old }
        ensures whole { FinishedTo S.means S.puts self.now warehouse.old buffer.old result warehouse.new }
        ensures finished { FinishedBeside B.adds beside.old (known S.means warehouse.old) self.now.level self.now.index self.now.taken buffer.old result beside.new (known S.means warehouse.new) }
    {
        let many = self.chunk_len();
        if (self.taken as usize) < many {
            return Err(Fault::Short);
        }
        if buffer.len() < many {
            return Err(Fault::Buffer);
        }
        add_values(
            warehouse,
            beside,
            self.level,
            self.index,
            &mut buffer[..many],
        )
    }

    // Adds the chunk; the buffer holds what it held, also where the load comes back.
    pub fn finish<S: Store>(
        self,
        warehouse: &mut Warehouse<S>,
        buffer: &mut [i64],
    ) -> Result<u32, RefusedLoad>
        ensures restored { buffer.new ≡ buffer.old }
        ensures whole { FinishedTo S.means S.puts self warehouse.old buffer.old result warehouse.new }
        ensures finishes { Finishes self (known S.means warehouse.old) buffer.old result (known S.means warehouse.new) }
    {
        self.finish_beside(warehouse, &mut Alone, buffer)
    }

    // The same, where something besides has to be passed.
    pub fn finish_beside<S: Store, B: Beside<S>>(
        self,
        warehouse: &mut Warehouse<S>,
        beside: &mut B,
        buffer: &mut [i64],
    ) -> Result<u32, RefusedLoad>
        ensures restored { buffer.new ≡ buffer.old }
        ensures whole { FinishedTo S.means S.puts self warehouse.old buffer.old result warehouse.new }
        ensures finishes { FinishesBeside B.adds beside.old (known S.means warehouse.old) self buffer.old result beside.new (known S.means warehouse.new) }
    {
        // by match: either arm uses up the load, and a closure of map_err would hold it in both
        match self.finished(warehouse, beside, buffer) {
            Ok(written) => {
                let _ = self.give_up();
                Ok(written)
            }
            Err(fault) => Err(self.refused(fault)),
        }
    }

    // How many values were taken.
    pub fn give_up(self) -> u32
        ensures { result ≡ self.taken }
    {
        let OpenLoad {
            level: _,
            index: _,
            taken,
        } = self;
        taken
    }

    fn refused(self, fault: Fault) -> RefusedLoad
        ensures { Returned self fault result }
    {
        let asked = Asked::Interval(self.level, self.index);
        RefusedLoad {
            load: self,
            refusal: Refusal { fault, asked },
        }
    }
}
