// A place for a pile, and what its bottom is laid from. A pile is kept as a warehouse of size 0, so that two can be compared where they are.
use pile::laying::Lays;
use pile::piles::{Pile, add_layer, into_bottom, pile_of};
use shell::wrong::Why;
use std::alloc::AllocError;
use store::interface::Store;
use warehouse::record::Warehouse;

#[derive(Drop)]
pub(crate) struct Slot<L: Lays> {
    pub pile: Option<Warehouse<Pile<L::Bottom>>>,
    ground: L,
}

impl<L: Lays> Slot<L> {
    // No pile yet.
    pub(crate) fn new(ground: L) -> Slot<L> {
        Slot { pile: None, ground }
    }

    // The pile, to be looked at.
    pub(crate) fn store(&self) -> Option<&Pile<L::Bottom>> {
        match &self.pile {
            Some(kept) => Some(&kept.store),
            None => None,
        }
    }

    // The pile, which is not here then.
    pub(crate) fn give(&mut self) -> Option<Pile<L::Bottom>> {
        match self.pile.take() {
            Some(kept) => Some(kept.store),
            None => None,
        }
    }

    // A pile comes here.
    pub(crate) fn keep(&mut self, pile: Pile<L::Bottom>) {
        self.pile = Some(Warehouse::take_over(pile, 0, 0));
    }

    // The pile that was there goes.
    fn clear(&mut self) {
        if let Some(pile) = self.pile.take() {
            self.ground.take_back(into_bottom(pile.store));
        }
    }

    // An empty flat store, in place of the pile that was there.
    pub(crate) fn lay_flat(&mut self, bands: u8) {
        self.clear();
        let bottom = self.ground.lay_flat(bands);
        self.keep(pile_of(bottom));
    }

    // An empty sparse store, in place of the pile that was there.
    pub(crate) fn lay_sparse(&mut self, bands: u8, capacity: u16) -> Result<(), AllocError> {
        self.clear();
        let bottom = self.ground.lay_sparse(bands, capacity)?;
        self.keep(pile_of(bottom));
        Ok(())
    }

    // One layer more on the pile.
    pub(crate) fn layer(&mut self) -> Result<(), Why> {
        let pile = self.pile.take().ok_or(Why::NoPile)?;
        match add_layer(pile.store) {
            Ok(pile) => {
                self.keep(pile);
                Ok(())
            }
            Err(pile) => {
                self.keep(pile);
                Err(Why::Layers)
            }
        }
    }
}
