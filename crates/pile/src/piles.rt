// A pile: a store at its bottom, and up to three hold-back layers on it.
ghost use Rattle.std.specs.Prelude.{◌≡◌, ◌<◌, ◌↔◌, IsOk, IfOk, IfErr};
ghost use Rattle.holdback.specs.Over.{Alike};
ghost use Rattle.pile.specs.Piles.{Over, bare, below, bottom_of, layers_on, pile_means};

use crate::either::Either;
use holdback::held::HoldBack;
use store::interface::Store;

/// A store, or one hold-back layer over it.
pub type Layered<S> = Either<S, HoldBack<S>>;

/// A store with none to three layers on it.
pub type Pile<S> = Layered<Layered<Layered<S>>>;

/// The store with no layer on it.
pub fn pile_of<S: Store>(bottom: S) -> Pile<S>
    ensures { result ≡ bare bottom }
{
    Either::Left(Either::Left(Either::Left(bottom)))
}

/// One layer more, which holds none at first; a pile with three layers comes back.
pub fn add_layer<S: Store>(pile: Pile<S>) -> Result<Pile<S>, Pile<S>>
    ensures over { IfOk result (Over pile) }
    ensures alike { IfOk result (λ p. Alike (pile_means S.Store.means pile) (pile_means S.Store.means p)) }
    ensures most { IsOk result ↔ (layers_on pile < 3) }
    ensures back { IfErr result (λ p. p ≡ pile) }
{
    Ok(match pile {
        Either::Left(Either::Left(Either::Left(bottom))) => {
            Either::Left(Either::Left(Either::Right(HoldBack::new(bottom))))
        }
        Either::Left(Either::Left(one)) => Either::Left(Either::Right(HoldBack::new(one))),
        Either::Left(two) => Either::Right(HoldBack::new(two)),
        three => return Err(three),
    })
}

// What lies under the layer, if there is one; what that still holds is lost.
fn into_below<S: Store>(layered: Layered<S>) -> S
    ensures { result ≡ below layered }
{
    match layered {
        Either::Left(store) => store,
        Either::Right(layer) => layer.into_inner(),
    }
}

/// The store at the bottom; what is still held is lost.
pub fn into_bottom<S: Store>(pile: Pile<S>) -> S
    ensures { result ≡ bottom_of pile }
{
    into_below(into_below(into_below(pile)))
}
