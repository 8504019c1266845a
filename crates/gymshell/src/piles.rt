// What is said of a pile.
ghost use Rattle.std.specs.Prelude.{◌≡◌};
ghost use Rattle.store.specs.Free.{free_cells};
ghost use Rattle.shell.specs.declared.answer.Answer.TheVariants as answers;

use shell::answer::Answer;
use store::free::free_cells;
use store::interface::Store;

// Bands, free cells and cleanness.
pub(crate) fn describe<S: Store>(store: &S) -> Answer
    ensures { result ≡ answers.Store (S.means store.now).bands (free_cells (S.means store.now)) (S.means store.now).clean }
{
    Answer::Store {
        bands: store.bands(),
        free: free_cells(store),
        clean: store.is_clean(),
    }
}
