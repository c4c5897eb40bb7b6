// The laws of feeding a log, as what functions that do nothing ensure.
ghost use Rattle.std.specs.Prelude.{◌≡◌, ℕ, List};
ghost use Rattle.std.specs.List.{concat};
ghost use Rattle.playback.specs.Days.{Day};
ghost use Rattle.documents.specs.Attempts.{State};
ghost use Rattle.playback.specs.Pieces.{AsItsLines};
ghost use Rattle.playback.specs.Printed.{AsOutput};

use links::rows::Rows;

// Ensures, for every row of links, every day and every log, that however the log is cut into pieces, feeding them one after the
// other comes to what its lines do one by one, with the same reports.
pub fn feeding_in_pieces<R: Rows>()
    ensures { (d : Day R) (log : List ℕ) (pieces : List (List ℕ)) → concat pieces ≡ log → AsItsLines R.Rows.columns d log pieces }
{}

// Ensures, for every row of links and every state of a pair, that however a log is cut into pieces, what is printed is its output.
pub fn output_in_pieces<R: Rows>()
    ensures { (d : State R) (log : List ℕ) (pieces : List (List ℕ)) → concat pieces ≡ log → AsOutput R.Rows.columns d log pieces }
{}
