// The promise of a pair and the worked cases, as what functions that do nothing ensure.
ghost use Rattle.documents.specs.Promise.{Promise};
ghost use Rattle.documents.specs.Worked.{Worked, four_lines};

use links::rows::Rows;

// Ensures what a pair over any row of links keeps, whatever attempts it is given.
pub fn promise_holds<R: Rows>()
    ensures { Promise R.Rows.columns }
{}

// Ensures the worked cases of carrying an edit across.
pub fn worked_cases()
    ensures { Worked four_lines }
{}
