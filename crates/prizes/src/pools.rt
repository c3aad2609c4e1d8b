// Runs of rows with equal scores, the pence that such rows pool, and the club line.
ghost use Rattle.std.specs.Prelude.{◌≡◌, ◌+◌, ◌-◌, ◌<◌, take, drop};
ghost use Rattle.prizes.specs.Payments.{pool, club_line};
ghost use Rattle.prizes.specs.Helpers.{scores_in, first_run};

use crate::fund::Places;
use crate::standings::Standings;
use reading::comparison::Comparison;
use reporting::cells::compare;

impl Standings<'_> {
    // The end of the run that begins with row `from`: the row behind it, or the number of rows.
    pub(crate) fn run_end(&self, from: usize) -> usize
        requires { from < self.now.rows }
        ensures { result ≡ from + first_run (drop from (scores_in self.now.rows self.now.columns self.now.cells.now)) }
    {
        let score = self.score(from);
        for i in from + 1..self.rows {
            if !compare(Comparison::Equal, score, self.score(i)) {
                return i;
            }
        }
        self.rows
    }

    // The pence of the run of rows from `from` up to `to`: none where its score is no number.
    pub(crate) fn pool_of(&self, from: usize, to: usize, places: &Places<'_>) -> u64
        requires row { from < self.now.rows }
        requires to_value { to ≡ from + first_run (drop from (scores_in self.now.rows self.now.columns self.now.cells.now)) }
        ensures { result ≡ pool (take (to - from) (drop from (scores_in self.now.rows self.now.columns self.now.cells.now))) (drop from places.now.pence.now) }
    {
        if self.has_number(from) {
            places.pence_from(from, to - from)
        } else {
            0
        }
    }

    // The pence of the places past the last row, and of those whose score is no number.
    pub(crate) fn club_line(&self, places: &Places<'_>) -> u64
        ensures { result ≡ club_line (scores_in self.now.rows self.now.columns self.now.cells.now) places.now.pence.now }
    {
        let mut line = 0;
        for (i, &pence) in places.pence.iter().enumerate() {
            if !self.has_number(i) {
                line += pence;
            }
        }
        line
    }
}
