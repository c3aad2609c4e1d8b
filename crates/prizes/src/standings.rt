// A report's rows as standings: the first column is the player, the second the score.
ghost use Rattle.std.specs.Prelude.{◌≡◌, ◌<◌, get_or};
ghost use Rattle.algebra.specs.Cells.{is_number};
ghost use Rattle.prizes.specs.Helpers.{Scored, players_in, scores_in};

use reporting::cells::is_number;

// Rows at the front of cells, each with a player and a score.
#[derive(Clone, Copy)]
pub(crate) struct Standings<'a> {
    pub(crate) cells: &'a [u64],
    pub(crate) columns: usize,
    pub(crate) rows: usize,
    pub(crate) ghost scored: { Scored rows columns cells.now },
}

impl Standings<'_> {
    // The player of row i.
    pub(crate) fn player(&self, i: usize) -> u64
        requires { i < self.now.rows }
        ensures { result ≡ get_or (players_in self.now.rows self.now.columns self.now.cells.now) i 0 }
    {
        self.cells[i * self.columns]
    }

    // The score of row i.
    pub(crate) fn score(&self, i: usize) -> u64
        requires { i < self.now.rows }
        ensures { result ≡ get_or (scores_in self.now.rows self.now.columns self.now.cells.now) i 0 }
    {
        self.cells[i * self.columns + 1]
    }

    // Whether there is a row i and its score is a number.
    pub(crate) fn has_number(&self, i: usize) -> bool
        ensures { result ≡ is_number (get_or (scores_in self.now.rows self.now.columns self.now.cells.now) i 0) }
    {
        i < self.rows && is_number(self.score(i))
    }
}
