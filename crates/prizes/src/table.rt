// The table of players and pence, written row by row.
ghost use Rattle.std.specs.Prelude.{◌≡◌, ◌++◌, ◌*◌, ◌<◌, ◌≤◌, length, get_or, drop};
ghost use Rattle.prizes.specs.Payments.{split};
ghost use Rattle.prizes.specs.Prize.{table_codes};
ghost use Rattle.prizes.specs.Helpers.{players_in, table_in};

use crate::fund::Places;
use crate::standings::Standings;
use reporting::output::code;

// Row k's part of a pool that n rows split: odd pence go to the earlier rows.
fn part(pool: u64, n: u64, k: u64) -> u64
    requires { (k < n) × (pool ≤ 100000000) }
    ensures { result ≡ get_or (split n pool) k 0 }
{
    let even = pool / n;
    let odd = pool % n;
    if k < odd { even + 1 } else { even }
}

impl Standings<'_> {
    // Writes these rows of the table: their players, and a pool split among them.
    fn pay_run(&self, pool: u64, out: &mut [i64])
        requires { (2 * self.now.rows ≤ length out.old) × (pool ≤ 100000000) }
        ensures { out.new ≡ table_codes (players_in self.now.rows self.now.columns self.now.cells.now) (split self.now.rows pool) ++ drop (2 * self.now.rows) out.old }
    {
        let rows = self.rows as u64;
        for i in 0..self.rows {
            let player = code(self.player(i));
            let paid = part(pool, rows, i as u64) as i64;
            out[2 * i] = player;
            out[2 * i + 1] = paid;
        }
    }

    // Writes the whole table, one run of equal scores after another.
    pub(crate) fn pay_rows(&self, places: &Places<'_>, out: &mut [i64])
        requires { 2 * self.now.rows ≤ length out.old }
        ensures { out.new ≡ table_in self.now.rows self.now.columns self.now.cells.now places.now.pence.now ++ drop (2 * self.now.rows) out.old }
    {
        let mut i = 0;
        // No count: a step is as long as its run.
        while i < self.rows {
            let end = self.run_end(i);
            let pool = self.pool_of(i, end, places);
            let run = Standings {
                cells: &self.cells[i * self.columns..],
                columns: self.columns,
                rows: end - i,
            };
            run.pay_run(pool, &mut out[2 * i..]);
            i = end;
        }
    }
}
