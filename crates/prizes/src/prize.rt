// The prize call.
ghost use Rattle.std.specs.Prelude.{◌≡◌, ◌++◌, ◌*◌, ◌≤◌, length, drop};
ghost use Rattle.reporting.specs.Rows.{chunk};
ghost use Rattle.prizes.specs.Prize.{prize_table, prize_line, Prized};
ghost use Rattle.prizes.specs.Helpers.{InCells, PaidOut};

use crate::answer::Prizes;
use crate::fund::{Fund, Places};
use crate::standings::Standings;
use reading::refusal::Refusal;
use reporting::output::clear;
use reporting::subplan::rows_at;

// Pays the rows from a fund, and gives the club line. `pence` has room for the places' pence.
fn pay_places(standings: &Standings<'_>, fund: &Fund<'_>, pence: &mut [u64], out: &mut [i64]) -> u64
    requires room { 2 * standings.now.rows ≤ length out.old }
    requires places { length pence.old ≡ length fund.now.shares.now }
    ensures value { result ≡ prize_line (chunk standings.now.rows standings.now.columns standings.now.cells.now) fund.now.purse fund.now.shares.now }
    ensures out_after { out.new ≡ prize_table (chunk standings.now.rows standings.now.columns standings.now.cells.now) fund.now.purse fund.now.shares.now ++ drop (2 * standings.now.rows) out.old }
{
    fund.place_pence(pence);
    let places = Places { pence };
    standings.pay_rows(&places, out);
    standings.club_line(&places)
}

// The table of a report's rows at the front of cells, and the club line: 17, then 18, then 15.
fn pay_out(
    cells: &[u64],
    columns: usize,
    rows: usize,
    purse: u64,
    shares: &[u32],
    out: &mut [i64],
) -> Result<Prizes, Refusal>
    requires { InCells rows columns cells.now }
    ensures { PaidOut rows columns cells.now purse shares.now out.old out.new result }
{
    let fund = Fund::new(purse, shares).ok_or(Refusal::Shares)?;
    if columns < 2 {
        return Err(Refusal::FewColumns);
    }
    if out.len() < 2 * rows {
        return Err(Refusal::OutputShort);
    }
    let standings = Standings {
        cells,
        columns,
        rows,
    };
    let mut pence = [0u64; 20];
    let club = pay_places(&standings, &fund, &mut pence[..shares.len()], out);
    Ok(Prizes { rows, club })
}

// The prize fund table of a report: player and pence of each row, and the club line, or a refusal. The report's first column is the player, its
// second the score. Any bytes, any purse and shares, and buffers of any length, are taken.
pub fn prize(
    set: &[u8],
    plan: &[u8],
    purse: u64,
    shares: &[u32],
    out: &mut [i64],
    scratch: &mut [u64],
) -> Result<Prizes, Refusal>
    ensures { Prized set.now plan.now purse shares.now out.old out.new scratch.old scratch.new result }
{
    let report = rows_at(set, plan, 0, scratch)?;
    let prizes = pay_out(scratch, report.columns, report.rows, purse, shares, out);
    clear(scratch);
    prizes
}
