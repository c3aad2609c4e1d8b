// The places of columns in a row.
ghost use Rattle.std.specs.Prelude.{◌≡◌, ◌==◌, ◌≤◌, length, position};
ghost use Rattle.reporting.specs.Positions.{place_of, positions};

// Where an id stands among the columns.
fn found_at(ids: &[u8], x: u8) -> Option<usize>
    ensures { result ≡ position (λ id. x == id) ids.now }
{
    ids.iter().position(|&id| x == id)
}

// The place of an id among the columns; past them where it is none of them.
pub(crate) fn place_of(ids: &[u8], x: u8) -> usize
    ensures { result ≡ place_of x ids.now }
{
    found_at(ids, x).unwrap_or(ids.len())
}

// The positions of those of the list that are columns, written to `places`.
pub(crate) fn positions_of<'a>(list: &[u8], ids: &[u8], places: &'a mut [u8]) -> &'a [u8]
    requires { (length list.now ≤ length places.old) × (length ids.now ≤ 256) }
    ensures { result.now ≡ positions list.now ids.now }
{
    let mut n = 0;
    for &id in list {
        let place = place_of(ids, id);
        if place < ids.len() {
            places[n] = place as u8;
            n += 1;
        }
    }
    &places[..n]
}
