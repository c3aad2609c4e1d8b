// The purse and its shares: whether they are valid, and the pence of each place.
ghost use Rattle.std.specs.Prelude.{true, false, ◌≡◌, map, ◌^◌, ◌<◌, ◌≤◌, length, sum, take, drop, IfSome, IfNone};
ghost use Rattle.algebra.specs.Lists.{total};
ghost use Rattle.prizes.specs.Payments.{one_each, share_of, place_pence};
ghost use Rattle.prizes.specs.Prize.{valid_fund};

// A purse of at most 100,000,000 pence, and its 1 to 20 shares, which sum to 10,000.
#[derive(Clone, Copy)]
pub(crate) struct Fund<'a> {
    pub(crate) purse: u64,
    pub(crate) shares: &'a [u32],
    pub(crate) ghost valid: { valid_fund purse shares.now ≡ true },
}

// The pence of the places, from the first on: at most 100,000,000 in all.
#[derive(Clone, Copy)]
pub(crate) struct Places<'a> {
    pub(crate) pence: &'a [u64],
    pub(crate) ghost few: { total pence.now ≤ 100000000 },
}

// The sum of at most 20 shares. They are any 32-bit numbers, and their sum is exact.
fn sum_of(shares: &[u32]) -> u64
    requires { length shares.now ≤ 20 }
    ensures { result ≡ sum shares.now }
{
    shares.iter().map(|&share| u64::from(share)).sum()
}

// All pence of some places.
fn pence_of(pence: &[u64]) -> u64
    requires { sum pence.now < 2 ^ 64 }
    ensures { result ≡ sum pence.now }
{
    pence.iter().sum()
}

// Each share of the purse, rounded down.
fn rounded_down(purse: u64, shares: &[u32], pence: &mut [u64])
    requires { (purse ≤ 100000000) × (length pence.old ≡ length shares.now) }
    ensures { pence.new ≡ map (share_of purse) shares.now }
{
    for (i, &share) in shares.iter().enumerate() {
        pence[i] = purse * u64::from(share) / 10000;
    }
}

// One penny more for each of the first n amounts.
fn one_each(n: usize, pence: &mut [u64])
    requires { (n ≤ length pence.old) × (total pence.old ≤ 100000000) }
    ensures { pence.new ≡ one_each n pence.old }
{
    for i in 0..n {
        pence[i] += 1;
    }
}

impl<'a> Fund<'a> {
    // The fund of any purse and shares, if it is valid.
    pub(crate) fn new(purse: u64, shares: &'a [u32]) -> Option<Fund<'a>>
        ensures none { IfNone result (valid_fund purse shares.now ≡ false) }
        ensures some { IfSome result (λ fund. (fund.purse ≡ purse) × (fund.shares.now ≡ shares.now)) }
    {
        if purse <= 100000000
            && !shares.is_empty()
            && shares.len() <= 20
            && sum_of(shares) == 10000
        {
            Some(Fund { purse, shares })
        } else {
            None
        }
    }

    // The pence of each place: its share of the purse, and of the pence left over one each from the first place on.
    pub(crate) fn place_pence(&self, pence: &mut [u64])
        requires { length pence.old ≡ length self.now.shares.now }
        ensures { pence.new ≡ place_pence self.now.purse self.now.shares.now }
    {
        rounded_down(self.purse, self.shares, pence);
        let left = self.purse - pence_of(pence);
        one_each(left as usize, pence);
    }
}

impl Places<'_> {
    // The pence of n places from `from` on; past the last place there are none.
    pub(crate) fn pence_from(&self, from: usize, n: usize) -> u64
        ensures { result ≡ total (take n (drop from self.now.pence.now)) }
    {
        let rest = &self.pence[from.min(self.pence.len())..];
        pence_of(&rest[..n.min(rest.len())])
    }
}
