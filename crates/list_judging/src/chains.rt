// Accounts in chains, one chain for each bucket of accounts. `head` and `next` hold positions counted from 1, and 0 is none; the argument `position` counts from 0.
ghost use Rattle.std.specs.Prelude.{ℕ, List, ◌≡◌, suc, ◌<◌, length, get_or};
ghost use Rattle.series.specs.Series.{MOST_POSITIONS};
ghost use Rattle.series.specs.Refusals.{stands_in};
ghost use Rattle.rising_lists.specs.Earlier.{earlier};
ghost use Rattle.list_judging.specs.Chains.{bucket, Linked};

// The last position of each bucket, and for each position the last one before it in its bucket. How many positions are linked (`Linked`) is the index of the loop that links them; a field would count them again. Arrays, as the project has no heap.
#[derive(Drop)]
pub struct Chains {
    head: [u16; 4096],
    next: [u16; 4096],
}

// The bucket of an account.
fn bucket_of(account: u32) -> usize
    ensures { (result ≡ bucket account) × (result < MOST_POSITIONS) }
{
    (u64::from(account) * 2_654_435_761 % 4_294_967_296 / 1_048_576) as usize
}

impl Chains {
    // Chains in which nothing is linked.
    pub fn new() -> Chains
        ensures { (accounts : List ℕ) → Linked accounts result 0 }
    {
        Chains {
            head: [0; 4096],
            next: [0; 4096],
        }
    }

    // Whether the account of a position stands earlier in the list.
    pub fn stands_earlier(&self, accounts: &[u32], position: usize) -> bool
        requires { (position < length accounts.now) × Linked accounts.now self.now position }
        ensures { result ≡ stands_in (get_or accounts.now position 0) (earlier accounts.now position) }
    {
        let account = accounts[position];
        let mut k = self.head[bucket_of(account)];
        // A `while`: k goes down a chain, not through the positions.
        while 0 < k {
            let other = k as usize - 1;
            if accounts[other] == account {
                return true;
            }
            k = self.next[other];
        }
        false
    }

    // Links the account of a position, after all earlier ones.
    pub fn link(&mut self, accounts: &[u32], position: usize)
        requires { (position < length accounts.now) × (position < MOST_POSITIONS) × Linked accounts.now self.old position }
        ensures { Linked accounts.now self.new (suc position) }
    {
        let bucket = bucket_of(accounts[position]);
        self.next[position] = self.head[bucket];
        self.head[bucket] = position as u16 + 1;
    }
}
