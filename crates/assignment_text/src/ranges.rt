// The ranges of a list's positions.
ghost use Rattle.std.specs.Prelude.{◌≡◌, ℕ, ◌+◌, ◌≤◌, ◌<◌, List, [], ◌∷◌, length, take, get_or};
ghost use Rattle.series.specs.Sums.{listed};
ghost use Rattle.series.specs.Places.{total as total_of};
ghost use Rattle.series.specs.Series.{MOST_CONTRACTS};
ghost use Rattle.series.specs.RemainderDraw.{first_range};
ghost use Rattle.text_rules.specs.Text.{MOST_LINES};
ghost use Rattle.responses.specs.Printed.{range_columns};

use series::Contracts;

// The ranges of at most 1,024 positions: the numbers of the first ranges and of the second, and past those of the last position zeros. Arrays, as the project has no heap.
#[derive(Drop)]
pub struct Ranges {
    pub firsts: [u32; 1024],
    pub lasts: [u32; 1024],
    pub firsts2: [u32; 1024],
    pub lasts2: [u32; 1024],
}

// Fills in the first and the last number of each position's first range, and hands back T.
fn fill_first(shorts: &[u32], firsts: &mut [u32], lasts: &mut [u32]) -> Contracts
    requires { (length shorts.now ≤ length firsts.old) × (length shorts.now ≤ length lasts.old) × (total_of shorts.now ≤ MOST_CONTRACTS) }
    ensures result_value { result.0 ≡ total_of shorts.now }
    ensures firsts_after { take (length shorts.now) firsts.new ≡ listed (λ i. (first_range shorts.now i).first) (length shorts.now) }
    ensures lasts_after { take (length shorts.now) lasts.new ≡ listed (λ i. (first_range shorts.now i).last) (length shorts.now) }
{
    let mut passed = 0;
    for (i, &count) in shorts.iter().enumerate() {
        firsts[i] = passed + 1;
        passed += count;
        lasts[i] = passed;
    }
    Contracts(passed)
}

// Fills in numbers of the second range: those of the first, each plus T.
fn fill_second(numbers: &[u32], total: Contracts, raised: &mut [u32])
    requires { (length numbers.now ≤ length raised.old) × (total.0 ≤ MOST_CONTRACTS) × ((i : ℕ) → i < length numbers.now → get_or numbers.now i 0 ≤ total.0 + 1) }
    ensures { take (length numbers.now) raised.new ≡ listed (λ i. get_or numbers.now i 0 + total.0) (length numbers.now) }
{
    for (i, &number) in numbers.iter().enumerate() {
        raised[i] = number + total.0;
    }
}

// Fills in both ranges of each position, of a judged list by its shorts alone, so that T is asked for: with the accounts they are the columns that are printed.
pub fn fill(shorts: &[u32], ranges: &mut Ranges)
    requires { (length shorts.now ≤ MOST_LINES) × (total_of shorts.now ≤ MOST_CONTRACTS) }
    ensures { (accounts : List ℕ) → accounts ∷ take (length shorts.now) ranges.new.firsts ∷ take (length shorts.now) ranges.new.lasts ∷ take (length shorts.now) ranges.new.firsts2 ∷ take (length shorts.now) ranges.new.lasts2 ∷ [] ≡ range_columns accounts shorts.now }
{
    let n = shorts.len();
    let total = fill_first(shorts, &mut ranges.firsts, &mut ranges.lasts);
    fill_second(&ranges.firsts[..n], total, &mut ranges.firsts2);
    fill_second(&ranges.lasts[..n], total, &mut ranges.lasts2);
}
