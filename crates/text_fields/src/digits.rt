// The digits of a number.
ghost use Rattle.std.specs.Prelude.{◌≡◌, length};
ghost use Rattle.text_rules.specs.Numbers.{decimal};

// How many digits a number has. Writing may take no longer than in plain Rust: with `checked_ilog10` ten positions take a tenth longer, and one a fifth.
pub fn digits_of(n: u32) -> usize
    ensures { result ≡ length (decimal n) }
{
    match n {
        0..=9 => 1,
        10..=99 => 2,
        100..=999 => 3,
        1000..=9999 => 4,
        10000..=99999 => 5,
        100000..=999999 => 6,
        1000000..=9999999 => 7,
        10000000..=99999999 => 8,
        100000000..=999999999 => 9,
        _ => 10,
    }
}
