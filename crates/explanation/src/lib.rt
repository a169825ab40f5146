// The words for the number of a refusal, in one place.
#![tactic(auto)]

ghost use Rattle.std.specs.Prelude.{◌≡◌, ◌≤◌, length};
ghost use Rattle.series.specs.Outputs.{onto_room};
ghost use Rattle.explanation.specs.Explanation.{explanation, LONGEST as longest};

// Room for every line.
pub const LONGEST: usize = 50;

// Writes a line where it fits, and hands back its length.
#[tactic(auto, unfolding(series::specs::Outputs::onto, series::specs::Outputs::onto_room))]
fn put(words: &[u8], line: &mut [u8]) -> usize
    ensures value { result ≡ length words.now }
    ensures line_after { line.new ≡ onto_room words.now line.old }
{
    if words.len() <= line.len() {
        lists::copy(words, line);
    }
    words.len()
}

// The line for a refusal's number. No Display: C asks for any number, and the line is written where it fits.
#[tactic(auto, unfolding(crate::specs::Explanation::explanation, crate::specs::Explanation::refusals, crate::specs::Explanation::no_refusal, series::specs::Ascii::ascii))]
fn words(number: u32) -> &'static [u8]
    ensures { result.now ≡ explanation number }
{
    match number {
        1 => b"codes, accounts and numbers differ in length\n",
        2 => b"there are more than 4,096 positions\n",
        3 => b"there are no positions\n",
        4 => b"an output is too short\n",
        5 => b"a code (W) or account (P,L,R) is 0 or not rising\n",
        6 => b"a position has no short contracts\n",
        7 => b"the positions hold more than 10,000,000 contracts\n",
        8 => b"no contract is exercised\n",
        9 => b"more is exercised than the positions hold\n",
        10 => b"the draw is outside 1 to T (W) or 1 to 10,000 (L)\n",
        11 => b"the text has, or would have, over 32,768 bytes\n",
        12 => b"line 1 or line 3 is missing or not exact\n",
        13 => b"bad line 2 or position line (number: 1-10 digits)\n",
        14 => b"the method is not W, P, L or R\n",
        15 => b"there are more than 1,024 positions in a text\n",
        16 => b"a count of the day is above 10,000,000\n",
        17 => b"closing purchases exceed short plus opening sales\n",
        18 => b"more is exercised than the day's limit\n",
        19 => b"an account is 0 or stands earlier in the list\n",
        20 => b"a last number is 0 or not above the one before\n",
        21 => b"there are more than 64 jobs\n",
        22 => b"a stretch ends past the list or begins too early\n",
        23 => b"the increment is 0 or above 1,000 (W)\n",
        24 => b"the increment makes more than 1,000,000 blocks\n",
        _ => b"no refusal has this number\n",
    }
}

// Hands back the length of the line for a refusal's number, and writes the line where it fits. A shorter output keeps its bytes, and bytes past the line are kept. The length is at most LONGEST.
pub fn explain(number: u32, line: &mut [u8]) -> usize
    ensures value { result ≡ length (explanation number) }
    ensures line_after { line.new ≡ onto_room (explanation number) line.old }
    ensures upper_bound { result ≤ longest }
{
    put(words(number), line)
}
