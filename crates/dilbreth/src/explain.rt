// The words for the number of a refusal.
ghost use Rattle.std.specs.Prelude.{◌≡◌, ◌≤◌, length};
ghost use Rattle.series.specs.Outputs.{onto_room};
ghost use Rattle.explanation.specs.Explanation.{explanation, LONGEST};

// Hands back the length of the line for a refusal's number, and writes the line where it fits.
#[unsafe(no_mangle)]
pub extern "C" fn dilbreth_explain(number: u32, line: &mut [u8]) -> usize
    ensures value { result ≡ length (explanation number) }
    ensures line_after { line.new ≡ onto_room (explanation number) line.old }
    ensures upper_bound { result ≤ LONGEST }
{
    explanation::explain(number, line)
}
