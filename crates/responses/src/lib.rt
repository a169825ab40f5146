// What a call that prints answers, and the printing of a refusal.
#![tactic(auto)]

ghost use Rattle.std.specs.Prelude.{◌≡◌};
ghost use Rattle.series.specs.Answers.{number_of};
ghost use Rattle.text_writing.specs.Answers.{writing_of};
ghost use Rattle.responses.specs.Printed.{refused_lines};
ghost use Rattle.responses.specs.Responses.{response_of, written_hands, Responds};

use series::Refusal;

// The line before the number of a refusal.
const REFUSED_LINE: [u8; 8] = *b"refused\n";

// What a call that prints answers: how many bytes, and the refusal where there is one, which is 4 with no bytes where the output is too short.
#[derive(Clone, Copy, Debug, PartialEq, Eq)]
pub struct Response {
    pub written: usize,
    pub refusal: Option<Refusal>,
}

// What is answered where the output is too short.
fn too_short() -> Response
    ensures { response_of result ≡ record { written = 0; refusal = 4 } }
{
    Response {
        written: 0,
        refusal: Some(Refusal::OutputTooShort),
    }
}

// Prints a refusal: the line `refused` and a line with its number.
pub fn refuse(refusal: Refusal, output: &mut [u8]) -> Response
    ensures { Responds result (refused_lines (number_of refusal)) (number_of refusal) output.old output.new }
{
    let number = u32::from(refusal);
    let Ok(written) = text_writing::write_note(&REFUSED_LINE, number, output) else {
        return too_short();
    };
    Response {
        written,
        refusal: Some(refusal),
    }
}

// What is answered for an allocation, after it was written or did not fit.
pub fn answer_written(writing: Result<usize, Refusal>) -> Response
    ensures { response_of result ≡ written_hands (writing_of writing) }
{
    let Ok(written) = writing else {
        return too_short();
    };
    Response {
        written,
        refusal: None,
    }
}
