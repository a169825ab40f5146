// Reading the position lines of a text.
ghost use Rattle.series_text.specs.Parts.{PositionRead, LinesRead};

use series::Refusal;
use text_fields::Read;
use text_fields::row::read_row;

// The codes, the accounts and the shorts or last numbers of at most 1,024 positions. Arrays, as the project has no heap.
#[derive(Drop)]
pub struct Lists {
    pub codes: [u32; 1024],
    pub accounts: [u32; 1024],
    pub numbers: [u32; 1024],
}

// Reads a position line: the code, the account and the shorts or last number. Without a code of its own the code is the account.
fn read_position<'a>(text: &'a [u8], coded: bool) -> Option<Read<'a, [u32; 3]>>
    ensures { PositionRead coded text.now result }
{
    let mut found = [0; 3];
    if coded {
        let rest = read_row(text, &mut found)?;
        return Some(Read { found, rest });
    }
    let rest = read_row(text, &mut found[1..])?;
    found[0] = found[1];
    Some(Read { found, rest })
}

// Reads position lines to the end of the text, at most 1,024 of them: how many there are.
pub fn read_positions(text: &[u8], coded: bool, lists: &mut Lists) -> Result<usize, Refusal>
    ensures { LinesRead coded text.now lists.new.codes lists.new.accounts lists.new.numbers result }
{
    let mut rest = text;
    for n in 0..1024 {
        if rest.is_empty() {
            return Ok(n);
        }
        let position = read_position(rest, coded).ok_or(Refusal::Malformed)?;
        let [code, account, number] = position.found;
        lists.codes[n] = code;
        lists.accounts[n] = account;
        lists.numbers[n] = number;
        rest = position.rest;
    }
    if !rest.is_empty() {
        return Err(Refusal::TooManyLines);
    }
    Ok(1024)
}
