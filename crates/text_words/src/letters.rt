// The letters of the methods.
ghost use Rattle.std.specs.Prelude.{◌≡◌};
ghost use Rattle.text_rules.specs.Letters.{letter, method_by};
ghost use Rattle.text_words.specs.Parts.{named_means};

use series::Method;

// The method of the letter W, P, L or R. No impl of `TryFrom`: it would stand beside `Method`, in `series`, and what a letter means is defined in `text_rules`, above that.
pub fn method_by(letter: u8) -> Option<Method>
    ensures { named_means result ≡ method_by letter }
{
    match letter {
        b'W' => Some(Method::Wheel),
        b'P' => Some(Method::ProRata),
        b'L' => Some(Method::Lottery),
        b'R' => Some(Method::RemainderDraw),
        _ => None,
    }
}

// The letter of a method, a function for the same reason.
pub fn letter_of(method: Method) -> u8
    ensures { result ≡ letter method }
{
    match method {
        Method::Wheel => b'W',
        Method::ProRata => b'P',
        Method::Lottery => b'L',
        Method::RemainderDraw => b'R',
    }
}
