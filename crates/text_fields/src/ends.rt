// The byte that ends a field of a line.
ghost use Rattle.std.specs.Prelude.{◌≡◌};
ghost use Rattle.text_rules.specs.Fields.{end_before};

// The byte that ends a field, after which so many fields follow: `end` ends the last, `part` each other.
pub fn end_before(part: u8, end: u8, fields: usize) -> u8
    ensures { result ≡ end_before part end fields }
{
    if fields == 0 { end } else { part }
}
