//! Laws of the JSON of data: what is proved of the definitions alone.
ghost use Rattle.cedar_conform_values.specs.Belonging.{ReadValuesBelong};
ghost use Rattle.cedar_conform_values.specs.WrittenUids.{WritesOneUid};

use cedar_parser_tokens::one_uid;

/// A JSON that is read without fault for a type is a value of the type. A law: it runs no code.
pub fn read_values_belong()
    ensures { ReadValuesBelong }
{}

/// No JSON writes two uids. A law: it runs no code.
pub fn one_written_uid()
    ensures { WritesOneUid }
{
    // No string writes two uids.
    one_uid();
}
