//! Names that are too long.

ghost use Rattle.std.specs.Prelude.{◌≡◌};
ghost use Rattle.hd_usda.specs.reading.Words.{is_long};

use hd_layer::Which;

/// Is the text longer than a name may be?
pub fn is_long(text: &[u8]) -> bool
    ensures { result ≡ is_long text.now }
{
    text.len() as u64 > Which::Name.number()
}
