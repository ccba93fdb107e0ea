//! Words and paths as texts of their own: the only fault is out of memory.

ghost use Rattle.std.specs.Prelude.{◌≡◌, IsAscii, IfOk, IfErr};
ghost use Rattle.hd_path.specs.declared.fault.PathFault.TheVariants as path_faults;
ghost use Rattle.hd_layer.specs.declared.fault.LayerFault.TheVariants.{NoMemory};

use hd_layer::LayerFault;
use hd_path::{PathFault, Token};
use std::alloc::Global;

/// The bytes of a word or a path as a text.
pub fn as_text(bytes: &[u8]) -> &str
    requires { IsAscii bytes.now }
    ensures { result.now ≡ bytes.now }
{
    match str::from_utf8(bytes) {
        Ok(text) => text,
        Err(_) => unreachable!(),
    }
}

/// The bytes of a word as a token.
pub fn as_token(alloc: Global, bytes: &[u8]) -> Result<Token, LayerFault>
    requires { IsAscii bytes.now }
    ensures text { IfOk result (λ token. token ≡ bytes.now) }
    ensures memory { IfErr result (λ fault. fault ≡ NoMemory) }
{
    Ok(Token::new(alloc, as_text(bytes))?)
}

/// Fault of building a path known to be valid: only out of memory.
pub fn no_memory(fault: PathFault) -> LayerFault
    requires { fault ≡ path_faults.NoMemory }
    ensures { result ≡ NoMemory }
{
    match fault {
        PathFault::NoMemory => LayerFault::NoMemory,
        PathFault::Syntax { .. } | PathFault::NameTooLong | PathFault::TooDeep => unreachable!(),
    }
}
