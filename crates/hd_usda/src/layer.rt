//! The reader of layers.

ghost use Rattle.std.specs.Prelude.{◌≡◌, Ok, IfOk, IfErr, IsTrue};
ghost use Rattle.hd_usda.specs.reading.Cursor.{Gives, Fails};
ghost use Rattle.hd_usda.specs.Layer.{valid_text, ends_header, after_header, reads};
ghost use Rattle.hd_layer.specs.WellFormed.{is_layer, has_kinds};

use crate::grammar::prims::layer;
use crate::reading::cursor::Cursor;
use hd_layer::{LayerFault, LayerSpec, LayerWhy};
use hd_lexer::{is_space, line_over};
use std::alloc::Global;

/// Are the bytes UTF-8?
#[tactic(auto, unfolding(crate::specs::Layer::valid_text))]
fn valid_text(bytes: &[u8]) -> Result<&[u8], LayerFault>
    ensures { Gives (λ text. text.now) result (valid_text bytes.now) }
{
    match str::from_utf8(bytes) {
        Ok(_) => Ok(bytes),
        Err(error) => Err(LayerFault::At {
            line: line_over(1, &bytes[..error.valid_up_to()]),
            why: LayerWhy::NotUtf8,
        }),
    }
}

fn ends_header(bytes: &[u8]) -> bool
    ensures { result ≡ ends_header bytes.now }
{
    match bytes {
        [] => true,
        [b, ..] => is_space(*b),
    }
}

/// What is after the header of a text.
#[tactic(auto, unfolding(crate::specs::Layer::after_header))]
fn after_header(bytes: &[u8]) -> Result<&[u8], LayerFault>
    ensures { Gives (λ text. text.now) result (after_header bytes.now) }
{
    if bytes.starts_with(b"#usda 1.0".as_slice()) && ends_header(&bytes[9..]) {
        Ok(&bytes[9..])
    } else {
        Err(LayerFault::At {
            line: 1,
            why: LayerWhy::Header,
        })
    }
}

/// The layer that the bytes spell.
///
/// It is well formed: its at most 65,536 paths ascend, each path but those of root prims has its parent, and each
/// prim has used properties alone, each once, whose values have their form and are within their bounds. The type of
/// each prim is none, or an identifier within the limit.
///
/// # Errors
///
/// `At` with the first fault of the text, `NoMemory` where memory ran out.
#[tactic(auto, unfolding(crate::specs::Layer::reads))]
pub fn read_layer(alloc: Global, bytes: &[u8]) -> Result<LayerSpec, LayerFault>
    ensures layer { IfOk result (λ layer. reads bytes.now ≡ Ok layer) }
    ensures well_formed { IfOk result (λ layer. IsTrue (is_layer layer)) }
    ensures kinds { IfOk result (λ layer. IsTrue (has_kinds layer)) }
    ensures fault { IfErr result (λ fault. Fails fault (reads bytes.now)) }
{
    let body = after_header(valid_text(bytes)?)?;
    layer(alloc, &mut Cursor::new(body, 1))
}
