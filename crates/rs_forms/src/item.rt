//! The bytes of an item: those of its tokens.

ghost use Rattle.std.specs.Prelude.{◌≡◌, IfOk};
ghost use Rattle.inc_wire.specs.Fits.{FitsList};
ghost use Rattle.inc_wire.specs.Forms.{list_form};
ghost use Rattle.inc_wire.specs.Readings.{IsReadAs};
ghost use Rattle.rs_forms.specs.Fits.{FitsToken};
ghost use Rattle.rs_forms.specs.Forms.{item_form, token_form};

use inc_base::{Bytes, List, Memory};
use inc_wire::{
    Cursor, Field, Read, put_all, put_number, put_text, read_whole, take_text, take_u32,
};
use rs_tree::{At, Item, Token};
use std::alloc::Global;

/// The bytes of an item: those of its tokens. `Memory` where there is none for them.
/// (docs/FORMATS.md, "Queries")
pub fn item_bytes(item: &Item) -> Result<Bytes, Memory>
    ensures bytes { IfOk result (λ bytes. bytes ≡ item_form item.now) }
    ensures range { IfOk result (λ bytes. FitsList FitsToken item.now.tokens) }
{
    let mut bytes = Bytes::new(item.tokens.allocator());
    put_all::<TokenForm>(&mut bytes, item.tokens.as_slice())?;
    Ok(bytes)
}

/// The tokens of an item, from its bytes, as `item_bytes` gives them. None exactly where no tokens have
/// these bytes. `Memory` where there is none for the tokens. (docs/FORMATS.md, "Queries")
pub fn read_item(alloc: Global, bytes: &[u8]) -> Result<Option<List<Token>>, Memory>
    ensures { IfOk result (IsReadAs (FitsList FitsToken) (list_form token_form) bytes.now) }
{
    read_whole::<List<TokenForm>>(alloc, bytes)
}

/// The form of a token: its place, in two numbers of four bytes, and its text.
pub struct TokenForm;

impl Read for TokenForm {
    type Value = Token;

    ghost form = { token_form };

    ghost fits = { FitsToken };

    fn take(alloc: Global, from: &mut Cursor) -> Result<Option<Token>, Memory> {
        let Some(line) = take_u32(from) else {
            return Ok(None);
        };
        let Some(column) = take_u32(from) else {
            return Ok(None);
        };
        let Some(text) = take_text(from) else {
            return Ok(None);
        };
        let text = Bytes::of(alloc, text)?;
        Ok(Some(Token {
            at: At { line, column },
            text,
        }))
    }
}

impl Field for TokenForm {
    type Value = Token;

    ghost form = { token_form };

    ghost fits = { FitsToken };

    fn put(token: &Token, to: &mut Bytes) -> Result<(), Memory> {
        put_number(to, 4, u64::from(token.at.line))?;
        put_number(to, 4, u64::from(token.at.column))?;
        put_text(to, token.text.as_slice())
    }
}
