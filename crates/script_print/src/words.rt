ghost use Rattle.std.specs.Prelude.{◌≡◌, ◌++◌, OnOk};
ghost use Rattle.std.specs.Fmt.{signed_decimal};
ghost use Rattle.script_print.specs.Canonical.{comparison_text, product_sign_text, spaced, sum_sign_text};

use crate::memory::Memory;
use itoa::Buffer;
use script_grammar::{Comparison, Name, Number, ProductSign};

pub(crate) fn write_name(name: &Name, text: &mut Vec<u8>) -> Result<(), Memory>
    ensures { OnOk result (text.new.items ≡ text.old.items ++ name.now.bytes) }
{
    text.extend_from_slice(name.bytes.as_slice())?;
    Ok(())
}

pub(crate) fn write_number(number: Number, text: &mut Vec<u8>) -> Result<(), Memory>
    ensures { OnOk result (text.new.items ≡ text.old.items ++ signed_decimal number.value) }
{
    text.extend_from_slice(Buffer::new().format(number.value).as_bytes())?;
    Ok(())
}

// An operator with a space on each side.
pub(crate) fn write_spaced(sign: &[u8], text: &mut Vec<u8>) -> Result<(), Memory>
    ensures { OnOk result (text.new.items ≡ text.old.items ++ spaced sign.now) }
{
    text.push(b' ')?;
    text.extend_from_slice(sign)?;
    text.push(b' ')?;
    Ok(())
}

pub(crate) fn comparison_sign(how: Comparison) -> &'static [u8]
    ensures { result.now ≡ comparison_text how }
{
    match how {
        Comparison::Eq => b"==",
        Comparison::Ne => b"!=",
        Comparison::Lt => b"<",
        Comparison::Le => b"<=",
        Comparison::Gt => b">",
        Comparison::Ge => b">=",
    }
}

pub(crate) fn sum_sign(minus: bool) -> &'static [u8]
    ensures { result.now ≡ sum_sign_text minus }
{
    if minus { b"-" } else { b"+" }
}

pub(crate) fn product_sign(sign: ProductSign) -> &'static [u8]
    ensures { result.now ≡ product_sign_text sign }
{
    match sign {
        ProductSign::Times => b"*",
        ProductSign::Over => b"/",
        ProductSign::Modulo => b"%",
    }
}
