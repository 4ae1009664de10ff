//! Opaque fields: text of a fixed width, in bytes that are allowed in a line.

ghost use Rattle.std.specs.Prelude.{List, ℕ, ◌≡◌};
ghost use Rattle.tl_layout.specs.Bytes.{AreAllowed, IsText, blanks_if};

use std::marker::Model;

/// The bytes of an opaque field: `N` bytes, each from 0x20 to 0x7E or from 0xA0 to 0xFF.
#[derive(Clone, Copy, Debug, PartialEq, Eq)]
pub struct Text<const N: usize> {
    bytes: [u8; N],
}

impl<const N: usize> Model for Text<N> {
    ghost Value = { List ℕ };

    ghost view = { λ t. t.bytes };

    ghost invariant = { λ t. IsText N t.bytes };

    ghost inverse = { λ bytes. record { bytes = bytes } };
}

impl<const N: usize> Text<N> {
    /// Makes a field with these bytes.
    pub fn new(bytes: [u8; N]) -> Text<N>
        requires { AreAllowed bytes }
        ensures { result ≡ bytes.entry }
    {
        Text { bytes }
    }

    /// Makes a field with these bytes. There must be exactly `N` of them.
    #[inline(always)]
    pub fn from_slice(bytes: &[u8]) -> Text<N>
        requires { IsText N bytes.now }
        ensures { result ≡ bytes.now }
    {
        let mut field = [b' '; N];
        field.copy_from_slice(bytes);
        Text { bytes: field }
    }

    /// Returns the bytes of the field.
    pub fn bytes(&self) -> [u8; N]
        ensures value { result ≡ self.now }
        ensures text { IsText N result }
    {
        self.bytes
    }

    /// Returns the bytes of the field, by reference.
    #[inline(always)]
    pub fn as_bytes(&self) -> &[u8; N]
        ensures value { result.now ≡ self.now }
        ensures text { IsText N self.now }
    {
        &self.bytes
    }

    /// Replaces each byte with a blank if the field is hidden.
    #[tactic(auto, using(crate::specs::Laws::ByteLaws::blanks_are_text))]
    pub(crate) fn blank_if(&mut self, is_hidden: bool)
        ensures { self.new ≡ blanks_if is_hidden N self.old }
    {
        if is_hidden {
            self.bytes.fill(b' ');
        }
    }

    /// Proves that the field has its width and only bytes that are allowed in a line, which its
    /// type guarantees. Does nothing at run time.
    pub(crate) fn show_fit(&self)
        ensures { IsText N self.now }
    {
        let _ = &self.bytes;
    }
}
