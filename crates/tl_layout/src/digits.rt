//! Writing the digits of a number.

ghost use Rattle.std.specs.Int.{from_le_bytes, w64};
ghost use Rattle.std.specs.Prelude.{[], length, ◌%◌, ◌+◌, ◌-◌, ◌/◌, ◌<◌, ◌∷◌, ◌≡◌};
ghost use Rattle.tl_layout.specs.FieldTexts.{digits_text, number_text, text_behind};

/// Puts the eight digits of a number into the bytes of a word, the first digit in the lowest byte. It splits the number into
/// two halves, the halves into pairs of digits, and the pairs into digits. Each step splits all parts of the word at once.
#[inline(always)]
fn digits_in_word(number: u32) -> u64
    requires { number < 100000000 }
    ensures { result
        ≡ from_le_bytes w64 (number / 10000000 ∷ number / 1000000 % 10 ∷ number / 100000 % 10 ∷ number / 10000 % 10 ∷ number / 1000 % 10
        ∷ number / 100 % 10 ∷ number / 10 % 10 ∷ number % 10 ∷ []) }
{
    let high = u64::from(number / 10_000);
    let low = u64::from(number % 10_000);
    let halves = low * 0x1_0000_0000 + high;
    // For n below 10,000, `n / 100` is `5_243 * n >> 19`. For n below 100, `n / 10` is `103 * n >> 10`.
    let hundreds = (5_243 * halves >> 19) & 0x7f_0000_007f;
    let pairs = hundreds + (halves - 100 * hundreds) * 0x1_0000;
    let tens = (103 * pairs >> 10) & 0x000f_000f_000f_000f;
    tens + (pairs - 10 * tens) * 0x100
}

/// Writes eight digits, with leading zeros.
#[inline(always)]
#[tactic(auto, unfolding(crate::specs::FieldTexts::digits_text))]
pub fn put_eight_digits(out: &mut [u8], number: u32)
    requires len { length out.old ≡ 8 }
    requires below { number < 100000000 }
    ensures { out.new ≡ digits_text 8 number }
{
    let text = digits_in_word(number) + 0x3030_3030_3030_3030;
    out.copy_from_slice(&text.to_le_bytes());
}

/// Writes a number right justified into eight columns: leading blanks, and only blanks for 0.
#[inline(always)]
#[tactic(auto, unfolding(crate::specs::FieldTexts::number_text))]
pub fn put_eight_columns(out: &mut [u8], number: u32)
    requires len { length out.old ≡ 8 }
    requires below { number < 100000000 }
    ensures { out.new ≡ number_text 8 number }
{
    let digits = digits_in_word(number);
    // Each byte of `sums` is the sum of the digits up to it. If it is 0, the column is blank (0x20). If not, the column has the
    // digit, and its byte is 16 more.
    let sums = digits.wrapping_mul(0x0101_0101_0101_0101);
    let shown = (sums + 0x7f7f_7f7f_7f7f_7f7f) & 0x8080_8080_8080_8080;
    let text = digits + shown / 8 + 0x2020_2020_2020_2020;
    out.copy_from_slice(&text.to_le_bytes());
}

/// Writes a number right justified, with `filler` in each column before its digits.
#[tactic(auto, unfolding(crate::specs::FieldTexts::text_behind))]
pub fn put_behind(out: &mut [u8], filler: u8, number: u64)
    ensures { out.new ≡ text_behind filler (length out.old) number }
{
    let mut left = number;
    let mut i = out.len();
    while i > 0 {
        i -= 1;
        out[i] = if left == 0 {
            filler
        } else {
            b'0' + (left % 10) as u8
        };
        left /= 10;
    }
}
