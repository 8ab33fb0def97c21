//! The values that words of a line say.

ghost use Rattle.std.specs.Prelude.{◌≡◌, ◌≤◌, ◌<◌, ◌-◌, ◌/◌, IfSome, Some, None};
ghost use Rattle.run_script.specs.Statements.{device_in, byte_in, number_within, period_in, turn_in, line_in};

use text_lines::number;

/// A decimal number of one to ten digits, from `low` to `top`; `None` if the word is no such
/// number.
#[tactic(auto, using(crate::proofs::Numbers::number_below))]
pub fn number_within(word: &[u8], low: u32, top: u32) -> Option<u32>
    ensures value { result ≡ number_within low top word.now }
    ensures bound { IfSome result (λ n. n ≤ top) }
{
    if word.len() > 10 {
        return None;
    }
    match number(word, u64::from(top)) {
        None => None,
        Some(n) => {
            if n < u64::from(low) {
                None
            } else {
                Some(n as u32)
            }
        }
    }
}

pub(crate) fn turn_in(word: &[u8]) -> Option<u32>
    ensures value { result ≡ turn_in word.now }
    ensures bound { IfSome result (λ turn. turn < 1000000000) }
{
    number_within(word, 0, 999_999_999)
}

#[tactic(auto, using(crate::proofs::Numbers::number_within_bounds))]
pub(crate) fn period_in(word: &[u8]) -> Option<u32>
    ensures value { result ≡ period_in word.now }
    ensures some { IfSome result (λ period. 0 < period) }
    ensures most { IfSome result (λ period. period ≤ 1000000000) }
{
    number_within(word, 1, 1_000_000_000)
}

pub(crate) fn line_in(word: &[u8]) -> Option<u8>
    ensures value { result ≡ line_in word.now }
    ensures bound { IfSome result (λ line. line < 64) }
{
    match number_within(word, 0, 63) {
        None => None,
        Some(line) => Some(line as u8),
    }
}

pub(crate) fn device_in(word: &[u8]) -> Option<u8>
    ensures value { result ≡ device_in word.now }
    ensures bound { IfSome result (λ device. device < 8) }
{
    match number_within(word, 0, 7) {
        None => None,
        Some(device) => Some(device as u8),
    }
}

pub(crate) fn byte_in(word: &[u8]) -> Option<u8>
    ensures { result ≡ byte_in word.now }
{
    match number_within(word, 0, 255) {
        None => None,
        Some(byte) => Some(byte as u8),
    }
}
