ghost use Rattle.std.specs.Prelude.{◌≡◌, ◌++◌, decimal, OnOk, OnErr};
ghost use Rattle.std.specs.Option.{SomeIff};
ghost use Rattle.std.specs.Str.Parse.{digits_value};
ghost use Rattle.vf_base.specs.Decimal.{IsDecimal};

use crate::Memory;
use itoa::Buffer;

/// The number that a text of decimal digits writes. Leading zeros are accepted. It is `None` exactly
/// where the text is empty, a byte is no digit, or the number is above 2^64 - 1.
pub fn read_decimal(text: &[u8]) -> Option<u64>
    ensures { SomeIff result (IsDecimal text.now) (digits_value 10 text.now) }
{
    if text.is_empty() {
        return None;
    }
    let mut number: u64 = 0;
    for byte in text {
        if !byte.is_ascii_digit() {
            return None;
        }
        let digit = u64::from(*byte - b'0');
        let Some(tens) = number.checked_mul(10) else {
            return None;
        };
        let Some(next) = tens.checked_add(digit) else {
            return None;
        };
        number = next;
    }
    Some(number)
}

/// Appends the decimal digits of a number, without leading zeros. Where it is out of memory the target
/// is unchanged.
pub fn write_decimal(n: u64, into: &mut Vec<u8>) -> Result<(), Memory>
    ensures ok { OnOk result (into.new.items ≡ into.old.items ++ decimal n) }
    ensures err { OnErr result (into.new.items ≡ into.old.items) }
{
    let mut buffer = Buffer::new();
    into.extend_from_slice(buffer.format(n).as_bytes())?;
    Ok(())
}

#[cfg(test)]
mod tests {
    use super::*;
    use std::test::Fail;

    #[test]
    fn writes_and_reads(rt: HostRuntime) -> Result<(), Fail> {
        for (n, text) in [
            (0u64, "0"),
            (7, "7"),
            (1_000_000, "1000000"),
            (u64::MAX, "18446744073709551615"),
        ] {
            let mut digits = Vec::from_slice(rt.alloc(), b"n ")?;
            write_decimal(n, &mut digits)?;
            assert_eq!(rt; digits.len(), text.len() + 2);
            assert_eq!(rt; &digits[2..], text.as_bytes());
            assert_eq!(rt; read_decimal(text.as_bytes()), Some(n));
        }
        for text in ["", "+5", "-0", "1 ", "18446744073709551616"] {
            assert_eq!(rt; read_decimal(text.as_bytes()), None, "at {text}");
        }
        assert_eq!(rt; read_decimal(b"0017"), Some(17));
        Ok(())
    }
}
