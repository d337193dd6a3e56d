// BigSize numbers.
use crate::digits;
use words::Hex;

// `b BYTES`: the number, and how many bytes it takes.
pub(crate) fn read(out: &impl Print, text: &[u8]) {
    let mut bytes = [0u8; 16];
    let n = digits::bytes(text, &mut bytes);
    match bigsize::read(&bytes[..n]) {
        Err(r) => words::refused(out, r),
        Ok(number) => {
            let _ = print!(out; "{} in {}", number.value, number.width);
        }
    }
}

// `n NUMBER`: its bytes.
pub(crate) fn write(out: &impl Print, text: &[u8]) {
    let mut bytes = [0u8; 9];
    match bigsize::write(digits::number(text), &mut bytes) {
        Err(r) => words::refused(out, r),
        Ok(width) => {
            let _ = print!(out; "{}", Hex(words::front(&bytes, width)));
        }
    }
}
