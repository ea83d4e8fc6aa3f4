//! Shared parts of the plain readings: the reply line of a request, and decimal numbers.
use std::alloc::{AllocError, Global};
use std::fmt::Write;

/// Maximum length of a body that is read with its head.
pub const SHORT: usize = 1024;

/// The parts of a request line.
#[derive(Clone, Copy)]
pub struct RequestWords<'a> {
    pub method: &'a str,
    pub target: &'a str,
    pub version: &'a str,
}

impl<'a> RequestWords<'a> {
    /// Formats the reply line of the request with this number, up to but not including its header fields. The line ends
    /// with `count`, the number of header fields, and `length`, the content length, or `-` if there is none.
    pub fn line(
        &self,
        alloc: Global,
        number: usize,
        count: usize,
        length: Option<usize>,
    ) -> Result<String, AllocError> {
        let mut line = String::new(alloc);
        let (method, target, version) = (self.method, self.target, self.version);
        write!(line, "handed {number} {method} {target} {version} {count} ")?;
        match length {
            Some(length) => write!(line, "{length}")?,
            None => line.push('-')?,
        }
        Ok(line)
    }
}

/// Adds a header field to the reply line of a request.
pub fn add_header(line: &mut String, name: &str, value: &str) -> Result<(), AllocError> {
    write!(line, " [{name}: {value}]")?;
    Ok(())
}

/// Parses one or more decimal digits. Returns `None` if the text is anything else, or if the number overflows.
pub fn decimal(digits: &str) -> Option<usize> {
    if digits.is_empty() {
        return None;
    }
    let mut number = 0usize;
    for digit in digits.bytes() {
        if !digit.is_ascii_digit() {
            return None;
        }
        let digit = usize::from(digit - b'0');
        number = number.checked_mul(10)?.checked_add(digit)?;
    }
    Some(number)
}
