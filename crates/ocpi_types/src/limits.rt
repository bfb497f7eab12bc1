//! Numbers of a limited range.

ghost use Rattle.std.specs.Prelude.{◌≡◌, ◌<◌, ◌≤◌, SomeIff};

use ocpi_text::Whole;
use std::marker::Model;

/// A status code from 1001 to 9999: of a reply without data (OCPI 2.2.1, Transport and format: Status codes).
#[derive(Clone, Copy, PartialEq)]
pub struct RefusalCode {
    code: u64,
}

impl Model for RefusalCode {
    ghost use Rattle.std.specs.Prelude.{ℕ, ◌<◌, ◌≤◌};

    ghost Value = { ℕ };

    ghost view = { λ c. c.code };

    ghost invariant = { λ c. (1000 < c.code) × (c.code ≤ 9999) };

    ghost inverse = { λ n. record { code = n } };
}

/// A status code from 1000, the success, to 9999 (OCPI 2.2.1, Transport and format: Status codes).
#[derive(Clone, Copy, PartialEq)]
pub struct StatusCode {
    code: u64,
}

impl Model for StatusCode {
    ghost use Rattle.std.specs.Prelude.{ℕ, ◌≤◌};

    ghost Value = { ℕ };

    ghost view = { λ c. c.code };

    ghost invariant = { λ c. (1000 ≤ c.code) × (c.code ≤ 9999) };

    ghost inverse = { λ n. record { code = n } };
}

impl StatusCode {
    /// The code, where it is in the range.
    pub fn new(code: u64) -> Option<StatusCode>
        ensures { SomeIff result ((1000 ≤ code) × (code ≤ 9999)) code }
    {
        if 1000 <= code && code <= 9999 {
            Some(StatusCode { code })
        } else {
            None
        }
    }

    /// The code itself.
    pub fn value(self) -> Whole
        ensures value { result ≡ self }
        ensures least { 1000 ≤ self }
        ensures below { self ≤ 9999 }
    {
        Whole::new(self.code).unwrap()
    }
}

impl RefusalCode {
    /// The code, where it is in the range.
    pub fn new(code: u64) -> Option<RefusalCode>
        ensures { SomeIff result ((1000 < code) × (code ≤ 9999)) code }
    {
        if 1000 < code && code <= 9999 {
            Some(RefusalCode { code })
        } else {
            None
        }
    }

    /// The code itself.
    pub fn value(self) -> Whole
        ensures value { result ≡ self }
        ensures above { 1000 < self }
        ensures below { self ≤ 9999 }
    {
        Whole::new(self.code).unwrap()
    }
}
