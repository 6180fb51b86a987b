// A line of a trace that is none of the requests.
ghost use Rattle.std.specs.Prelude.{◌≡◌, Some};
ghost use Rattle.script.specs.Scripts.{unread};
ghost use Rattle.script.specs.Texts.{expected_text, fault_text};

use std::fmt;

// What a line was to be.
#[derive(Clone, Copy, Debug, PartialEq)]
pub enum Expected {
    // The first line, which chooses a flat file.
    Setup,
    // The first line, where it may choose a ring too.
    AnySetup,
    // Any other line.
    Request,
}

#[derive(Clone, Copy, Debug, PartialEq)]
pub struct LineFault {
    // Lines count from 1.
    pub line: u64,
    pub expected: Expected,
}

impl LineFault {
    // The line is none of the forms expected there.
    pub fn new(line: u64, expected: Expected) -> Self
        ensures names_the_line { Some result ≡ unread line expected }
    {
        Self { line, expected }
    }
}

impl fmt::Display for Expected {
    ghost output = { λ e. Some (expected_text e) };

    fn fmt<W: fmt::Write>(&self, f: &mut fmt::Formatter<W>) -> fmt::Result {
        let forms = match self {
            Expected::Setup => "flat N, with N from 1 to 256",
            Expected::AnySetup =>
                "flat CAP, ring N fixed S F flat CAP or ring N adaptive flat CAP, each number from 0 to 4294967295",
            Expected::Request =>
                "save, restore, read R, write R V, depth or spare, with R and V from 0 to 4294967295",
        };
        write!(f, "{forms}")
    }
}

impl fmt::Display for LineFault {
    ghost output = { λ e. Some (fault_text e) };

    fn fmt<W: fmt::Write>(&self, f: &mut fmt::Formatter<W>) -> fmt::Result {
        let LineFault { line, expected } = *self;
        write!(f, "line {line}: expected {expected}")
    }
}
